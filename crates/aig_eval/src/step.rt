//! One step of a design: the value of each variable, and the latch row that follows.

ghost use Rattle.std.specs.Prelude.{◌≡◌, ◌+◌, ◌<◌, false, length, replicate};
ghost use Rattle.ja_base.specs.Literals.{value, variable};
ghost use Rattle.ja_base.specs.Valuation.{IsValuation, next_state};
ghost use Rattle.aig_model.specs.Netlist.{circuit, IsSound};
ghost use Rattle.aig_eval.specs.Rows.{input_vars, latch_vars, IsClear, Puts, PutsGates};

use aig_model::Design;
use ja_base::{Lit, Row};

/// What the literal is where variables have these values.
pub fn lit_of(vals: &Row, lit: Lit) -> bool
    requires { variable lit < length vals.now }
    ensures { result ≡ value vals.now lit }
{
    let bit = vals.get(lit.var().number());
    if lit.is_neg() { !bit } else { bit }
}

/// Writes the value of each variable under a latch row and an input row. What `vals` held before does not matter.
pub fn step_into(d: &Design, latches: &Row, inputs: &Row, vals: &mut Row)
    requires latches { length latches.now ≡ length d.now.latches }
    requires inputs { length inputs.now ≡ length d.now.inputs }
    requires vals { length vals.old ≡ d.now.vars + 1 }
    ensures { IsValuation (circuit d.now) latches.now inputs.now vals.new }
{
    clear(vals);
    evaluate(d, latches, inputs, vals);
}

/// Writes the latch row one step later.
pub fn next_into(d: &Design, vals: &Row, latches: &mut Row)
    requires vals { length vals.now ≡ d.now.vars + 1 }
    requires latches { length latches.old ≡ length d.now.latches }
    ensures { latches.new ≡ next_state (circuit d.now) vals.now }
{
    for at in 0..d.latches() {
        latches.set(at, lit_of(vals, d.latch(at).next));
    }
}

// A row that is clear needs no pass over all variables: only what something defines is written.
pub(crate) fn evaluate(d: &Design, latches: &Row, inputs: &Row, vals: &mut Row)
    requires latches { length latches.now ≡ length d.now.latches }
    requires inputs { length inputs.now ≡ length d.now.inputs }
    requires vals { IsClear (circuit d.now) vals.old }
    ensures { IsValuation (circuit d.now) latches.now inputs.now vals.new }
{
    put_inputs(d, inputs, vals);
    put_latches(d, latches, vals);
    put_gates(d, vals);
}

fn clear(vals: &mut Row)
    ensures { vals.new ≡ replicate (length vals.old) false }
{
    for at in 0..vals.len() {
        vals.set(at, false);
    }
}

fn put_inputs(d: &Design, inputs: &Row, vals: &mut Row)
    requires inputs { length inputs.now ≡ length d.now.inputs }
    requires vals { length vals.old ≡ d.now.vars + 1 }
    ensures { Puts (input_vars d.now) inputs.now (length d.now.inputs) vals.old vals.new }
{
    for at in 0..d.inputs() {
        vals.set(d.input(at).var().number(), inputs.get(at));
    }
}

fn put_latches(d: &Design, latches: &Row, vals: &mut Row)
    requires latches { length latches.now ≡ length d.now.latches }
    requires vals { length vals.old ≡ d.now.vars + 1 }
    ensures { Puts (latch_vars d.now) latches.now (length d.now.latches) vals.old vals.new }
{
    for at in 0..d.latches() {
        vals.set(d.latch(at).lit.var().number(), latches.get(at));
    }
}

// The gates stand in an order in which right sides come first, so one pass gives each its value.
pub(crate) fn put_gates(d: &Design, vals: &mut Row)
    requires { length vals.old ≡ d.now.vars + 1 }
    ensures gates { PutsGates d.now.gates (length d.now.gates) vals.old vals.new }
    ensures sound { IsSound d.now }
{
    for at in 0..d.gates() {
        let gate = d.gate(at);
        let both = lit_of(vals, gate.rhs0) & lit_of(vals, gate.rhs1);
        vals.set(gate.lhs.var().number(), both);
    }
}
