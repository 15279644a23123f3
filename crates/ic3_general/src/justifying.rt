//! A guess at a small cube: the latches that justify the values of the target literals, found by one walk backwards over the
//! gates. Nothing is promised of it but that the row is in the cube.

ghost use Rattle.std.specs.Prelude.{◌≡◌, ◌+◌, ◌<◌, length, IfOk, OnOk};
ghost use Rattle.ja_base.specs.Literals.{variable};
ghost use Rattle.ja_base.specs.Clauses.{IsBelow};
ghost use Rattle.aig_model.specs.Netlist.{IsSound};
ghost use Rattle.ic3_general.specs.Dropping.{IsAmongUnmet};

use crate::rows::unmet_literal;
use aig_eval::lit_of;
use aig_model::{AndGate, Design};
use ja_base::{Clause, Lit, Lits, Memory, Row};
use std::alloc::Global;

// The constant and the inputs cost nothing, so a gate that is 0 for one of them needs no other side.
fn mark_inputs(design: &Design, needed: &mut Row)
    requires { length needed.old ≡ design.now.vars + 1 }
    ensures width { length needed.new ≡ length needed.old }
    ensures sound { IsSound design.now }
{
    needed.set(0, true);
    for at in 0..design.inputs() {
        needed.set(design.input(at).var().number(), true);
    }
}

fn mark_target(target: &[Lit], needed: &mut Row)
    requires { IsBelow (length needed.old) target.now }
    ensures { length needed.new ≡ length needed.old }
{
    for lit in target {
        needed.set(lit.var().number(), true);
    }
}

// The sides that a gate which is needed needs: both where it is 1, and where it is 0 one that is 0, if it can be one that is
// needed already.
fn mark_sides(gate: AndGate, vals: &Row, needed: &mut Row)
    requires width { length needed.old ≡ length vals.now }
    requires rhs0 { variable gate.rhs0 < length vals.now }
    requires rhs1 { variable gate.rhs1 < length vals.now }
    ensures { length needed.new ≡ length needed.old }
{
    let first = gate.rhs0.var().number();
    let second = gate.rhs1.var().number();
    if lit_of(vals, gate.rhs0) {
        needed.set(second, true);
        if lit_of(vals, gate.rhs1) {
            needed.set(first, true);
        }
    } else if lit_of(vals, gate.rhs1) || !needed.get(second) {
        needed.set(first, true);
    }
}

fn mark_gates(design: &Design, vals: &Row, needed: &mut Row)
    requires vals { length vals.now ≡ design.now.vars + 1 }
    requires width { length needed.old ≡ design.now.vars + 1 }
    ensures width { length needed.new ≡ length needed.old }
    ensures sound { IsSound design.now }
{
    for at in (0..design.gates()).rev() {
        let gate = design.gate(at);
        if needed.get(gate.lhs.var().number()) {
            mark_sides(gate, vals, needed);
        }
    }
}

fn push_needed(
    design: &Design,
    at: u32,
    vals: &Row,
    needed: &Row,
    lits: &mut Lits,
) -> Result<(), Memory>
    requires sound { IsSound design.now }
    requires at { at < length design.now.latches }
    requires vals { length vals.now ≡ design.now.vars + 1 }
    requires needed { length needed.now ≡ design.now.vars + 1 }
    requires lits { IsAmongUnmet design.now vals.now lits.old }
    ensures { OnOk result (IsAmongUnmet design.now vals.now lits.new) }
{
    let latch = design.latch(at);
    if !needed.get(latch.lit.var().number()) {
        return Ok(());
    }
    lits.push(unmet_literal(latch, vals))?;
    Ok(())
}

/// The clause of the latches that the walk needs.
pub(crate) fn justified(
    alloc: Global,
    design: &Design,
    vals: &Row,
    target: &[Lit],
) -> Result<Clause, Memory>
    requires vals { length vals.now ≡ design.now.vars + 1 }
    requires below { IsBelow (design.now.vars + 1) target.now }
    ensures among { IfOk result (IsAmongUnmet design.now vals.now) }
    ensures sound { IsSound design.now }
{
    let mut needed = Row::zeros(alloc, design.vars() + 1)?;
    mark_inputs(design, &mut needed);
    mark_target(target, &mut needed);
    mark_gates(design, vals, &mut needed);
    let mut lits = Lits::new(alloc);
    for at in 0..design.latches() {
        push_needed(design, at, vals, &needed, &mut lits)?;
    }
    let clause = Clause::from_lits(alloc, lits.as_slice())?;
    Ok(clause)
}
