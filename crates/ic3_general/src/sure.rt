//! The three-valued rule: which literals a cube makes 1 under given inputs, by one pass over the gates.

ghost use Rattle.std.specs.Prelude.{◌≡◌, ◌+◌, ◌*◌, ◌<◌, ◌&&◌, ◌||◌, ℕ, Bool, List, true, false, not, length, slice_set, All, IfOk};
ghost use Rattle.std.specs.List.{list_all};
ghost use Rattle.ja_base.specs.Literals.{bit, variable, negated, value};
ghost use Rattle.ja_base.specs.Clauses.{has_literal};
ghost use Rattle.aig_model.specs.Netlist.{circuit, IsSound};
ghost use Rattle.ja_project.specs.Latches.{is_foreign, is_over_latch};
ghost use Rattle.ic3_general.specs.Lifting.{HasLeaves, IsSureRow};
ghost use Rattle.ic3_general.specs.Dropping.{PutsSure};

use aig_model::{AndGate, Design};
use ja_base::{Clause, Lit, Memory, Row};
use std::alloc::Global;

fn put_variable(vals: &Row, var: u32, sure: &mut Row)
    requires within { var < length vals.now }
    requires width { length sure.old ≡ 2 * length vals.now }
    ensures width { length sure.new ≡ length sure.old }
    ensures put { (l : ℕ) → variable l ≡ var → bit sure.new l ≡ value vals.now l }
    ensures others { (l : ℕ) → variable l < var → bit sure.new l ≡ bit sure.old l }
{
    let _width = sure.len();
    let bit = vals.get(var);
    sure.set(2 * var, bit);
    sure.set(2 * var + 1, !bit);
}

fn put_values(vals: &Row, sure: &mut Row)
    requires { length sure.old ≡ 2 * length vals.now }
    ensures width { length sure.new ≡ length sure.old }
    ensures put { (l : ℕ) → variable l < length vals.now → bit sure.new l ≡ value vals.now l }
{
    for var in 0..vals.len() {
        put_variable(vals, var, sure);
    }
}

fn clear_latches(design: &Design, sure: &mut Row)
    requires { length sure.old ≡ 2 * (design.now.vars + 1) }
    ensures width { length sure.new ≡ length sure.old }
    ensures cleared { (l : ℕ) → bit sure.new l
        ≡ (bit sure.old l && not (is_over_latch (circuit design.now) l)) }
    ensures sound { IsSound design.now }
{
    for at in 0..design.latches() {
        let lit = design.latch(at).lit;
        sure.set(lit.number(), false);
        sure.set(lit.not().number(), false);
    }
}

fn mark_negated(lits: &[Lit], sure: &mut Row)
    requires { All (λ l. 2 * variable l + 1 < length sure.old) lits.now }
    ensures width { length sure.new ≡ length sure.old }
    ensures marked { (l : ℕ) → bit sure.new l
        ≡ (bit sure.old l || has_literal lits.now (negated l)) }
{
    for lit in lits {
        sure.set(lit.not().number(), true);
    }
}

// Both sides stand for earlier gates, so their bits are there.
fn put_gate(gate: AndGate, sure: &mut Row)
    requires lhs { 2 * variable gate.lhs + 1 < length sure.old }
    requires rhs0 { 2 * variable gate.rhs0 + 1 < length sure.old }
    requires rhs1 { 2 * variable gate.rhs1 + 1 < length sure.old }
    ensures { sure.new ≡ slice_set
        (slice_set sure.old gate.lhs (bit sure.old gate.rhs0 && bit sure.old gate.rhs1))
        (negated gate.lhs)
        (bit sure.old (negated gate.rhs0) || bit sure.old (negated gate.rhs1)) }
{
    let both = sure.get(gate.rhs0.number()) & sure.get(gate.rhs1.number());
    let either = sure.get(gate.rhs0.not().number()) | sure.get(gate.rhs1.not().number());
    sure.set(gate.lhs.number(), both);
    sure.set(gate.lhs.not().number(), either);
}

fn put_gates(design: &Design, sure: &mut Row)
    requires { length sure.old ≡ 2 * (design.now.vars + 1) }
    ensures gates { PutsSure design.now.gates (length design.now.gates) sure.old sure.new }
    ensures sound { IsSound design.now }
{
    for at in 0..design.gates() {
        put_gate(design.gate(at), sure);
    }
}

/// Works out the bits of the gates, where all others are there.
pub(crate) fn settle(design: &Design, sure: &mut Row)
    requires { length sure.old ≡ 2 * (design.now.vars + 1) }
    ensures width { length sure.new ≡ length sure.old }
    ensures sure { (values : List Bool) (clause : List ℕ)
        → HasLeaves (circuit design.now) values clause sure.old
        → IsSureRow (circuit design.now) values clause sure.new }
    ensures sound { IsSound design.now }
{
    put_gates(design, sure);
}

/// Writes for each literal whether it is surely 1 in the cube that the clause excludes, under the input bits of `vals`.
pub fn sure_into(design: &Design, vals: &Row, clause: &Clause, sure: &mut Row)
    requires vals { length vals.now ≡ design.now.vars + 1 }
    requires own { is_foreign (circuit design.now) clause.now ≡ false }
    requires sure { length sure.old ≡ 2 * (design.now.vars + 1) }
    ensures { IsSureRow (circuit design.now) vals.now clause.now sure.new }
{
    put_values(vals, sure);
    clear_latches(design, sure);
    mark_negated(clause.lits(), sure);
    settle(design, sure);
}

/// Whether each target literal is surely 1.
pub(crate) fn are_sure(sure: &Row, target: &[Lit]) -> bool
    requires { All (λ l. l < length sure.now) target.now }
    ensures { result ≡ list_all (bit sure.now) target.now }
{
    target.iter().all(|lit| sure.get(lit.number()))
}

/// A row with a bit for each literal.
pub(crate) fn literal_row(alloc: Global, design: &Design) -> Result<Row, Memory>
    ensures { IfOk result (λ row. length row ≡ 2 * (design.now.vars + 1)) }
{
    match (design.vars() + 1).checked_mul(2) {
        Some(len) => Row::zeros(alloc, len),
        None => Err(Memory),
    }
}
