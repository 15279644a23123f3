//! What is seen of the values of a step, without a solver. Each test ends at the first fact that fails.

ghost use Rattle.std.specs.Prelude.{◌≡◌, ◌+◌, ◌<◌, ◌≤◌, true, false, length, All};
ghost use Rattle.std.specs.Bool.{OnTrue};
ghost use Rattle.std.specs.List.{list_any};
ghost use Rattle.ja_base.specs.Literals.{AllSatisfiedBy, SatisfiedBy, value, variable};
ghost use Rattle.ja_base.specs.Clauses.{IsBelow};
ghost use Rattle.ja_base.specs.Invariants.{MeetsClauses, latch_value};
ghost use Rattle.ja_base.specs.Runs.{IsInitial};
ghost use Rattle.ja_base.specs.Valuation.{MeetsConstraints, latch_row, next_state};
ghost use Rattle.aig_model.specs.Netlist.{circuit};
ghost use Rattle.aig_model.specs.Task.{problem};
ghost use Rattle.ja_project.specs.Latches.{is_foreign};
ghost use Rattle.ic3_frames.specs.Levels.{IfEntry};
ghost use Rattle.ic3_frames.specs.Soundness.{IsIn, MeetsAt};
ghost use Rattle.ic3_query.specs.Known.{all_of};
ghost use Rattle.ic3_query.specs.Opening.{HasReset};
ghost use Rattle.ic3_query.specs.Questions.{AreOwnLevels, IsBadRow, IsBefore, IsStep};

use crate::known::Known;
use aig_model::{Design, Latch, Reset};
use ic3_frames::Frames;
use inv_cert::Closed;
use ja_base::{Clause, ClosedSet, Lit, Row};
use ja_project::Coded;

fn is_true(vals: &Row, lit: Lit) -> bool
    requires { variable lit < length vals.now }
    ensures { result ≡ value vals.now lit }
{
    vals.get(lit.var().number()) != lit.is_neg()
}

fn are_true(lits: &[Lit], vals: &Row) -> bool
    requires { IsBelow (length vals.now) lits.now }
    ensures { OnTrue result (All (λ l. value vals.now l ≡ true) lits.now) }
{
    for lit in lits {
        if !is_true(vals, *lit) {
            return false;
        }
    }
    true
}

fn meets_constraints(design: &Design, vals: &Row) -> bool
    requires { length vals.now ≡ design.now.vars + 1 }
    ensures { OnTrue result (MeetsConstraints (circuit design.now) vals.now) }
{
    for at in 0..design.constraints() {
        if !is_true(vals, design.constraint(at)) {
            return false;
        }
    }
    true
}

fn meets_all(clauses: &[Clause], vals: &Row) -> bool
    requires { All (IsBelow (length vals.now)) clauses.now }
    ensures { OnTrue result (AllSatisfiedBy (value vals.now) clauses.now) }
{
    for clause in clauses {
        if !clause.holds_in(vals) {
            return false;
        }
    }
    true
}

fn meets_closed(closed: &Closed, vals: &Row) -> bool
    requires { All (IsBelow (length vals.now)) closed.now.clauses }
    ensures { OnTrue result (AllSatisfiedBy (value vals.now) closed.now.clauses) }
{
    for at in 0..closed.len() {
        if !closed.clause(at).holds_in(vals) {
            return false;
        }
    }
    true
}

fn meets_known(coded: &Coded, known: &Known, vals: &Row) -> bool
    requires task { problem known.now.task ≡ problem coded.now }
    requires width { length vals.now ≡ coded.now.design.vars + 1 }
    ensures { OnTrue result (MeetsClauses (circuit coded.now.design)
        (latch_row (circuit coded.now.design) vals.now) (all_of known.now)) }
{
    let _task = coded.task();
    if !meets_closed(known.list(), vals) {
        return false;
    }
    meets_all(known.own().as_slice(), vals)
}

fn has_reset(latch: Latch, vals: &Row) -> bool
    requires { variable latch.lit < length vals.now }
    ensures { OnTrue result (HasReset latch vals.now) }
{
    let bit = vals.get(latch.lit.var().number());
    match latch.reset {
        Reset::Zero => !bit,
        Reset::One => bit,
        Reset::Free => true,
    }
}

fn is_initial(design: &Design, vals: &Row) -> bool
    requires { length vals.now ≡ design.now.vars + 1 }
    ensures { OnTrue result
        (IsInitial (circuit design.now) (latch_row (circuit design.now) vals.now)) }
{
    for at in 0..design.latches() {
        if !has_reset(design.latch(at), vals) {
            return false;
        }
    }
    true
}

/// Whether the clause of this place holds, if it stands at the level.
fn holds_at(frames: &Frames, at: u32, level: u32, vals: &Row) -> bool
    requires within { at < length frames.now.kept }
    requires below { All (λ e. IsBelow (length vals.now) e.clause) frames.now.kept }
    ensures { OnTrue result (IfEntry frames.now.kept at
        (λ e. level ≤ e.level → SatisfiedBy (value vals.now) e.clause)) }
{
    if frames.level(at) < level {
        return true;
    }
    frames.clause(at).holds_in(vals)
}

fn meets_level(coded: &Coded, frames: &Frames, level: u32, vals: &Row) -> bool
    requires levels { AreOwnLevels coded.now.design frames.now.kept }
    requires width { length vals.now ≡ coded.now.design.vars + 1 }
    ensures { OnTrue result (MeetsAt (circuit coded.now.design)
        (latch_row (circuit coded.now.design) vals.now) frames.now.kept level) }
{
    let _task = coded.task();
    for at in 0..frames.len() {
        if !holds_at(frames, at, level, vals) {
            return false;
        }
    }
    true
}

fn is_in(coded: &Coded, frames: &Frames, level: u32, vals: &Row) -> bool
    requires levels { AreOwnLevels coded.now.design frames.now.kept }
    requires width { length vals.now ≡ coded.now.design.vars + 1 }
    ensures { OnTrue result (IsIn (circuit coded.now.design) frames.now.kept level
        (latch_row (circuit coded.now.design) vals.now)) }
{
    if level == 0 {
        is_initial(coded.task().design(), vals)
    } else {
        meets_level(coded, frames, level, vals)
    }
}

fn is_false_later(coded: &Coded, clause: &Clause, vals: &Row) -> bool
    requires own { is_foreign (circuit coded.now.design) clause.now ≡ false }
    requires width { length vals.now ≡ coded.now.design.vars + 1 }
    ensures { OnTrue result (list_any (latch_value (circuit coded.now.design).latches
        (next_state (circuit coded.now.design) vals.now)) clause.now ≡ false) }
{
    for lit in clause.lits() {
        if is_true(vals, coded.next(*lit)) {
            return false;
        }
    }
    true
}

/// Whether these are the values of a step from the level out of the clause.
pub(crate) fn leads_out(
    coded: &Coded,
    frames: &Frames,
    known: &Known,
    level: u32,
    clause: &Clause,
    vals: &Row,
) -> bool
    requires task { problem known.now.task ≡ problem coded.now }
    requires levels { AreOwnLevels coded.now.design frames.now.kept }
    requires own { is_foreign (circuit coded.now.design) clause.now ≡ false }
    requires step { IsStep (circuit coded.now.design) vals.now }
    ensures { OnTrue result
        (IsBefore coded.now (all_of known.now) frames.now level clause.now vals.now) }
{
    if !meets_constraints(coded.task().design(), vals) {
        return false;
    }
    if !is_false_later(coded, clause, vals) {
        return false;
    }
    if !clause.holds_in(vals) {
        return false;
    }
    if !is_in(coded, frames, level, vals) {
        return false;
    }
    if !are_true(coded.held(), vals) {
        return false;
    }
    meets_known(coded, known, vals)
}

/// Whether these are the values of a step from the level that breaks the property.
pub(crate) fn leads_to_bad(
    coded: &Coded,
    prop: u32,
    frames: &Frames,
    known: &Known,
    level: u32,
    vals: &Row,
) -> bool
    requires task { problem known.now.task ≡ problem coded.now }
    requires within { prop < length coded.now.design.bads }
    requires levels { AreOwnLevels coded.now.design frames.now.kept }
    requires step { IsStep (circuit coded.now.design) vals.now }
    ensures { OnTrue result
        (IsBadRow coded.now (all_of known.now) frames.now level prop vals.now) }
{
    if !meets_constraints(coded.task().design(), vals) {
        return false;
    }
    if !is_true(vals, coded.bad(prop)) {
        return false;
    }
    if !is_in(coded, frames, level, vals) {
        return false;
    }
    meets_known(coded, known, vals)
}
