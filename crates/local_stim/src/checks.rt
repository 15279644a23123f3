//! What one latch row, or the values of one step, say.

ghost use Rattle.std.specs.Prelude.{◌≡◌, ◌+◌, ◌<◌, ◌↔◌, not, Some, length, IsTrue, MatchOption};
ghost use Rattle.ja_base.specs.Valuation.{IsBad, MeetsConstraints, AssumptionsHold};
ghost use Rattle.ja_base.specs.Runs.{IsInitial};
ghost use Rattle.ja_base.specs.Replay.{IsLeast, BreaksReset};
ghost use Rattle.aig_model.specs.Netlist.{circuit, reset_bit, IsSound};
ghost use Rattle.aig_model.specs.Task.{problem};
ghost use Rattle.local_stim.specs.Steps.{BreaksAssumption};

use aig_eval::lit_of;
use aig_model::{Design, Reset, Task};
use ja_base::Row;

/// The least latch whose reset 0 or 1 the row breaks.
pub(crate) fn first_reset_broken(d: &Design, first: &Row) -> Option<u32>
    requires { length first.now ≡ length d.now.latches }
    ensures latch { MatchOption result
        (IsInitial (circuit d.now) first.now)
        (IsLeast (BreaksReset (circuit d.now) first.now)) }
    ensures sound { IsSound d.now }
{
    for at in 0..d.latches() {
        if breaks_reset(d.latch(at).reset, first.get(at)) {
            return Some(at);
        }
    }
    None
}

fn breaks_reset(reset: Reset, bit: bool) -> bool
    ensures { IsTrue result ↔ (reset_bit reset ≡ Some (not bit)) }
{
    match reset {
        Reset::Zero => bit,
        Reset::One => !bit,
        Reset::Free => false,
    }
}

pub(crate) fn meets_constraints(d: &Design, vals: &Row) -> bool
    requires { length vals.now ≡ d.now.vars + 1 }
    ensures { IsTrue result ↔ MeetsConstraints (circuit d.now) vals.now }
{
    for at in 0..d.constraints() {
        if !lit_of(vals, d.constraint(at)) {
            return false;
        }
    }
    true
}

/// Whether these values break the property.
pub(crate) fn breaks(d: &Design, prop: u32, vals: &Row) -> bool
    requires prop { prop < length d.now.bads }
    requires vals { length vals.now ≡ d.now.vars + 1 }
    ensures { IsTrue result ↔ IsBad (circuit d.now) prop vals.now }
{
    lit_of(vals, d.bad(prop))
}

fn breaks_assumption(task: &Task, prop: u32, vals: &Row) -> bool
    requires prop { prop < length task.now.design.bads }
    requires vals { length vals.now ≡ task.now.design.vars + 1 }
    ensures { IsTrue result ↔ BreaksAssumption (problem task.now) vals.now prop }
{
    task.expect().is_assumed(prop) && breaks(task.design(), prop, vals)
}

/// The least assumed property that these values break.
pub(crate) fn first_assumed_broken(task: &Task, vals: &Row) -> Option<u32>
    requires { length vals.now ≡ task.now.design.vars + 1 }
    ensures { MatchOption result
        (AssumptionsHold (circuit task.now.design) task.now.expected vals.now)
        (IsLeast (BreaksAssumption (problem task.now) vals.now)) }
{
    for prop in 0..task.expect().len() {
        if breaks_assumption(task, prop, vals) {
            return Some(prop);
        }
    }
    None
}
