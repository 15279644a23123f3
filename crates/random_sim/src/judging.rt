//! What the values of one step mean for a run.

ghost use Rattle.std.specs.Prelude.{◌≡◌, ◌+◌, ◌<◌, length, true, false, slice_get, Some, ℕ, IfSome};
ghost use Rattle.std.specs.Bool.{OnTrue};
ghost use Rattle.ja_base.specs.Literals.{bit, value};
ghost use Rattle.random_sim.specs.Seen.{IsJudged, IsBroken};

use aig_eval::lit_of;
use aig_model::{Design, Task};
use ja_base::Row;

/// What comes of a run at a step.
#[derive(Clone, Copy, Debug, PartialEq, Eq)]
pub(crate) enum Judged {
    GoesOn,
    /// A constraint is 0, or an assumed property that is respected is broken.
    Ends,
    /// This property fails here.
    Breaks(u32),
}

/// Whether each constraint is 1.
fn meets_constraints(design: &Design, vals: &Row) -> bool
    requires { length vals.now ≡ design.now.vars + 1 }
    ensures { OnTrue result ((k l : ℕ) → slice_get design.now.constraints k ≡ Some l
        → value vals.now l ≡ true) }
{
    for at in 0..design.constraints() {
        if !lit_of(vals, design.constraint(at)) {
            return false;
        }
    }
    true
}

/// Whether the property is broken by these values.
fn breaks(design: &Design, prop: u32, vals: &Row) -> bool
    requires prop { prop < length design.now.bads }
    requires vals { length vals.now ≡ design.now.vars + 1 }
    ensures { (l : ℕ) → slice_get design.now.bads prop ≡ Some l → result ≡ value vals.now l }
{
    lit_of(vals, design.bad(prop))
}

/// An assumed property that the values break, and one that is not respected, if there is any.
fn assumed_broken(task: &Task, respect: &Row, vals: &Row) -> Option<u32>
    requires vals { length vals.now ≡ task.now.design.vars + 1 }
    requires wide { length respect.now ≡ length task.now.design.bads }
    ensures { IfSome result (IsBroken task.now) }
{
    let mut broken = None;
    for prop in 0..task.expect().len() {
        if task.expect().is_assumed(prop) && breaks(task.design(), prop, vals) {
            broken = Some(prop);
            if !respect.get(prop) {
                return broken;
            }
        }
    }
    broken
}

/// A run goes on as long as the constraints are met and no assumed property is broken, nor the one that is looked at.
pub(crate) fn judge(task: &Task, prop: u32, respect: &Row, vals: &Row) -> Judged
    requires prop { prop < length task.now.design.bads }
    requires vals { length vals.now ≡ task.now.design.vars + 1 }
    requires wide { length respect.now ≡ length task.now.design.bads }
    ensures { IsJudged task.now prop respect.now result }
{
    if !meets_constraints(task.design(), vals) {
        return Judged::Ends;
    }
    if breaks(task.design(), prop, vals) {
        return Judged::Breaks(prop);
    }
    match assumed_broken(task, respect, vals) {
        None => Judged::GoesOn,
        Some(broken) => {
            if respect.get(broken) {
                Judged::Ends
            } else {
                Judged::Breaks(broken)
            }
        }
    }
}
