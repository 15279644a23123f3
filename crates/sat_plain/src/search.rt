//! The search under the literals that are assumed.

ghost use Rattle.std.specs.Prelude.{◌≡◌, ◌^◌, [], take};
ghost use Rattle.ja_outside.specs.Flags.{IsPolled, IsFoundRaised};
ghost use Rattle.sat_plain.specs.Answer.{OnStopped};
ghost use Rattle.sat_plain.specs.Ticks.{TicksAtMost, IsLater};
ghost use Rattle.sat_plain.specs.Trails.{lits_of};
ghost use Rattle.sat_plain.specs.Turns.{IsUnderWay, IsExtended};
ghost use Rattle.sat_plain.specs.Outcomes.{IsFound, IsFoundTicked};

use crate::answer::SatAnswer;
use crate::query::Query;
use crate::turn::{Outcome, turn};
use ja_base::Meter;
use ja_outside::Flag;
use refute_check::{Numbered, Refuted};
use std::alloc::Global;

/// Turns until one of them answers. Each of the others brings the trail further, also where there is no limit; a restart
/// would undo that.
pub(crate) fn search<F: Flag>(
    alloc: Global,
    clauses: &mut Numbered,
    mut query: Query,
    meter: &mut Meter,
    flag: &mut F,
) -> SatAnswer
    requires search { IsUnderWay query clauses.old }
    requires lines { query.lines ≡ [] }
    ensures store { IsExtended clauses.old clauses.new }
    ensures answer { IsFound query.trail.vars clauses.old.list
        (take query.assumed (lits_of query.trail.places)) result }
    ensures ticked { IsFoundTicked meter.old meter.new result }
    ensures later { IsLater meter.old meter.new }
    ensures bounded { TicksAtMost meter.old meter.new (3 ^ query.trail.vars) }
    ensures stopped { OnStopped result
        (IsFoundRaised F.may_rise F.raised flag.old flag.new) }
    ensures flag { IsPolled F.may_rise F.raised flag.old flag.new }
{
    loop {
        match turn(alloc, clauses, &mut query, meter, flag) {
            Outcome::GoesOn => {}
            Outcome::Meets(row) => return SatAnswer::Sat(row),
            Outcome::Refutes(core) => {
                let Query {
                    trail: _,
                    lines,
                    assumed: _,
                } = query;
                return SatAnswer::Unsat(Refuted { core, lines });
            }
            Outcome::Spent => return SatAnswer::Spent,
            Outcome::Stopped => return SatAnswer::Stopped,
            Outcome::Memory => return SatAnswer::Memory,
        }
    }
}
