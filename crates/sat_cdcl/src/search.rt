//! The search under the literals that are assumed.

ghost use Rattle.std.specs.Prelude.{◌≡◌, ◌^◌, [], ◌≤◌};
ghost use Rattle.ja_base.specs.Clauses.{IsBelow};
ghost use Rattle.ja_outside.specs.Flags.{IsPolled, IsFoundRaised};
ghost use Rattle.sat_plain.specs.Answer.{OnStopped};
ghost use Rattle.sat_plain.specs.Ticks.{TicksAtMost, IsLater};
ghost use Rattle.sat_plain.specs.Outcomes.{IsFound, IsFoundTicked};
ghost use Rattle.sat_watch.specs.Steps.{IsStep};
ghost use Rattle.sat_cdcl.specs.Files.{list_of, IsKept};
ghost use Rattle.sat_cdcl.specs.Turns.{IsUnderWay};

use crate::database::Database;
use crate::decide::Order;
use crate::query::Query;
use crate::turn::{Outcome, turn};
use ja_base::{Lit, Meter};
use ja_outside::Flag;
use refute_check::Refuted;
use sat_plain::SatAnswer;
use sat_watch::Step;
use std::alloc::Global;

/// Turns until one of them answers. Each of the others brings the trail further, also where there is no limit; a restart
/// would undo that.
pub(crate) fn search<F: Flag>(
    alloc: Global,
    db: &mut Database,
    order: &mut Order,
    mut query: Query,
    under: &[Lit],
    mut step: Step,
    meter: &mut Meter,
    flag: &mut F,
) -> SatAnswer
    requires order { db.old.watched.trail.vars ≤ order.old }
    requires under { IsBelow db.old.watched.trail.vars under.now }
    requires under_way { IsUnderWay under.now db.old query }
    requires lines { query.lines ≡ [] }
    requires step { IsStep db.old.watched step }
    ensures order { order.new ≡ order.old }
    ensures kept { IsKept db.old db.new }
    ensures answer { IsFound db.old.watched.trail.vars (list_of db.old) under.now result }
    ensures ticked { IsFoundTicked meter.old meter.new result }
    ensures later { IsLater meter.old meter.new }
    ensures bounded { TicksAtMost meter.old meter.new (3 ^ db.old.watched.trail.vars) }
    ensures stopped { OnStopped result
        (IsFoundRaised F.may_rise F.raised flag.old flag.new) }
    ensures flag { IsPolled F.may_rise F.raised flag.old flag.new }
{
    loop {
        match turn(alloc, db, order, &mut query, under, step, meter, flag) {
            Outcome::GoesOn(next) => step = next,
            Outcome::Meets(row) => return SatAnswer::Sat(row),
            Outcome::Refutes(core) => {
                let Query {
                    lines,
                    free: _,
                    cursor: _,
                } = query;
                return SatAnswer::Unsat(Refuted { core, lines });
            }
            Outcome::Spent => return SatAnswer::Spent,
            Outcome::Stopped => return SatAnswer::Stopped,
            Outcome::Memory => return SatAnswer::Memory,
        }
    }
}
