//! The search of a question without a log.

ghost use Rattle.std.specs.Prelude.{◌≡◌, ℕ, ◌*◌, ◌^◌, ◌<◌, ◌≤◌, length, option_copied};
ghost use Rattle.ja_base.specs.Literals.{bit};
ghost use Rattle.ja_base.specs.Clauses.{IsBelow};
ghost use Rattle.ja_outside.specs.Flags.{IsPolled, IsFoundRaised};
ghost use Rattle.sat_plain.specs.Probed.{IsProbed, OnProbeStopped};
ghost use Rattle.sat_plain.specs.Ticks.{TicksAtMost, IsLater};
ghost use Rattle.sat_plain.specs.Trails.{IsAssigned};
ghost use Rattle.sat_watch.specs.Steps.{IsStep};
ghost use Rattle.sat_cdcl.specs.Files.{list_of, IsKept};
ghost use Rattle.sat_cdcl.specs.Turns.{IsUnderWay};
ghost use Rattle.sat_cdcl.specs.Questions.{LearnsOn, IsFoundTicked};

use crate::database::Database;
use crate::decide::Order;
use crate::probe_turn::{Turned, turn};
use crate::question::Question;
use ja_base::{Lit, Meter, Row, Var};
use ja_outside::Flag;
use sat_plain::{Probed, Trail};
use sat_watch::Step;
use std::alloc::Global;

/// Writes the bit of each variable, 0 where it has no value, as far as the row reaches.
fn put_values(trail: &Trail, row: &mut Row)
    ensures width { length row.new ≡ length row.old }
    ensures bits { (u : ℕ) → u < length row.new → u < trail.now.vars
        → bit row.new u ≡ bit trail.now.values (2 * u) }
    ensures is { IsAssigned trail.now }
{
    let values = trail.values();
    for at in 0..row.len().min(trail.vars()) {
        row.set(at, values[2 * at as usize]);
    }
}

/// Turns until one of them answers. Each of the others brings the trail further, also where there is no limit; a restart
/// would undo that.
pub(crate) fn search<F: Flag>(
    alloc: Global,
    db: &mut Database,
    order: &mut Order,
    question: &mut Question,
    under: &[Lit],
    among: Option<&[Var]>,
    mut step: Step,
    row: &mut Row,
    meter: &mut Meter,
    flag: &mut F,
) -> Probed
    requires order { db.old.watched.trail.vars ≤ order.old }
    requires under { IsBelow db.old.watched.trail.vars under.now }
    requires under_way { IsUnderWay under.now db.old question.old.query }
    requires step { IsStep db.old.watched step }
    ensures order { order.new ≡ order.old }
    ensures kept { IsKept db.old db.new }
    ensures learns { LearnsOn db.old question.old db.new question.new }
    ensures width { length row.new ≡ length row.old }
    ensures answer { IsProbed db.new.watched.trail.vars (list_of db.new) under.now
        (option_copied among.entry) row.new result }
    ensures ticked { IsFoundTicked meter.old meter.new result }
    ensures later { IsLater meter.old meter.new }
    ensures bounded { TicksAtMost meter.old meter.new (3 ^ db.old.watched.trail.vars) }
    ensures stopped { OnProbeStopped result
        (IsFoundRaised F.may_rise F.raised flag.old flag.new) }
    ensures flag { IsPolled F.may_rise F.raised flag.old flag.new }
{
    loop {
        match turn(alloc, db, order, question, under, among, step, meter, flag) {
            Turned::GoesOn(next) => step = next,
            Turned::Open => {
                put_values(db.trail(), row);
                return Probed::Open;
            }
            Turned::Closed(core) => return Probed::Closed(core),
            Turned::Spent => return Probed::Spent,
            Turned::Stopped => return Probed::Stopped,
            Turned::Memory => return Probed::Memory,
        }
    }
}
