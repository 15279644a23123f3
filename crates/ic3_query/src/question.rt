//! One question of a solver, as an answer that `?` hands on.

ghost use Rattle.std.specs.Prelude.{◌≡◌, ◌+◌, ◌^◌, IfOk, length, option_copied};
ghost use Rattle.ja_base.specs.Clauses.{IsBelow};
ghost use Rattle.ja_outside.specs.Flags.{IsPolled, IsFoundRaised};
ghost use Rattle.sat_plain.specs.Answer.{ExtraIsBelow, clauses_of};
ghost use Rattle.sat_plain.specs.Ticks.{IsLater, TicksAtMost};
ghost use Rattle.ic3_query.specs.Endings.{IsCharged, OnStopped};
ghost use Rattle.ic3_query.specs.Questions.{IsAnswered};

use crate::halt::Halt;
use ja_base::{Clause, Lit, Lits, Meter, Row, Var};
use ja_outside::Flag;
use sat_plain::{Probe, Probed};
use std::alloc::Global;

/// None where nothing contradicts; else literals that cannot all be 1.
pub(crate) fn question<S: Probe, F: Flag>(
    alloc: Global,
    solver: &mut S,
    under: &[Lit],
    extra: Option<&Clause>,
    among: Option<&[Var]>,
    row: &mut Row,
    meter: &mut Meter,
    flag: &mut F,
) -> Result<Option<Lits>, Halt>
    requires under { IsBelow (S.count solver.old) under.now }
    requires extra { ExtraIsBelow (S.count solver.old) (option_copied extra) }
    ensures count { S.count solver.new ≡ S.count solver.old }
    ensures added { S.added solver.new ≡ S.added solver.old }
    ensures width { length row.new ≡ length row.old }
    ensures answer { IfOk result (IsAnswered (S.count solver.old)
        (clauses_of (S.added solver.old) (option_copied extra.entry)) under.now
        (option_copied among.entry) row.new) }
    ensures charged { IsCharged meter.old meter.new result }
    ensures later { IsLater meter.old meter.new }
    ensures stopped { OnStopped result (IsFoundRaised F.may_rise F.raised flag.old flag.new) }
    ensures flag { IsPolled F.may_rise F.raised flag.old flag.new }
    ensures bounded { TicksAtMost meter.old meter.new (1 + 3 ^ S.count solver.old) }
{
    match solver.probe(alloc, under, extra, among, row, meter, flag) {
        Probed::Open => Ok(None),
        Probed::Closed(core) => Ok(Some(core)),
        Probed::Spent => Err(Halt::Spent),
        Probed::Stopped => Err(Halt::Stopped),
        Probed::Memory => Err(Halt::Memory),
    }
}
