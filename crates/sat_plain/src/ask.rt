//! A query, from its first unit to the answer.

ghost use Rattle.std.specs.Prelude.{◌≡◌, ◌+◌, ◌≤◌, ◌^◌, All, length, option_copied};
ghost use Rattle.ja_base.specs.Clauses.{IsBelow};
ghost use Rattle.ja_outside.specs.Flags.{IsPolled, IsFoundRaised};
ghost use Rattle.sat_plain.specs.Answer.{clauses_of, ExtraIsBelow, IsAnswer, OnStopped, OnUnsat};
ghost use Rattle.sat_plain.specs.Ticks.{TicksAtMost, SpendsAtLeast, IsLater, IsTicked};
ghost use Rattle.sat_plain.specs.Turns.{IsExtended};

use crate::answer::SatAnswer;
use crate::budget::{Payment, pay};
use crate::search::search;
use crate::start::{Opening, start};
use ja_base::{Clause, Lit, Meter};
use ja_outside::Flag;
use refute_check::Numbered;
use std::alloc::Global;

/// Answers over the list, to which the extra clause and the lines come.
pub(crate) fn ask<F: Flag>(
    alloc: Global,
    vars: u32,
    clauses: &mut Numbered,
    under: &[Lit],
    extra: Option<&Clause>,
    meter: &mut Meter,
    flag: &mut F,
) -> SatAnswer
    requires vars { vars ≤ 2 ^ 31 }
    requires below { All (IsBelow vars) clauses.old.list }
    requires under { IsBelow vars under.now }
    requires extra { ExtraIsBelow vars (option_copied extra) }
    ensures store { IsExtended clauses.old clauses.new }
    ensures answer { IsAnswer vars
        (clauses_of clauses.old.list (option_copied extra.entry)) under.now result }
    ensures ticked { IsTicked meter.old meter.new result }
    ensures lines { OnUnsat result (λ refuted.
        SpendsAtLeast meter.old meter.new (1 + length refuted.lines)) }
    ensures later { IsLater meter.old meter.new }
    ensures bounded { TicksAtMost meter.old meter.new (1 + 3 ^ vars) }
    ensures stopped { OnStopped result
        (IsFoundRaised F.may_rise F.raised flag.old flag.new) }
    ensures flag { IsPolled F.may_rise F.raised flag.old flag.new }
{
    match pay(meter, flag) {
        Payment::Spent => SatAnswer::Spent,
        Payment::Stopped => SatAnswer::Stopped,
        Payment::Paid => match start(alloc, vars, clauses, under, extra) {
            Opening::Ready(query) => search(alloc, clauses, query, meter, flag),
            Opening::Contradicts(refuted) => SatAnswer::Unsat(refuted),
            Opening::Memory => SatAnswer::Memory,
        },
    }
}
