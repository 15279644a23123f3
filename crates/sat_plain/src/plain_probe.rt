//! The plain solver asks as ever, and forgets the lines.

ghost use Rattle.std.specs.Prelude.{◌≡◌, ℕ, ◌+◌, ◌<◌, ◌≤◌, ◌^◌, length, option_copied, IsTrue};
ghost use Rattle.ja_base.specs.Literals.{bit};
ghost use Rattle.ja_base.specs.Clauses.{IsBelow};
ghost use Rattle.ja_outside.specs.Faults.{Rose};
ghost use Rattle.sat_plain.specs.Answer.{clauses_of, ExtraIsBelow};
ghost use Rattle.sat_plain.specs.Ticks.{TicksAtMost, IsLater};
ghost use Rattle.sat_plain.specs.Probed.{IsProbed, IsProbeTicked, OnProbeStopped};

use crate::answer::SatAnswer;
use crate::plain::PlainSat;
use crate::probe::{Probe, Probed};
use crate::sat::Sat;
use ja_base::{Clause, Lit, Meter, Row, Var};
use ja_outside::Flag;
use refute_check::Refuted;
use std::alloc::Global;

/// Writes the bits of one row over those of another, as far as both reach.
pub fn put_front(from: &Row, to: &mut Row)
    ensures width { length to.new ≡ length to.old }
    ensures front { (u : ℕ) → u < length to.new → u < length from.now
        → bit to.new u ≡ bit from.now u }
{
    for at in 0..from.len().min(to.len()) {
        to.set(at, from.get(at));
    }
}

impl Probe for PlainSat {
    /// It decides all variables, whichever are given.
    fn probe<F: Flag>(
        &mut self,
        alloc: Global,
        under: &[Lit],
        extra: Option<&Clause>,
        _among: Option<&[Var]>,
        row: &mut Row,
        meter: &mut Meter,
        flag: &mut F,
    ) -> Probed {
        match self.solve(alloc, under, extra, meter, flag) {
            SatAnswer::Sat(found) => {
                put_front(&found, row);
                Probed::Open
            }
            SatAnswer::Unsat(refuted) => {
                let Refuted { core, lines: _ } = refuted;
                Probed::Closed(core)
            }
            SatAnswer::Spent => Probed::Spent,
            SatAnswer::Stopped => Probed::Stopped,
            SatAnswer::Memory => Probed::Memory,
        }
    }
}
