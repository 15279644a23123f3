//! A question that is answered without a log.

ghost use Rattle.std.specs.Prelude.{◌≡◌, ◌+◌, ◌^◌, length, option_copied};
ghost use Rattle.ja_base.specs.Clauses.{IsBelow};
ghost use Rattle.ja_outside.specs.Flags.{IsPolled, IsFoundRaised};
ghost use Rattle.sat_plain.specs.Answer.{clauses_of, ExtraIsBelow};
ghost use Rattle.sat_plain.specs.Ticks.{TicksAtMost, IsLater};
ghost use Rattle.sat_plain.specs.Probed.{IsProbed, IsProbeTicked, OnProbeStopped};

use crate::sat::Sat;
use ja_base::{Clause, Lit, Lits, Meter, Row, Var};
use ja_outside::Flag;
use std::alloc::Global;

/// The answer to a question without a log.
#[derive(Debug, Drop)]
pub enum Probed {
    /// Nothing contradicts: the row has what was found.
    Open,
    /// No row meets these of the literals.
    Closed(Lits),
    /// The meter's limit is reached.
    Spent,
    /// The flag was found raised.
    Stopped,
    Memory,
}

/// A solver that also answers without a log. The search asks so, where no one will check the answer.
pub trait Probe: Sat {
    /// Whether some row meets the added clauses, the extra one and the literals of `under`. Where variables are given, it may
    /// decide these alone, and what it finds is to be judged by its row; where none are, the row is the front of one that
    /// meets all. As many bits are written as the row has room for.
    fn probe<F: Flag>(
        &mut self,
        alloc: Global,
        under: &[Lit],
        extra: Option<&Clause>,
        among: Option<&[Var]>,
        row: &mut Row,
        meter: &mut Meter,
        flag: &mut F,
    ) -> Probed
        requires under { IsBelow (Self.count self.old) under.now }
        requires extra { ExtraIsBelow (Self.count self.old) (option_copied extra) }
        ensures count { Self.count self.new ≡ Self.count self.old }
        ensures added { Self.added self.new ≡ Self.added self.old }
        ensures width { length row.new ≡ length row.old }
        ensures answer { IsProbed (Self.count self.old)
            (clauses_of (Self.added self.old) (option_copied extra.entry)) under.now
            (option_copied among.entry) row.new result }
        ensures ticked { IsProbeTicked meter.old meter.new result }
        ensures later { IsLater meter.old meter.new }
        ensures bounded { TicksAtMost meter.old meter.new (1 + 3 ^ Self.count self.old) }
        ensures stopped { OnProbeStopped result
            (IsFoundRaised F.may_rise F.raised flag.old flag.new) }
        ensures flag { IsPolled F.may_rise F.raised flag.old flag.new };
}
