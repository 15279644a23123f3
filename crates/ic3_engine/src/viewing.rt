//! Whether what is known covers a property, asked before a level is opened.

ghost use Rattle.std.specs.Prelude.{◌≡◌, ◌+◌, ◌<◌, ◌^◌, ◌↔◌, length, IfOk, IsTrue};
ghost use Rattle.ja_base.specs.Invariants.{Covers};
ghost use Rattle.ja_outside.specs.Flags.{IsPolled, IsFoundRaised};
ghost use Rattle.aig_model.specs.Netlist.{circuit};
ghost use Rattle.aig_model.specs.Task.{problem};
ghost use Rattle.sat_plain.specs.Ticks.{IsLater, TicksAtMost};
ghost use Rattle.inv_cert.specs.Queries.{cover_clauses};
ghost use Rattle.ic3_query.specs.Endings.{IsCharged, OnStopped};
ghost use Rattle.ic3_query.specs.Known.{all_of};

use ic3_query::{Halt, Known};
use ja_base::{Meter, Row};
use ja_outside::Flag;
use ja_project::Coded;
use sat_plain::{Probe, Probed};
use std::alloc::Global;

/// One question over the variables of the design alone.
pub(crate) fn is_covered<S: Probe, F: Flag>(
    alloc: Global,
    coded: &Coded,
    prop: u32,
    solver: &mut S,
    known: &Known,
    meter: &mut Meter,
    flag: &mut F,
) -> Result<bool, Halt>
    requires within { prop < length coded.now.design.bads }
    requires task { problem known.now.task ≡ problem coded.now }
    requires count { S.count solver.old ≡ coded.now.design.vars + 1 }
    requires added { S.added solver.old ≡ cover_clauses coded.now (all_of known.now) }
    ensures count { S.count solver.new ≡ S.count solver.old }
    ensures added { S.added solver.new ≡ S.added solver.old }
    ensures answer { IfOk result (λ covered. IsTrue covered
        ↔ Covers (circuit coded.now.design) (all_of known.now) prop) }
    ensures charged { IsCharged meter.old meter.new result }
    ensures later { IsLater meter.old meter.new }
    ensures stopped { OnStopped result (IsFoundRaised F.may_rise F.raised flag.old flag.new) }
    ensures flag { IsPolled F.may_rise F.raised flag.old flag.new }
    ensures bounded { TicksAtMost meter.old meter.new (1 + 3 ^ (coded.now.design.vars + 1)) }
{
    let _task = coded.task();
    let _own = known.own();
    let mut row = Row::zeros(alloc, coded.vars())?;
    let bad = coded.bad(prop);
    match solver.probe(alloc, &[bad], None, None, &mut row, meter, flag) {
        Probed::Open => Ok(false),
        Probed::Closed(_) => Ok(true),
        Probed::Spent => Err(Halt::Spent),
        Probed::Stopped => Err(Halt::Stopped),
        Probed::Memory => Err(Halt::Memory),
    }
}
