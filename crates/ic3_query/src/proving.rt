//! A proof for each candidate of a closing.

ghost use Rattle.std.specs.Prelude.{◌≡◌, ◌+◌, ◌*◌, ◌^◌, ◌++◌, false, IfOk, length};
ghost use Rattle.ja_base.specs.Clauses.{IsBelow};
ghost use Rattle.ja_base.specs.Invariants.{IsInductive};
ghost use Rattle.ja_outside.specs.Flags.{IsPolled, IsFoundRaised};
ghost use Rattle.aig_model.specs.Netlist.{circuit};
ghost use Rattle.aig_model.specs.Task.{problem};
ghost use Rattle.sat_plain.specs.Ticks.{IsLater, TicksAtMost};
ghost use Rattle.ja_project.specs.CodedClauses.{negated_next};
ghost use Rattle.ja_project.specs.Latches.{is_foreign};
ghost use Rattle.inv_cert.specs.Proofs.{AreProofs};
ghost use Rattle.inv_cert.specs.Queries.{step_clauses};
ghost use Rattle.ic3_query.specs.Endings.{IsCharged, OnStopped};
ghost use Rattle.ic3_query.specs.Known.{AreOwn};
ghost use Rattle.ic3_query.specs.Proving.{IsSolved};

use crate::halt::Halt;
use inv_cert::Closed;
use ja_base::{Clause, ClauseList, Lit, Meter};
use ja_outside::Flag;
use ja_project::{Coded, negated_next};
use refute_check::{Proofs, Refuted};
use sat_plain::{Sat, SatAnswer};
use std::alloc::Global;

/// The proof that the solver finds, or none where it finds a row.
fn solved<S: Sat, F: Flag>(
    alloc: Global,
    solver: &mut S,
    under: &[Lit],
    meter: &mut Meter,
    flag: &mut F,
) -> Result<Option<Refuted>, Halt>
    requires { IsBelow (S.count solver.old) under.now }
    ensures count { S.count solver.new ≡ S.count solver.old }
    ensures added { S.added solver.new ≡ S.added solver.old }
    ensures answer { IfOk result
        (IsSolved (S.count solver.old) (S.added solver.old) under.now) }
    ensures charged { IsCharged meter.old meter.new result }
    ensures later { IsLater meter.old meter.new }
    ensures stopped { OnStopped result (IsFoundRaised F.may_rise F.raised flag.old flag.new) }
    ensures flag { IsPolled F.may_rise F.raised flag.old flag.new }
    ensures bounded { TicksAtMost meter.old meter.new (1 + 3 ^ S.count solver.old) }
{
    match solver.solve(alloc, under, None, meter, flag) {
        SatAnswer::Sat(_) => Ok(None),
        SatAnswer::Unsat(refuted) => Ok(Some(refuted)),
        SatAnswer::Spent => Err(Halt::Spent),
        SatAnswer::Stopped => Err(Halt::Stopped),
        SatAnswer::Memory => Err(Halt::Memory),
    }
}

fn prove<S: Sat, F: Flag>(
    alloc: Global,
    coded: &Coded,
    solver: &mut S,
    clause: &Clause,
    meter: &mut Meter,
    flag: &mut F,
) -> Result<Option<Refuted>, Halt>
    requires wide { S.count solver.old ≡ coded.now.design.vars + 1 }
    requires own { is_foreign (circuit coded.now.design) clause.now ≡ false }
    ensures count { S.count solver.new ≡ S.count solver.old }
    ensures added { S.added solver.new ≡ S.added solver.old }
    ensures answer { IfOk result (IsSolved (coded.now.design.vars + 1) (S.added solver.old)
        (negated_next coded.now.design clause.now)) }
    ensures charged { IsCharged meter.old meter.new result }
    ensures later { IsLater meter.old meter.new }
    ensures stopped { OnStopped result (IsFoundRaised F.may_rise F.raised flag.old flag.new) }
    ensures flag { IsPolled F.may_rise F.raised flag.old flag.new }
    ensures bounded { TicksAtMost meter.old meter.new (1 + 3 ^ (coded.now.design.vars + 1)) }
{
    let under = negated_next(alloc, coded, clause)?;
    solved(alloc, solver, under.as_slice(), meter, flag)
}

/// A proof for each candidate, by a solver with the clauses of the design, the assumptions, the closed list and all candidates.
/// Where these are inductive with the list, none is without a proof.
pub(crate) fn prove_all<S: Sat, F: Flag>(
    alloc: Global,
    coded: &Coded,
    base: &Closed,
    candidates: &ClauseList,
    solver: &mut S,
    meter: &mut Meter,
    flag: &mut F,
) -> Result<Proofs, Halt>
    requires task { problem base.now.task ≡ problem coded.now }
    requires own { AreOwn (circuit coded.now.design) candidates.now }
    requires inductive { IsInductive (circuit coded.now.design) coded.now.expected
        (base.now.clauses ++ candidates.now) }
    requires wide { S.count solver.old ≡ coded.now.design.vars + 1 }
    requires added { S.added solver.old
        ≡ step_clauses coded.now base.now.clauses candidates.now }
    ensures count { S.count solver.new ≡ S.count solver.old }
    ensures added { S.added solver.new ≡ S.added solver.old }
    ensures proofs { IfOk result (λ proofs. AreProofs coded.now base.now.clauses candidates.now
        proofs (length candidates.now)) }
    ensures charged { IsCharged meter.old meter.new result }
    ensures later { IsLater meter.old meter.new }
    ensures stopped { OnStopped result (IsFoundRaised F.may_rise F.raised flag.old flag.new) }
    ensures flag { IsPolled F.may_rise F.raised flag.old flag.new }
    ensures bounded { TicksAtMost meter.old meter.new
        (length candidates.now * (1 + 3 ^ (coded.now.design.vars + 1))) }
{
    let _task = coded.task();
    base.is_closed();
    let mut proofs = Proofs::new(alloc);
    for number in 0..candidates.len() {
        let clause = candidates.get(number);
        match prove(alloc, coded, solver, clause, meter, flag)? {
            Some(proof) => proofs.push(proof)?,
            None => unreachable!(),
        }
    }
    Ok(proofs)
}
