//! Candidates become part of a closed list, by a checker and a solver that stay loaded.

ghost use Rattle.std.specs.Prelude.{◌≡◌, ◌+◌, ◌*◌, ◌^◌, ◌++◌, All, IfOk, OnOk, OnErr, length};
ghost use Rattle.ja_base.specs.ClauseSets.{fresh, joined};
ghost use Rattle.ja_base.specs.Invariants.{IsInductive};
ghost use Rattle.ja_outside.specs.Flags.{IsPolled, IsFoundRaised};
ghost use Rattle.aig_model.specs.Netlist.{circuit};
ghost use Rattle.aig_model.specs.Task.{problem};
ghost use Rattle.sat_plain.specs.Ticks.{IsLater, TicksAtMost};
ghost use Rattle.inv_cert.specs.Proofs.{AreProofs, IsCandidate};
ghost use Rattle.ic3_query.specs.Endings.{IsCharged, OnStopped};
ghost use Rattle.ic3_query.specs.Pairs.{IsPair};

use crate::halt::Halt;
use crate::loaded::{Loaded, add_each, load};
use crate::proving::prove_all;
use aig_model::Task;
use inv_cert::{Closed, StepChecker};
use ja_base::{ClauseList, Memory, Meter, OrMemory};
use ja_outside::Flag;
use ja_project::Coded;
use refute_check::Proofs;
use sat_plain::Sat;
use std::alloc::Global;
use std::marker::Model;

/// A checker and a solver that logs, which hold the design's clauses, the assumptions and a closed list, in one order. They are
/// loaded where they are first needed, and stay loaded: a closed list that begins with the clauses which they hold brings its
/// new ones alone. Where a call ended without an answer they are let go.
#[derive(Drop)]
pub struct Certifier<L: Sat> {
    task: Task,
    loaded: Option<Loaded<L>>,
}

impl<L: Sat> Model for Certifier<L> {
    ghost use Rattle.std.specs.Prelude.{◌≡◌, IfSome};
    ghost use Rattle.aig_model.specs.Task.{VerificationTask};
    ghost use Rattle.ic3_query.specs.Pairs.{IsPair};

    ghost Value = { VerificationTask };

    ghost view = { λ a. a.task };

    ghost invariant = { λ a. IfSome a.loaded (λ pair. pair.checker.task ≡ a.task)
        × IfSome a.loaded
        (λ pair. IsPair pair.checker (L.count pair.solver) (L.added pair.solver)) };
}

/// The list grows by candidates that each have a proof, and that the checker holds behind it.
fn grow(
    alloc: Global,
    coded: &Coded,
    list: &mut Closed,
    checker: &mut StepChecker,
    candidates: ClauseList,
    proofs: Proofs,
) -> Result<(), Memory>
    requires task { problem list.old.task ≡ problem coded.now }
    requires candidates { All (IsCandidate coded.now) candidates }
    requires fresh { fresh list.old.clauses candidates ≡ candidates }
    requires checker { checker.old
        ≡ record { task = coded.now; list = list.old.clauses ++ candidates } }
    requires proofs { AreProofs coded.now list.old.clauses candidates proofs
        (length candidates) }
    ensures closed { OnOk result (list.new
        ≡ record { task = coded.now; clauses = joined list.old.clauses candidates }) }
    ensures err { OnErr result (list.new ≡ list.old) }
    ensures checker { checker.new ≡ checker.old }
{
    let _task = coded.task();
    match list.grow(alloc, coded, checker, candidates, proofs) {
        Ok(()) => Ok(()),
        Err(OrMemory::Memory) => Err(Memory),
        Err(OrMemory::Refused(_)) => unreachable!(),
    }
}

/// The candidates come behind the list that is loaded, each with its proof.
fn close<L: Sat, F: Flag>(
    alloc: Global,
    coded: &Coded,
    pair: &mut Loaded<L>,
    list: &mut Closed,
    candidates: &ClauseList,
    meter: &mut Meter,
    flag: &mut F,
) -> Result<(), Halt>
    requires pair { IsPair pair.old.checker (L.count pair.old.solver) (L.added pair.old.solver) }
    requires loaded { pair.old.checker
        ≡ record { task = coded.now; list = list.old.clauses } }
    requires task { problem list.old.task ≡ problem coded.now }
    requires candidates { All (IsCandidate coded.now) candidates.now }
    requires inductive { IsInductive (circuit coded.now.design) coded.now.expected
        (list.old.clauses ++ candidates.now) }
    ensures pair { OnOk result
        (IsPair pair.new.checker (L.count pair.new.solver) (L.added pair.new.solver)) }
    ensures loaded { OnOk result (pair.new.checker.task ≡ coded.now) }
    ensures closed { OnOk result (list.new
        ≡ record { task = coded.now; clauses = joined list.old.clauses candidates.now }) }
    ensures err { OnErr result (list.new ≡ list.old) }
    ensures charged { IsCharged meter.old meter.new result }
    ensures later { IsLater meter.old meter.new }
    ensures stopped { OnStopped result (IsFoundRaised F.may_rise F.raised flag.old flag.new) }
    ensures flag { IsPolled F.may_rise F.raised flag.old flag.new }
    ensures bounded { TicksAtMost meter.old meter.new
        (length candidates.now * (1 + 3 ^ (coded.now.design.vars + 1))) }
{
    let _task = coded.task();
    let added = list.fresh(alloc, candidates)?;
    add_each(alloc, pair, added.as_slice())?;
    let proofs = prove_all(alloc, coded, list, &added, &mut pair.solver, meter, flag)?;
    grow(alloc, coded, list, &mut pair.checker, added, proofs)?;
    Ok(())
}

impl<L: Sat> Certifier<L> {
    pub fn new(coded: &Coded) -> Result<Certifier<L>, Memory>
        ensures { IfOk result (λ certifier. certifier ≡ coded.now) }
    {
        Ok(Certifier {
            task: coded.task().share()?,
            loaded: None,
        })
    }

    /// The clauses of the list are loaded, so that a later call finds them.
    pub fn learn(&mut self, alloc: Global, coded: &Coded, list: &Closed) -> Result<(), Memory>
        requires coded { self.old ≡ coded.now }
        requires task { problem list.now.task ≡ problem coded.now }
        ensures { self.new ≡ self.old }
    {
        let pair = load(alloc, coded, self.loaded.take(), list)?;
        self.loaded = Some(pair);
        Ok(())
    }

    /// The candidates come behind the list, each with a proof that the checker accepts. Candidates that are inductive with the
    /// list have proofs, so none is refused.
    pub fn certify<F: Flag>(
        &mut self,
        alloc: Global,
        coded: &Coded,
        list: &mut Closed,
        candidates: &ClauseList,
        meter: &mut Meter,
        flag: &mut F,
    ) -> Result<(), Halt>
        requires coded { self.old ≡ coded.now }
        requires task { problem list.old.task ≡ problem coded.now }
        requires candidates { All (IsCandidate coded.now) candidates.now }
        requires inductive { IsInductive (circuit coded.now.design) coded.now.expected
            (list.old.clauses ++ candidates.now) }
        ensures closed { OnOk result (list.new
            ≡ record { task = coded.now; clauses = joined list.old.clauses candidates.now }) }
        ensures err { OnErr result (list.new ≡ list.old) }
        ensures same { self.new ≡ self.old }
        ensures charged { IsCharged meter.old meter.new result }
        ensures later { IsLater meter.old meter.new }
        ensures stopped { OnStopped result
            (IsFoundRaised F.may_rise F.raised flag.old flag.new) }
        ensures flag { IsPolled F.may_rise F.raised flag.old flag.new }
        ensures bounded { TicksAtMost meter.old meter.new
            (length candidates.now * (1 + 3 ^ (coded.now.design.vars + 1))) }
    {
        let mut pair = load(alloc, coded, self.loaded.take(), list)?;
        close(alloc, coded, &mut pair, list, candidates, meter, flag)?;
        self.loaded = Some(pair);
        Ok(())
    }
}
