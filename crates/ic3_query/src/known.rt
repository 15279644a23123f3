//! What is known of a task for good.

ghost use Rattle.std.specs.Prelude.{◌≡◌, ◌+◌, ◌*◌, ◌^◌, [], ◌∷◌, ◌++◌, false, IfOk, OnOk, OnErr, length};
ghost use Rattle.ja_base.specs.ClauseSets.{fresh, joined};
ghost use Rattle.ja_base.specs.Invariants.{IsInductive};
ghost use Rattle.ja_outside.specs.Flags.{IsPolled, IsFoundRaised};
ghost use Rattle.aig_model.specs.Netlist.{circuit};
ghost use Rattle.aig_model.specs.Task.{problem};
ghost use Rattle.sat_plain.specs.Ticks.{IsLater, TicksAtMost};
ghost use Rattle.ja_project.specs.Latches.{is_foreign};
ghost use Rattle.ic3_query.specs.Endings.{IsCharged, OnStopped};
ghost use Rattle.ic3_query.specs.Known.{AreOwn, IsForGood, IsKnown, all_of};

use crate::certifier::Certifier;
use crate::halt::Halt;
use inv_cert::Closed;
use ja_base::{Clause, ClauseList, ClosedSet, Memory, Meter};
use ja_outside::Flag;
use ja_project::Coded;
use sat_plain::Sat;
use std::alloc::Global;
use std::marker::Model;

/// A closed list, and clauses that are inductive with it and have no proof yet. It stays right after each end of a call.
#[derive(Drop)]
pub struct Known {
    list: Closed,
    own: ClauseList,
}

impl Model for Known {
    ghost use Rattle.std.specs.Prelude.{◌++◌};
    ghost use Rattle.aig_model.specs.Task.{problem};
    ghost use Rattle.ic3_query.specs.Known.{IsKnown, KnownList};

    ghost Value = { KnownList };

    ghost view = { λ a. record { task = a.list.task; list = a.list.clauses; own = a.own } };

    ghost invariant = { λ a. IsKnown (problem a.list.task) (a.list.clauses ++ a.own) };
}

impl Known {
    /// The closed list alone.
    pub fn of(alloc: Global, list: Closed) -> Known
        ensures { result ≡ record { task = list.task; list = list.clauses; own = [] } }
    {
        list.is_closed();
        Known {
            list,
            own: ClauseList::new(alloc),
        }
    }

    pub fn list(&self) -> &Closed
        ensures value { result.now ≡ record { task = self.now.task; clauses = self.now.list } }
        ensures known { IsKnown (problem self.now.task) (all_of self.now) }
    {
        &self.list
    }

    /// The clauses that have no proof yet.
    pub fn own(&self) -> &ClauseList
        ensures value { result.now ≡ self.now.own }
        ensures known { IsKnown (problem self.now.task) (all_of self.now) }
    {
        &self.own
    }

    /// One clause more that holds for good.
    pub fn join(&mut self, clause: Clause) -> Result<(), Memory>
        requires own { is_foreign (circuit self.old.task.design) clause ≡ false }
        requires good { IsForGood (circuit self.old.task.design) self.old.task.expected
            (all_of self.old) clause }
        ensures ok { OnOk result (self.new ≡ record {
          task = self.old.task;
          list = self.old.list;
          own = self.old.own ++ clause ∷ [];
        }) }
        ensures err { OnErr result (self.new ≡ self.old) }
    {
        self.own.push(clause)?;
        Ok(())
    }

    /// Several clauses more that are inductive with what is known.
    pub fn extend(&mut self, more: ClauseList) -> Result<(), Memory>
        requires own { AreOwn (circuit self.old.task.design) more }
        requires inductive { IsInductive (circuit self.old.task.design) self.old.task.expected
            (all_of self.old ++ more) }
        ensures ok { OnOk result (self.new ≡ record {
          task = self.old.task;
          list = self.old.list;
          own = self.old.own ++ more;
        }) }
        ensures err { OnErr result (self.new ≡ self.old) }
    {
        self.own.append(more)?;
        Ok(())
    }

    /// The clauses of a closed list of the same task. Tells which of them are new.
    pub fn import(&mut self, alloc: Global, more: &Closed) -> Result<ClauseList, Memory>
        requires { problem more.now.task ≡ problem self.old.task }
        ensures list { OnOk result (self.new.list ≡ joined self.old.list more.now.clauses) }
        ensures fresh { IfOk result (λ added. added ≡ fresh self.old.list more.now.clauses) }
        ensures own { self.new.own ≡ self.old.own }
        ensures task { problem self.new.task ≡ problem self.old.task }
        ensures err { OnErr result (self.new ≡ self.old) }
    {
        more.is_closed();
        let added = self.list.extend(alloc, more)?;
        Ok(added)
    }

    /// The clauses that have no proof yet become part of the closed list, whose task is then that of `coded`. None is refused.
    pub fn close<L: Sat, F: Flag>(
        &mut self,
        alloc: Global,
        coded: &Coded,
        certifier: &mut Certifier<L>,
        meter: &mut Meter,
        flag: &mut F,
    ) -> Result<(), Halt>
        requires task { problem self.old.task ≡ problem coded.now }
        requires certifier { certifier.old ≡ coded.now }
        ensures ok { OnOk result (self.new ≡ record {
          task = coded.now;
          list = joined self.old.list self.old.own;
          own = [];
        }) }
        ensures err { OnErr result (self.new ≡ self.old) }
        ensures certifier { certifier.new ≡ certifier.old }
        ensures charged { IsCharged meter.old meter.new result }
        ensures later { IsLater meter.old meter.new }
        ensures stopped { OnStopped result
            (IsFoundRaised F.may_rise F.raised flag.old flag.new) }
        ensures flag { IsPolled F.may_rise F.raised flag.old flag.new }
        ensures bounded { TicksAtMost meter.old meter.new
            (length self.old.own * (1 + 3 ^ (coded.now.design.vars + 1))) }
    {
        let _task = coded.task();
        certifier.certify(alloc, coded, &mut self.list, &self.own, meter, flag)?;
        self.own = ClauseList::new(alloc);
        Ok(())
    }
}
