//! A task with its clauses.

ghost use Rattle.std.specs.Prelude.{◌≡◌, ◌+◌, ◌<◌, ◌↔◌, ℕ, Bool, true, List, All, Some, IfOk, length, slice_get};
ghost use Rattle.ja_base.specs.Literals.{value, variable};
ghost use Rattle.ja_base.specs.Clauses.{IsBelow};
ghost use Rattle.ja_base.specs.Invariants.{latch_value};
ghost use Rattle.ja_base.specs.Valuation.{IsBad, next_state};
ghost use Rattle.aig_model.specs.declared.netlist.Latch as netlist;
ghost use Rattle.aig_model.specs.Netlist.{IsSound, circuit};
ghost use Rattle.ja_project.specs.CodedClauses.{coded_clauses, held_literals, next_literal, with_sign_of};
ghost use Rattle.ja_project.specs.Latches.{is_over_latch};
ghost use Rattle.ja_project.specs.Meaning.{CodesSteps, CodesAssumptions};

use crate::clauses::coded_clauses;
use crate::held::held_literals;
use crate::nexts::{next_table, with_sign_of};
use aig_model::Task;
use ja_base::{ClauseList, Lit, Lits, Memory};
use std::alloc::Global;
use std::marker::Model;

/// A task as clauses over the variables of its design. Contracts see it as the task, which determines the rest.
#[derive(Drop)]
pub struct Coded {
    task: Task,
    clauses: ClauseList,
    held: Lits,
    nexts: Vec<Lit>,
}

impl Model for Coded {
    ghost use Rattle.aig_model.specs.Task.{VerificationTask};
    ghost use Rattle.ja_project.specs.Coding.{IsCoding};

    ghost Value = { VerificationTask };

    ghost view = { λ c. c.task };

    ghost invariant = { λ c. IsCoding c.task c.clauses c.held c.nexts.items };
}

impl Coded {
    pub fn new(alloc: Global, task: &Task) -> Result<Coded, Memory>
        ensures { IfOk result (λ coded. coded ≡ task.now) }
    {
        let clauses = coded_clauses(alloc, task.design())?;
        let held = held_literals(alloc, task)?;
        let nexts = next_table(alloc, task.design())?;
        let task = task.share()?;
        Ok(Coded {
            task,
            clauses,
            held,
            nexts,
        })
    }

    pub fn task(&self) -> &Task
        ensures value { result.now ≡ self.now }
        ensures sound { IsSound self.now.design }
        ensures expected { length self.now.expected ≡ length self.now.design.bads }
    {
        &self.task
    }

    /// The number of variables, M + 1.
    pub fn vars(&self) -> u32
        ensures value { result ≡ self.now.design.vars + 1 }
        ensures sound { IsSound self.now.design }
    {
        self.task.design().vars() + 1
    }

    /// In this order: that the constant is 0, three clauses for each gate in the design's order, that each variable which nothing
    /// defines is 0, by ascending variable, and that each constraint is 1, in the file's order.
    pub fn clauses(&self) -> &ClauseList
        ensures list { result.now ≡ coded_clauses self.now.design }
        ensures meaning { CodesSteps self.now.design result.now }
        ensures below { All (IsBelow (self.now.design.vars + 1)) result.now }
    {
        &self.clauses
    }

    /// The negated bad literals of the properties that are expected to hold, by ascending property.
    pub fn held(&self) -> &[Lit]
        ensures list { result.now ≡ held_literals self.now }
        ensures meaning { CodesAssumptions self.now result.now }
        ensures below { IsBelow (self.now.design.vars + 1) result.now }
    {
        self.held.as_slice()
    }

    /// The literal whose value is that of the latch literal one step later.
    pub fn next(&self, lit: Lit) -> Lit
        requires { is_over_latch (circuit self.now.design) lit ≡ true }
        ensures exact { (k : ℕ) (latch : netlist.Latch)
            → slice_get self.now.design.latches k ≡ Some latch
            → variable latch.lit ≡ variable lit → result ≡ with_sign_of lit latch.next }
        ensures value { result ≡ next_literal self.now.design.latches lit }
        ensures meaning { (row : List Bool) → value row result
            ≡ latch_value (circuit self.now.design).latches
            (next_state (circuit self.now.design) row) lit }
        ensures below { variable result < self.now.design.vars + 1 }
    {
        let next = self.nexts[lit.var().number() as usize];
        with_sign_of(lit, next)
    }

    /// The property's bad literal.
    pub fn bad(&self, prop: u32) -> Lit
        requires { prop < length self.now.design.bads }
        ensures exact { slice_get self.now.design.bads prop ≡ Some result }
        ensures meaning { (row : List Bool)
            → (value row result ≡ true) ↔ IsBad (circuit self.now.design) prop row }
        ensures below { variable result < self.now.design.vars + 1 }
    {
        self.task.design().bad(prop)
    }
}
