//! What can be seen of a clause without a proof: whether it may stand in a closed list, and whether it holds at the start.

ghost use Rattle.std.specs.Prelude.{◌≡◌, ◌+◌, ◌*◌, ◌<◌, false, IfOk};
ghost use Rattle.std.specs.List.{list_any};
ghost use Rattle.ja_base.specs.Literals.{variable};
ghost use Rattle.ja_base.specs.Clauses.{IsBelow, has_literal};
ghost use Rattle.ja_base.specs.Invariants.{latch_value};
ghost use Rattle.ja_base.specs.Runs.{IsInitial};
ghost use Rattle.aig_model.specs.Netlist.{IsSound, circuit, latch_of, reset_bit};
ghost use Rattle.refute_check.specs.Lines.{first_is};
ghost use Rattle.ja_project.specs.Latches.{is_foreign, is_over_latch};
ghost use Rattle.ja_project.specs.Start.{agrees_with_reset, falsifying_bit, falsifying_row, reset_sets, starts};
ghost use Rattle.ja_project.specs.Resets.{IsResetTable, reset_of};

use aig_model::{Latch, Reset, Task};
use ja_base::{Clause, Lit, Memory, Row};
use std::alloc::Global;
use std::marker::Model;

/// The reset of each latch of a task's design, by its variable. Contracts see it as the design.
#[derive(Drop)]
pub struct ResetTable {
    task: Task,
    resets: Vec<Option<Reset>>,
}

impl Model for ResetTable {
    ghost use Rattle.aig_model.specs.Netlist.{Netlist};
    ghost use Rattle.ja_project.specs.Resets.{IsResetTable};

    ghost Value = { Netlist };

    ghost view = { λ a. a.task.design };

    ghost invariant = { λ a. IsResetTable a.task.design a.resets.items };
}

/// The last latch first, so that of two with one variable the first would count.
fn resets(alloc: Global, task: &Task) -> Result<Vec<Option<Reset>>, Memory>
    ensures { IfOk result (λ resets. IsResetTable task.now.design resets.items) }
{
    let design = task.design();
    let mut resets = vec![in alloc; None; design.vars() as usize + 1]?;
    for at in (0..design.latches()).rev() {
        let latch = design.latch(at);
        resets[latch.lit.var().number() as usize] = Some(latch.reset);
    }
    Ok(resets)
}

fn is_first(lit: Lit, lits: &[Lit]) -> bool
    ensures { result ≡ first_is lit lits.now }
{
    match lits {
        [first, ..] => *first == lit,
        [] => false,
    }
}

fn sets(reset: Reset, lit: Lit) -> bool
    ensures { result ≡ reset_sets (reset_bit reset) lit }
{
    match reset {
        Reset::Zero => lit.is_neg(),
        Reset::One => !lit.is_neg(),
        Reset::Free => false,
    }
}

fn has(lits: &[Lit], lit: Lit) -> bool
    ensures { result ≡ has_literal lits.now lit }
{
    lits.contains(&lit)
}

fn falsifying_bit(latch: Latch, clause: &Clause) -> bool
    requires { latch.lit ≡ 2 * variable latch.lit }
    ensures { result ≡ falsifying_bit clause.now (latch_of latch) }
{
    match latch.reset {
        Reset::Zero => false,
        Reset::One => true,
        Reset::Free => !has(clause.lits(), latch.lit),
    }
}

impl ResetTable {
    pub fn new(alloc: Global, task: &Task) -> Result<ResetTable, Memory>
        ensures { IfOk result (λ table. table ≡ task.now.design) }
    {
        let resets = resets(alloc, task)?;
        let task = task.share()?;
        Ok(ResetTable { task, resets })
    }

    fn reset_of(&self, lit: Lit) -> Option<Reset>
        requires { variable lit < self.now.vars + 1 }
        ensures value { result ≡ reset_of self.now.latches (variable lit) }
        ensures sound { IsSound self.now }
    {
        self.resets[lit.var().number() as usize]
    }

    fn is_over_latch(&self, lit: Lit) -> bool
        requires { variable lit < self.now.vars + 1 }
        ensures { result ≡ is_over_latch (circuit self.now) lit }
    {
        self.reset_of(lit).is_some()
    }

    fn agrees(&self, lit: Lit) -> bool
        requires { variable lit < self.now.vars + 1 }
        ensures { result ≡ agrees_with_reset (circuit self.now) lit }
    {
        match self.reset_of(lit) {
            Some(reset) => sets(reset, lit),
            None => false,
        }
    }

    /// The literals ascend, so both signs of a variable would be neighbours.
    pub fn is_foreign(&self, clause: &Clause) -> bool
        requires { IsBelow (self.now.vars + 1) clause.now }
        ensures { result ≡ is_foreign (circuit self.now) clause.now }
    {
        let lits = clause.lits();
        for (at, lit) in lits.iter().enumerate() {
            if !self.is_over_latch(*lit) || is_first(lit.not(), &lits[at + 1..]) {
                return true;
            }
        }
        false
    }

    /// Whether some literal of the clause agrees with a reset.
    pub fn starts(&self, clause: &Clause) -> bool
        requires { IsBelow (self.now.vars + 1) clause.now }
        ensures { result ≡ starts (circuit self.now) clause.now }
    {
        for lit in clause.lits() {
            if self.agrees(*lit) {
                return true;
            }
        }
        false
    }
    /// An initial row in which the clause does not hold.
    pub fn falsifying(&self, alloc: Global, clause: &Clause) -> Result<Row, Memory>
        requires own { is_foreign (circuit self.now) clause.now ≡ false }
        requires begins { starts (circuit self.now) clause.now ≡ false }
        ensures value { IfOk result (λ row. row ≡ falsifying_row (circuit self.now) clause.now) }
        ensures initial { IfOk result (IsInitial (circuit self.now)) }
        ensures outside { IfOk result (λ row.
            list_any (latch_value (circuit self.now).latches row) clause.now ≡ false) }
    {
        let design = self.task.design();
        let mut row = Row::zeros(alloc, design.latches())?;
        for at in 0..design.latches() {
            row.set(at, falsifying_bit(design.latch(at), clause));
        }
        Ok(row)
    }
}
