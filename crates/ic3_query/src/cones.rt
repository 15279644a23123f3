//! Which variables a question depends on within a step.

ghost use Rattle.std.specs.Prelude.{◌≡◌, false};
ghost use Rattle.aig_model.specs.Netlist.{circuit};
ghost use Rattle.ja_project.specs.Latches.{is_foreign};

use aig_model::Design;
use ja_base::{Clause, Lit, Memory, Var};
use ja_project::Coded;
use std::alloc::Global;

/// The right sides of a gate.
#[derive(Clone, Copy, Debug, PartialEq, Eq)]
struct Rights {
    left: Lit,
    right: Lit,
}

/// The variables that a question depends on, listed from its roots down through the gates. They are a hint to the solver: nothing
/// is promised of them. The constraints are roots of each question.
#[derive(Debug, Drop)]
pub(crate) struct Cones {
    /// The right sides of the gate of each variable; the constants where it has none.
    rights: Vec<Rights>,
    /// The round in which each variable was listed last.
    rounds: Vec<u32>,
    round: u32,
    vars: Vec<Var>,
}

impl Cones {
    pub(crate) fn new(alloc: Global, design: &Design) -> Result<Cones, Memory> {
        let width = design.vars() as usize + 1;
        let none = Rights {
            left: Lit(0),
            right: Lit(0),
        };
        let mut rights = vec![in alloc; none; width]?;
        for at in 0..design.gates() {
            let gate = design.gate(at);
            if let Some(place) = rights.get_mut(gate.lhs.var().number() as usize) {
                *place = Rights {
                    left: gate.rhs0,
                    right: gate.rhs1,
                };
            }
        }
        Ok(Cones {
            rights,
            rounds: vec![in alloc; 0; width]?,
            round: 0,
            vars: Vec::with_capacity(alloc, width)?,
        })
    }

    /// The variables listed last.
    pub(crate) fn vars(&self) -> &[Var] {
        self.vars.as_slice()
    }

    /// A new round; where their numbers end, all marks are taken back.
    fn begin(&mut self) {
        self.vars.clear();
        if self.round == u32::MAX {
            self.rounds.fill(0);
            self.round = 0;
        }
        self.round += 1;
    }

    /// Lists the variable, if it was not in this round.
    fn list(&mut self, lit: Lit) -> Result<(), Memory> {
        let var = lit.var();
        let Some(round) = self.rounds.get_mut(var.number() as usize) else {
            return Ok(());
        };
        if *round != self.round {
            *round = self.round;
            self.vars.push(var)?;
        }
        Ok(())
    }

    /// Lists the right sides of the gate of the variable at this place of the list.
    fn list_rights(&mut self, var: Var) -> Result<(), Memory> {
        let Some(rights) = self.rights.get(var.number() as usize) else {
            return Ok(());
        };
        let Rights { left, right } = *rights;
        self.list(left)?;
        self.list(right)
    }

    fn list_constraints(&mut self, design: &Design) -> Result<(), Memory> {
        for at in 0..design.constraints() {
            self.list(design.constraint(at))?;
        }
        Ok(())
    }

    /// Lists what the listed variables depend on. The list is its own queue.
    fn close(&mut self) -> Result<(), Memory> {
        for at in 0..self.rounds.len() {
            let Some(var) = self.vars.get(at) else {
                return Ok(());
            };
            let var = *var;
            self.list_rights(var)?;
        }
        Ok(())
    }

    /// Lists what the literal depends on.
    pub(crate) fn mark(&mut self, coded: &Coded, lit: Lit) -> Result<(), Memory> {
        self.begin();
        self.list_constraints(coded.task().design())?;
        self.list(lit)?;
        self.close()
    }

    /// Lists what the clause depends on one step later.
    pub(crate) fn mark_later(&mut self, coded: &Coded, clause: &Clause) -> Result<(), Memory>
        requires { is_foreign (circuit coded.now.design) clause.now ≡ false }
    {
        self.begin();
        self.list_constraints(coded.task().design())?;
        for lit in clause.lits() {
            self.list(coded.next(*lit))?;
        }
        self.close()
    }
}
