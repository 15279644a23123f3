//! Which variables are defined, and the least one that is defined twice, or used and not defined.

ghost use Rattle.std.specs.Prelude.{◌≡◌, ℕ, ◌+◌, ◌^◌, ◌<◌, ◌∷◌, [], map, length, replicate, false, Some, None, IfOk};
ghost use Rattle.ja_base.specs.Literals.{variable};
ghost use Rattle.aig_model.specs.Netlist.{gate_var};
ghost use Rattle.aig_model.specs.Refusals.{AreInRange, IsUndefined};
ghost use Rattle.aig_model.specs.Least.{IsLeastOf};
ghost use Rattle.aig_model.specs.Definitions.{least_with, AreWithin, Adds, IsTableOf, Checks, rights, nexts};

use crate::netlist::{AndGate, Latch, Parts};
use ja_base::{Lit, Memory, Row, Var};
use std::alloc::Global;

#[derive(Drop)]
pub struct Defined {
    /// One bit for each variable: whether it is defined.
    row: Row,
    /// The least variable that is defined twice.
    twice: Option<Var>,
}

impl Defined {
    fn none(alloc: Global, vars: u32) -> Result<Defined, Memory>
        requires { vars < 2 ^ 31 }
        ensures row { IfOk result (λ none. none.row ≡ replicate (vars + 1) false) }
        ensures twice { IfOk result (λ none. none.twice ≡ None) }
    {
        Ok(Defined {
            row: Row::zeros(alloc, vars + 1)?,
            twice: None,
        })
    }

    /// What the lists define.
    pub fn by(alloc: Global, parts: &Parts) -> Result<Defined, Memory>
        requires { AreInRange parts.now }
        ensures { IfOk result (IsTableOf parts.now) }
    {
        let mut defined = Defined::none(alloc, parts.vars)?;
        defined.add_inputs(parts.inputs.as_slice());
        defined.add_latches(parts.latches.as_slice());
        defined.add_gates(parts.gates.as_slice());
        Ok(defined)
    }

    /// The least variable that is defined twice.
    pub fn twice(&self) -> Option<Var>
        ensures { result ≡ self.now.twice }
    {
        self.twice
    }

    fn add(&mut self, var: Var)
        requires { var < length self.old.row }
        ensures { Adds self.old self.new (var ∷ []) }
    {
        if self.row.get(var.number()) {
            self.twice = Some(lesser(self.twice, var));
        }
        self.row.set(var.number(), true);
    }

    fn add_inputs(&mut self, inputs: &[Lit])
        requires { AreWithin (length self.old.row) inputs.now }
        ensures { Adds self.old self.new (map variable inputs.now) }
    {
        for input in inputs {
            self.add(input.var());
        }
    }

    fn add_latches(&mut self, latches: &[Latch])
        requires { AreWithin (length self.old.row) (map (λ (k : Latch). k.lit) latches.now) }
        ensures { Adds self.old self.new (map (λ (k : Latch). variable k.lit) latches.now) }
    {
        for latch in latches {
            self.add(latch.lit.var());
        }
    }

    fn add_gates(&mut self, gates: &[AndGate])
        requires { AreWithin (length self.old.row) (map (λ (g : AndGate). g.lhs) gates.now) }
        ensures { Adds self.old self.new (map gate_var gates.now) }
    {
        for gate in gates {
            self.add(gate.lhs.var());
        }
    }

    /// The least variable that is used and not defined.
    pub fn first_undefined(&self, parts: &Parts) -> Option<Var>
        requires range { AreInRange parts.now }
        requires table { IsTableOf parts.now self.now }
        ensures { IsLeastOf (IsUndefined parts.now) result }
    {
        let least = self.least_in_latches(None, parts.latches.as_slice());
        let least = self.least_in(least, parts.outputs.as_slice());
        let least = self.least_in(least, parts.bads.as_slice());
        let least = self.least_in(least, parts.constraints.as_slice());
        self.least_in_gates(least, parts.gates.as_slice())
    }

    fn check(&self, least: Option<Var>, lit: Lit) -> Option<Var>
        requires { variable lit < length self.now.row }
        ensures { Checks self.now.row least result (lit ∷ []) }
    {
        let var = lit.var();
        if var.number() == 0 || self.row.get(var.number()) {
            least
        } else {
            Some(lesser(least, var))
        }
    }

    fn least_in(&self, least: Option<Var>, lits: &[Lit]) -> Option<Var>
        requires { AreWithin (length self.now.row) lits.now }
        ensures { Checks self.now.row least result lits.now }
    {
        let mut least = least;
        for lit in lits {
            least = self.check(least, *lit);
        }
        least
    }

    fn least_in_latches(&self, least: Option<Var>, latches: &[Latch]) -> Option<Var>
        requires { AreWithin (length self.now.row) (nexts latches.now) }
        ensures { Checks self.now.row least result (nexts latches.now) }
    {
        let mut least = least;
        for latch in latches {
            least = self.check(least, latch.next);
        }
        least
    }

    fn least_in_gates(&self, least: Option<Var>, gates: &[AndGate]) -> Option<Var>
        requires rhs0 { AreWithin (length self.now.row) (map (λ (g : AndGate). g.rhs0) gates.now) }
        requires rhs1 { AreWithin (length self.now.row) (map (λ (g : AndGate). g.rhs1) gates.now) }
        ensures { Checks self.now.row least result (rights gates.now) }
    {
        let mut least = least;
        for gate in gates {
            least = self.check(least, gate.rhs0);
            least = self.check(least, gate.rhs1);
        }
        least
    }
}

/// The lesser of the two variables.
fn lesser(least: Option<Var>, var: Var) -> Var
    ensures { result ≡ least_with least var }
{
    match least {
        Some(least) if least < var => least,
        _ => var,
    }
}
