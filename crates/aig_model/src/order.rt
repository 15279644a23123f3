//! Gates in an order in which right sides come first: a walk from each gate to its right sides, depth first and without
//! recursion. It is linear in variables and gates, and takes all its room when it begins.

ghost use Rattle.std.specs.Prelude.{◌≡◌, ℕ, ◌+◌, ◌-◌, ◌^◌, ◌<◌, [], true, false, Some, length, slice_get, vec_capacity, IfOk, IfSome, IfNone};
ghost use Rattle.ja_base.specs.Answers.{IfRefused};
ghost use Rattle.ja_base.specs.Replay.{IsLeast};
ghost use Rattle.aig_model.specs.Netlist.{gate_var};
ghost use Rattle.aig_model.specs.Refusals.{ReachesCycle};
ghost use Rattle.aig_model.specs.Least.{IsLeastOf};
ghost use Rattle.aig_model.specs.Order.{AreGates, AreWaiting, IsOrderOf, IsWithin, IsWalk, IsLastGate, AreReady, IsUnready, Enters, Leaves, Ends, Steps, StaysMet, standing_of, is_waiting, is_reached};

use crate::netlist::{AndGate, AndGates};
use ja_base::{Items, Memory, OrMemory, Var};
use std::alloc::Global;

/// What the walk knows of a variable.
#[derive(Clone, Copy, Debug, PartialEq, Eq)]
enum Standing {
    /// No gate defines it, or its gate is in the order.
    Ready,
    /// The gate at this place defines it; the walk has not come to it.
    Waiting(u32),
    /// The gate at this place defines it. It is on the path of the walk, or a cycle can be reached from it.
    Reached(u32),
}

/// The path holds variables of gates, each with a right side over the next.
#[derive(Drop)]
struct Walk {
    /// One for each variable.
    standings: Vec<Standing>,
    path: Vec<Var>,
    order: Vec<AndGate>,
}

/// The gates in an order in which right sides come first, or the least variable of a gate from which a cycle can be reached.
pub fn ordered_gates(alloc: Global, vars: u32, gates: &[AndGate]) -> Result<AndGates, OrMemory<Var>>
    requires small { vars < 2 ^ 31 }
    requires short { length gates.now < 2 ^ 32 }
    requires given { AreGates (vars + 1) gates.now }
    ensures order { IfOk result (IsOrderOf gates.now) }
    ensures refused { IfRefused result (IsLeast (ReachesCycle gates.now)) }
{
    let mut walk = Walk::start(alloc, vars, gates)?;
    for gate in gates {
        walk.visit(gates, gate.lhs.var());
    }
    match walk.first_reached() {
        Some(var) => Err(OrMemory::Refused(var)),
        None => Ok(Items::from_vec(walk.order)),
    }
}

/// Each gate waits.
fn waiting_gates(alloc: Global, vars: u32, gates: &[AndGate]) -> Result<Vec<Standing>, Memory>
    requires small { vars < 2 ^ 31 }
    requires short { length gates.now < 2 ^ 32 }
    requires given { AreGates (vars + 1) gates.now }
    ensures length { IfOk result (λ standings. length standings.items ≡ vars + 1) }
    ensures waiting { IfOk result
        (λ standings. AreWaiting gates.now (length gates.now) standings.items) }
{
    let mut standings = vec![in alloc; Standing::Ready; vars as usize + 1]?;
    for (at, gate) in gates.iter().enumerate() {
        standings[gate.lhs.var().number() as usize] = Standing::Waiting(at as u32);
    }
    Ok(standings)
}

impl Walk {
    fn start(alloc: Global, vars: u32, gates: &[AndGate]) -> Result<Walk, Memory>
        requires small { vars < 2 ^ 31 }
        requires short { length gates.now < 2 ^ 32 }
        requires given { AreGates (vars + 1) gates.now }
        ensures walk { IfOk result (IsWalk gates.now) }
        ensures empty { IfOk result (λ walk. walk.path.items ≡ []) }
        ensures table { IfOk result (λ walk. length walk.standings.items ≡ vars + 1) }
    {
        Ok(Walk {
            standings: waiting_gates(alloc, vars, gates)?,
            path: Vec::with_capacity(alloc, gates.len())?,
            order: Vec::with_capacity(alloc, gates.len())?,
        })
    }

    /// Walks from this variable until the path is empty again.
    fn visit(&mut self, gates: &[AndGate], var: Var)
        requires walk { IsWalk gates.now self.old }
        requires empty { self.old.path.items ≡ [] }
        requires within { var < length self.old.standings.items }
        ensures walk { IsWalk gates.now self.new }
        ensures empty { self.new.path.items ≡ [] }
        ensures met { StaysMet self.old self.new }
        ensures visited { is_waiting (standing_of self.new.standings.items var) ≡ false }
        ensures table { length self.new.standings.items ≡ length self.old.standings.items }
    {
        if let Standing::Waiting(at) = self.standing(var) {
            self.enter(var, at);
            while !self.path.is_empty() {
                self.step(gates);
            }
        }
    }

    /// Where the path's last gate has its right sides ready, it comes into the order. Else the path goes on to a right side.
    fn step(&mut self, gates: &[AndGate])
        requires walk { IsWalk gates.now self.old }
        requires some { 0 < length self.old.path.items }
        ensures { Steps gates.now self.old self.new }
    {
        let gate = self.last_gate(gates);
        match self.unready(&gate) {
            None => self.leave(gate),
            Some(right) => self.go_on(right),
        }
    }

    /// To a variable that waits. Where it was reached before, a cycle can be reached from all of the path, and the path ends.
    fn go_on(&mut self, var: Var)
        requires within { var < length self.old.standings.items }
        requires room { is_waiting (standing_of self.old.standings.items var) ≡ true
            → length self.old.path.items < vec_capacity self.old.path }
        ensures waiting { (at : ℕ)
            → standing_of self.old.standings.items var ≡ Standing.Waiting at
            → Enters self.old self.new var at }
        ensures other { is_waiting (standing_of self.old.standings.items var) ≡ false
            → Ends self.old self.new }
    {
        match self.standing(var) {
            Standing::Waiting(at) => self.enter(var, at),
            _ => self.path.clear(),
        }
    }

    fn standing(&self, var: Var) -> Standing
        requires { var < length self.now.standings.items }
        ensures { result ≡ standing_of self.now.standings.items var }
    {
        self.standings[var.number() as usize]
    }

    /// The variable at the end of the path.
    fn last(&self) -> Var
        requires { 0 < length self.now.path.items }
        ensures { slice_get self.now.path.items (length self.now.path.items - 1) ≡ Some result }
    {
        self.path[self.path.len() - 1]
    }

    /// Its gate.
    fn last_gate(&self, gates: &[AndGate]) -> AndGate
        requires walk { IsWalk gates.now self.now }
        requires some { 0 < length self.now.path.items }
        ensures { IsLastGate gates.now self.now.path.items result }
    {
        match self.standing(self.last()) {
            Standing::Reached(at) => gates[at as usize],
            _ => unreachable!(),
        }
    }

    /// A right side of the gate that is not ready.
    fn unready(&self, gate: &AndGate) -> Option<Var>
        requires { IsWithin (length self.now.standings.items) gate.now }
        ensures none { IfNone result (AreReady self.now.standings.items gate.now) }
        ensures some { IfSome result (IsUnready self.now.standings.items gate.now) }
    {
        if self.standing(gate.rhs0.var()) != Standing::Ready {
            Some(gate.rhs0.var())
        } else if self.standing(gate.rhs1.var()) != Standing::Ready {
            Some(gate.rhs1.var())
        } else {
            None
        }
    }

    /// A variable that waits comes to the end of the path.
    fn enter(&mut self, var: Var, at: u32)
        requires within { var < length self.old.standings.items }
        requires room { length self.old.path.items < vec_capacity self.old.path }
        ensures { Enters self.old self.new var at }
    {
        self.standings[var.number() as usize] = Standing::Reached(at);
        self.path.push_reserved(var);
    }

    /// The path's last gate comes into the order.
    fn leave(&mut self, gate: AndGate)
        requires within { gate_var gate < length self.old.standings.items }
        requires last { slice_get self.old.path.items (length self.old.path.items - 1) ≡ Some (gate_var gate) }
        requires room { length self.old.order.items < vec_capacity self.old.order }
        ensures { Leaves self.old self.new gate }
    {
        self.standings[gate.lhs.var().number() as usize] = Standing::Ready;
        let _ = self.path.pop();
        self.order.push_reserved(gate);
    }

    /// The least variable that was reached and is not ready.
    fn first_reached(&self) -> Option<Var>
        requires { length self.now.standings.items < 2 ^ 32 }
        ensures { IsLeastOf (λ v. is_reached (standing_of self.now.standings.items v) ≡ true)
            result }
    {
        for (var, standing) in self.standings.iter().enumerate() {
            if let Standing::Reached(_) = standing {
                return Some(Var(var as u32));
            }
        }
        None
    }
}
