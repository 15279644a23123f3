//! A design that is well formed.

ghost use Rattle.std.specs.Prelude.{◌≡◌, ◌<◌, ◌^◌, length, slice_get, Some};
ghost use Rattle.aig_model.specs.Netlist.{IsSound, IsKnown, definitions};

use crate::netlist::{AndGate, AndGates, Latch, Latches};
use ja_base::{Lit, Lits};
use std::marker::Model;

/// Each literal is in range, each variable is defined at most once, each that is used is defined, and the gates stand in an
/// order in which right sides are defined first.
#[derive(Debug, Drop)]
pub struct Design {
    pub(crate) vars: u32,
    pub(crate) inputs: Lits,
    pub(crate) latches: Latches,
    pub(crate) gates: AndGates,
    pub(crate) bads: Lits,
    pub(crate) constraints: Lits,
}

impl Model for Design {
    ghost use Rattle.aig_model.specs.Netlist.{Netlist, IsSound};

    ghost Value = { Netlist };

    ghost view = { λ d. record {
      vars = d.vars;
      inputs = d.inputs;
      latches = d.latches;
      gates = d.gates;
      bads = d.bads;
      constraints = d.constraints;
    } };

    ghost invariant = { λ d. IsSound (record {
      vars = d.vars;
      inputs = d.inputs;
      latches = d.latches;
      gates = d.gates;
      bads = d.bads;
      constraints = d.constraints;
    }) };
}

impl Design {
    /// The greatest variable, M.
    pub fn vars(&self) -> u32
        ensures value { result ≡ self.now.vars }
        ensures sound { IsSound self.now }
    {
        self.vars
    }

    pub fn inputs(&self) -> u32
        ensures value { result ≡ length self.now.inputs }
        ensures sound { IsSound self.now }
    {
        self.inputs.len()
    }

    pub fn latches(&self) -> u32
        ensures value { result ≡ length self.now.latches }
        ensures sound { IsSound self.now }
    {
        self.latches.len()
    }

    pub fn gates(&self) -> u32
        ensures value { result ≡ length self.now.gates }
        ensures sound { IsSound self.now }
    {
        self.gates.len()
    }

    /// How many properties there are.
    pub fn props(&self) -> u32
        ensures { result ≡ length self.now.bads }
    {
        self.bads.len()
    }

    pub fn constraints(&self) -> u32
        ensures { result ≡ length self.now.constraints }
    {
        self.constraints.len()
    }

    pub fn input(&self, at: u32) -> Lit
        requires { at < length self.now.inputs }
        ensures { slice_get self.now.inputs at ≡ Some result }
    {
        *self.inputs.get(at)
    }

    pub fn latch(&self, at: u32) -> Latch
        requires { at < length self.now.latches }
        ensures { slice_get self.now.latches at ≡ Some result }
    {
        *self.latches.get(at)
    }

    pub fn gate(&self, at: u32) -> AndGate
        requires { at < length self.now.gates }
        ensures { slice_get self.now.gates at ≡ Some result }
    {
        *self.gates.get(at)
    }

    /// The property's bad literal.
    pub fn bad(&self, prop: u32) -> Lit
        requires { prop < length self.now.bads }
        ensures value { slice_get self.now.bads prop ≡ Some result }
        ensures known { IsKnown self.now.vars (definitions self.now) result }
    {
        *self.bads.get(prop)
    }

    pub fn constraint(&self, at: u32) -> Lit
        requires { at < length self.now.constraints }
        ensures value { slice_get self.now.constraints at ≡ Some result }
        ensures known { IsKnown self.now.vars (definitions self.now) result }
    {
        *self.constraints.get(at)
    }
}
