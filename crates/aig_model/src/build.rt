//! Lists of literals become a design: definitions are looked at once, uses once, and the gates are put in order.

ghost use Rattle.std.specs.Prelude.{◌≡◌, IfOk, OnOk};
ghost use Rattle.ja_base.specs.Answers.{IfRefused};
ghost use Rattle.aig_model.specs.Netlist.{circuit, IsSound};
ghost use Rattle.aig_model.specs.Refusals.{netlist_of, with_gates, AreInRange, MakesDesign, IsRefusal};

use crate::definitions::Defined;
use crate::design::Design;
use crate::netlist::{AndGates, Parts};
use crate::order::ordered_gates;
use ja_base::{OrMemory, Var};
use std::alloc::Global;

/// Why lists of literals make no design.
#[derive(Clone, Copy, Debug, PartialEq, Eq)]
pub enum BuildRefusal {
    /// Two places define the variable.
    Twice(Var),
    /// The variable is used, and nothing defines it.
    Undefined(Var),
    /// A gate's variable from which a cycle of gates can be reached.
    Cycle(Var),
}

impl Design {
    /// The design of these lists. A refusal names the least variable that breaks the first broken rule, in the order of
    /// [`BuildRefusal`].
    pub fn build(alloc: Global, parts: Parts) -> Result<Design, OrMemory<BuildRefusal>>
        requires { AreInRange parts }
        ensures design { IfOk result (λ d. circuit d ≡ circuit (netlist_of parts)) }
        ensures sound { OnOk result (MakesDesign parts) }
        ensures refused { IfRefused result (IsRefusal parts) }
    {
        let defined = Defined::by(alloc, &parts)?;
        if let Some(var) = defined.twice() {
            return Err(OrMemory::Refused(BuildRefusal::Twice(var)));
        }
        if let Some(var) = defined.first_undefined(&parts) {
            return Err(OrMemory::Refused(BuildRefusal::Undefined(var)));
        }
        let given = parts.gates.as_slice();
        match ordered_gates(alloc, parts.vars, given) {
            Ok(gates) => Ok(Design::from_parts(parts, gates)),
            Err(OrMemory::Refused(var)) => Err(OrMemory::Refused(BuildRefusal::Cycle(var))),
            Err(OrMemory::Memory) => Err(OrMemory::Memory),
        }
    }

    /// The lists but the outputs, with these gates.
    fn from_parts(parts: Parts, gates: AndGates) -> Design
        requires { IsSound (with_gates (netlist_of parts) gates) }
        ensures { result ≡ with_gates (netlist_of parts) gates }
    {
        Design {
            vars: parts.vars,
            inputs: parts.inputs,
            latches: parts.latches,
            gates,
            bads: parts.bads,
            constraints: parts.constraints,
        }
    }
}
