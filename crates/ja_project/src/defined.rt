//! Which variables an input, a latch or a gate defines.

ghost use Rattle.std.specs.Prelude.{◌≡◌, ◌+◌, ℕ, IfOk, length, map};
ghost use Rattle.ja_base.specs.Literals.{bit, variable};
ghost use Rattle.ja_base.specs.Circuit.{is_defined};
ghost use Rattle.aig_model.specs.declared.netlist.Latch as netlist;
ghost use Rattle.aig_model.specs.Netlist.{circuit, gate_var};
ghost use Rattle.ja_project.specs.Coding.{Marks};

use aig_model::Design;
use ja_base::{Memory, Row};
use std::alloc::Global;

fn mark_inputs(design: &Design, defined: &mut Row)
    requires { length defined.old ≡ design.now.vars + 1 }
    ensures { Marks (map variable design.now.inputs) defined.old defined.new }
{
    for at in 0..design.inputs() {
        defined.set(design.input(at).var().number(), true);
    }
}

fn mark_latches(design: &Design, defined: &mut Row)
    requires { length defined.old ≡ design.now.vars + 1 }
    ensures { Marks (map (λ (k : netlist.Latch). variable k.lit) design.now.latches) defined.old
        defined.new }
{
    for at in 0..design.latches() {
        defined.set(design.latch(at).lit.var().number(), true);
    }
}

fn mark_gates(design: &Design, defined: &mut Row)
    requires { length defined.old ≡ design.now.vars + 1 }
    ensures { Marks (map gate_var design.now.gates) defined.old defined.new }
{
    for at in 0..design.gates() {
        defined.set(design.gate(at).lhs.var().number(), true);
    }
}

/// One bit for each variable: whether something defines it.
pub fn defined_vars(alloc: Global, design: &Design) -> Result<Row, Memory>
    ensures width { IfOk result (λ defined. length defined ≡ design.now.vars + 1) }
    ensures marked { IfOk result (λ defined. (u : ℕ)
        → bit defined u ≡ is_defined (circuit design.now) u) }
{
    let mut defined = Row::zeros(alloc, design.vars() + 1)?;
    mark_inputs(design, &mut defined);
    mark_latches(design, &mut defined);
    mark_gates(design, &mut defined);
    Ok(defined)
}
