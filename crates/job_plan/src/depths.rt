//! How deep the gates of a design lie.

ghost use Rattle.std.specs.Prelude.{◌≡◌, ◌+◌, ◌<◌, ◌^◌, length, slice_index, IfOk};
ghost use Rattle.ja_base.specs.Literals.{variable};
ghost use Rattle.aig_model.specs.declared.netlist.AndGate.{AndGate};
ghost use Rattle.job_plan.specs.Depths.{AreDepths, above};

use aig_model::{AndGate, Design};
use ja_base::{Lit, Memory};
use std::alloc::Global;

pub(crate) fn depth_of(depths: &[u32], lit: Lit) -> u32
    requires { variable lit < length depths.now }
    ensures { result ≡ slice_index depths.now (variable lit) }
{
    depths[lit.var().number() as usize]
}

fn depth_above(depths: &[u32], gate: &AndGate) -> u32
    requires first { variable gate.now.rhs0 < length depths.now }
    requires second { variable gate.now.rhs1 < length depths.now }
    requires small { above depths.now gate.now < 2 ^ 32 }
    ensures { result ≡ above depths.now gate.now }
{
    let (first, second) = (depth_of(depths, gate.rhs0), depth_of(depths, gate.rhs1));
    first.max(second) + 1
}

/// The gates stand in an order in which right sides come first, so one pass gives each its depth.
pub(crate) fn depths(alloc: Global, design: &Design) -> Result<Vec<u32>, Memory>
    ensures { IfOk result (λ depths. AreDepths design.now depths.items) }
{
    let mut depths = vec![in alloc; 0; design.vars() as usize + 1]?;
    for at in 0..design.gates() {
        let gate = design.gate(at);
        depths[gate.lhs.var().number() as usize] = depth_above(depths.as_slice(), &gate);
    }
    Ok(depths)
}
