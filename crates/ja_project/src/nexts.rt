//! What each latch holds one step later, by its variable.

ghost use Rattle.std.specs.Prelude.{◌≡◌, IfOk};
ghost use Rattle.aig_model.specs.Netlist.{IsSound};
ghost use Rattle.ja_project.specs.CodedClauses.{with_sign_of};
ghost use Rattle.ja_project.specs.Coding.{HasNexts};

use aig_model::Design;
use ja_base::{Lit, Memory};
use std::alloc::Global;

pub fn next_table(alloc: Global, design: &Design) -> Result<Vec<Lit>, Memory>
    ensures nexts { IfOk result (λ nexts. HasNexts design.now nexts.items) }
    ensures sound { IsSound design.now }
{
    let mut nexts = vec![in alloc; Lit(0); design.vars() as usize + 1]?;
    for at in 0..design.latches() {
        let latch = design.latch(at);
        nexts[latch.lit.var().number() as usize] = latch.next;
    }
    Ok(nexts)
}

/// The next literal of a latch, or its negation where the literal over the latch is negated.
pub fn with_sign_of(lit: Lit, next: Lit) -> Lit
    ensures { result ≡ with_sign_of lit next }
{
    if lit.is_neg() { next.not() } else { next }
}
