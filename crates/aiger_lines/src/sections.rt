//! What the sections of a file say together.

ghost use Rattle.std.specs.Prelude.{◌≡◌, ◌==◌, if◌then◌else◌, IfOk, take};

use ja_base::{Lits, Memory};
use std::alloc::Global;

fn copied(alloc: Global, lits: &Lits) -> Result<Lits, Memory>
    ensures { IfOk result (λ copy. copy ≡ lits.now) }
{
    let mut copy = Lits::new(alloc);
    for lit in lits.as_slice() {
        copy.push(*lit)?;
    }
    Ok(copy)
}

/// The outputs are the properties where no bads are counted.
pub fn properties(alloc: Global, count: u64, bads: Lits, outputs: &Lits) -> Result<Lits, Memory>
    ensures { IfOk result (λ ps. ps ≡ (if count == 0 then outputs.now else bads)) }
{
    if count == 0 {
        copied(alloc, outputs)
    } else {
        Ok(bads)
    }
}
