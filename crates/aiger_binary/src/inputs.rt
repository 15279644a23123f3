ghost use Rattle.std.specs.Prelude.{◌≡◌, ◌^◌, ◌<◌, IfOk};
ghost use Rattle.aiger_binary.specs.Reading.{input_literals};

use ja_base::{Lit, Lits, Memory};
use std::alloc::Global;

/// The literals of so many inputs, which have no lines.
pub fn inputs(alloc: Global, count: u32) -> Result<Lits, Memory>
    requires { count < 2 ^ 30 }
    ensures { IfOk result (λ ls. ls ≡ input_literals count) }
{
    let mut lits = Lits::new(alloc);
    for input in 0..count {
        lits.push(Lit(2 * (1 + input)))?;
    }
    Ok(lits)
}
