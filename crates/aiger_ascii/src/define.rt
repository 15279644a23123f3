//! Literals that a line defines.

ghost use Rattle.std.specs.Prelude.{◌≡◌, ◌^◌, ◌<◌, ◌≤◌, length, IfOk};
ghost use Rattle.ja_base.specs.Literals.{variable};
ghost use Rattle.ja_text.specs.Reading.{Gives};
ghost use Rattle.aiger_ascii.specs.Reading.{new_at, define_at};

use aiger_lines::{Read, ReadRefusal};
use ja_base::{Lit, OrMemory, Row};

/// A literal that a line may define.
pub fn new_literal(vars: u32, at: usize, number: u64) -> Read<Lit>
    requires { vars < 2 ^ 31 }
    ensures read { Gives (λ l. l) result (new_at vars at number) }
    ensures within { IfOk result (λ l. variable l ≤ vars) }
{
    if number % 2 != 0 || number < 2 || number > 2 * u64::from(vars) {
        return Err(OrMemory::Refused(ReadRefusal::Range { at }));
    }
    Ok(Lit(number as u32))
}

/// From now on the literal's variable is defined.
pub fn define(seen: &mut Row, at: usize, lit: Lit) -> Read<()>
    requires { variable lit < length seen.old }
    ensures read { Gives (λ _. seen.new) result (define_at at seen.old lit) }
    ensures sized { length seen.new ≡ length seen.old }
{
    let var = lit.var().number();
    if seen.get(var) {
        return Err(OrMemory::Refused(ReadRefusal::Twice { at }));
    }
    seen.set(var, true);
    Ok(())
}
