//! Whether a line's clause can be judged at all.

ghost use Rattle.std.specs.Prelude.{◌≡◌, ◌&&◌, not, nat_lt};
ghost use Rattle.std.specs.List.Sorted.{IsStrictlyIncreasing};
ghost use Rattle.ja_base.specs.Literals.{variable, negated};
ghost use Rattle.refute_check.specs.Lines.{first_is, is_fit};

use ja_base::Lit;

/// Whether each variable is below `vars` and none has both signs. The literals ascend, so these would be neighbours.
pub(crate) fn fits(vars: u32, lits: &[Lit]) -> bool
    requires { IsStrictlyIncreasing lits.now }
    ensures { result ≡ is_fit vars lits.now }
{
    for (at, lit) in lits.iter().enumerate() {
        if !fits_before(vars, *lit, &lits[at + 1..]) {
            return false;
        }
    }
    true
}

fn fits_before(vars: u32, lit: Lit, later: &[Lit]) -> bool
    ensures { result ≡ (nat_lt (variable lit) vars && not (first_is (negated lit) later.now)) }
{
    if lit.var().number() >= vars {
        return false;
    }
    match later {
        [next, ..] => *next != lit.not(),
        [] => true,
    }
}
