//! Which literals of a learnt clause are left out.

ghost use Rattle.std.specs.Prelude.{length};
ghost use Rattle.refute_check.specs.Spans.{Spans};

use ja_base::{Clause, Lit};
use sat_plain::Derivation;

/// Whether each other literal of the clause that forces this one is marked: to resolve by it then leaves this literal out, and
/// brings no other.
pub(crate) fn is_redundant(derivation: &Derivation, clause: &Clause, lit: Lit) -> bool
    requires { Spans (length derivation.now.marks) clause.now }
{
    for other in clause.lits() {
        if *other != lit && derivation.skips(other.not()) {
            return false;
        }
    }
    true
}
