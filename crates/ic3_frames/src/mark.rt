//! Signatures of clauses.

ghost use Rattle.std.specs.Prelude.{◌≡◌, nat_eq, bit_and, true};
ghost use Rattle.ja_base.specs.Clauses.{is_part};
ghost use Rattle.ic3_frames.specs.Marks.{IsMark};

use ja_base::{Clause, Lit};

/// The signature of these literals.
pub(crate) fn mark_of(lits: &[Lit]) -> u64
    ensures { IsMark lits.now result }
{
    let mut mark = 0u64;
    for lit in lits {
        mark |= 1 << (lit.number() % 64);
    }
    mark
}

/// Whether each literal of the part stands in the whole. Most clauses are told apart by their signatures.
pub(crate) fn is_part(part: &Clause, part_mark: u64, whole: &Clause, whole_mark: u64) -> bool
    requires part { IsMark part.now part_mark }
    requires whole { IsMark whole.now whole_mark }
    ensures { result ≡ is_part part.now whole.now }
{
    part_mark & whole_mark == part_mark && part.subsumes(whole)
}
