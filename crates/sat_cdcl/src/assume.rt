//! Which assumed literal is decided next.

ghost use Rattle.std.specs.Prelude.{◌≡◌, ℕ, ◌≤◌, ◌<◌, All, Contains, length, take};
ghost use Rattle.ja_base.specs.Clauses.{IsBelow};
ghost use Rattle.sat_plain.specs.Trails.{lits_of};
ghost use Rattle.sat_cdcl.specs.Assumptions.{IsNext};

use ja_base::Lit;
use sat_plain::Trail;

/// What is found among the literals that are assumed.
#[derive(Clone, Copy, Debug)]
pub(crate) enum Next {
    /// All are true.
    True,
    /// This one has no value.
    Open(Lit),
    /// This one is false.
    False(Lit),
}

/// What is found from a cursor on, which goes on to the first that is not true.
pub(crate) fn next_assumed(trail: &Trail, under: &[Lit], cursor: &mut usize) -> Next
    requires under { IsBelow trail.now.vars under.now }
    requires first { All (Contains (lits_of trail.now.places)) (take cursor.old under.now) }
    ensures first { All (Contains (lits_of trail.now.places)) (take cursor.new under.now) }
    ensures next { IsNext trail.now under.now result }
{
    for at in *cursor..under.len() {
        let lit = under[at];
        if !trail.is_true(lit) {
            *cursor = at;
            return if trail.is_true(lit.not()) {
                Next::False(lit)
            } else {
                Next::Open(lit)
            };
        }
    }
    *cursor = under.len();
    Next::True
}
