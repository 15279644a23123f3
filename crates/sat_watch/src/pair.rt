//! What watches a clause.

use ja_base::Lit;

/// The two literals by which a clause is watched.
#[derive(Clone, Copy, Debug, PartialEq, Eq)]
pub(crate) struct Pair {
    pub(crate) one: Lit,
    pub(crate) two: Lit,
}
