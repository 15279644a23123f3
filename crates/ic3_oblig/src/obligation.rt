//! What waits.

use ja_base::{Clause, Rows};

/// A cube that is to be blocked at a level: the clause that excludes it, and the input rows that lead from it to a failure.
#[derive(Debug, Drop)]
pub struct Obligation {
    pub level: u32,
    pub clause: Clause,
    pub chain: Rows,
}
