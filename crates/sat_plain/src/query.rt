//! What a search works on.

use crate::trail::Trail;
use refute_check::Lines;

/// The trail, whose lowest places are the literals that are assumed, and the lines so far.
#[derive(Debug, Drop)]
pub(crate) struct Query {
    pub(crate) trail: Trail,
    pub(crate) lines: Lines,
    pub(crate) assumed: u32,
}
