//! What a query answers.

use ja_base::Row;
use refute_check::Refuted;

/// The answer of a solver to a query.
#[derive(Debug, Drop)]
pub enum SatAnswer {
    /// A row with a bit for each variable that meets the clauses and the literals of the query.
    Sat(Row),
    /// No row meets them: which of the literals are needed for it, and the lines that show it.
    Unsat(Refuted),
    /// The meter's limit is reached.
    Spent,
    /// The flag was found raised.
    Stopped,
    Memory,
}
