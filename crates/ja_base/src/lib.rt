//! Plain values that every other crate speaks of: literals, lists, rows of bits, want of memory, and what closed lists and shown
//! failures are to those who use them. The product's meaning stands in `specs/`: `Literals`, `Circuit`, `Valuation`, `Runs`,
//! `Replay`, `Invariants`, `Sets`, `Laws`, `Clauses`, `ClauseSets`, `Trails`, `Failures`, `Budget`.
#![tactic(auto)]

mod clause;
mod closed_set;
mod items;
mod literal;
mod memory;
mod meter;
mod row;
mod shown;
#[cfg(test)]
mod tests;

pub use clause::{Clause, ClauseList};
pub use closed_set::ClosedSet;
pub use items::{Items, Lits, Props};
pub use literal::{Lit, Var};
pub use memory::{Memory, OrMemory};
pub use meter::{Meter, Spent, SpentNote};
pub use row::{Row, Rows};
pub use shown::Shown;
