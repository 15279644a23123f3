//! A task as clauses over the variables of its design, for solvers, and what can be seen of a clause over latches without one.
//! The list of clauses stands in `specs/CodedClauses`, what it means in `specs/Meaning`; which clauses hold at the start stands
//! in `specs/Start`.
#![tactic(auto)]

mod clauses;
mod coded;
mod defined;
mod held;
mod later;
mod laws;
mod nexts;
mod start;
#[cfg(test)]
mod tests;

pub use coded::Coded;
pub use later::negated_next;
pub use laws::{
    coded_clauses_mean_steps, cut_rows_meet, held_literals_mean_assumptions,
    latch_values_are_values, next_values_are_values, starts_exactly,
};
pub use start::ResetTable;
