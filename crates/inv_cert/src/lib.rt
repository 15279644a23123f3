//! Closed lists: clauses over latches that are inductive under what their task assumes. What that is stands in `specs/Closed`,
//! over which clauses a proof is checked in `specs/Queries`, which refusal comes first in `specs/Refusals`, and which proofs are
//! taken in `specs/Proofs`; what a checker has that stays loaded, in `specs/Loaded`.
#![tactic(auto)]

mod check;
mod closed;
mod closed_set;
mod join;
#[cfg(test)]
mod join_tests;
mod laws;
mod load;
mod loaded;
mod not_closed;
mod proof;
#[cfg(test)]
mod tests;

pub use closed::Closed;
pub use laws::{
    assumptions_discharge, covered_never_breaks, covered_never_fails, join_is_inductive,
    open_is_not_inductive, proofs_are_taken, reachable_states_meet,
};
pub use loaded::StepChecker;
pub use not_closed::NotClosed;
