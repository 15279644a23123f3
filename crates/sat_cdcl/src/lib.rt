//! Solvers that learn from conflicts: one logs its refutations, the other keeps what it learns. `specs/Files` says how clauses
//! are numbered, `specs/Walks` what an analysis finds, `specs/Assumptions` what is known of decisions, `specs/Turns` what a
//! search keeps, and `specs/Questions` what a question without a log learns.
#![tactic(auto)]

mod advance;
mod analyze;
mod assume;
mod backtrack;
mod conclude;
mod database;
mod decide;
mod keep_probe;
mod keep_sat;
mod learn_sat;
mod log;
mod minimize;
mod probe_search;
mod probe_turn;
mod query;
mod question;
mod search;
#[cfg(test)]
mod tests;
mod turn;

pub use keep_sat::KeepSat;
pub use learn_sat::LearnSat;
