//! Solvers of clauses. What a query answers stands in `specs/Answer`, a question without a log in `specs/Probed`, and what
//! they tick in `specs/Ticks`; `specs/Derive` says how a line is derived from a conflict, and `specs/Rank` why a search ends.
#![tactic(auto)]

mod analyze;
mod answer;
mod ask;
mod backtrack;
mod budget;
mod derivation;
mod place;
mod plain;
mod plain_probe;
mod probe;
mod propagate;
mod query;
mod sat;
mod search;
mod start;
#[cfg(test)]
mod tests;
mod trail;
mod turn;

pub use answer::SatAnswer;
pub use backtrack::negations;
pub use budget::{Payment, pay};
pub use derivation::Derivation;
pub use place::Place;
pub use plain::PlainSat;
pub use plain_probe::put_front;
pub use probe::{Probe, Probed};
pub use sat::Sat;
pub use trail::Trail;
