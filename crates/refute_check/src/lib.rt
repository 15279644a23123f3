//! The checker of refutations: each line of a log is accepted by unit propagation over the clauses before it, as
//! `specs/Lines.antt` says; `specs/Refuted.antt` says what is shown by it. Solvers share its numbered clauses and its scan.
#![tactic(auto)]

mod checker;
mod covers;
mod fit;
mod found;
mod judge;
mod laws;
mod lines;
mod numbered;
mod propagate;
#[cfg(test)]
mod tests;

pub use checker::{Checker, LineRefused};
pub use found::Found;
pub use laws::{accepted_lines_hold, what_is_covered_is_refuted, what_lines_refute_is_refuted};
pub use lines::{Hints, Line, Lines, Proofs, Refuted};
pub use numbered::Numbered;
pub use propagate::{assume, scan};
