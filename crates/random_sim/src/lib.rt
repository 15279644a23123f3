//! Random simulation: runs of a design under random input rows, in search of a failure. What is found was replayed and is one;
//! that nothing is found says nothing. Which failures count stands in `specs/Seen`.
#![tactic(auto)]

mod judging;
mod rows;
mod running;
mod simulation;
#[cfg(test)]
mod tests;

pub use simulation::simulate;
