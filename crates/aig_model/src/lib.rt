//! A design, the verification task over it, and a stimulus, as values that are well formed. What they mean as plain data is
//! in `specs/Netlist` and `specs/Task`; when lists of literals make no design is in `specs/Refusals`.
#![tactic(auto)]

mod build;
mod definitions;
mod design;
mod expect;
pub mod laws;
mod netlist;
mod order;
mod task;

pub use build::BuildRefusal;
pub use design::Design;
pub use expect::Expect;
pub use netlist::{AndGate, AndGates, Latch, Latches, Parts, Reset};
pub use task::{Stimulus, Task};

#[cfg(test)]
mod tests;
