//! The cubes that wait to be blocked, the lowest level first. `specs/Lowest` says which comes next.
#![tactic(auto)]

mod obligation;
mod queue;
#[cfg(test)]
mod tests;

pub use obligation::Obligation;
pub use queue::Queue;
