//! Propagation over clauses that come and go: `specs/Stores` says what a caller sees, and `specs/Steps` what a step leaves.
#![tactic(auto)]

mod front;
mod look;
mod pair;
mod propagate;
mod saturate;
mod step;
mod store;
mod sweep;
mod tag;
#[cfg(test)]
mod tests;
mod visit;
mod watch;
mod watch_list;
mod watches;

pub use step::Step;
pub use tag::Tag;
pub use watch::Watch;
