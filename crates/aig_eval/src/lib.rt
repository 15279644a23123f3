//! Plain evaluation of a design, one step at a time. What a valuation and a run are stands in `ja_base`'s specs `Valuation` and
//! `Runs`; what contracts see of a `Runner` is in `specs/Run`.
#![tactic(auto)]

mod filling;
mod laws;
mod runner;
mod step;

pub use filling::fill;
pub use laws::{valuation_exists, valuation_is_unique, valuations_agree};
pub use runner::Runner;
pub use step::{lit_of, next_into, step_into};
