//! Questions of IC3: a solver that serves the levels, what is known for good, and what the search asks of both. When a solver
//! serves the levels stands in `specs/Serving`, what is known in `specs/Known`, what a question answers in `specs/Questions`,
//! and when a checker and a solver hold the same in `specs/Pairs`.
#![tactic(auto)]

mod asked;
mod bad;
mod certifier;
mod cones;
mod guard;
mod halt;
mod known;
mod laws;
mod levels;
mod loaded;
mod loading;
mod opening;
mod proving;
mod query;
mod question;
mod room;
mod seen;
#[cfg(test)]
mod tests;
mod under;

pub use asked::Asked;
pub use bad::ask_bad;
pub use certifier::Certifier;
pub use halt::Halt;
pub use known::Known;
pub use laws::fits_frames;
pub use levels::{extend, import, join, keep, push};
pub use opening::{first_solver, grow, open};
pub use query::{ask, ask_known};
pub use room::Room;
