//! What a sign-off says of all properties together: the debugging set, whether all are joined,
//! the status, and why first breaks are in the set. The words
//! stand in `specs/Verdicts`, the laws in `specs/FirstBreaks` and in the base's `Laws`.
#![tactic(auto)]

mod joined;
mod laws;
mod set;
mod status;
#[cfg(test)]
mod tests;

pub use joined::is_joined;
pub use laws::{breaks_have_first, first_broken_fails_locally, first_broken_is_named};
pub use set::debugging_set;
pub use status::status_of;
