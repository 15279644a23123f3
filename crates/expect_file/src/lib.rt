//! The file of expectations: which properties are expected to hold and which to fail. What its text is stands in
//! `specs/ExpectationsText`.
#![tactic(auto)]

mod found;
mod laws;
mod limits;
mod line;
mod read;
mod refusal;

pub use laws::{expectations_text_is_exact, spells_or_is_refused};
pub use limits::MOST_BYTES;
pub use read::read_expect;
pub use refusal::ExpectRefusal;
