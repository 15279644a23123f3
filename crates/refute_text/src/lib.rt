//! The text of refutation lines, written and read. What it is stands in `specs/RefutationText`.
#![tactic(auto)]

mod laws;
mod line;
mod numbers;
mod read;
#[cfg(test)]
mod tests;
mod write;

pub use laws::{bad_places_agree, text_has_no_bad_line, text_has_one_list};
pub use read::read_lines;
pub use write::lines_text;
