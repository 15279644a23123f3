//! The ASCII form of AIGER 1.9. Which bytes spell which design stands in `specs/Grammar`, and which refusal comes first in
//! `specs/FirstRefusal`.
#![tactic(auto)]

mod define;
mod gates;
mod inputs;
mod latches;
mod laws;
mod read;
mod sections;

pub use laws::{design_has_no_refusal, refusals_agree, spells_or_is_refused, text_has_one_design};
pub use read::read_ascii;

#[cfg(test)]
mod tests;
