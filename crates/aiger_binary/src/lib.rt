//! The binary form of AIGER 1.9. Which bytes spell which design stands in `specs/Grammar`, what a delta is in `specs/Delta`, and
//! which refusal comes first in `specs/FirstRefusal`.
#![tactic(auto)]

mod delta;
mod gates;
mod inputs;
mod latches;
mod laws;
mod read;
mod sections;

pub use laws::{design_has_no_refusal, refusals_agree, spells_or_is_refused, text_has_one_design};
pub use read::read_binary;

#[cfg(test)]
mod tests;
