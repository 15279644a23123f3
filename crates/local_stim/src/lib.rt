//! Stimuli: their text, and the replay of one: whether it is a local failure of a property, or the first reason why not. What
//! the text is stands in `specs/StimulusText`, what a verdict means in `specs/Verdict`.
#![tactic(auto)]

mod checks;
mod earlier;
mod failure;
mod laws;
mod limits;
mod lines;
mod read;
mod refusal;
mod replay;
mod verdict;
mod write;

pub use failure::LocalFailure;
pub use laws::{
    local_is_local_failure, spells_or_is_refused, stimulus_text_is_exact, verdict_exists,
    verdicts_exclude, written_is_spelled,
};
pub use limits::{MOST_BYTES, MOST_ROWS};
pub use read::read_stim;
pub use refusal::StimRefusal;
pub use replay::confirm;
pub use verdict::Confirm;
pub use write::stim_text;

#[cfg(test)]
mod tests;
