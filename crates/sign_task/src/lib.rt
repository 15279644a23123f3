//! A task signed off by workers, and finished on the calling thread. What its report promises stands in `specs/SignOff`.
#![tactic(auto)]

mod asking;
mod deciding;
mod finishing;
mod halting;
mod marks;
mod opening;
mod reporting;
mod signing;
mod stimuli;
mod terms;
mod working;

pub use signing::sign;
pub use terms::Terms;

#[cfg(test)]
mod tests;
