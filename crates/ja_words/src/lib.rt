//! The words of a command line. Which are in a command's form, and what they ask for, stands in `specs/Words`.
#![tactic(auto)]

mod commands;
mod numbers;
mod reading;
mod words;

pub use reading::read_words;
pub use words::{Demo, Names, Order, PLAIN_BUDGET, Usage, Words};

#[cfg(test)]
mod demo_tests;
#[cfg(test)]
mod tests;
