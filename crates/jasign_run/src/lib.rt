//! The one public call that the program makes. What a run means is in `specs/Meaning`, what its files give in
//! `specs/Files`, and the texts that it writes are in `specs/Lines` and `specs/Summary`.
#![tactic(auto)]

mod confirm;
mod demo;
mod designs;
mod ending;
mod files;
mod lines;
mod outcome;
mod run;
mod sign;
mod summary;
mod verdicts;

pub use confirm::confirm_run;
pub use ending::memory_run;
pub use outcome::{Outcome, Ran, Stop};
pub use run::jasign_run;

#[cfg(test)]
mod demo_tests;
#[cfg(test)]
mod report_tests;
#[cfg(test)]
mod rows;
#[cfg(test)]
mod sign_rows;
#[cfg(test)]
mod sign_tests;
#[cfg(test)]
mod tests;
