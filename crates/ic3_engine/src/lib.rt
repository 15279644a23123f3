//! IC3 for one property, on an engine that lives on. A descent blocks one cube and what leads to it; what a search keeps of its
//! levels stands in `specs/Searching`, what waits in `specs/Waiting`.
#![tactic(auto)]

mod advancing;
mod aiming;
mod ascending;
mod clearing;
mod climbing;
mod closing;
mod covering;
mod descent;
mod engine;
mod fixing;
mod found;
mod good;
mod knowing;
mod learning;
mod local;
mod outcome;
mod own;
mod proved;
mod putting;
mod raising;
mod search;
mod seeking;
mod settling;
mod share;
mod simulating;
mod starting;
#[cfg(test)]
mod tests;
mod turn;
mod viewing;

pub use advancing::advance;
pub use engine::{Engine, prove};
pub use found::Found;
pub use learning::learn;
pub use local::{LocalAnswer, prove_local};
pub use proved::ProvedList;
pub use search::Search;
pub use share::{NoShare, Share};
