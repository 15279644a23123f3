//! The board on which all answers meet: one machine over events. What an event changes and what is replied stands in
//! `specs/Steps`, which journals there are in `specs/History`, why a mark stands in `specs/Marks`, and what a board is in
//! `specs/Boards`.
#![tactic(auto)]

mod answers;
mod board;
mod cancel;
mod draw;
#[cfg(test)]
mod fakes;
mod journal;
mod mark;
mod naming;
mod parts;
mod publish;
mod settle;
#[cfg(test)]
mod tests;

pub use answers::{Drawn, Judged};
pub use board::Board;
pub use journal::{Entry, Event, Journal, Opening, Plan, Reply};
pub use mark::Mark;
pub use naming::Naming;
pub use parts::Parts;
