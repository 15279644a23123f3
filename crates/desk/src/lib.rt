//! The board behind a lock, so that workers share it: each call of a desk is one event of the board. A desk's opening and task
//! are those that its `Naming` names; what a seat tells stands in `specs/Seats`, what a reply tells in `specs/Replies`.
#![tactic(auto)]

mod events;
#[cfg(test)]
mod fakes;
mod front;
mod locked;
mod seat;
#[cfg(test)]
mod tests;

pub use front::Desk;
pub use seat::Seat;
