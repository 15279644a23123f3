//! Workers decide the properties of a task at once. Each has a seat at the desk and one engine that lives on; what the call asks
//! of its caller stands in `specs/Pools`.
#![tactic(auto)]

mod asking;
mod deciding;
mod own_seat;
mod pool;
#[cfg(test)]
mod tests;
mod work;

pub use asking::{Judgement, ask, judged_property};
pub use pool::work_all;
