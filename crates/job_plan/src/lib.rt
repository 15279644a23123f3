//! The plan of a task: its properties in the order in which they are drawn. Which order that is stands in `specs/Plans`.
#![tactic(auto)]

mod depths;
mod order;
#[cfg(test)]
mod tests;

pub use order::plan;
