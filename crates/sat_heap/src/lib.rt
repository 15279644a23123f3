//! A heap of variables by their activity: `specs/Heaps` says what a caller sees, and `specs/Orders` how it is kept.
#![tactic(auto)]

mod heap;
mod order;
mod sift;
#[cfg(test)]
mod tests;

pub use heap::Heap;
