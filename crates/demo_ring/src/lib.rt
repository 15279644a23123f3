//! The demonstration's design: a one-hot ring of latches, a property for each two neighbours, and a wrong one. Its text stands in
//! `specs/DemoText`, its lists in `specs/DemoParts`.
#![tactic(auto)]

mod laws;
mod text;

pub use laws::demo_text_is_a_design;
pub use text::demo_text;

#[cfg(test)]
mod tests;
