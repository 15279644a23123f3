//! The levels of IC3: blocked cubes, kept as the clauses that exclude them. What contracts see of them stands in `specs/Levels`;
//! what a row of latches is at a level, and when the levels are sound, in `specs/Soundness`; how high they
//! can rise in `specs/Sums` and `specs/Apart`.
#![tactic(auto)]

mod frames;
mod kept;
mod laws;
mod mark;
#[cfg(test)]
mod tests;

pub use frames::Frames;
pub use laws::{
    additions_gain, additions_never_fall, additions_raise, additions_stay_apart, additions_tighten,
    fixed_is_inductive, gains_are_sound, greatest_is_within, moves_gain, moves_never_fall,
    moves_stay_apart, moves_tighten, sum_is_bounded, top_is_bounded,
};
