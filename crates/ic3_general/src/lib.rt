//! Cubes of latch rows from which a failure is reached. A cube is kept as the clause that excludes it; input rows that lead from
//! each of its rows to a broken property are its chain (`specs/Chains`). A cube that no initial row is excluded from is a
//! failure. Lifting leaves literals out of a cube that leads on (`specs/Lifting`), shrinking out of the clause of one that is
//! blocked (`specs/Shrinking`).
#![tactic(auto)]

mod aim;
mod cutting;
mod dropping;
mod failing;
mod justifying;
mod lifting;
mod rows;
mod shrinking;
mod sure;
mod targets;
#[cfg(test)]
mod tests;

pub use aim::Aim;
pub use dropping::lift;
pub use failing::failure_of;
pub use lifting::{Cube, lifted, lifted_bad};
pub use shrinking::shrink;
pub use sure::sure_into;
