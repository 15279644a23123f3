//! A flag that workers share, so that one of them may stop the others. A raised flag means nothing besides: the board decides.
#![tactic(auto)]

mod shared;
#[cfg(test)]
mod tests;
mod view;

pub use shared::CancelFlag;
pub use view::FlagView;
