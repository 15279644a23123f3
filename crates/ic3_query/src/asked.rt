//! What a question of the search answers.

use ja_base::Lits;

/// The answer to the question whether a step leads out of a clause.
#[derive(Debug, Drop)]
pub enum Asked {
    /// One does; its values stand in the room.
    Before,
    /// None does. These literals of the question suffice to show it.
    Blocked(Lits),
}
