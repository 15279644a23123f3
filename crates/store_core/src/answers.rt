//! What a board gives to a seat, and what it takes back.

use ja_base::SpentNote;

/// The next property, or that there is none, beside the closed list as it is now.
#[derive(Drop)]
pub enum Drawn<C> {
    Job { prop: u32, view: C },
    NoJob { view: C },
}

/// What was found out of a property: a closed list that covers it, a failure of it, or that the budget was spent.
#[derive(Drop)]
pub enum Judged<C, V> {
    Proved(C),
    Fails(V),
    Spent(SpentNote),
}
