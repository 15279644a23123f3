//! What was found out of a property.

/// A property without a mark was not decided yet; the last two leave it unknown.
#[derive(Clone, Copy, Debug, PartialEq, Eq)]
pub enum Mark {
    /// The closed list covers it.
    Proved,
    /// It has a local failure.
    Fails,
    /// The budget of so many units was spent.
    Budget(u64),
    /// It was given up after a Cancel.
    Cancelled,
}
