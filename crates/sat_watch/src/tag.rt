//! What a clause carries.

/// Whether it rests on a clause of one query alone, and the number by which a log knows it.
#[derive(Clone, Copy, Debug, PartialEq, Eq)]
pub struct Tag {
    pub tainted: bool,
    pub number: u32,
}
