//! What a search is for.

use ja_base::Row;

/// A property, and the assumed ones that no way to its failure may break. A way that breaks another assumed one before its end
/// is a way to a failure of that one.
#[derive(Drop)]
pub struct Aim {
    pub prop: u32,
    /// A bit for each property.
    pub respect: Row,
}
