//! A literal that became true.

use ja_base::Lit;

/// With no reason it was decided; else the clause of this number forces it.
#[derive(Clone, Copy, Debug)]
pub struct Place {
    pub lit: Lit,
    pub reason: Option<u32>,
}
