//! The items of a design, as a file lists them.

use ja_base::{Items, Lit, Lits};

/// What a latch holds at the first step.
#[derive(Clone, Copy, Debug, PartialEq, Eq)]
pub enum Reset {
    Zero,
    One,
    /// Either bit.
    Free,
}

#[derive(Clone, Copy, Debug, PartialEq, Eq)]
pub struct Latch {
    pub lit: Lit,
    /// What the latch holds one step later.
    pub next: Lit,
    pub reset: Reset,
}

/// `lhs` is the "and" of `rhs0` and `rhs1`.
#[derive(Clone, Copy, Debug, PartialEq, Eq)]
pub struct AndGate {
    pub lhs: Lit,
    pub rhs0: Lit,
    pub rhs1: Lit,
}

pub type Latches = Items<Latch>;

pub type AndGates = Items<AndGate>;

/// The lists of a design file, each in the file's order. The properties are `bads`; `outputs` are checked and not kept, so a
/// reader that takes the outputs as properties puts them in both.
#[derive(Debug, Drop)]
pub struct Parts {
    /// The greatest variable.
    pub vars: u32,
    pub inputs: Lits,
    pub latches: Latches,
    pub bads: Lits,
    pub constraints: Lits,
    pub outputs: Lits,
    pub gates: AndGates,
}
