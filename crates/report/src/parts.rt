//! What a report is made of.

use aig_model::Stimulus;
use ja_base::Items;
use store_core::Mark;

/// The sizes of the design, each as its header has it but for `props`, which counts the properties.
#[derive(Clone, Copy, Debug, PartialEq, Eq)]
pub struct Sizes {
    pub vars: u32,
    pub inputs: u32,
    pub latches: u32,
    pub gates: u32,
    pub props: u32,
    pub constraints: u32,
}

/// Whether a property was expected to hold, and what was found out of it.
#[derive(Clone, Copy, Debug, PartialEq, Eq)]
pub struct PropLine {
    pub assumed: bool,
    pub mark: Mark,
}

/// A line for each property, by number.
pub type PropLines = Items<PropLine>;

/// A property, and a stimulus for it.
#[derive(Debug, Drop)]
pub struct PropStim {
    pub prop: u32,
    pub stim: Stimulus,
}

/// A stimulus for each property that fails, in ascending order.
pub type Stimuli = Items<PropStim>;
