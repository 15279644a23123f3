//! What words ask for.

/// The units that may be spent on one property where the words name no budget.
pub const PLAIN_BUDGET: u64 = 1_000_000_000_000;

/// No command has these words.
#[derive(Clone, Copy, Debug, PartialEq, Eq)]
pub struct Usage;

/// The names of the files of `confirm DESIGN STIM [EXPECT]`.
#[derive(Clone, Copy, Debug, PartialEq, Eq)]
pub struct Names<'a> {
    pub design: &'a str,
    pub stim: &'a str,
    pub expect: Option<&'a str>,
}

/// What `sign DESIGN [EXPECT] [--workers N] [--budget N] [--fail-fast] [--journal]` is asked for.
#[derive(Clone, Copy, Debug, PartialEq, Eq)]
pub struct Order<'a> {
    pub design: &'a str,
    pub expect: Option<&'a str>,
    /// From 1 to 8.
    pub workers: u32,
    /// The units that may be spent on one property: from 1 to 10^12.
    pub budget: u64,
    pub fail_fast: bool,
    pub journal: bool,
}

/// What `demo N [--workers N]` is asked for.
#[derive(Clone, Copy, Debug, PartialEq, Eq)]
pub struct Demo {
    /// How many latches the ring has: from 3 to 1,000.
    pub n: u32,
    /// From 1 to 8.
    pub workers: u32,
}

#[derive(Clone, Copy, Debug, PartialEq, Eq)]
pub enum Words<'a> {
    Confirm(Names<'a>),
    Sign(Order<'a>),
    Demo(Demo),
}
