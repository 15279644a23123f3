//! What happened to a board, in order.

use crate::mark::Mark;
use ja_base::{ClauseList, Items, Props, Row};

/// Properties by number, in the order in which they are drawn.
pub type Plan = Props;

/// What a board is opened with.
#[derive(Debug, Drop)]
pub struct Opening {
    /// Each property once.
    pub plan: Plan,
    /// A bit for each property: whether it is expected to hold.
    pub assumed: Row,
    /// Whether the first failure of an assumed property may stop the run.
    pub fail_fast: bool,
    /// How many units each property may take; None is as many as it wants.
    pub limit: Option<u64>,
}

/// What is asked of a board. `added` has the clauses that were appended, each of which the list did not have.
#[derive(Debug, Drop)]
pub enum Event {
    Draw,
    Import,
    Publish {
        added: ClauseList,
    },
    /// The mark is the one that was offered.
    Settle {
        prop: u32,
        mark: Mark,
        added: ClauseList,
    },
    Cancel {
        prop: u32,
    },
    GiveUp {
        prop: u32,
    },
}

/// What a board answers; `upto` is the number of its clauses behind the event.
#[derive(Clone, Copy, Debug, PartialEq, Eq)]
pub enum Reply {
    Job { prop: u32, upto: u32 },
    NoJob { upto: u32 },
    Clauses { upto: u32 },
    Added { upto: u32 },
    Settled { upto: u32 },
    /// The property has this mark, which stays.
    Had { mark: Mark },
    Cancelled,
    NotNow,
    GoOn,
    GaveUp,
}

/// An event, the number of the seat that asked, and the reply.
#[derive(Debug, Drop)]
pub struct Entry {
    pub seat: u32,
    pub event: Event,
    pub reply: Reply,
}

/// Entries in order.
pub type Journal = Items<Entry>;
