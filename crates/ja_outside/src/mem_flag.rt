//! A flag in memory, for tests.

ghost use Rattle.std.specs.Prelude.{◌≡◌, ◌≤◌};
ghost use Rattle.ja_outside.specs.Flags.{is_raised, polled};

use crate::flag::Flag;
use std::marker::Model;

/// It is raised from a poll on, where it is raised at all.
#[derive(Debug, Drop)]
pub struct MemFlag {
    after: Option<u64>,
    polls: u64,
    raised: u64,
}

impl Model for MemFlag {
    ghost use Rattle.ja_outside.specs.Flags.{FlagInMemory};

    ghost Value = { FlagInMemory };

    ghost view = { λ a. record { after = a.after; polls = a.polls; raised = a.raised } };
}

impl MemFlag {
    /// Polls are numbered from 0. With None it is never raised.
    pub fn new(after: Option<u64>) -> MemFlag
        ensures { result ≡ record { after = after; polls = 0; raised = 0 } }
    {
        MemFlag {
            after,
            polls: 0,
            raised: 0,
        }
    }
}

impl Flag for MemFlag {
    ghost use Rattle.std.specs.Prelude.{is_some};

    ghost raised = { λ f. f.raised };

    ghost may_rise = { λ f. is_some f.after };

    fn poll(&mut self) -> bool
        ensures answer { result ≡ is_raised self.old }
        ensures after { self.new ≡ polled self.old }
        ensures later { self.old.raised ≤ self.new.raised }
    {
        let is_raised = match self.after {
            Some(after) => after <= self.polls,
            None => false,
        };
        self.polls = self.polls.saturating_add(1);
        if is_raised {
            self.raised = self.raised.saturating_add(1);
        }
        is_raised
    }
}
