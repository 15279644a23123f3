//! The report.

use crate::parts::{PropLines, Sizes, Stimuli};
use ja_base::{ClauseList, Props};
use std::marker::Model;
use store_core::Journal;

/// What a sign-off found. Whether `joined` and `set` are right for the marks is no part of the form.
#[derive(Debug, Drop)]
pub struct Report {
    pub sizes: Sizes,
    pub lines: PropLines,
    pub clauses: ClauseList,
    pub stimuli: Stimuli,
    /// Whether each property that is expected to hold was proved.
    pub joined: bool,
    /// The debugging set.
    pub set: Props,
    pub journal: Journal,
    /// Whether the text has the journal.
    pub shown: bool,
}

impl Model for Report {
    ghost use Rattle.report.specs.Findings.{Findings};
    ghost use Rattle.report.specs.Reports.{IsReport};

    ghost Value = { Findings };

    ghost view = { λ r. record {
      sizes = r.sizes;
      lines = r.lines;
      clauses = r.clauses;
      stimuli = r.stimuli;
      joined = r.joined;
      set = r.set;
      journal = r.journal;
      shown = r.shown;
    } };

    ghost invariant = { λ r. IsReport (record {
      sizes = r.sizes;
      lines = r.lines;
      clauses = r.clauses;
      stimuli = r.stimuli;
      joined = r.joined;
      set = r.set;
      journal = r.journal;
      shown = r.shown;
    }) };
}
