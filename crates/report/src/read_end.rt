//! The end of a report: what is joined, the set, and the journal where it is shown.

ghost use Rattle.std.specs.Prelude.{◌<◌, ◌^◌, length};
ghost use Rattle.report.specs.Forms.{Reads};
ghost use Rattle.report.specs.Whole.{end_form, tail_form};

use crate::line::Read;
use crate::read_journal::take_entries;
use crate::read_set::take_set;
use crate::take::{take_joined, take_next, take_words};
use ja_base::{ClauseList, Props};
use std::alloc::Global;
use store_core::Journal;

/// What stands at the end. Where the journal is not shown it has no entry.
#[derive(Drop)]
pub struct Ending {
    pub joined: bool,
    pub set: Props,
    pub shown: bool,
    pub journal: Journal,
}

/// The journal, where it is shown, and the end.
fn take_tail<'a>(
    alloc: Global,
    props: u32,
    clauses: &ClauseList,
    bytes: &'a [u8],
) -> Read<(bool, Journal, &'a [u8])>
    ensures { Reads (tail_form props clauses.now) (λ x. (x.0, x.1)) (λ x. x.2.now)
        bytes.now result }
{
    let (next, rest) = take_next(bytes, clauses.len())?;
    let Some(count) = next else {
        return Ok((false, Journal::new(alloc), rest));
    };
    let (journal, rest) = take_entries(alloc, props, clauses, count, rest)?;
    let rest = take_words(rest, b"end")?;
    Ok((true, journal, rest))
}

pub fn take_end<'a>(
    alloc: Global,
    props: u32,
    clauses: &ClauseList,
    bytes: &'a [u8],
) -> Read<(Ending, &'a [u8])>
    requires { length clauses.now < 2 ^ 32 }
    ensures { Reads (end_form props clauses.now)
        (λ x. (x.0.joined, (x.0.set, (x.0.shown, x.0.journal)))) (λ x. x.1.now) bytes.now result }
{
    let (joined, rest) = take_joined(bytes)?;
    let (set, rest) = take_set(alloc, props, rest)?;
    let (shown, journal, rest) = take_tail(alloc, props, clauses, rest)?;
    let end = Ending {
        joined,
        set,
        shown,
        journal,
    };
    Ok((end, rest))
}
