//! The journal of a report.

ghost use Rattle.std.specs.Prelude.{◌≡◌, ◌≤◌, length, IfOk};
ghost use Rattle.report.specs.Entries.{may_append};
ghost use Rattle.report.specs.Forms.{Reads};
ghost use Rattle.report.specs.JournalLines.{between, due_of, entries_form, entry_of, event_of, is_counted, is_due, is_within, reply_of, said_form};

use crate::decode_journal::said_of;
use crate::line::Read;
use crate::take::bad;
use crate::what::{Said, What, property_of};
use ja_base::{ClauseList, Memory};
use ja_text::line;
use std::alloc::Global;
use store_core::{Entry, Event, Journal, Mark, Reply};

fn is_within(props: u32, prop: Option<u32>) -> bool
    ensures { result ≡ is_within props prop }
{
    match prop {
        Some(prop) => prop < props,
        None => true,
    }
}

fn may_append(what: What) -> bool
    ensures { result ≡ may_append what }
{
    matches!(what, What::Publishes | What::Settles(_, Mark::Proved))
}

fn is_counted(total: u32, from: u32, left: u32, said: Said) -> bool
    ensures { result ≡ is_counted total from left said }
{
    let may_rise = may_append(said.what);
    from <= said.upto
        && said.upto <= total
        && (may_rise || said.upto == from)
        && (left != 1 || said.upto == total)
}

fn is_due(props: u32, total: u32, from: u32, left: u32, said: Said) -> bool
    ensures { result ≡ is_due props total from left said }
{
    is_within(props, property_of(said.what)) && is_counted(total, from, left, said)
}

/// What the line says, where that may stand here: behind `from` clauses of `total`, with `left` entries from this one on.
#[tactic(auto, unfolding(crate::specs::JournalLines::due_of))]
fn due_of(props: u32, total: u32, from: u32, left: u32, line: &[u8]) -> Option<Said>
    ensures { result ≡ due_of props total from left line.now }
{
    let said = said_of(line)?;
    if !is_due(props, total, from, left, said) {
        return None;
    }
    Some(said)
}

fn take_said(props: u32, total: u32, from: u32, left: u32, bytes: &[u8]) -> Read<(Said, &[u8])>
    requires { from ≤ total }
    ensures { Reads (said_form props total (from, left)) (λ x. x.0) (λ x. x.1.now)
        bytes.now result }
{
    let Some((line, rest)) = line(bytes) else {
        return Err(bad(bytes));
    };
    let Some(said) = due_of(props, total, from, left, line) else {
        return Err(bad(bytes));
    };
    Ok((said, rest))
}

/// Copies of the clauses from one place to another.
fn between(alloc: Global, clauses: &ClauseList, from: u32, upto: u32) -> Result<ClauseList, Memory>
    requires rises { from ≤ upto }
    requires within { upto ≤ length clauses.now }
    ensures { IfOk result (λ added. added ≡ between clauses.now from upto) }
{
    let mut added = ClauseList::new(alloc);
    for at in from..upto {
        added.push(clauses.get(at).copy(alloc)?)?;
    }
    Ok(added)
}

fn event_of(what: What, added: ClauseList) -> Event
    ensures { result ≡ event_of what added }
{
    match what {
        What::Draws(_) | What::DrawsNone => Event::Draw,
        What::Imports => Event::Import,
        What::Publishes => Event::Publish { added },
        What::Settles(prop, mark) | What::SettlesHad(prop, mark, _) => {
            Event::Settle { prop, mark, added }
        }
        What::Cancels(prop) | What::CancelsNot(prop) => Event::Cancel { prop },
        What::GivesUp(prop) | What::GoesOn(prop) | What::GivesUpHad(prop, _) => {
            Event::GiveUp { prop }
        }
    }
}

fn reply_of(what: What, upto: u32) -> Reply
    ensures { result ≡ reply_of what upto }
{
    match what {
        What::Draws(prop) => Reply::Job { prop, upto },
        What::DrawsNone => Reply::NoJob { upto },
        What::Imports => Reply::Clauses { upto },
        What::Publishes => Reply::Added { upto },
        What::Settles(..) => Reply::Settled { upto },
        What::SettlesHad(_, _, mark) | What::GivesUpHad(_, mark) => Reply::Had { mark },
        What::Cancels(_) => Reply::Cancelled,
        What::CancelsNot(_) => Reply::NotNow,
        What::GivesUp(_) => Reply::GaveUp,
        What::GoesOn(_) => Reply::GoOn,
    }
}

/// The entry of a line, with copies of the clauses that it appended.
fn entry_of(alloc: Global, clauses: &ClauseList, from: u32, said: Said) -> Result<Entry, Memory>
    requires rises { from ≤ said.upto }
    requires within { said.upto ≤ length clauses.now }
    ensures { IfOk result (λ entry. entry ≡ entry_of clauses.now from said) }
{
    let added = between(alloc, clauses, from, said.upto)?;
    Ok(Entry {
        seat: said.seat,
        event: event_of(said.what, added),
        reply: reply_of(said.what, said.upto),
    })
}

/// So many entries, which appended these clauses.
pub fn take_entries<'a>(
    alloc: Global,
    props: u32,
    clauses: &ClauseList,
    count: u32,
    bytes: &'a [u8],
) -> Read<(Journal, &'a [u8])>
    requires { count ≡ 0 → length clauses.now ≡ 0 }
    ensures { Reads (entries_form props clauses.now count) (λ x. x.0) (λ x. x.1.now)
        bytes.now result }
{
    let total = clauses.len();
    let mut journal = Journal::new(alloc);
    let mut from = 0;
    let mut rest = bytes;
    for done in 0..count {
        let (said, after) = take_said(props, total, from, count - done, rest)?;
        journal.push(entry_of(alloc, clauses, from, said)?)?;
        from = said.upto;
        rest = after;
    }
    Ok((journal, rest))
}
