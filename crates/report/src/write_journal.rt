//! The journal of a report, as it is written.

ghost use Rattle.std.specs.Prelude.{◌≡◌, ◌++◌, ◌∷◌, ◌<◌, ◌^◌, ℕ, IfSome, OnOk, codes, length, true};
ghost use Rattle.std.specs.List.{AllByRecursion};
ghost use Rattle.report.specs.Entries.{AreAnswered, HasSmallMarks, IsSmallEntry, IsSmallMark, count_behind, entry_words, mark_words, property_words, said_words, what_tail, what_words};
ghost use Rattle.report.specs.Reports.{entry_lines, journal_text, line_of};

use crate::what::{What, head_of, property_of, what_of};
use crate::words::{put_count, put_mark, put_property};
use ja_base::Memory;
use ja_text::Text;
use store_core::{Entry, Journal, Mark, Reply};

fn put_named(text: &mut Text, prop: Option<u32>) -> Result<(), Memory>
    ensures { OnOk result (text.new ≡ text.old ++ property_words prop) }
{
    match prop {
        Some(prop) => put_property(text, prop),
        None => Ok(()),
    }
}

fn put_had(text: &mut Text, had: Mark) -> Result<(), Memory>
    ensures text { OnOk result (text.new ≡ text.old ++ codes " had " ++ mark_words had) }
    ensures small { IsSmallMark had }
{
    text.push(b" had ")?;
    put_mark(text, had)
}

fn put_offered(text: &mut Text, mark: Mark) -> Result<(), Memory>
    ensures text { OnOk result (text.new ≡ text.old ++ 32 ∷ mark_words mark) }
    ensures small { IsSmallMark mark }
{
    text.push(b" ")?;
    put_mark(text, mark)
}

fn put_tail(text: &mut Text, what: What) -> Result<(), Memory>
    ensures text { OnOk result (text.new ≡ text.old ++ what_tail what) }
    ensures small { HasSmallMarks what }
{
    match what {
        What::Draws(_) | What::DrawsNone | What::Imports | What::Publishes => Ok(()),
        What::Settles(_, mark) => put_offered(text, mark),
        What::SettlesHad(_, mark, had) => {
            put_offered(text, mark)?;
            put_had(text, had)
        }
        What::Cancels(_) | What::GivesUp(_) => text.push(b" yes"),
        What::CancelsNot(_) => text.push(b" no"),
        What::GoesOn(_) => text.push(b" goon"),
        What::GivesUpHad(_, had) => put_had(text, had),
    }
}

fn put_what(text: &mut Text, what: What) -> Result<(), Memory>
    ensures text { OnOk result (text.new ≡ text.old ++ what_words what) }
    ensures small { HasSmallMarks what }
{
    text.push(head_of(what))?;
    put_named(text, property_of(what))?;
    put_tail(text, what)
}

fn put_said(text: &mut Text, said: Option<What>) -> Result<(), Memory>
    ensures text { OnOk result (text.new ≡ text.old ++ said_words said) }
    ensures small { IfSome said HasSmallMarks }
{
    match said {
        Some(what) => put_what(text, what),
        None => Ok(()),
    }
}

/// The number of clauses behind an entry; a reply that does not tell it leaves it as it was.
fn count_behind(before: u32, reply: Reply) -> u32
    ensures { result ≡ count_behind before reply }
{
    match reply {
        Reply::Job { upto, .. } => upto,
        Reply::NoJob { upto } => upto,
        Reply::Clauses { upto } => upto,
        Reply::Added { upto } => upto,
        Reply::Settled { upto } => upto,
        _ => before,
    }
}

fn put_entry(text: &mut Text, upto: u32, entry: &Entry) -> Result<(), Memory>
    ensures text { OnOk result (text.new ≡ text.old ++ line_of (entry_words entry.now upto)) }
    ensures small { OnOk result (IsSmallEntry entry.now) }
{
    text.number(u64::from(entry.seat))?;
    text.push(b" ")?;
    put_said(text, what_of(&entry.event, entry.reply))?;
    put_count(text, b" at ", upto)
}

fn put_entries(text: &mut Text, journal: &[Entry]) -> Result<(), Memory>
    requires { (props : ℕ) × AreAnswered props 0 journal.now }
    ensures text { OnOk result (text.new ≡ text.old ++ entry_lines 0 journal.now) }
    ensures small { OnOk result (AllByRecursion IsSmallEntry journal.now) }
{
    let mut upto = 0;
    for entry in journal {
        upto = count_behind(upto, entry.reply);
        put_entry(text, upto, entry)?;
    }
    Ok(())
}

pub fn put_journal(text: &mut Text, journal: &Journal) -> Result<(), Memory>
    requires { (props : ℕ) × AreAnswered props 0 journal.now }
    ensures text { OnOk result (text.new ≡ text.old ++ journal_text true journal.now) }
    ensures small { OnOk result
        ((length journal.now < 2 ^ 32) × AllByRecursion IsSmallEntry journal.now) }
{
    put_count(text, b"journal ", journal.len())?;
    put_entries(text, journal.as_slice())
}
