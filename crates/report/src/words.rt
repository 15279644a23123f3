//! Words that several lines have.

ghost use Rattle.std.specs.Prelude.{◌≡◌, ◌++◌, OnOk, codes, decimal};
ghost use Rattle.report.specs.Entries.{IsSmallMark, property_word, mark_words};
ghost use Rattle.report.specs.Reports.{line_of};

use ja_base::Memory;
use ja_text::Text;
use store_core::Mark;

pub fn put_property(text: &mut Text, prop: u32) -> Result<(), Memory>
    ensures { OnOk result (text.new ≡ text.old ++ property_word prop) }
{
    text.push(b"b")?;
    text.number(u64::from(prop))
}

fn put_budget(text: &mut Text, units: u64) -> Result<(), Memory>
    ensures { OnOk result (text.new ≡ text.old ++ codes "unknown budget " ++ decimal units) }
{
    text.push(b"unknown budget ")?;
    text.number(units)
}

pub fn put_mark(text: &mut Text, mark: Mark) -> Result<(), Memory>
    ensures text { OnOk result (text.new ≡ text.old ++ mark_words mark) }
    ensures small { IsSmallMark mark }
{
    match mark {
        Mark::Proved => text.push(b"proved"),
        Mark::Fails => text.push(b"fails"),
        Mark::Budget(units) => put_budget(text, units),
        Mark::Cancelled => text.push(b"unknown cancelled"),
    }
}

/// A line of a word and a number.
pub fn put_count(text: &mut Text, word: &[u8], count: u32) -> Result<(), Memory>
    ensures { OnOk result (text.new ≡ text.old ++ line_of (word.now ++ decimal count)) }
{
    text.push(word)?;
    text.number(u64::from(count))?;
    text.push(b"\n")
}
