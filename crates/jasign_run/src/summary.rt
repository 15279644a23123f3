//! The summary of a report: a line for each count.

ghost use Rattle.std.specs.Prelude.{◌≡◌, ◌++◌, IfOk, OnOk, count_by, flat_map, length};
ghost use Rattle.store_core.specs.MarkKinds.{fails, is_proved, is_unknown};
ghost use Rattle.report.specs.Reports.{line_of, member_words, set_words};
ghost use Rattle.report.specs.declared.parts.PropLine.{PropLine};
ghost use Rattle.jasign_run.specs.Summary.{count_line, fail_count, first_steps, proved_count, summary_text, unknown_count};

use ja_base::{Memory, Props};
use ja_text::Text;
use report::{PropLines, Report, Stimuli};
use std::alloc::Global;
use store_core::Mark;

fn is_proved(mark: Mark) -> bool
    ensures { result ≡ is_proved mark }
{
    matches!(mark, Mark::Proved)
}

fn fails(mark: Mark) -> bool
    ensures { result ≡ fails mark }
{
    matches!(mark, Mark::Fails)
}

fn is_unknown(mark: Mark) -> bool
    ensures { result ≡ is_unknown mark }
{
    matches!(mark, Mark::Budget(_) | Mark::Cancelled)
}

fn proved_count(lines: &PropLines) -> usize
    ensures { result ≡ proved_count lines.now }
{
    lines
        .as_slice()
        .iter()
        .filter(|line| is_proved(line.mark))
        .count()
}

fn fail_count(lines: &PropLines) -> usize
    ensures { result ≡ fail_count lines.now }
{
    lines
        .as_slice()
        .iter()
        .filter(|line| fails(line.mark))
        .count()
}

fn unknown_count(lines: &PropLines) -> usize
    ensures { result ≡ unknown_count lines.now }
{
    lines
        .as_slice()
        .iter()
        .filter(|line| is_unknown(line.mark))
        .count()
}

/// The steps of the first stimulus, and 0 where there is none.
fn first_steps(stimuli: &Stimuli) -> u32
    ensures { result ≡ first_steps stimuli.now }
{
    match stimuli.as_slice() {
        [first, ..] => first.stim.inputs().len(),
        [] => 0,
    }
}

/// A line of a word and a number.
fn put_count(text: &mut Text, word: &[u8], count: u64) -> Result<(), Memory>
    ensures { OnOk result (text.new ≡ text.old ++ count_line word.now count) }
{
    text.push(word)?;
    text.number(count)?;
    text.push(b"\n")
}

fn put_members(text: &mut Text, set: &Props) -> Result<(), Memory>
    ensures { OnOk result (text.new ≡ text.old ++ flat_map member_words set.now) }
{
    for prop in set.as_slice() {
        text.push(b" b")?;
        text.number(u64::from(*prop))?;
    }
    Ok(())
}

fn put_set(text: &mut Text, set: &Props) -> Result<(), Memory>
    ensures { OnOk result (text.new ≡ text.old ++ line_of (set_words set.now)) }
{
    text.push(b"set")?;
    put_members(text, set)?;
    text.push(b"\n")
}

/// The summary of the report on a ring of this size, in one buffer.
pub fn summary_text(alloc: Global, size: u32, report: &Report) -> Result<Text, Memory>
    ensures { IfOk result (λ text. text ≡ summary_text size report.now) }
{
    let mut text = Text::new(alloc);
    put_count(&mut text, b"demo ", u64::from(size))?;
    put_count(&mut text, b"properties ", u64::from(report.lines.len()))?;
    put_count(&mut text, b"proved ", proved_count(&report.lines) as u64)?;
    put_count(&mut text, b"fails ", fail_count(&report.lines) as u64)?;
    put_count(&mut text, b"unknown ", unknown_count(&report.lines) as u64)?;
    put_set(&mut text, &report.set)?;
    put_count(
        &mut text,
        b"steps ",
        u64::from(first_steps(&report.stimuli)),
    )?;
    Ok(text)
}
