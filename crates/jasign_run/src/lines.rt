//! The texts that are written: a table of words for each kind of line, the report's own text, and its summary.

ghost use Rattle.std.specs.Prelude.{◌≡◌, ℕ, ◌∷◌, [], ◌++◌, IfOk, OnOk};
ghost use Rattle.report.specs.Reports.{report_text};
ghost use Rattle.jasign_run.specs.Lines.{phrase_text, verdict_head, verdict_rest, large_words, design_phrase, stimulus_phrase, expect_phrase, stop_head, stop_rest, line_text, outcome_text};

use crate::outcome::{Outcome, Stop};
use crate::summary::summary_text;
use aiger_lines::{Large, ReadRefusal};
use expect_file::ExpectRefusal;
use ja_base::Memory;
use ja_text::Text;
use local_stim::{Confirm, StimRefusal};
use report::{Report, text_of};
use std::alloc::Global;

/// Words, and a number behind them or none.
#[derive(Clone, Copy, Debug)]
struct Phrase {
    words: &'static [u8],
    number: Option<u64>,
}

fn counted(words: &'static [u8], number: u64) -> Phrase
    ensures words { result.words.now ≡ words.now }
    ensures number { result.number ≡ Some number }
{
    Phrase {
        words,
        number: Some(number),
    }
}

fn plain(words: &'static [u8]) -> Phrase
    ensures words { result.words.now ≡ words.now }
    ensures number { result.number ≡ None }
{
    Phrase {
        words,
        number: None,
    }
}

fn verdict_head(verdict: Confirm, prop: u32) -> Phrase
    ensures { (result.words.now, result.number) ≡ verdict_head verdict prop }
{
    match verdict {
        Confirm::Local => counted(b"confirmed b", u64::from(prop)),
        Confirm::NotInitial { latch } => counted(b"not confirmed: start latch ", u64::from(latch)),
        Confirm::Constraint { step } => {
            counted(b"not confirmed: constraint at step ", u64::from(step))
        }
        Confirm::NotBad => plain(b"not confirmed: not bad"),
        Confirm::Assumed { prop, .. } => counted(b"not confirmed: b", u64::from(prop)),
    }
}

fn verdict_rest(verdict: Confirm, steps: u32) -> Phrase
    ensures { (result.words.now, result.number) ≡ verdict_rest verdict steps }
{
    match verdict {
        Confirm::Local => counted(b" steps ", u64::from(steps)),
        Confirm::Assumed { step, .. } => counted(b" broke at step ", u64::from(step)),
        Confirm::NotInitial { .. } | Confirm::Constraint { .. } | Confirm::NotBad => plain(b""),
    }
}

fn large_words(what: Large) -> &'static [u8]
    ensures { result.now ≡ large_words what }
{
    match what {
        Large::File => b"2 too large file",
        Large::Vars => b"2 too large vars",
        Large::Props => b"2 too large props",
        Large::Lines => b"2 too large lines",
    }
}

fn design_phrase(refusal: &ReadRefusal) -> Phrase
    ensures { (result.words.now, result.number) ≡ design_phrase refusal.now }
{
    match refusal {
        ReadRefusal::Header { at } => counted(b"1 header at ", *at as u64),
        ReadRefusal::TooLarge { what } => plain(large_words(*what)),
        ReadRefusal::Liveness => plain(b"3 liveness"),
        ReadRefusal::Line { at } => counted(b"4 line at ", *at as u64),
        ReadRefusal::Range { at } => counted(b"5 range at ", *at as u64),
        ReadRefusal::Twice { at } => counted(b"6 twice at ", *at as u64),
        ReadRefusal::Undefined { var } => counted(b"7 undefined var ", u64::from(var.number())),
        ReadRefusal::Cycle { var } => counted(b"8 cycle var ", u64::from(var.number())),
        ReadRefusal::Symbol { at } => counted(b"9 symbol at ", *at as u64),
        ReadRefusal::Short { at } => counted(b"10 short at ", *at as u64),
        ReadRefusal::Order { at } => counted(b"11 order at ", *at as u64),
    }
}

fn stimulus_phrase(refusal: StimRefusal) -> Phrase
    ensures { (result.words.now, result.number) ≡ stimulus_phrase refusal }
{
    match refusal {
        StimRefusal::Line { line } => counted(b"1 line line ", line),
        StimRefusal::Unknown { line } => counted(b"2 unknown line ", line),
        StimRefusal::Width { line } => counted(b"3 width line ", line),
        StimRefusal::Short { line } => counted(b"4 short line ", line),
        StimRefusal::TooLarge => plain(b"5 too large"),
    }
}

fn expect_phrase(refusal: ExpectRefusal) -> Phrase
    ensures { (result.words.now, result.number) ≡ expect_phrase refusal }
{
    match refusal {
        ExpectRefusal::Line { line } => counted(b"1 line line ", line),
        ExpectRefusal::Unknown { line } => counted(b"2 unknown line ", line),
        ExpectRefusal::Twice { line } => counted(b"3 twice line ", line),
        ExpectRefusal::TooLarge => plain(b"4 too large"),
    }
}

fn stop_head(stop: &Stop) -> Phrase
    ensures { (result.words.now, result.number) ≡ stop_head stop.now }
{
    match stop {
        Stop::DesignRefused(_) => plain(b"fault: design "),
        Stop::StimulusRefused(_) => plain(b"fault: stimulus "),
        Stop::ExpectRefused(_) => plain(b"fault: expect "),
        Stop::Usage => plain(b"fault: usage"),
        Stop::Outside => plain(b"fault: outside"),
        Stop::Memory => plain(b"fault: memory"),
    }
}

fn stop_rest(stop: &Stop) -> Phrase
    ensures { (result.words.now, result.number) ≡ stop_rest stop.now }
{
    match stop {
        Stop::DesignRefused(refusal) => design_phrase(refusal),
        Stop::StimulusRefused(refusal) => stimulus_phrase(*refusal),
        Stop::ExpectRefused(refusal) => expect_phrase(*refusal),
        Stop::Usage | Stop::Outside | Stop::Memory => plain(b""),
    }
}

fn push_phrase(text: &mut Text, phrase: &Phrase) -> Result<(), Memory>
    ensures { OnOk result (text.new ≡ text.old
        ++ phrase_text (phrase.now.words.now, phrase.now.number)) }
{
    text.push(phrase.words)?;
    if let Some(number) = phrase.number {
        text.number(number)?;
    }
    Ok(())
}

/// A line of two phrases, with its LF.
fn line_of(alloc: Global, head: &Phrase, rest: &Phrase) -> Result<Text, Memory>
    ensures { IfOk result (λ text. text ≡ line_text (head.now.words.now, head.now.number)
        (rest.now.words.now, rest.now.number)) }
{
    let mut text = Text::new(alloc);
    push_phrase(&mut text, head)?;
    push_phrase(&mut text, rest)?;
    text.push(b"\n")?;
    Ok(text)
}

fn verdict_line(alloc: Global, verdict: Confirm, prop: u32, steps: u32) -> Result<Text, Memory>
    ensures { IfOk result
        (λ text. text ≡ line_text (verdict_head verdict prop) (verdict_rest verdict steps)) }
{
    let (head, rest) = (verdict_head(verdict, prop), verdict_rest(verdict, steps));
    line_of(alloc, &head, &rest)
}

fn stop_line(alloc: Global, stop: &Stop) -> Result<Text, Memory>
    ensures { IfOk result (λ text. text ≡ line_text (stop_head stop.now) (stop_rest stop.now)) }
{
    let (head, rest) = (stop_head(stop), stop_rest(stop));
    line_of(alloc, &head, &rest)
}

fn report_text(alloc: Global, report: &Report) -> Result<Text, Memory>
    ensures { IfOk result (λ text. text ≡ report_text report.now) }
{
    let text = text_of(alloc, report)?;
    Ok(text)
}

/// What the outcome writes, in one buffer.
pub fn outcome_text(alloc: Global, outcome: &Outcome) -> Result<Text, Memory>
    ensures { IfOk result (λ text. text ≡ outcome_text outcome.now) }
{
    match outcome {
        Outcome::Replayed {
            verdict,
            prop,
            steps,
        } => verdict_line(alloc, *verdict, *prop, *steps),
        Outcome::Signed(report) => report_text(alloc, report),
        Outcome::Demonstrated { size, report } => summary_text(alloc, *size, report),
        Outcome::Stopped(stop) => stop_line(alloc, stop),
    }
}
