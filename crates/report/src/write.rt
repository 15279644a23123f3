//! The text of a report.

ghost use Rattle.std.specs.Prelude.{◌≡◌, ◌++◌, ◌^◌, ◌<◌, ℕ, IfOk, OnOk, codes, length, flat_map};
ghost use Rattle.std.specs.List.{AllByRecursion};
ghost use Rattle.report.specs.declared.parts.PropLine.{PropLine};
ghost use Rattle.report.specs.Entries.{IsSmallMark};
ghost use Rattle.report.specs.Reports.{IsReportText, AreSmallSizes, clause_words, expectation_word, joined_words, line_of, member_words, prop_lines, prop_words, set_words, sizes_words, spaced};

use crate::parts::{PropLine, PropLines, Sizes};
use crate::value::Report;
use crate::words::{put_count, put_mark, put_property};
use crate::write_journal::put_journal;
use crate::write_stimuli::put_stimuli;
use ja_base::{Clause, ClauseList, Lit, Memory, Props};
use ja_text::Text;
use std::alloc::Global;

fn put_number(text: &mut Text, number: u32) -> Result<(), Memory>
    ensures { OnOk result (text.new ≡ text.old ++ spaced number) }
{
    text.push(b" ")?;
    text.number(u64::from(number))
}

fn put_sizes(text: &mut Text, sizes: Sizes) -> Result<(), Memory>
    ensures text { OnOk result
        (text.new ≡ text.old ++ line_of (codes "design" ++ sizes_words sizes)) }
    ensures small { AreSmallSizes sizes }
{
    text.push(b"design")?;
    put_number(text, sizes.vars)?;
    put_number(text, sizes.inputs)?;
    put_number(text, sizes.latches)?;
    put_number(text, sizes.gates)?;
    put_number(text, sizes.props)?;
    put_number(text, sizes.constraints)?;
    text.push(b"\n")
}

fn put_prop(text: &mut Text, prop: u32, line: PropLine) -> Result<(), Memory>
    ensures text { OnOk result (text.new ≡ text.old ++ line_of (prop_words prop line)) }
    ensures small { IsSmallMark line.mark }
{
    put_property(text, prop)?;
    text.push(if line.assumed { b" hold " } else { b" fail " })?;
    put_mark(text, line.mark)?;
    text.push(b"\n")
}

fn put_props(text: &mut Text, lines: &PropLines) -> Result<(), Memory>
    ensures text { OnOk result (text.new ≡ text.old ++ prop_lines 0 lines.now) }
    ensures small { OnOk result
        (AllByRecursion (λ (l : PropLine). IsSmallMark l.mark) lines.now) }
{
    for prop in 0..lines.len() {
        put_prop(text, prop, *lines.get(prop))?;
    }
    Ok(())
}

fn put_spaced(text: &mut Text, lits: &[Lit]) -> Result<(), Memory>
    ensures text { OnOk result (text.new ≡ text.old ++ flat_map spaced lits.now) }
    ensures small { OnOk result (AllByRecursion (λ l. l < 2 ^ 32) lits.now) }
{
    for lit in lits {
        put_number(text, lit.number())?;
    }
    Ok(())
}

fn put_lits(text: &mut Text, lits: &[Lit]) -> Result<(), Memory>
    ensures text { OnOk result (text.new ≡ text.old ++ clause_words lits.now) }
    ensures small { OnOk result (AllByRecursion (λ l. l < 2 ^ 32) lits.now) }
{
    if let [first, others @ ..] = lits {
        text.number(u64::from(first.number()))?;
        put_spaced(text, others)?;
    }
    Ok(())
}

fn put_clause(text: &mut Text, clause: &Clause) -> Result<(), Memory>
    ensures text { OnOk result (text.new ≡ text.old ++ line_of (clause_words clause.now)) }
    ensures small { OnOk result (AllByRecursion (λ l. l < 2 ^ 32) clause.now) }
{
    put_lits(text, clause.lits())?;
    text.push(b"\n")
}

fn put_clauses(text: &mut Text, clauses: &ClauseList) -> Result<(), Memory>
    ensures text { OnOk result
        (text.new ≡ text.old ++ flat_map (λ c. line_of (clause_words c)) clauses.now) }
    ensures count { length clauses.now < 2 ^ 32 }
    ensures small { OnOk result
        (AllByRecursion (AllByRecursion (λ l. l < 2 ^ 32)) clauses.now) }
{
    for clause in clauses.as_slice() {
        put_clause(text, clause)?;
    }
    Ok(())
}

fn put_joined(text: &mut Text, joined: bool) -> Result<(), Memory>
    ensures { OnOk result (text.new ≡ text.old ++ line_of (joined_words joined)) }
{
    if joined {
        text.push(b"joined yes\n")
    } else {
        text.push(b"joined no\n")
    }
}

fn put_member(text: &mut Text, prop: u32) -> Result<(), Memory>
    ensures { OnOk result (text.new ≡ text.old ++ member_words prop) }
{
    text.push(b" ")?;
    put_property(text, prop)
}

fn put_members(text: &mut Text, set: &Props) -> Result<(), Memory>
    ensures { OnOk result (text.new ≡ text.old ++ flat_map member_words set.now) }
{
    for prop in set.as_slice() {
        put_member(text, *prop)?;
    }
    Ok(())
}

fn put_set(text: &mut Text, set: &Props) -> Result<(), Memory>
    ensures { OnOk result (text.new ≡ text.old ++ line_of (set_words set.now)) }
{
    text.push(b"set")?;
    put_members(text, set)?;
    text.push(b"\n")
}

/// The text of the report, in one buffer.
pub fn text_of(alloc: Global, r: &Report) -> Result<Text, Memory>
    ensures { IfOk result (λ text. IsReportText text r.now) }
{
    let mut text = Text::new(alloc);
    text.push(b"jasign 1\n")?;
    put_sizes(&mut text, r.sizes)?;
    put_props(&mut text, &r.lines)?;
    put_count(&mut text, b"clauses ", r.clauses.len())?;
    put_clauses(&mut text, &r.clauses)?;
    put_stimuli(&mut text, &r.stimuli)?;
    put_joined(&mut text, r.joined)?;
    put_set(&mut text, &r.set)?;
    if r.shown {
        put_journal(&mut text, &r.journal)?;
    }
    text.push(b"end\n")?;
    Ok(text)
}
