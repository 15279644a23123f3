//! The stimuli of a report.

ghost use Rattle.std.specs.Prelude.{◌≡◌};
ghost use Rattle.store_core.specs.MarkKinds.{fails};
ghost use Rattle.report.specs.Findings.{marks_of};
ghost use Rattle.report.specs.Forms.{Reads};
ghost use Rattle.report.specs.Sections.{Adds, inputs_form, names_form, stimuli_form, stimulus_form, where_form};

use crate::line::Read;
use crate::parts::{PropLines, PropStim, Sizes, Stimuli};
use crate::take::{take_named, take_next_row, take_row, take_words};
use aig_model::Stimulus;
use ja_base::Rows;
use std::alloc::Global;
use store_core::Mark;

fn take_names(bytes: &[u8], prop: u32) -> Read<&[u8]>
    ensures { Reads (names_form prop) (λ _. (tt, (tt, tt))) (λ x. x.now) bytes.now result }
{
    let rest = take_named(bytes, b"stimulus b", prop)?;
    let rest = take_words(rest, b"1")?;
    let rest = take_named(rest, b"b", prop)?;
    Ok(rest)
}

/// One row or more, up to the dot.
fn take_inputs(alloc: Global, width: u32, bytes: &[u8]) -> Read<(Rows, &[u8])>
    ensures { Reads (inputs_form width) (λ x. x.0) (λ x. x.1.now) bytes.now result }
{
    let (first, mut rest) = take_row(alloc, bytes, width)?;
    let mut rows = Rows::one(alloc, first)?;
    loop {
        let (next, after) = take_next_row(alloc, rest, width)?;
        let Some(row) = next else {
            return Ok((rows, after));
        };
        rows.push(row)?;
        rest = after;
    }
}

fn take_stimulus(alloc: Global, sizes: Sizes, prop: u32, bytes: &[u8]) -> Read<(PropStim, &[u8])>
    ensures { Reads (stimulus_form sizes prop) (λ x. x.0) (λ x. x.1.now) bytes.now result }
{
    let rest = take_names(bytes, prop)?;
    let (first, rest) = take_row(alloc, rest, sizes.latches)?;
    let (inputs, rest) = take_inputs(alloc, sizes.inputs, rest)?;
    let stim = Stimulus::new(first, inputs);
    Ok((PropStim { prop, stim }, rest))
}

/// A stimulus for the property, if it fails.
fn take_where<'a>(
    alloc: Global,
    sizes: Sizes,
    prop: u32,
    fails: bool,
    stimuli: &mut Stimuli,
    bytes: &'a [u8],
) -> Read<&'a [u8]>
    ensures { Adds (where_form fails sizes prop) stimuli.old stimuli.new (λ x. x.now)
        bytes.now result }
{
    if !fails {
        return Ok(bytes);
    }
    let (stimulus, rest) = take_stimulus(alloc, sizes, prop, bytes)?;
    stimuli.push(stimulus)?;
    Ok(rest)
}

fn does_fail(mark: Mark) -> bool
    ensures { result ≡ fails mark }
{
    matches!(mark, Mark::Fails)
}

/// A stimulus for each property that fails.
pub fn take_stimuli<'a>(
    alloc: Global,
    sizes: Sizes,
    lines: &PropLines,
    bytes: &'a [u8],
) -> Read<(Stimuli, &'a [u8])>
    ensures { Reads (stimuli_form sizes 0 (marks_of lines.now)) (λ x. x.0) (λ x. x.1.now)
        bytes.now result }
{
    let mut stimuli = Stimuli::new(alloc);
    let mut rest = bytes;
    for prop in 0..lines.len() {
        let fails = does_fail(lines.get(prop).mark);
        rest = take_where(alloc, sizes, prop, fails, &mut stimuli, rest)?;
    }
    Ok((stimuli, rest))
}
