//! The header, and the sizes that are taken.

ghost use Rattle.std.specs.Prelude.{◌≡◌, ℕ, ◌+◌, ◌≤◌, length, slice_index, option_map, not, IfOk};
ghost use Rattle.ja_text.specs.Reading.{Gives};
ghost use Rattle.aiger_lines.specs.Header.{word_of, header_of, property_count, definition_count, IsWithinLimits};
ghost use Rattle.aiger_lines.specs.Reading.{fits_sum, header_line_at, taken_sizes, header_at};

use crate::form::Form;
use crate::limits::{MOST_BYTES, MOST_LINES, MOST_PROPERTIES, MOST_VARS};
use crate::refusal::{Large, Read, ReadRefusal};
use crate::sizes::Header;
use ja_base::OrMemory;
use ja_text::{row, space, word};

/// The word that begins a file of the form.
fn word_of(form: Form) -> &'static [u8]
    ensures { result.now ≡ word_of form }
{
    match form {
        Form::Ascii => b"aag",
        Form::Binary => b"aig",
    }
}

fn number_or_zero(numbers: &[u64], at: usize) -> u64
    ensures { result ≡ slice_index numbers.now at }
{
    if at < numbers.len() { numbers[at] } else { 0 }
}

fn header_from(numbers: &[u64]) -> Header
    ensures { result ≡ header_of numbers.now }
{
    Header {
        vars: number_or_zero(numbers, 0),
        inputs: number_or_zero(numbers, 1),
        latches: number_or_zero(numbers, 2),
        outputs: number_or_zero(numbers, 3),
        gates: number_or_zero(numbers, 4),
        bads: number_or_zero(numbers, 5),
        constraints: number_or_zero(numbers, 6),
        justice: number_or_zero(numbers, 7),
        fairness: number_or_zero(numbers, 8),
    }
}

#[tactic(auto, unfolding(crate::specs::Reading::header_line_at))]
fn header_line(form: Form, bytes: &[u8]) -> Option<(Header, &[u8])>
    ensures { header_line_at (word_of form) bytes.now ≡ option_map (λ x. (x.0, x.1.now)) result }
{
    let rest = word(bytes, word_of(form))?;
    let rest = space(rest)?;
    match row(rest) {
        Some((numbers, rest)) if numbers.len() >= 5 => {
            Some((header_from(numbers.as_slice()), rest))
        }
        _ => None,
    }
}

fn properties(header: &Header) -> u64
    ensures { result ≡ property_count header.now }
{
    if header.bads == 0 {
        header.outputs
    } else {
        header.bads
    }
}

/// Whether M agrees with the numbers of inputs, latches and gates.
fn sum_fits(form: Form, header: &Header) -> bool
    ensures { result ≡ fits_sum form header.now }
{
    let sum = u128::from(header.inputs) + u128::from(header.latches) + u128::from(header.gates);
    match form {
        Form::Ascii => sum <= u128::from(header.vars),
        Form::Binary => sum == u128::from(header.vars),
    }
}

#[tactic(auto, unfolding(crate::specs::Reading::taken_sizes))]
fn taken(form: Form, header: Header) -> Read<Header>
    ensures read { Gives (λ h. h) result (taken_sizes form header) }
    ensures limits { IfOk result (IsWithinLimits form) }
{
    if header.vars > MOST_VARS {
        return Err(OrMemory::Refused(ReadRefusal::TooLarge { what: Large::Vars }));
    }
    if header.justice > 0 || header.fairness > 0 {
        return Err(OrMemory::Refused(ReadRefusal::Liveness));
    }
    if !sum_fits(form, &header) {
        return Err(OrMemory::Refused(ReadRefusal::Header { at: 0 }));
    }
    if properties(&header) > MOST_PROPERTIES {
        return Err(OrMemory::Refused(ReadRefusal::TooLarge { what: Large::Props }));
    }
    if header.outputs > MOST_LINES || header.constraints > MOST_LINES {
        return Err(OrMemory::Refused(ReadRefusal::TooLarge { what: Large::Lines }));
    }
    Ok(header)
}

/// The header of a file in the form. What is left begins behind its line.
#[tactic(auto, unfolding(crate::specs::Reading::header_at))]
pub fn read_header(form: Form, rest: &mut &[u8]) -> Read<Header>
    ensures read { Gives (λ h. (h, rest.new.now)) result (header_at form rest.old.now) }
    ensures limits { IfOk result (IsWithinLimits form) }
{
    if rest.len() > MOST_BYTES {
        return Err(OrMemory::Refused(ReadRefusal::TooLarge { what: Large::File }));
    }
    let Some((header, after)) = header_line(form, *rest) else {
        return Err(OrMemory::Refused(ReadRefusal::Header { at: 0 }));
    };
    *rest = after;
    taken(form, header)
}
