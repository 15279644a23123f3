//! The lines of a stimulus text.

ghost use Rattle.std.specs.Prelude.{◌≡◌, ℕ, ◌^◌, ◌<◌, Bool, List, IfOk, [], length, map, option_map, ◌==◌};
ghost use Rattle.std.specs.List.{list_all};
ghost use Rattle.ja_text.specs.Reading.{Gives};
ghost use Rattle.local_stim.specs.StimulusReading.{is_dot, is_row_character, due_line, bits_of, property_of, known_property, after_one, property_at, row_at, next_row_at, dot_at};

use crate::refusal::StimRefusal;
use ja_base::{OrMemory, Row};
use ja_text::{line, whole_number};
use std::alloc::{AllocError, Global};

/// What is read, or the first refusal, or want of memory.
pub type Read<T> = Result<T, OrMemory<StimRefusal>>;

pub fn is_dot(line: &[u8]) -> bool
    ensures { result ≡ is_dot line.now }
{
    line == b".".as_slice()
}

/// The line that is due, and what follows it.
#[tactic(auto, unfolding(crate::specs::StimulusReading::due_line))]
pub fn due_line(number: u64, rest: &[u8]) -> Read<(&[u8], &[u8])>
    ensures { Gives (λ x. (x.0.now, x.1.now)) result (due_line number rest.now) }
{
    match line(rest) {
        Some(found) => Ok(found),
        None if is_dot(rest) => Ok((rest, &[])),
        None => Err(OrMemory::Refused(StimRefusal::Short { line: number })),
    }
}

fn are_row_characters(line: &[u8]) -> bool
    ensures { result ≡ list_all is_row_character line.now }
{
    line.iter().all(|c| *c == b'0' || *c == b'1' || *c == b'x')
}

fn bits_of_characters(alloc: Global, line: &[u8]) -> Result<Vec<bool>, AllocError>
    ensures { IfOk result (λ bits. bits.items ≡ map (λ c. c == 49) line.now) }
{
    line.iter().map(|c| *c == b'1').collect(alloc)
}

/// The bits of a row of `width` characters.
#[tactic(auto, unfolding(crate::specs::StimulusReading::bits_of))]
pub fn bits_of(alloc: Global, width: u32, number: u64, line: &[u8]) -> Read<Row>
    ensures { Gives (λ row. row) result (bits_of width number line.now) }
{
    if !are_row_characters(line) {
        return Err(OrMemory::Refused(StimRefusal::Line { line: number }));
    }
    if line.len() != width as usize {
        return Err(OrMemory::Refused(StimRefusal::Width { line: number }));
    }
    let bits = bits_of_characters(alloc, line)?;
    Ok(Row::from_bits(bits))
}

/// `b` and a number.
#[tactic(auto, unfolding(crate::specs::StimulusReading::property_of))]
fn property_of(line: &[u8]) -> Option<u64>
    ensures { result ≡ property_of line.now }
{
    match line {
        [b'b', digits @ ..] => whole_number(digits),
        _ => None,
    }
}

#[tactic(auto, unfolding(crate::specs::StimulusReading::known_property))]
fn known_property(count: u32, line: &[u8]) -> Read<u32>
    ensures { Gives (λ p. p) result (known_property count line.now) }
{
    match property_of(line) {
        None => Err(OrMemory::Refused(StimRefusal::Line { line: 2 })),
        Some(property) if property < u64::from(count) => Ok(property as u32),
        Some(_) => Err(OrMemory::Refused(StimRefusal::Unknown { line: 2 })),
    }
}

/// What follows the first line.
#[tactic(auto, unfolding(crate::specs::StimulusReading::after_one))]
pub fn after_one(bytes: &[u8]) -> Read<&[u8]>
    ensures { Gives (λ x. x.now) result (after_one bytes.now) }
{
    let (line, rest) = due_line(1, bytes)?;
    if line == b"1".as_slice() {
        Ok(rest)
    } else {
        Err(OrMemory::Refused(StimRefusal::Line { line: 1 }))
    }
}

/// The property of the second line, and what follows it.
#[tactic(auto, unfolding(crate::specs::StimulusReading::property_at))]
pub fn property_at(count: u32, rest: &[u8]) -> Read<(u32, &[u8])>
    ensures { Gives (λ x. (x.0, x.1.now)) result (property_at count rest.now) }
{
    let (line, rest) = due_line(2, rest)?;
    let property = known_property(count, line)?;
    Ok((property, rest))
}

/// The row that must stand at a line, and what follows it.
#[tactic(auto, unfolding(crate::specs::StimulusReading::row_at))]
pub fn row_at(alloc: Global, width: u32, number: u64, rest: &[u8]) -> Read<(Row, &[u8])>
    ensures { Gives (λ x. (x.0, x.1.now)) result (row_at width number rest.now) }
{
    let (line, rest) = due_line(number, rest)?;
    let row = bits_of(alloc, width, number, line)?;
    Ok((row, rest))
}

/// The input row of a line and what follows it, or None at the dot.
#[tactic(auto, unfolding(crate::specs::StimulusReading::next_row_at))]
pub fn next_row(alloc: Global, width: u32, number: u64, rest: &[u8]) -> Read<Option<(Row, &[u8])>>
    ensures { Gives (λ found. option_map (λ x. (x.0, x.1.now)) found) result
        (next_row_at width number rest.now) }
{
    let (line, rest) = due_line(number, rest)?;
    if is_dot(line) {
        return Ok(None);
    }
    let row = bits_of(alloc, width, number, line)?;
    Ok(Some((row, rest)))
}

/// The dot must stand here.
#[tactic(auto, unfolding(crate::specs::StimulusReading::dot_at))]
pub fn dot_at(number: u64, rest: &[u8]) -> Read<()>
    ensures { Gives (λ _. []) result (dot_at number rest.now) }
{
    let (line, _) = due_line(number, rest)?;
    if is_dot(line) {
        Ok(())
    } else {
        Err(OrMemory::Refused(StimRefusal::TooLarge))
    }
}
