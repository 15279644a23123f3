//! Whole lines, without their LF. Each is None where the line is in another form.

ghost use Rattle.std.specs.Prelude.{◌≡◌, ◌^◌, ◌<◌, ◌==◌, ◌&&◌, IfOk, bytes_eq, codes, length, map, option_map};
ghost use Rattle.std.specs.List.{list_all};
ghost use Rattle.report.specs.Tokens.{small_behind};
ghost use Rattle.report.specs.Lines.{count_of, expectation_at, is_bit_character, is_named, joined_of, journal_of, next_row_of, prop_of, row_of, sizes_of, spaced_at};

use crate::parts::{PropLine, Sizes};
use crate::tokens::{mark, small_behind};
use ja_base::{Memory, Row};
use ja_text::word;
use std::alloc::{AllocError, Global};

fn spaced(bytes: &[u8]) -> Option<(u32, &[u8])>
    ensures { spaced_at bytes.now ≡ option_map (λ x. (x.0, x.1.now)) result }
{
    small_behind(b" ", bytes)
}

#[tactic(auto, unfolding(crate::specs::Lines::sizes_of))]
pub fn sizes_of(line: &[u8]) -> Option<Sizes>
    ensures { result ≡ sizes_of line.now }
{
    let rest = word(line, b"design")?;
    let (vars, rest) = spaced(rest)?;
    let (inputs, rest) = spaced(rest)?;
    let (latches, rest) = spaced(rest)?;
    let (gates, rest) = spaced(rest)?;
    let (props, rest) = spaced(rest)?;
    let constraints = count_of(b" ", rest)?;
    Some(Sizes {
        vars,
        inputs,
        latches,
        gates,
        props,
        constraints,
    })
}

#[tactic(auto, unfolding(crate::specs::Lines::expectation_at))]
fn expectation(bytes: &[u8]) -> Option<(bool, &[u8])>
    ensures { expectation_at bytes.now ≡ option_map (λ x. (x.0, x.1.now)) result }
{
    if let Some(rest) = word(bytes, b" hold ") {
        return Some((true, rest));
    }
    let rest = word(bytes, b" fail ")?;
    Some((false, rest))
}

/// The line of this property.
#[tactic(auto, unfolding(crate::specs::Lines::prop_of))]
pub fn prop_of(prop: u32, line: &[u8]) -> Option<PropLine>
    ensures { result ≡ prop_of prop line.now }
{
    let (named, rest) = small_behind(b"b", line)?;
    let (assumed, rest) = expectation(rest)?;
    let (mark, rest) = mark(rest)?;
    if named != prop || !rest.is_empty() {
        return None;
    }
    Some(PropLine { assumed, mark })
}

/// The number behind the word.
#[tactic(auto, unfolding(crate::specs::Lines::count_of))]
pub fn count_of(word: &[u8], line: &[u8]) -> Option<u32>
    ensures { result ≡ count_of word.now line.now }
{
    match small_behind(word, line) {
        Some((count, [])) => Some(count),
        _ => None,
    }
}

/// Behind the word stands this number.
#[tactic(auto, unfolding(crate::specs::Lines::is_named))]
pub fn is_named(word: &[u8], prop: u32, line: &[u8]) -> Option<u32>
    ensures { result ≡ is_named word.now prop line.now }
{
    let named = count_of(word, line)?;
    if named != prop {
        return None;
    }
    Some(named)
}

fn are_bits(line: &[u8]) -> bool
    ensures { result ≡ list_all is_bit_character line.now }
{
    line.iter().all(|c| *c == b'0' || *c == b'1')
}

fn is_row(width: u32, line: &[u8]) -> bool
    ensures { result ≡ (list_all is_bit_character line.now && length line.now == width) }
{
    are_bits(line) && line.len() == width as usize
}

fn bits_of(alloc: Global, line: &[u8]) -> Result<Vec<bool>, AllocError>
    ensures { IfOk result (λ bits. bits.items ≡ map (λ c. c == 49) line.now) }
{
    line.iter().map(|c| *c == b'1').collect(alloc)
}

#[tactic(auto, unfolding(crate::specs::Lines::row_of))]
pub fn row_of(alloc: Global, width: u32, line: &[u8]) -> Result<Option<Row>, Memory>
    ensures { IfOk result (λ row. row ≡ row_of width line.now) }
{
    if !is_row(width, line) {
        return Ok(None);
    }
    let bits = bits_of(alloc, line)?;
    Ok(Some(Row::from_bits(bits)))
}

fn is_dot(line: &[u8]) -> bool
    ensures { result ≡ bytes_eq line.now (codes ".") }
{
    line == b".".as_slice()
}

/// A row, or none where the rows end.
#[tactic(auto, unfolding(crate::specs::Lines::next_row_of))]
pub fn next_row_of(alloc: Global, width: u32, line: &[u8]) -> Result<Option<Option<Row>>, Memory>
    ensures { IfOk result (λ row. row ≡ next_row_of width line.now) }
{
    if is_dot(line) {
        return Ok(Some(None));
    }
    match row_of(alloc, width, line)? {
        Some(row) => Ok(Some(Some(row))),
        None => Ok(None),
    }
}

#[tactic(auto, unfolding(crate::specs::Lines::joined_of))]
pub fn joined_of(line: &[u8]) -> Option<bool>
    ensures { result ≡ joined_of line.now }
{
    if line == b"joined yes".as_slice() {
        Some(true)
    } else if line == b"joined no".as_slice() {
        Some(false)
    } else {
        None
    }
}

/// How many entries of a journal follow, which are some where there are clauses; none at the end.
#[tactic(auto, unfolding(crate::specs::Lines::journal_of))]
pub fn journal_of(clauses: u32, line: &[u8]) -> Option<Option<u32>>
    ensures { result ≡ journal_of clauses line.now }
{
    if line == b"end".as_slice() {
        return Some(None);
    }
    let count = count_of(b"journal ", line)?;
    if count == 0 && clauses != 0 {
        return None;
    }
    Some(Some(count))
}
