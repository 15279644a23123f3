//! The lines at the front of bytes, each with what follows it, or the refusal that it is not in form.

ghost use Rattle.std.specs.Prelude.{◌≡◌, ◌↔◌, IsTrue, length};
ghost use Rattle.ja_base.specs.declared.memory.OrMemory.TheVariants.{Refused};
ghost use Rattle.ja_text.specs.Lines.{IsOneLine};
ghost use Rattle.report.specs.Forms.{Reads};
ghost use Rattle.report.specs.Sections.{count_form, joined_form, journal_form, named_form, next_row_form, prop_form, row_form, sizes_form, words_form};

use crate::decode::{
    count_of, is_named, joined_of, journal_of, next_row_of, prop_of, row_of, sizes_of,
};
use crate::line::{BadLine, Read};
use crate::parts::{PropLine, Sizes};
use ja_base::{OrMemory, Row};
use ja_text::line;
use std::alloc::Global;

/// The line at the front of these bytes is not in form.
pub fn bad(bytes: &[u8]) -> OrMemory<BadLine>
    ensures { result ≡ Refused (record { left = length bytes.now }) }
{
    OrMemory::Refused(BadLine { left: bytes.len() })
}

fn is_line(line: &[u8], words: &[u8]) -> bool
    ensures { IsTrue result ↔ (line.now ≡ words.now) }
{
    line == words
}

/// A line of these words.
pub fn take_words<'a>(bytes: &'a [u8], words: &[u8]) -> Read<&'a [u8]>
    requires { IsOneLine words.now }
    ensures { Reads (words_form words.now) (λ _. tt) (λ x. x.now) bytes.now result }
{
    let Some((line, rest)) = line(bytes) else {
        return Err(bad(bytes));
    };
    if !is_line(line, words) {
        return Err(bad(bytes));
    }
    Ok(rest)
}

/// A line of the word and this number.
pub fn take_named<'a>(bytes: &'a [u8], word: &[u8], prop: u32) -> Read<&'a [u8]>
    requires { IsOneLine word.now }
    ensures { Reads (named_form word.now prop) (λ _. tt) (λ x. x.now) bytes.now result }
{
    let Some((line, rest)) = line(bytes) else {
        return Err(bad(bytes));
    };
    let Some(_named) = is_named(word, prop, line) else {
        return Err(bad(bytes));
    };
    Ok(rest)
}

/// A line of the word and a number.
pub fn take_count<'a>(bytes: &'a [u8], word: &[u8]) -> Read<(u32, &'a [u8])>
    requires { IsOneLine word.now }
    ensures { Reads (count_form word.now) (λ x. x.0) (λ x. x.1.now) bytes.now result }
{
    let Some((line, rest)) = line(bytes) else {
        return Err(bad(bytes));
    };
    let Some(count) = count_of(word, line) else {
        return Err(bad(bytes));
    };
    Ok((count, rest))
}

pub fn take_sizes(bytes: &[u8]) -> Read<(Sizes, &[u8])>
    ensures { Reads sizes_form (λ x. x.0) (λ x. x.1.now) bytes.now result }
{
    let Some((line, rest)) = line(bytes) else {
        return Err(bad(bytes));
    };
    let Some(sizes) = sizes_of(line) else {
        return Err(bad(bytes));
    };
    Ok((sizes, rest))
}

pub fn take_prop(bytes: &[u8], prop: u32) -> Read<(PropLine, &[u8])>
    ensures { Reads (prop_form prop) (λ x. x.0) (λ x. x.1.now) bytes.now result }
{
    let Some((line, rest)) = line(bytes) else {
        return Err(bad(bytes));
    };
    let Some(found) = prop_of(prop, line) else {
        return Err(bad(bytes));
    };
    Ok((found, rest))
}

pub fn take_row(alloc: Global, bytes: &[u8], width: u32) -> Read<(Row, &[u8])>
    ensures { Reads (row_form width) (λ x. x.0) (λ x. x.1.now) bytes.now result }
{
    let Some((line, rest)) = line(bytes) else {
        return Err(bad(bytes));
    };
    let Some(row) = row_of(alloc, width, line)? else {
        return Err(bad(bytes));
    };
    Ok((row, rest))
}

/// A row, or none where the rows end.
pub fn take_next_row(alloc: Global, bytes: &[u8], width: u32) -> Read<(Option<Row>, &[u8])>
    ensures { Reads (next_row_form width) (λ x. x.0) (λ x. x.1.now) bytes.now result }
{
    let Some((line, rest)) = line(bytes) else {
        return Err(bad(bytes));
    };
    let Some(row) = next_row_of(alloc, width, line)? else {
        return Err(bad(bytes));
    };
    Ok((row, rest))
}

pub fn take_joined(bytes: &[u8]) -> Read<(bool, &[u8])>
    ensures { Reads joined_form (λ x. x.0) (λ x. x.1.now) bytes.now result }
{
    let Some((line, rest)) = line(bytes) else {
        return Err(bad(bytes));
    };
    let Some(joined) = joined_of(line) else {
        return Err(bad(bytes));
    };
    Ok((joined, rest))
}

/// How many entries of a journal follow, or none where the end is.
pub fn take_next(bytes: &[u8], clauses: u32) -> Read<(Option<u32>, &[u8])>
    ensures { Reads (journal_form clauses) (λ x. x.0) (λ x. x.1.now) bytes.now result }
{
    let Some((line, rest)) = line(bytes) else {
        return Err(bad(bytes));
    };
    let Some(next) = journal_of(clauses, line) else {
        return Err(bad(bytes));
    };
    Ok((next, rest))
}
