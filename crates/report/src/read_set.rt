//! The debugging set of a report.

ghost use Rattle.std.specs.Prelude.{◌≡◌, ◌↔◌, [], codes, nat_lt, IfOk, IsTrue};
ghost use Rattle.std.specs.List.{list_all};
ghost use Rattle.std.specs.List.Sorted.{IsStrictlyIncreasing};
ghost use Rattle.report.specs.Reports.{set_words};
ghost use Rattle.report.specs.Forms.{Reads};
ghost use Rattle.report.specs.Numbers.{IsFound, TakesAll};
ghost use Rattle.report.specs.Sections.{IsSet, set_form};

use crate::line::Read;
use crate::take::bad;
use crate::tokens::small_behind;
use ja_base::{Memory, Props};
use ja_text::{line, word};
use std::alloc::Global;

/// All the properties that stand here, and what follows them.
fn props_of(alloc: Global, bytes: &[u8]) -> Result<(Props, &[u8]), Memory>
    ensures { IfOk result (λ x. TakesAll (codes " b") bytes.now [] x.0 x.1.now) }
{
    let mut props = Props::new(alloc);
    let mut rest = bytes;
    while let Some((prop, after)) = small_behind(b" b", rest) {
        props.push(prop)?;
        rest = after;
    }
    Ok((props, rest))
}

fn ascend(props: &[u32]) -> bool
    ensures { IsTrue result ↔ IsStrictlyIncreasing props.now }
{
    for at in 1..props.len() {
        if props[at - 1] >= props[at] {
            return false;
        }
    }
    true
}

fn are_below(props: &[u32], count: u32) -> bool
    ensures { result ≡ list_all (λ p. nat_lt p count) props.now }
{
    props.iter().all(|prop| *prop < count)
}

fn is_set(props: &[u32], count: u32) -> bool
    ensures { IsTrue result ↔ IsSet count props.now }
{
    ascend(props) && are_below(props, count)
}

/// The set of a line, if it is one.
fn set_of(alloc: Global, count: u32, line: &[u8]) -> Result<Option<Props>, Memory>
    ensures { IfOk result (IsFound (IsSet count) set_words line.now) }
{
    let Some(rest) = word(line, b"set") else {
        return Ok(None);
    };
    let (props, rest) = props_of(alloc, rest)?;
    if !rest.is_empty() {
        return Ok(None);
    }
    if !is_set(props.as_slice(), count) {
        return Ok(None);
    }
    Ok(Some(props))
}

/// The line of the set, of so many properties.
pub fn take_set(alloc: Global, count: u32, bytes: &[u8]) -> Read<(Props, &[u8])>
    ensures { Reads (set_form count) (λ x. x.0) (λ x. x.1.now) bytes.now result }
{
    let Some((line, rest)) = line(bytes) else {
        return Err(bad(bytes));
    };
    let Some(set) = set_of(alloc, count, line)? else {
        return Err(bad(bytes));
    };
    Ok((set, rest))
}
