//! The text of an expectations file.

ghost use Rattle.std.specs.Prelude.{◌≡◌, ◌≤◌, Bool, List, length, option_map, IfOk, IfSome};
ghost use Rattle.ja_base.specs.Answers.{IfRefused};
ghost use Rattle.ja_text.specs.Reading.{Gives};
ghost use Rattle.expect_file.specs.ExpectationsReading.{parts, parts_behind, lines_read, all_read, expectations_of};
ghost use Rattle.expect_file.specs.ExpectationsText.{IsExpectations};
ghost use Rattle.expect_file.specs.FirstRefusal.{IsFirstRefusal};

use crate::found::Found;
use crate::limits::MOST_BYTES;
use crate::line::cut;
use crate::refusal::{ExpectRefusal, Read};
use aig_model::{Design, Expect};
use ja_base::OrMemory;
use std::alloc::Global;

/// What an expectations file says of each property of a design.
pub fn read_expect(
    alloc: Global,
    bytes: &[u8],
    design: &Design,
) -> Result<Expect, OrMemory<ExpectRefusal>>
    ensures found { IfOk result (IsExpectations design.now bytes.now) }
    ensures only { (expected : List Bool) → IsExpectations design.now bytes.now expected
        → IfOk result (λ expect. expect ≡ expected) }
    ensures refused { IfRefused result (IsFirstRefusal design.now bytes.now) }
    ensures not_refused { (expected : List Bool) → IsExpectations design.now bytes.now expected
        → IfRefused result (λ _. ⊥) }
{
    let expect = read_exactly(alloc, bytes, design)?;
    Ok(expect)
}

/// Takes the lines behind the first one.
fn take_lines(found: &mut Found, bytes: Option<&[u8]>) -> Read<()>
    requires sized { length found.old.named ≡ length found.old.expect }
    requires small { IfSome bytes (λ rest. length rest.now ≤ MOST_BYTES) }
    ensures { Gives (λ _. found.new) result
        (lines_read 2 found.old (parts_behind (option_map (λ x. x.now) bytes.entry))) }
{
    let mut number = 2;
    let mut behind = bytes;
    while let Some(rest) = behind {
        let (line, after) = cut(rest);
        found.take(number, line)?;
        number += 1;
        behind = after;
    }
    Ok(())
}

#[tactic(auto, unfolding(crate::specs::ExpectationsReading::all_read))]
fn all_read(alloc: Global, bytes: &[u8], props: u32) -> Read<Expect>
    requires { length bytes.now ≤ MOST_BYTES }
    ensures { Gives (λ expect. expect) result (all_read props (parts bytes.now)) }
{
    let (first, behind) = cut(bytes);
    if first != b"expect 1".as_slice() {
        return Err(OrMemory::Refused(ExpectRefusal::Line { line: 1 }));
    }
    let mut found = Found::start(alloc, props)?;
    take_lines(&mut found, behind)?;
    Ok(found.expect)
}

#[tactic(auto, unfolding(crate::specs::ExpectationsReading::expectations_of))]
fn read_exactly(alloc: Global, bytes: &[u8], design: &Design) -> Read<Expect>
    ensures { Gives (λ expect. expect) result (expectations_of design.now bytes.now) }
{
    if bytes.len() > MOST_BYTES {
        return Err(OrMemory::Refused(ExpectRefusal::TooLarge));
    }
    let expect = all_read(alloc, bytes, design.props())?;
    Ok(expect)
}
