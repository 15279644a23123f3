//! The text of lines.

ghost use Rattle.std.specs.Prelude.{◌≡◌, ◌<◌, ◌^◌, ◌++◌, IfOk, OnOk, flat_map};
ghost use Rattle.refute_text.specs.RefutationText.{AreLines, AreSmall, IsLine, line_text, refutation_text, spaced};

use ja_base::{Lit, Memory};
use ja_text::Text;
use refute_check::{Line, Lines};
use std::alloc::Global;

fn put_number(text: &mut Text, number: u32) -> Result<(), Memory>
    ensures small { number < 2 ^ 32 }
    ensures text { OnOk result (text.new ≡ text.old ++ spaced number) }
{
    text.push(b" ")?;
    text.number(u64::from(number))
}

fn put_lits(text: &mut Text, lits: &[Lit]) -> Result<(), Memory>
    ensures small { OnOk result (AreSmall lits.now) }
    ensures text { OnOk result (text.new ≡ text.old ++ flat_map spaced lits.now) }
{
    for lit in lits {
        put_number(text, lit.number())?;
    }
    Ok(())
}

fn put_hints(text: &mut Text, hints: &[u32]) -> Result<(), Memory>
    ensures small { OnOk result (AreSmall hints.now) }
    ensures text { OnOk result (text.new ≡ text.old ++ flat_map spaced hints.now) }
{
    for hint in hints {
        put_number(text, *hint)?;
    }
    Ok(())
}

fn put_line(text: &mut Text, line: &Line) -> Result<(), Memory>
    ensures is_line { OnOk result (IsLine line.now) }
    ensures text { OnOk result (text.new ≡ text.old ++ line_text line.now) }
{
    put_lits(text, line.clause.lits())?;
    text.push(b" ;")?;
    put_hints(text, line.hints.as_slice())?;
    text.push(b"\n")?;
    Ok(())
}

/// One line of text for each line.
pub fn lines_text(alloc: Global, lines: &Lines) -> Result<Text, Memory>
    ensures are_lines { OnOk result (AreLines lines.now) }
    ensures text { IfOk result (λ text. text ≡ refutation_text lines.now) }
{
    let mut text = Text::new(alloc);
    for line in lines.as_slice() {
        put_line(&mut text, line)?;
    }
    Ok(text)
}
