//! Lines out of their text.

ghost use Rattle.std.specs.Prelude.{◌≡◌, List, IfOk};
ghost use Rattle.ja_base.specs.Answers.{IfRefused};
ghost use Rattle.refute_check.specs.declared.lines.Line.{Line};
ghost use Rattle.refute_text.specs.RefutationText.{IsFirstBadLine, Spells};

use crate::line::take_line;
use ja_base::OrMemory;
use ja_text::Bad;
use refute_check::Lines;
use std::alloc::Global;

/// The lines whose text the bytes are, or the place of the first line that is none. A last line without LF is none. There is no
/// memory for 2^32 lines, nor for a line with as many hints.
pub fn read_lines(alloc: Global, bytes: &[u8]) -> Result<Lines, OrMemory<Bad>>
    ensures found { IfOk result (Spells bytes.now) }
    ensures only { (lines : List Line) → Spells bytes.now lines
        → IfOk result (λ read. read ≡ lines) }
    ensures not_refused { (lines : List Line) → Spells bytes.now lines → IfRefused result (λ _. ⊥) }
    ensures refused { IfRefused result (λ bad. IsFirstBadLine bytes.now bad.at) }
{
    let mut lines = Lines::new(alloc);
    let mut rest = bytes;
    while !rest.is_empty() {
        let Some((line, after)) = take_line(alloc, rest)? else {
            return Err(OrMemory::Refused(Bad {
                at: bytes.len() - rest.len(),
            }));
        };
        lines.push(line)?;
        rest = after;
    }
    Ok(lines)
}
