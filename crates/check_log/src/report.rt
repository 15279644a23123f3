//! The line that is written.

use crate::log::Checked;
use ja_base::Memory;
use ja_outside::{Sink, write_whole};
use ja_text::Text;
use std::alloc::Global;

fn line_of(alloc: Global, checked: Checked) -> Result<Text, Memory> {
    let mut text = Text::new(alloc);
    match checked {
        Checked::Accepted { lines } => {
            text.push(b"accepted ")?;
            text.number(u64::from(lines))?;
        }
        Checked::Refused { line, hint } => {
            text.push(b"refused line ")?;
            text.number(u64::from(line))?;
            text.push(b" at hint ")?;
            text.number(u64::from(hint))?;
        }
        Checked::Foreign => text.push(b"a variable is too large")?,
    }
    text.push(b"\n")?;
    Ok(text)
}

/// Writes what came of a log, and answers 0 where all was accepted.
pub(crate) fn report<K: Sink>(alloc: Global, checked: Checked, out: &mut K) -> u8 {
    let Ok(text) = line_of(alloc, checked) else {
        return 6;
    };
    match (write_whole(out, text.bytes()), checked) {
        (Err(_), _) => 5,
        (Ok(()), Checked::Accepted { .. }) => 0,
        (Ok(()), _) => 1,
    }
}
