//! The line that is written.

use crate::certify::Certified;
use inv_cert::NotClosed;
use ja_base::Memory;
use ja_outside::{Sink, write_whole};
use ja_text::Text;
use std::alloc::Global;

fn put(text: &mut Text, words: &[u8], number: u32) -> Result<(), Memory> {
    text.push(words)?;
    text.number(u64::from(number))
}

fn put_refusal(text: &mut Text, refusal: NotClosed) -> Result<(), Memory> {
    match refusal {
        NotClosed::Foreign(number) => put(text, b"foreign ", number),
        NotClosed::Start(number) => put(text, b"start ", number),
        NotClosed::Missing(number) => put(text, b"missing ", number),
        NotClosed::Left(number) => put(text, b"left ", number),
        NotClosed::Line {
            candidate,
            line,
            hint,
        } => {
            put(text, b"line ", candidate)?;
            put(text, b" ", line)?;
            put(text, b" ", hint)
        }
    }
}

fn line_of(alloc: Global, certified: Certified) -> Result<Text, Memory> {
    let mut text = Text::new(alloc);
    match certified {
        Certified::Closed { clauses, covered } => {
            put(&mut text, b"closed ", clauses)?;
            if let Some(covered) = covered {
                put(&mut text, b" covers ", covered)?;
            }
        }
        Certified::Refused(refusal) => put_refusal(&mut text, refusal)?,
        Certified::TooLarge => text.push(b"a variable is too large")?,
    }
    text.push(b"\n")?;
    Ok(text)
}

/// Writes what came of a list, and answers 0 where all of it is closed.
pub(crate) fn report<K: Sink>(alloc: Global, certified: Certified, out: &mut K) -> u8 {
    let Ok(text) = line_of(alloc, certified) else {
        return 6;
    };
    match (write_whole(out, text.bytes()), certified) {
        (Err(_), _) => 5,
        (Ok(()), Certified::Closed { .. }) => 0,
        (Ok(()), _) => 1,
    }
}
