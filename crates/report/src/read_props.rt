//! The lines of the properties.

ghost use Rattle.report.specs.Forms.{Reads};
ghost use Rattle.report.specs.Sections.{props_form};

use crate::line::Read;
use crate::parts::PropLines;
use crate::take::take_prop;
use std::alloc::Global;

/// A line for each of so many properties.
pub fn take_props(alloc: Global, count: u32, bytes: &[u8]) -> Read<(PropLines, &[u8])>
    ensures { Reads (props_form count 0) (λ x. x.0) (λ x. x.1.now) bytes.now result }
{
    let mut lines = PropLines::new(alloc);
    let mut rest = bytes;
    for prop in 0..count {
        let (line, after) = take_prop(rest, prop)?;
        lines.push(line)?;
        rest = after;
    }
    Ok((lines, rest))
}
