//! The marks of a board that is over, and the lines of a report.

ghost use Rattle.std.specs.Prelude.{◌≡◌, Some, length, map, All, IsSome, IfOk};
ghost use Rattle.report.specs.Findings.{marks_of};
ghost use Rattle.sign_task.specs.Sections.{assumed_of};

use aig_model::Expect;
use ja_base::Memory;
use report::{PropLine, PropLines};
use std::alloc::Global;
use store_core::Mark;

/// The mark of each property, of which each has one.
pub(crate) fn marks_of(alloc: Global, slots: &[Option<Mark>]) -> Result<Vec<Mark>, Memory>
    requires { All (λ slot. IsSome slot) slots.now }
    ensures { IfOk result (λ marks. map Some marks.items ≡ slots.now) }
{
    let mut marks = Vec::with_capacity(alloc, slots.len())?;
    for slot in slots {
        let Some(mark) = slot else {
            unreachable!();
        };
        marks.push_reserved(*mark);
    }
    Ok(marks)
}

pub(crate) fn lines_of(alloc: Global, expect: &Expect, marks: &[Mark]) -> Result<PropLines, Memory>
    requires { length marks.now ≡ length expect.now }
    ensures assumed { IfOk result (λ lines. assumed_of lines ≡ expect.now) }
    ensures marks { IfOk result (λ lines. marks_of lines ≡ marks.now) }
{
    let mut lines = PropLines::new(alloc);
    for prop in 0..expect.len() {
        let (assumed, mark) = (expect.is_assumed(prop), marks[prop as usize]);
        lines.push(PropLine { assumed, mark })?;
    }
    Ok(lines)
}
