//! The lines of a report, column by column, and the status that they amount to.

ghost use Rattle.std.specs.Prelude.{◌≡◌, ◌<◌, false, length, map, slice_set, if◌then◌else◌, IfOk};
ghost use Rattle.report.specs.declared.parts.PropLine.{PropLine};
ghost use Rattle.report.specs.Findings.{marks_of};
ghost use Rattle.sign_task.specs.Sections.{assumed_of};
ghost use Rattle.jasign_run.specs.Lines.{report_status};

use aig_model::Expect;
use debug_set::status_of;
use ja_base::Memory;
use report::{PropLines, Report};
use std::alloc::Global;
use store_core::Mark;

fn set_where_failing(expect: &mut Expect, prop: u32, assumed: bool)
    requires { prop < length expect.old }
    ensures { expect.new ≡ (if assumed then expect.old else slice_set expect.old prop false) }
{
    if !assumed {
        expect.set_fail(prop);
    }
}

/// Whether each property was expected to hold.
fn assumed_of(alloc: Global, lines: &PropLines) -> Result<Expect, Memory>
    ensures { IfOk result (λ expect. expect ≡ assumed_of lines.now) }
{
    let mut expect = Expect::all(alloc, lines.len())?;
    for prop in 0..lines.len() {
        set_where_failing(&mut expect, prop, lines.get(prop).assumed);
    }
    Ok(expect)
}

/// The marks of all properties.
fn marks_of(alloc: Global, lines: &PropLines) -> Result<Vec<Mark>, Memory>
    ensures { IfOk result (λ marks. marks.items ≡ marks_of lines.now) }
{
    let mut marks = Vec::new(alloc);
    for line in lines.as_slice() {
        marks.push(line.mark)?;
    }
    Ok(marks)
}

/// The status of a report's marks against what its lines expected.
pub fn report_status(alloc: Global, report: &Report) -> Result<u8, Memory>
    ensures { IfOk result (λ status. status ≡ report_status report.now) }
{
    let expect = assumed_of(alloc, &report.lines)?;
    let marks = marks_of(alloc, &report.lines)?;
    let status = status_of(&expect, marks.as_slice());
    Ok(status)
}
