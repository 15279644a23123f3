//! A report at the front of bytes.

ghost use Rattle.std.specs.Prelude.{◌<◌, ◌^◌, length};
ghost use Rattle.report.specs.Findings.{marks_of};
ghost use Rattle.report.specs.Forms.{Reads};
ghost use Rattle.report.specs.Whole.{found_form, head_form, report_form};

use crate::line::Read;
use crate::parts::{PropLines, Sizes, Stimuli};
use crate::read_clauses::take_clauses;
use crate::read_end::take_end;
use crate::read_props::take_props;
use crate::read_stimuli::take_stimuli;
use crate::take::{take_sizes, take_words};
use crate::value::Report;
use ja_base::ClauseList;
use std::alloc::Global;

/// The sizes, and a line for each property.
fn take_head(alloc: Global, bytes: &[u8]) -> Read<(Sizes, PropLines, &[u8])>
    ensures { Reads head_form (λ x. (tt, (x.0, x.1))) (λ x. x.2.now) bytes.now result }
{
    let rest = take_words(bytes, b"jasign 1")?;
    let (sizes, rest) = take_sizes(rest)?;
    let (lines, rest) = take_props(alloc, sizes.props, rest)?;
    Ok((sizes, lines, rest))
}

/// The clauses, and a stimulus for each property that fails.
fn take_found<'a>(
    alloc: Global,
    sizes: Sizes,
    lines: &PropLines,
    bytes: &'a [u8],
) -> Read<(ClauseList, Stimuli, &'a [u8])>
    requires { length lines.now < 2 ^ 32 }
    ensures { Reads (found_form sizes (marks_of lines.now)) (λ x. ((length x.0, x.0), x.1))
        (λ x. x.2.now) bytes.now result }
{
    let (clauses, rest) = take_clauses(alloc, sizes.vars, bytes)?;
    let (stimuli, rest) = take_stimuli(alloc, sizes, lines, rest)?;
    Ok((clauses, stimuli, rest))
}

/// A report, and what follows its text.
pub fn take_report(alloc: Global, bytes: &[u8]) -> Read<(Report, &[u8])>
    ensures { Reads report_form (λ x. x.0) (λ x. x.1.now) bytes.now result }
{
    let (sizes, lines, rest) = take_head(alloc, bytes)?;
    let (clauses, stimuli, rest) = take_found(alloc, sizes, &lines, rest)?;
    let (end, rest) = take_end(alloc, sizes.props, &clauses, rest)?;
    let report = Report {
        sizes,
        lines,
        clauses,
        stimuli,
        joined: end.joined,
        set: end.set,
        journal: end.journal,
        shown: end.shown,
    };
    Ok((report, rest))
}
