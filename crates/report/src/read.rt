//! A report out of its text.

ghost use Rattle.std.specs.Prelude.{◌≡◌, ◌≤◌, ◌+◌, ◌-◌, [], false, length, take, IfOk};
ghost use Rattle.ja_base.specs.Answers.{IfRefused};
ghost use Rattle.report.specs.Findings.{Findings, as_shown};
ghost use Rattle.report.specs.Reports.{IsReportText, IsFirstRefusal, line_count};
ghost use Rattle.report.specs.Whole.{ReadsWhole};

use crate::line::Read;
use crate::read_whole::take_report;
use crate::refusal::ReportRefusal;
use crate::take::bad;
use crate::value::Report;
use crate::version::other_version;
use ja_base::OrMemory;
use std::alloc::Global;

fn line_count(bytes: &[u8]) -> usize
    ensures count { result ≡ line_count bytes.now }
    ensures most { result ≤ length bytes.now }
{
    bytes.iter().filter(|b| **b == b'\n').count()
}

/// The number of the line that begins where so many bytes are left.
fn line_number(bytes: &[u8], left: usize) -> u64
    requires { left ≤ length bytes.now }
    ensures { result ≡ line_count (take (length bytes.now - left) bytes.now) + 1 }
{
    line_count(&bytes[..bytes.len() - left]) as u64 + 1
}

fn read_whole(alloc: Global, bytes: &[u8]) -> Read<Report>
    ensures { ReadsWhole bytes.now result }
{
    let (report, rest) = take_report(alloc, bytes)?;
    if !rest.is_empty() {
        return Err(bad(rest));
    }
    Ok(report)
}

/// The report whose text the bytes are, or the first refusal. Lines are counted only where one is refused.
pub fn read_report(alloc: Global, bytes: &[u8]) -> Result<Report, OrMemory<ReportRefusal>>
    ensures read { IfOk result (IsReportText bytes.now) }
    ensures hidden { IfOk result (λ r. r.shown ≡ false → r.journal ≡ []) }
    ensures only { (r : Findings) → IsReportText bytes.now r
        → IfOk result (λ read. read ≡ as_shown r) }
    ensures not_refused { (r : Findings) → IsReportText bytes.now r → IfRefused result (λ _. ⊥) }
    ensures refused { IfRefused result (IsFirstRefusal bytes.now) }
{
    let other = other_version(bytes);
    if other.is_some() {
        return Err(OrMemory::Refused(ReportRefusal::Version));
    }
    match read_whole(alloc, bytes) {
        Ok(report) => Ok(report),
        Err(OrMemory::Refused(bad)) => {
            let line = line_number(bytes, bad.left);
            Err(OrMemory::Refused(ReportRefusal::Line { line }))
        }
        Err(OrMemory::Memory) => Err(OrMemory::Memory),
    }
}
