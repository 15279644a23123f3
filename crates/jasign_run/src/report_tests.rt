use crate::jasign_run;
use crate::rows::TWO_LATCHES;
use crate::sign_rows::{ENDS, HOLDS, HOLDS_TEXT, STOPPED_TEXT, WHOLE};
use crate::tests::{shelf_of, words_of};
use ja_outside::MemSink;
use ja_std::OpenGate;
use report::{Report, text_of};
use std::alloc::Global;
use std::sync::Wait;
use std::test::Fail;
use std::thread::Threads;

/// What `sign` writes of a design, with expectations where there are some; the report that it hands back has the same text.
fn signed<'a>(
    rt: &(impl std::process::Abort + AllocGlobal + Threads + Wait + Sync),
    design: &'a [u8],
    expect: Option<&'a [u8]>,
    room: u64,
    options: &[&str],
) -> Result<(MemSink, u8, Option<Report>), Fail> {
    let alloc = rt.alloc();
    let held: [&[u8]; 2] = [design, expect.unwrap_or(b"")];
    let names: &[&str] = match expect {
        Some(_) => &["sign", "d", "s"],
        None => &["sign", "d"],
    };
    let mut shelf = shelf_of(alloc, &held, 4, Vec::new(alloc))?;
    let mut out = MemSink::new(alloc, room)?;
    let mut words = words_of(alloc, names)?;
    for option in options {
        words.push(String::from_str(alloc, option)?)?;
    }
    let ran = jasign_run(rt, alloc, words.as_slice(), &mut shelf, &mut out, &OpenGate);
    Ok((out, ran.status, ran.report))
}

fn check_report(
    rt: &(impl std::process::Abort + AllocGlobal + Threads + Wait + Sync),
    report: Option<Report>,
    text: &[u8],
) -> Result<(), Fail> {
    let report = report.ok_or("no report is handed back")?;
    let again = text_of(rt.alloc(), &report)?;
    assert_eq!(rt; again.bytes(), text);
    Ok(())
}

#[test]
fn whole_reports(rt: HostRuntime) -> Result<(), Fail> {
    for case in &WHOLE {
        let (out, status, report) = signed(&rt, case.design, case.expect, 4096, &[])?;
        assert_eq!(rt; out.bytes(), case.text);
        assert_eq!(rt; status, case.status);
        check_report(&rt, report, case.text)?;
    }
    Ok(())
}

/// The verdicts are those of one worker, however many work and whatever may be spent.
#[test]
fn reports_of_these_verdicts(rt: HostRuntime) -> Result<(), Fail> {
    let options: [&[&str]; 3] = [&[], &["--workers", "4"], &["--budget", "1000000"]];
    for case in &ENDS {
        for options in options {
            let (out, status, report) = signed(&rt, case.design, case.expect, 4096, options)?;
            assert!(rt; out.bytes().starts_with(case.head));
            assert!(rt; out.bytes().ends_with(case.tail));
            assert_eq!(rt; status, case.status);
            check_report(&rt, report, out.bytes())?;
        }
    }
    Ok(())
}

/// The first failure of what is expected to hold ends the run, and the journal says how.
#[test]
fn a_run_that_ends_early(rt: HostRuntime) -> Result<(), Fail> {
    let options = ["--journal", "--fail-fast"];
    let (out, status, report) = signed(&rt, TWO_LATCHES, None, 4096, options.as_slice())?;
    assert_eq!(rt; out.bytes(), STOPPED_TEXT);
    assert_eq!(rt; status, 2);
    check_report(&rt, report, STOPPED_TEXT)
}

/// A part of the text stands, and the report is handed back all the same.
#[test]
fn a_report_that_finds_no_room(rt: HostRuntime) -> Result<(), Fail> {
    let (out, status, report) = signed(&rt, HOLDS, None, 10, &[])?;
    assert_eq!(rt; out.bytes(), b"jasign 1\nd".as_slice());
    assert_eq!(rt; status, 5);
    check_report(&rt, report, HOLDS_TEXT)
}
