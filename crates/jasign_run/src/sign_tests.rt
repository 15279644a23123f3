ghost use Rattle.std.specs.Prelude.{◌<◌};

use crate::jasign_run;
use crate::rows::{EXPECTATIONS, REFUSALS, TWO_LATCHES};
use crate::tests::{shelf_of, words_of};
use ja_outside::MemSink;
use ja_std::OpenGate;
use std::alloc::Global;
use std::sync::Wait;
use std::test::Fail;
use std::thread::Threads;

/// The words name the files `d` and `s`, as many as there are; no report comes of them.
fn check_fault(
    rt: &(impl std::process::Abort + AllocGlobal + Threads + Wait + Sync),
    held: &[&[u8]],
    fails: Vec<u64>,
    words: &[&str],
    line: &[u8],
    status: u8,
) -> Result<(), Fail> {
    let alloc = rt.alloc();
    let mut shelf = shelf_of(alloc, held, 8, fails)?;
    let mut out = MemSink::new(alloc, 100)?;
    let words = words_of(alloc, words)?;
    let ran = jasign_run(rt, alloc, words.as_slice(), &mut shelf, &mut out, &OpenGate);
    assert_eq!(rt; out.bytes(), line);
    assert_eq!(rt; ran.status, status);
    assert!(rt; ran.report.is_none());
    Ok(())
}

#[test]
fn designs_that_are_refused(rt: HostRuntime) -> Result<(), Fail> {
    let alloc = rt.alloc();
    for case in &REFUSALS {
        if case.line.starts_with(b"fault: design") {
            let held = [case.design];
            let none = Vec::new(alloc);
            check_fault(&rt, &held, none, &["sign", "d"], case.line, case.status)?;
        }
    }
    Ok(())
}

#[test]
fn expectations_that_are_refused(rt: HostRuntime) -> Result<(), Fail> {
    let alloc = rt.alloc();
    for (expect, case) in &EXPECTATIONS {
        if case.line.starts_with(b"fault: expect") {
            let held = [case.design, *expect];
            let none = Vec::new(alloc);
            check_fault(
                &rt,
                &held,
                none,
                &["sign", "d", "s"],
                case.line,
                case.status,
            )?;
        }
    }
    Ok(())
}

/// A design that is refused is told before the expectations are looked at.
#[test]
fn the_design_comes_first(rt: HostRuntime) -> Result<(), Fail> {
    let alloc = rt.alloc();
    let line = b"fault: design 1 header at 0\n";
    let held: [&[u8]; 2] = [b"", b""];
    let words = ["sign", "d", "s"];
    check_fault(&rt, &held, Vec::new(alloc), &words, line, 3)?;
    check_fault(&rt, &held, Vec::new(alloc), &["sign", "d", "t"], line, 3)
}

/// The calls on the shelf, from 0: the design is selected, read by 8, 8, 8, 4 and 0 bytes, the expectations selected, read by
/// 8, 1 and 0.
#[test]
fn each_call_of_a_sign_off_fails(rt: HostRuntime) -> Result<(), Fail> {
    let alloc = rt.alloc();
    for call in 0..10u64 {
        let held: [&[u8]; 2] = [TWO_LATCHES, b"expect 1\n"];
        let fails = vec![in alloc; call]?;
        let words = ["sign", "d", "s"];
        check_fault(&rt, &held, fails, &words, b"fault: outside\n", 5)?;
    }
    Ok(())
}

#[test]
fn names_that_are_not_held(rt: HostRuntime) -> Result<(), Fail> {
    let alloc = rt.alloc();
    let lists: [&[&str]; 3] = [&["sign", "t"], &["sign", "t", "d"], &["sign", "d", "t"]];
    for list in lists {
        let held = [TWO_LATCHES];
        check_fault(&rt, &held, Vec::new(alloc), list, b"fault: outside\n", 5)?;
    }
    Ok(())
}

#[test]
fn words_that_order_nothing(rt: HostRuntime) -> Result<(), Fail> {
    let alloc = rt.alloc();
    let lists: [&[&str]; 8] = [
        &["sign"],
        &["sign", "-d"],
        &["sign", "d", "-s"],
        &["sign", "-d", "s"],
        &["sign", "d", "s", "s"],
        &["sign", "d", "--workers", "9"],
        &["sign", "--journal"],
        &["Sign", "d"],
    ];
    for list in lists {
        let held = [TWO_LATCHES];
        check_fault(&rt, &held, Vec::new(alloc), list, b"fault: usage\n", 4)?;
    }
    Ok(())
}
