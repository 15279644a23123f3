use crate::jasign_run;
use crate::tests::{shelf_of, words_of};
use ja_outside::MemSink;
use ja_std::OpenGate;
use std::sync::Wait;
use std::test::Fail;
use std::thread::Threads;

/// Words, and what they write with which status; the summaries were worked out by hand.
const DEMOS: [(&[&str], &[u8], u8); 4] = [
    (&["demo", "3"], THREE, 1),
    (&["demo", "3", "--workers", "8"], THREE, 1),
    (&["demo", "4"], FOUR, 1),
    (&["demo", "1001"], b"fault: usage\n", 4),
];

/// The last latch is 1 at the third step, and no two latches are ever 1 together.
const THREE: &[u8] = b"demo 3\nproperties 4\nproved 3\nfails 1\nunknown 0\nset b3\nsteps 3\n";

const FOUR: &[u8] = b"demo 4\nproperties 5\nproved 4\nfails 1\nunknown 0\nset b4\nsteps 4\n";

/// The shelf holds nothing.
fn check_demo(
    rt: &(impl std::process::Abort + AllocGlobal + Threads + Wait + Sync),
    words: &[&str],
    text: &[u8],
    status: u8,
) -> Result<(), Fail> {
    let alloc = rt.alloc();
    let mut shelf = shelf_of(alloc, &[], 8, Vec::new(alloc))?;
    let mut out = MemSink::new(alloc, 200)?;
    let words = words_of(alloc, words)?;
    let ran = jasign_run(rt, alloc, words.as_slice(), &mut shelf, &mut out, &OpenGate);
    assert_eq!(rt; out.bytes(), text);
    assert_eq!(rt; ran.status, status);
    assert_eq!(rt; ran.report.is_some(), status == 1);
    Ok(())
}

#[test]
fn demonstrations(rt: HostRuntime) -> Result<(), Fail> {
    for (words, text, status) in DEMOS {
        check_demo(&rt, words, text, status)?;
    }
    Ok(())
}
