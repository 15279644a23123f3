ghost use Rattle.std.specs.Prelude.{◌<◌};

use crate::rows::{BINARY_RING, Case, EXPECTATIONS, REFUSALS, REPLAYS, RING, TWO_LATCHES};
use crate::{confirm_run, jasign_run};
use aig_model::Design;
use aiger_ascii::read_ascii;
use aiger_binary::read_binary;
use ja_outside::{MemShelf, MemSink};
use ja_std::OpenGate;
use std::alloc::{AllocError, Global};
use std::sync::Wait;
use std::test::Fail;
use std::thread::Threads;

pub(crate) fn shelf_of(
    alloc: Global,
    held: &[&[u8]],
    piece: usize,
    fails: Vec<u64>,
) -> Result<MemShelf, AllocError>
    requires { 0 < piece }
{
    let mut files = Vec::new(alloc);
    for (name, bytes) in ["d", "s", "e"].iter().zip(held) {
        files.push((
            String::from_str(alloc, name)?,
            Vec::from_slice(alloc, bytes)?,
        ))?;
    }
    Ok(MemShelf::new(files, piece, fails))
}

pub(crate) fn words_of(alloc: Global, words: &[&str]) -> Result<Vec<String>, AllocError> {
    let mut all = Vec::new(alloc);
    for word in words {
        all.push(String::from_str(alloc, word)?)?;
    }
    Ok(all)
}

/// The words name the files `d`, `s` and `e`, as many as there are.
fn check_case(
    rt: &(impl std::process::Abort + AllocGlobal + Threads + Wait + Sync),
    case: &Case,
    held: &[&[u8]],
    piece: usize,
    words: &[&str],
) -> Result<(), Fail>
    requires { 0 < piece }
{
    let alloc = rt.alloc();
    let mut shelf = shelf_of(alloc, held, piece, Vec::new(alloc))?;
    let mut out = MemSink::new(alloc, 100)?;
    let words = words_of(alloc, words)?;
    let ran = jasign_run(rt, alloc, words.as_slice(), &mut shelf, &mut out, &OpenGate);
    assert_eq!(rt; out.bytes(), case.line);
    assert_eq!(rt; ran.status, case.status);
    Ok(())
}

#[test]
fn replays(rt: HostRuntime) -> Result<(), Fail> {
    for case in &REPLAYS {
        check_case(
            &rt,
            case,
            &[case.design, case.stim],
            4,
            &["confirm", "d", "s"],
        )?;
    }
    Ok(())
}

#[test]
fn refusals(rt: HostRuntime) -> Result<(), Fail> {
    for case in &REFUSALS {
        check_case(
            &rt,
            case,
            &[case.design, case.stim],
            4,
            &["confirm", "d", "s"],
        )?;
    }
    Ok(())
}

#[test]
fn expectations(rt: HostRuntime) -> Result<(), Fail> {
    for (expect, case) in &EXPECTATIONS {
        check_case(
            &rt,
            case,
            &[case.design, case.stim, *expect],
            4,
            &["confirm", "d", "s", "e"],
        )?;
    }
    Ok(())
}

fn same_latches(a: &Design, b: &Design) -> bool {
    if a.latches() != b.latches() {
        return false;
    }
    for at in 0..a.latches() {
        if a.latch(at) != b.latch(at) {
            return false;
        }
    }
    true
}

fn same_gates(a: &Design, b: &Design) -> bool {
    if a.gates() != b.gates() {
        return false;
    }
    for at in 0..a.gates() {
        if a.gate(at) != b.gate(at) {
            return false;
        }
    }
    true
}

fn same_bads(a: &Design, b: &Design) -> bool {
    if a.props() != b.props() {
        return false;
    }
    for at in 0..a.props() {
        if a.bad(at) != b.bad(at) {
            return false;
        }
    }
    true
}

#[test]
fn both_forms_give_one_design(rt: HostRuntime) -> Result<(), Fail> {
    let alloc = rt.alloc();
    let ascii = read_ascii(alloc, RING).ok().ok_or("refused in ASCII")?;
    let binary = read_binary(alloc, BINARY_RING)
        .ok()
        .ok_or("refused in binary")?;
    assert_eq!(rt; ascii.vars(), binary.vars());
    assert_eq!(rt; ascii.inputs(), binary.inputs());
    assert_eq!(rt; ascii.constraints(), binary.constraints());
    assert!(rt; same_latches(&ascii, &binary));
    assert!(rt; same_gates(&ascii, &binary));
    assert!(rt; same_bads(&ascii, &binary));
    Ok(())
}

/// Expectations of so many bytes, which are remarks but for the first line.
#[test]
fn expectations_that_are_too_large(rt: HostRuntime) -> Result<(), Fail> {
    let alloc = rt.alloc();
    let cases: [(usize, &[u8], u8); 2] = [
        (4_194_304, b"confirmed b0 steps 2\n", 0),
        (4_194_305, b"fault: expect 4 too large\n", 3),
    ];
    for (size, line, status) in cases {
        let mut expect = Vec::from_slice(alloc, b"expect 1\n")?;
        let remark = vec![in alloc; b'#'; size - 9]?;
        expect.extend_from_slice(remark.as_slice())?;
        let held: [&[u8]; 3] = [TWO_LATCHES, b"1\nb0\n00\n\n\n.\n", expect.as_slice()];
        let mut shelf = shelf_of(alloc, &held, 4096, Vec::new(alloc))?;
        let mut out = MemSink::new(alloc, 100)?;
        assert_eq!(rt;
            confirm_run(alloc, "d", "s", Some("e"), &mut shelf, &mut out),
            status
        );
        assert_eq!(rt; out.bytes(), line);
    }
    Ok(())
}

/// The calls on the shelf, from 0: the design is selected, read by 8, 8, 8, 4 and 0 bytes, the stimulus selected, read by
/// 8, 4 and 0, the expectations selected, read by 8, 1 and 0.
#[test]
fn each_call_on_the_shelf_fails(rt: HostRuntime) -> Result<(), Fail> {
    let alloc = rt.alloc();
    for call in 0..15u64 {
        let fails = vec![in alloc; call]?;
        let held: [&[u8]; 3] = [TWO_LATCHES, b"1\nb0\n00\n\n\n.\n", b"expect 1\n"];
        let mut shelf = shelf_of(alloc, &held, 8, fails)?;
        let mut out = MemSink::new(alloc, 100)?;
        let status = confirm_run(alloc, "d", "s", Some("e"), &mut shelf, &mut out);
        if call < 14 {
            assert_eq!(rt; out.bytes(), b"fault: outside\n".as_slice());
            assert_eq!(rt; status, 5);
        } else {
            assert_eq!(rt; out.bytes(), b"confirmed b0 steps 2\n".as_slice());
            assert_eq!(rt; status, 0);
        }
    }
    Ok(())
}

#[test]
fn a_name_that_is_not_held_and_a_sink_that_is_full(rt: HostRuntime) -> Result<(), Fail> {
    let alloc = rt.alloc();
    let held: [&[u8]; 2] = [TWO_LATCHES, b"1\nb0\n00\n\n\n.\n"];
    let mut shelf = shelf_of(alloc, &held, 8, Vec::new(alloc))?;
    for (stim, expect) in [("t", None), ("s", Some("e")), ("s", Some("t"))] {
        let mut out = MemSink::new(alloc, 100)?;
        assert_eq!(rt;
            confirm_run(alloc, "d", stim, expect, &mut shelf, &mut out),
            5
        );
        assert_eq!(rt; out.bytes(), b"fault: outside\n".as_slice());
    }
    let mut narrow = MemSink::new(alloc, 10)?;
    assert_eq!(rt;
        confirm_run(alloc, "d", "s", None, &mut shelf, &mut narrow),
        5
    );
    assert_eq!(rt; narrow.bytes(), b"confirmed ".as_slice());
    Ok(())
}

#[test]
fn words_that_are_no_command(rt: HostRuntime) -> Result<(), Fail> {
    let alloc = rt.alloc();
    let lists: [&[&str]; 9] = [
        &[],
        &["confirm"],
        &["confirm", "d"],
        &["confirm", "d", "-s"],
        &["prove", "d", "s"],
        &["confirm", "--help", "s"],
        &["confirm", "d", "s", "-e"],
        &["confirm", "d", "s", "e", "f"],
        &["confirm", "-d", "s", "e"],
    ];
    for list in lists {
        let mut shelf = shelf_of(alloc, &[], 8, Vec::new(alloc))?;
        let mut out = MemSink::new(alloc, 100)?;
        let words = words_of(alloc, list)?;
        let ran = jasign_run(
            &rt,
            alloc,
            words.as_slice(),
            &mut shelf,
            &mut out,
            &OpenGate,
        );
        assert_eq!(rt; out.bytes(), b"fault: usage\n".as_slice());
        assert_eq!(rt; ran.status, 4);
    }
    Ok(())
}
