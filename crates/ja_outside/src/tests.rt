ghost use Rattle.std.specs.Prelude.{ℕ, ◌<◌, List};
ghost use Rattle.std.specs.Bool.{OnTrue};
ghost use Rattle.ja_outside.specs.Flags.{IsPolled, IsFoundRaised};
ghost use Rattle.ja_outside.specs.Shelf.{IsWhole};
ghost use Rattle.ja_outside.specs.Sink.{Appends};

use crate::{
    Flag, Gate, GatePoint, HoldGate, MemFlag, MemShelf, MemSink, Shelf, Sink, Whole, read_whole,
    write_whole,
};
use std::alloc::{AllocError, Global};
use std::test::Fail;

const TEXT: &[u8] = b"eighteen bytes now";

/// A shelf with two files of one name, of which the first has 18 bytes.
fn shelf_of(alloc: Global, piece: usize, fails: &[u64]) -> Result<MemShelf, AllocError>
    requires { 0 < piece }
{
    let mut files = Vec::new(alloc);
    files.push((
        String::from_str(alloc, "text")?,
        Vec::from_slice(alloc, TEXT)?,
    ))?;
    files.push((
        String::from_str(alloc, "text")?,
        Vec::from_slice(alloc, b"another")?,
    ))?;
    Ok(MemShelf::new(files, piece, Vec::from_slice(alloc, fails)?))
}

/// Copies a file from any shelf to any sink, and says whether it could.
fn copy_file<F: Shelf, K: Sink>(alloc: Global, shelf: &mut F, name: &str, out: &mut K) -> bool
    ensures { OnTrue result ((bytes : List ℕ) × IsWhole (F.holds shelf.old) name.now bytes
        × Appends (K.written out.old) (K.written out.new) bytes) }
{
    match read_whole(alloc, shelf, name, 1000) {
        Whole::Bytes(bytes) => write_whole(out, bytes.as_slice()).is_ok(),
        _ => false,
    }
}

/// What came of a read, with the length of the bytes where they are those of the file.
#[derive(Clone, Copy, Debug, PartialEq, Eq)]
enum Answer {
    Text(usize),
    OtherBytes,
    TooLarge,
    Failed,
    Memory,
}

fn answer_of(whole: &Whole) -> Answer {
    match whole {
        Whole::Bytes(bytes) if bytes.as_slice() == TEXT => Answer::Text(bytes.len()),
        Whole::Bytes(_) => Answer::OtherBytes,
        Whole::TooLarge => Answer::TooLarge,
        Whole::Failed => Answer::Failed,
        Whole::Memory => Answer::Memory,
    }
}

#[test]
fn reads_to_the_end(rt: HostRuntime) -> Result<(), Fail> {
    let rows = [
        ("text", 1, 18, Answer::Text(18)),
        ("text", 1, 17, Answer::TooLarge),
        ("text", 4, 17, Answer::TooLarge),
        ("text", 18, 18, Answer::Text(18)),
        ("text", 70000, u64::MAX, Answer::Text(18)),
        ("texts", 4, 18, Answer::Failed),
    ];
    for (name, piece, limit, answer) in rows {
        let mut shelf = shelf_of(rt.alloc(), piece, &[])?;
        let whole = read_whole(rt.alloc(), &mut shelf, name, limit);
        assert_eq!(rt; answer_of(&whole), answer, "at most {limit}, by {piece}");
        assert_eq!(rt; shelf.faults(), 0);
    }
    Ok(())
}

// For 18 bytes one by one: a select, 18 reads that give a byte, and one that gives none.
#[test]
fn fails_at_each_call(rt: HostRuntime) -> Result<(), Fail> {
    for call in 0..=20 {
        let mut shelf = shelf_of(rt.alloc(), 1, &[call])?;
        let whole = read_whole(rt.alloc(), &mut shelf, "text", 18);
        let (answer, faults) = if call < 20 {
            (Answer::Failed, 1)
        } else {
            (Answer::Text(18), 0)
        };
        assert_eq!(rt; answer_of(&whole), answer, "where call {call} fails");
        assert_eq!(rt; shelf.faults(), faults);
    }
    Ok(())
}

#[test]
fn writes_what_fits(rt: HostRuntime) -> Result<(), Fail> {
    for (room, is_whole) in [(0, false), (10, false), (17, false), (18, true), (20, true)] {
        let mut shelf = shelf_of(rt.alloc(), 4, &[])?;
        let mut sink = MemSink::new(rt.alloc(), room)?;
        let copied = copy_file(rt.alloc(), &mut shelf, "text", &mut sink);
        assert_eq!(rt; copied, is_whole, "into {room}");
        assert_eq!(rt; sink.bytes(), &TEXT[..TEXT.len().min(room as usize)]);
        assert_eq!(rt; sink.faults(), u64::from(!is_whole));
    }
    Ok(())
}

/// Polls a flag twice, the second time where the first found it low.
fn is_raised_soon<F: Flag>(flag: &mut F) -> bool
    ensures raised { OnTrue result (IsFoundRaised F.may_rise F.raised flag.old flag.new) }
    ensures flag { IsPolled F.may_rise F.raised flag.old flag.new }
{
    flag.poll() || flag.poll()
}

#[test]
fn is_raised_from_a_poll_on(rt: HostRuntime) -> Result<(), Fail> {
    for (after, is_raised) in [
        (Some(0), true),
        (Some(1), true),
        (Some(2), false),
        (None, false),
    ] {
        let mut flag = MemFlag::new(after);
        assert_eq!(rt;
            is_raised_soon(&mut flag),
            is_raised,
            "raised from poll {after:?} on"
        );
    }
    Ok(())
}

#[test]
fn a_gate_that_nobody_answers_ends(rt: HostRuntime) -> Result<(), Fail> {
    let alone = HoldGate::new(3);
    alone.pass(GatePoint::Drawn);
    alone.pass(GatePoint::Answered);
    let late = HoldGate::new(3);
    late.pass(GatePoint::Answered);
    late.pass(GatePoint::Drawn);
    for gate in [alone, late] {
        assert!(rt; !gate.met());
    }
    Ok(())
}
