//! The yardstick of the engine: reads a design, each property of which is expected to hold, and decides its properties one after
//! another on one engine. Says how many were proved and how many fail, how many clauses are then known, and how many units all of
//! it took. The solver that keeps what it learns is asked, or with a second word the plain one.
#![tactic(auto)]

mod tally;

use crate::tally::{Tally, tally_of};
use aig_model::{Design, Expect, Task};
use aiger_ascii::read_ascii;
use ja_base::Memory;
use ja_outside::{Shelf, Sink, Whole, read_whole, write_whole};
use ja_project::Coded;
use ja_std::{FileShelf, StdSink};
use ja_text::Text;
use sat_cdcl::{KeepSat, LearnSat};
use sat_plain::PlainSat;
use std::alloc::Global;
use std::env::{self, Env};
use std::process::ExitCode;

/// The most bytes of a file.
const MOST: u64 = 1_000_000_000;

/// The design as clauses, with each property expected to hold.
fn coded_of(rt: &(impl Env + AllocGlobal), shelf: &mut impl Shelf, name: &str) -> Option<Coded> {
    let Whole::Bytes(bytes) = read_whole(rt.alloc(), shelf, name, MOST) else {
        return None;
    };
    let design: Design = read_ascii(rt.alloc(), bytes.as_slice()).ok()?;
    let expect = Expect::all(rt.alloc(), design.props()).ok()?;
    let task = Task::new(rt.alloc(), design, expect).ok()?;
    Coded::new(rt.alloc(), &task).ok()
}

/// What came of the design that the words name.
fn tallied(rt: &(impl Env + AllocGlobal), shelf: &mut impl Shelf) -> Option<Tally> {
    let mut words = env::args(rt).ok()?.skip(1);
    let coded = coded_of(rt, shelf, words.next()?.as_str())?;
    match words.next() {
        Some(_) => tally_of::<PlainSat, PlainSat>(rt.alloc(), &coded).ok(),
        None => tally_of::<KeepSat, LearnSat>(rt.alloc(), &coded).ok(),
    }
}

fn put(text: &mut Text, words: &[u8], number: u64) -> Result<(), Memory> {
    text.push(words)?;
    text.number(number)
}

fn line_of(alloc: Global, tally: Tally) -> Result<Text, Memory> {
    let mut text = Text::new(alloc);
    put(&mut text, b"proved ", u64::from(tally.proved))?;
    put(&mut text, b" fails ", u64::from(tally.failing))?;
    put(&mut text, b" open ", u64::from(tally.open))?;
    put(&mut text, b" clauses ", u64::from(tally.clauses))?;
    put(&mut text, b" units ", tally.units)?;
    text.push(b"\n")?;
    Ok(text)
}

/// Writes what came of the design, and answers 0 where all of it was written.
fn write<K: Sink>(alloc: Global, tally: Tally, out: &mut K) -> u8 {
    let Ok(text) = line_of(alloc, tally) else {
        return 6;
    };
    match write_whole(out, text.bytes()) {
        Ok(()) => 0,
        Err(_) => 5,
    }
}

fn main(rt: HostRuntime) -> ExitCode {
    let mut shelf = FileShelf::new(&rt);
    let mut out = StdSink::new(&rt);
    match tallied(&rt, &mut shelf) {
        Some(tally) => ExitCode::from(write(rt.alloc(), tally, &mut out)),
        None => ExitCode::from(3),
    }
}
