//! The yardstick of closed lists: reads a design, each property of which is expected to hold, and a list of clauses, and says how
//! many of them are closed and which properties they cover. The proofs are those of a third file, one line for each clause, or
//! else the solver makes them.
#![tactic(auto)]

mod candidates;
mod certify;
mod proofs;
mod report;
#[cfg(test)]
mod tests;

use crate::certify::{Certified, certify};
use crate::report::report;
use aig_model::{Design, Expect, Task};
use aiger_ascii::read_ascii;
use ja_outside::{Shelf, Whole, read_whole};
use ja_project::Coded;
use ja_std::{FileShelf, StdSink};
use refute_check::Lines;
use refute_text::read_lines;
use std::env::{self, Env};
use std::process::ExitCode;

/// The most bytes of a file.
const MOST: u64 = 1_000_000_000;

fn bytes_of(rt: &(impl Env + AllocGlobal), shelf: &mut impl Shelf, name: &str) -> Option<Vec<u8>> {
    match read_whole(rt.alloc(), shelf, name, MOST) {
        Whole::Bytes(bytes) => Some(bytes),
        Whole::TooLarge | Whole::Failed | Whole::Memory => None,
    }
}

fn lines_of(rt: &(impl Env + AllocGlobal), shelf: &mut impl Shelf, name: &str) -> Option<Lines> {
    let bytes = bytes_of(rt, shelf, name)?;
    read_lines(rt.alloc(), bytes.as_slice()).ok()
}

/// The design as clauses, with each property expected to hold.
fn coded_of(rt: &(impl Env + AllocGlobal), shelf: &mut impl Shelf, name: &str) -> Option<Coded> {
    let bytes = bytes_of(rt, shelf, name)?;
    let design: Design = read_ascii(rt.alloc(), bytes.as_slice()).ok()?;
    let expect = Expect::all(rt.alloc(), design.props()).ok()?;
    let task = Task::new(rt.alloc(), design, expect).ok()?;
    Coded::new(rt.alloc(), &task).ok()
}

/// What the words ask for, if they name a design, clauses, and proofs or none.
fn certified(rt: &(impl Env + AllocGlobal), shelf: &mut impl Shelf) -> Option<Certified> {
    let mut words = env::args(rt).ok()?.skip(1);
    let coded = coded_of(rt, shelf, words.next()?.as_str())?;
    let clauses = lines_of(rt, shelf, words.next()?.as_str())?;
    let proofs = match words.next() {
        Some(name) => Some(lines_of(rt, shelf, name.as_str())?),
        None => None,
    };
    certify(rt.alloc(), &coded, clauses, proofs).ok()
}

fn main(rt: HostRuntime) -> ExitCode {
    let mut shelf = FileShelf::new(&rt);
    let mut out = StdSink::new(&rt);
    match certified(&rt, &mut shelf) {
        Some(certified) => ExitCode::from(report(rt.alloc(), certified, &mut out)),
        None => ExitCode::from(3),
    }
}
