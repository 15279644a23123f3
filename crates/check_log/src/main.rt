//! The yardstick of the checker: reads a list of clauses and a log over them, both in the text of refutation lines, and
//! says how many lines of the log were accepted, or which is refused first. The hints of the clauses are passed over.
#![tactic(auto)]

mod log;
mod report;

use crate::log::{Checked, check};
use crate::report::report;
use ja_outside::{Shelf, Whole, read_whole};
use ja_std::{FileShelf, StdSink};
use refute_check::Lines;
use refute_text::read_lines;
use std::env::{self, Env};
use std::process::ExitCode;

/// The most bytes of a file.
const MOST: u64 = 1_000_000_000;

fn lines_of(rt: &(impl Env + AllocGlobal), shelf: &mut impl Shelf, name: &str) -> Option<Lines> {
    match read_whole(rt.alloc(), shelf, name, MOST) {
        Whole::Bytes(bytes) => read_lines(rt.alloc(), bytes.as_slice()).ok(),
        Whole::TooLarge | Whole::Failed | Whole::Memory => None,
    }
}

/// What the words ask for, if they name two files of lines.
fn checked(rt: &(impl Env + AllocGlobal), shelf: &mut impl Shelf) -> Option<Checked> {
    let mut words = env::args(rt).ok()?.skip(1);
    let clauses = lines_of(rt, shelf, words.next()?.as_str())?;
    let log = lines_of(rt, shelf, words.next()?.as_str())?;
    check(rt.alloc(), &clauses, log).ok()
}

fn main(rt: HostRuntime) -> ExitCode {
    let mut shelf = FileShelf::new(&rt);
    let mut out = StdSink::new(&rt);
    match checked(&rt, &mut shelf) {
        Some(checked) => ExitCode::from(report(rt.alloc(), checked, &mut out)),
        None => ExitCode::from(3),
    }
}
