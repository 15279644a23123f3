//! The yardstick of the solvers: reads clauses and lists of literals, each in the form of DIMACS, and says for each list what is
//! answered under it, and what it took. With a third word `log` the lines of the refutations are written in place of that, and
//! with `probe` the solver that keeps what it learns is asked.
#![tactic(auto)]

mod ask;
mod dimacs;
mod report;

use crate::ask::{answers, probes};
use crate::dimacs::{Lists, read_lists};
use crate::report::Report;
use ja_outside::{Shelf, Whole, read_whole, write_whole};
use ja_std::{FileShelf, StdSink};
use std::env::{self, Env};
use std::process::ExitCode;

/// The most bytes of a file.
const MOST: u64 = 1_000_000_000;

fn lists_of(rt: &(impl Env + AllocGlobal), shelf: &mut impl Shelf, name: &str) -> Option<Lists> {
    match read_whole(rt.alloc(), shelf, name, MOST) {
        Whole::Bytes(bytes) => read_lists(rt.alloc(), bytes.as_slice()).ok(),
        Whole::TooLarge | Whole::Failed | Whole::Memory => None,
    }
}

/// What the words ask for, if they name clauses and lists of literals.
fn reported(rt: &(impl Env + AllocGlobal), shelf: &mut impl Shelf) -> Option<Report> {
    let mut words = env::args(rt).ok()?.skip(1);
    let clauses = lists_of(rt, shelf, words.next()?.as_str())?;
    let unders = lists_of(rt, shelf, words.next()?.as_str())?;
    let mut report = Report::new(rt.alloc());
    let done = match words.next() {
        None => answers(rt.alloc(), &clauses, &unders, false, &mut report),
        Some(word) => {
            if word.as_str() == "probe" {
                probes(rt.alloc(), &clauses, &unders, &mut report)
            } else {
                answers(rt.alloc(), &clauses, &unders, true, &mut report)
            }
        }
    };
    match done {
        Ok(()) => Some(report),
        Err(_) => None,
    }
}

fn main(rt: HostRuntime) -> ExitCode {
    let mut shelf = FileShelf::new(&rt);
    let mut out = StdSink::new(&rt);
    match reported(&rt, &mut shelf) {
        None => ExitCode::from(3),
        Some(report) => match write_whole(&mut out, report.text().bytes()) {
            Ok(()) => ExitCode::SUCCESS,
            Err(_) => ExitCode::from(5),
        },
    }
}
