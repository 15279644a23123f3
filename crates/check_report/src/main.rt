//! The yardstick of reports: reads the text of a report, and writes it again.
#![tactic(auto)]

use ja_outside::{Shelf, Sink, Whole, read_whole, write_whole};
use ja_std::{FileShelf, StdSink};
use report::{Report, read_report, text_of};
use std::alloc::Global;
use std::env::{self, Env};
use std::process::ExitCode;

/// The most bytes of a file.
const MOST: u64 = 1_000_000_000;

/// The report whose text is in the file that the word names.
fn found(rt: &(impl Env + AllocGlobal), shelf: &mut impl Shelf) -> Option<Report> {
    let mut words = env::args(rt).ok()?.skip(1);
    match read_whole(rt.alloc(), shelf, words.next()?.as_str(), MOST) {
        Whole::Bytes(bytes) => read_report(rt.alloc(), bytes.as_slice()).ok(),
        Whole::TooLarge | Whole::Failed | Whole::Memory => None,
    }
}

/// Writes the text of the report, and answers 0 where all of it was written.
fn write<K: Sink>(alloc: Global, report: &Report, out: &mut K) -> u8 {
    let Ok(text) = text_of(alloc, report) else {
        return 6;
    };
    match write_whole(out, text.bytes()) {
        Ok(()) => 0,
        Err(_) => 5,
    }
}

fn main(rt: HostRuntime) -> ExitCode {
    let mut shelf = FileShelf::new(&rt);
    let mut out = StdSink::new(&rt);
    match found(&rt, &mut shelf) {
        Some(report) => ExitCode::from(write(rt.alloc(), &report, &mut out)),
        None => ExitCode::from(3),
    }
}
