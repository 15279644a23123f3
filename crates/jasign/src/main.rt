//! `jasign`: words, real files and standard output for the one call that does the work.
#![tactic(auto)]

use ja_std::{FileShelf, OpenGate, StdSink};
use jasign_run::{jasign_run, memory_run};
use std::env::{self, Env};
use std::io;
use std::process::ExitCode;

/// Why there are no words.
#[derive(Clone, Copy, Debug, PartialEq, Eq)]
enum NoWords {
    /// One is not UTF-8.
    NotText,
    Memory,
}

/// The words of the command line without the program's name.
fn words_of(rt: &(impl Env + AllocGlobal)) -> Result<Vec<String>, NoWords> {
    let all = match env::args(rt) {
        Ok(all) => all,
        Err(e) if e.kind() == io::ErrorKind::OutOfMemory => return Err(NoWords::Memory),
        Err(_) => return Err(NoWords::NotText),
    };
    let mut words = Vec::new(rt.alloc());
    for word in all.skip(1) {
        if words.push(word).is_err() {
            return Err(NoWords::Memory);
        }
    }
    Ok(words)
}

fn main(rt: HostRuntime) -> ExitCode {
    let mut shelf = FileShelf::new(&rt);
    let mut out = StdSink::new(&rt);
    let words = match words_of(&rt) {
        Ok(words) => words,
        // No command has a word that is no text, and none has no words.
        Err(NoWords::NotText) => Vec::new(rt.alloc()),
        Err(NoWords::Memory) => return ExitCode::from(memory_run(&mut out)),
    };
    let alloc = rt.alloc();
    let ran = jasign_run(
        &rt,
        alloc,
        words.as_slice(),
        &mut shelf,
        &mut out,
        &OpenGate,
    );
    ExitCode::from(ran.status)
}
