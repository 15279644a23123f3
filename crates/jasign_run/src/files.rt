//! The files of a command: each is read to its end and accepted, or the outcome says why not.

ghost use Rattle.std.specs.Prelude.{◌≡◌, ◌≤◌, length, replicate, true, option_map, IfOk, MatchResult};
ghost use Rattle.ja_base.specs.Runs.{Trace};
ghost use Rattle.jasign_run.specs.Files.{IsDesignFile, NoDesign, IsStimulusFile, NoStimulus, IsExpectFile, NoExpectations, IsExpected, NothingExpected, IsQuietStop};

use crate::designs::read_design;
use crate::outcome::Stop;
use aig_model::{Design, Expect, Stimulus};
use aiger_lines::{Large, ReadRefusal};
use expect_file::{ExpectRefusal, read_expect};
use ja_base::{Memory, OrMemory};
use ja_outside::{Shelf, Whole, read_whole};
use local_stim::{StimRefusal, read_stim};
use std::alloc::Global;

/// The design under the name, or what the run comes to.
pub fn design_of<F: Shelf>(alloc: Global, shelf: &mut F, name: &str) -> Result<Design, Stop>
    ensures kept { F.holds shelf.new ≡ F.holds shelf.old }
    ensures later { F.faults shelf.old ≤ F.faults shelf.new }
    ensures quiet { MatchResult result (λ _. F.faults shelf.new ≡ F.faults shelf.old)
        (IsQuietStop (F.faults shelf.old) (F.faults shelf.new)) }
    ensures cases { MatchResult result
        (λ d. IsDesignFile (F.holds shelf.old) name.now d)
        (λ s. NoDesign (F.holds shelf.old) (F.faults shelf.old) (F.faults shelf.new) name.now s) }
{
    match read_whole(alloc, shelf, name, aiger_lines::MOST_BYTES as u64) {
        Whole::Bytes(bytes) => match read_design(alloc, bytes.as_slice()) {
            Ok(design) => {
                let _ = design.vars();
                Ok(design)
            }
            Err(OrMemory::Refused(refusal)) => Err(Stop::DesignRefused(refusal)),
            Err(OrMemory::Memory) => Err(Stop::Memory),
        },
        Whole::TooLarge => Err(Stop::DesignRefused(ReadRefusal::TooLarge { what: Large::File })),
        Whole::Failed => Err(Stop::Outside),
        Whole::Memory => Err(Stop::Memory),
    }
}

/// The stimulus under the name, with its property, or what the run comes to.
pub fn stimulus_of<F: Shelf>(
    alloc: Global,
    shelf: &mut F,
    name: &str,
    design: &Design,
) -> Result<(u32, Stimulus), Stop>
    ensures kept { F.holds shelf.new ≡ F.holds shelf.old }
    ensures later { F.faults shelf.old ≤ F.faults shelf.new }
    ensures quiet { MatchResult result (λ _. F.faults shelf.new ≡ F.faults shelf.old)
        (IsQuietStop (F.faults shelf.old) (F.faults shelf.new)) }
    ensures cases { MatchResult result
        (λ x. IsStimulusFile (F.holds shelf.old) name.now design.now x.0 x.1)
        (λ s. NoStimulus (F.holds shelf.old) (F.faults shelf.old) (F.faults shelf.new) name.now
        design.now s) }
{
    match read_whole(alloc, shelf, name, local_stim::MOST_BYTES as u64) {
        Whole::Bytes(bytes) => match read_stim(alloc, bytes.as_slice(), design) {
            Ok(found) => Ok(found),
            Err(OrMemory::Refused(refusal)) => Err(Stop::StimulusRefused(refusal)),
            Err(OrMemory::Memory) => Err(Stop::Memory),
        },
        Whole::TooLarge => Err(Stop::StimulusRefused(StimRefusal::TooLarge)),
        Whole::Failed => Err(Stop::Outside),
        Whole::Memory => Err(Stop::Memory),
    }
}

fn expectations_of<F: Shelf>(
    alloc: Global,
    shelf: &mut F,
    name: &str,
    design: &Design,
) -> Result<Expect, Stop>
    ensures kept { F.holds shelf.new ≡ F.holds shelf.old }
    ensures later { F.faults shelf.old ≤ F.faults shelf.new }
    ensures quiet { MatchResult result (λ _. F.faults shelf.new ≡ F.faults shelf.old)
        (IsQuietStop (F.faults shelf.old) (F.faults shelf.new)) }
    ensures sized { IfOk result (λ expected. length expected ≡ length design.now.bads) }
    ensures cases { MatchResult result
        (λ expected. IsExpectFile (F.holds shelf.old) name.now design.now expected)
        (λ s. NoExpectations (F.holds shelf.old) (F.faults shelf.old) (F.faults shelf.new) name.now
        design.now s) }
{
    match read_whole(alloc, shelf, name, expect_file::MOST_BYTES as u64) {
        Whole::Bytes(bytes) => match read_expect(alloc, bytes.as_slice(), design) {
            Ok(expect) => Ok(expect),
            Err(OrMemory::Refused(refusal)) => Err(Stop::ExpectRefused(refusal)),
            Err(OrMemory::Memory) => Err(Stop::Memory),
        },
        Whole::TooLarge => Err(Stop::ExpectRefused(ExpectRefusal::TooLarge)),
        Whole::Failed => Err(Stop::Outside),
        Whole::Memory => Err(Stop::Memory),
    }
}

/// What is expected of each property, by the file where one is named, or what the run comes to.
pub fn expected_of<F: Shelf>(
    alloc: Global,
    shelf: &mut F,
    name: Option<&str>,
    design: &Design,
) -> Result<Expect, Stop>
    ensures kept { F.holds shelf.new ≡ F.holds shelf.old }
    ensures later { F.faults shelf.old ≤ F.faults shelf.new }
    ensures quiet { MatchResult result (λ _. F.faults shelf.new ≡ F.faults shelf.old)
        (IsQuietStop (F.faults shelf.old) (F.faults shelf.new)) }
    ensures sized { IfOk result (λ expected. length expected ≡ length design.now.bads) }
    ensures cases { MatchResult result
        (λ expected. IsExpected (F.holds shelf.old) (option_map (λ x. x.now) name.entry) design.now
        expected)
        (λ s. NothingExpected (F.holds shelf.old) (F.faults shelf.old) (F.faults shelf.new)
        (option_map (λ x. x.now) name.entry) design.now s) }
{
    match name {
        Some(name) => expectations_of(alloc, shelf, name, design),
        None => match Expect::all(alloc, design.props()) {
            Ok(expect) => Ok(expect),
            Err(Memory) => Err(Stop::Memory),
        },
    }
}
