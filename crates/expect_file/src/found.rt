//! What the lines so far say.

ghost use Rattle.std.specs.Prelude.{◌≡◌, ◌<◌, true, false, length, replicate, IfOk};
ghost use Rattle.ja_text.specs.Reading.{Gives};
ghost use Rattle.expect_file.specs.ExpectationsReading.{entry_taken, line_read};

use crate::line::{Entry, entry_of, is_remark};
use crate::refusal::{ExpectRefusal, Read};
use aig_model::Expect;
use ja_base::{Memory, OrMemory, Row};
use std::alloc::Global;

/// The properties that lines name, and what is expected of each property.
#[derive(Debug, Drop)]
pub struct Found {
    pub named: Row,
    pub expect: Expect,
}

impl Found {
    /// No line names a property yet.
    pub fn start(alloc: Global, props: u32) -> Result<Found, Memory>
        ensures { IfOk result (λ found. found
            ≡ record { named = replicate props false; expect = replicate props true }) }
    {
        Ok(Found {
            named: Row::zeros(alloc, props)?,
            expect: Expect::all(alloc, props)?,
        })
    }

    fn take_entry(&mut self, number: u64, entry: Entry) -> Read<()>
        requires { length self.old.named ≡ length self.old.expect }
        ensures read { Gives (λ _. self.new) result (entry_taken number self.old entry) }
        ensures sized { length self.new.named ≡ length self.new.expect }
    {
        if entry.property >= u64::from(self.named.len()) {
            return Err(OrMemory::Refused(ExpectRefusal::Unknown { line: number }));
        }
        let property = entry.property as u32;
        if self.named.get(property) {
            return Err(OrMemory::Refused(ExpectRefusal::Twice { line: number }));
        }
        self.named.set(property, true);
        if !entry.holds {
            self.expect.set_fail(property);
        }
        Ok(())
    }

    /// Takes the line of this number.
    #[tactic(auto, unfolding(crate::specs::ExpectationsReading::line_read))]
    pub fn take(&mut self, number: u64, line: &[u8]) -> Read<()>
        requires { length self.old.named ≡ length self.old.expect }
        ensures read { Gives (λ _. self.new) result (line_read number self.old line.now) }
        ensures sized { length self.new.named ≡ length self.new.expect }
    {
        if is_remark(line) {
            return Ok(());
        }
        match entry_of(line) {
            Some(entry) => self.take_entry(number, entry),
            None => Err(OrMemory::Refused(ExpectRefusal::Line { line: number })),
        }
    }
}
