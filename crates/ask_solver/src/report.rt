//! What is written.

use ja_base::Memory;
use ja_text::Text;
use refute_check::{Lines, Refuted};
use refute_text::lines_text;
use sat_plain::{Probed, SatAnswer};
use std::alloc::Global;

/// One line for each answer, or the lines of the refutations.
#[derive(Debug, Drop)]
pub(crate) struct Report {
    text: Text,
}

/// How many literals and hints some lines have.
#[derive(Clone, Copy, Debug)]
struct Size {
    literals: u64,
    hints: u64,
}

fn size_of(lines: &Lines) -> Size {
    let mut size = Size {
        literals: 0,
        hints: 0,
    };
    for line in lines.as_slice() {
        size.literals = size
            .literals
            .saturating_add(line.clause.lits().len() as u64);
        size.hints = size.hints.saturating_add(u64::from(line.hints.len()));
    }
    size
}

impl Report {
    pub(crate) fn new(alloc: Global) -> Report {
        Report {
            text: Text::new(alloc),
        }
    }

    pub(crate) fn text(&self) -> &Text {
        &self.text
    }

    fn count(&mut self, word: &[u8], number: u64) -> Result<(), Memory> {
        self.text.push(word)?;
        self.text.number(number)
    }

    /// A core, and the size of the log behind it.
    fn refuted(&mut self, refuted: &Refuted) -> Result<(), Memory> {
        let size = size_of(&refuted.lines);
        self.count(b"unsat core ", u64::from(refuted.core.len()))?;
        self.count(b" lines ", u64::from(refuted.lines.len()))?;
        self.count(b" literals ", size.literals)?;
        self.count(b" hints ", size.hints)
    }

    fn told(&mut self, answer: &SatAnswer) -> Result<(), Memory> {
        match answer {
            SatAnswer::Sat(_) => self.text.push(b"sat"),
            SatAnswer::Unsat(refuted) => self.refuted(refuted),
            SatAnswer::Spent | SatAnswer::Stopped => self.text.push(b"open"),
            SatAnswer::Memory => Err(Memory),
        }
    }

    fn log(&mut self, alloc: Global, answer: &SatAnswer) -> Result<(), Memory> {
        match answer {
            SatAnswer::Unsat(refuted) => {
                let text = lines_text(alloc, &refuted.lines)?;
                self.text.push(text.bytes())
            }
            _ => Ok(()),
        }
    }

    /// What was answered, and how many units it took; or the log alone.
    pub(crate) fn answer(
        &mut self,
        alloc: Global,
        answer: &SatAnswer,
        units: u64,
        with_log: bool,
    ) -> Result<(), Memory> {
        if with_log {
            return self.log(alloc, answer);
        }
        self.told(answer)?;
        self.count(b" units ", units)?;
        self.text.push(b"\n")
    }

    pub(crate) fn probed(&mut self, probed: &Probed, units: u64) -> Result<(), Memory> {
        match probed {
            Probed::Open => self.text.push(b"open")?,
            Probed::Closed(core) => self.count(b"closed core ", u64::from(core.len()))?,
            Probed::Spent | Probed::Stopped => self.text.push(b"ended")?,
            Probed::Memory => return Err(Memory),
        }
        self.count(b" units ", units)?;
        self.text.push(b"\n")
    }
}
