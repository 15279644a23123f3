//! Lines of a log, and what they refute.

ghost use Rattle.std.specs.Prelude.{◌≡◌, IfOk};

use ja_base::{Clause, Items, Lits, Memory};
use std::alloc::Global;

/// Numbers of clauses, in the order in which they are taken.
pub type Hints = Items<u32>;

/// A clause, with the hints by which it follows.
#[derive(Debug, Drop)]
pub struct Line {
    pub clause: Clause,
    pub hints: Hints,
}

pub type Lines = Items<Line>;

/// Literals that cannot all be 1, with the lines that show it.
#[derive(Debug, Drop)]
pub struct Refuted {
    pub core: Lits,
    pub lines: Lines,
}

pub type Proofs = Items<Refuted>;

impl Line {
    pub fn copy(&self, alloc: Global) -> Result<Line, Memory>
        ensures { IfOk result (λ line. line ≡ self.now) }
    {
        let clause = self.clause.copy(alloc)?;
        let hints = Vec::from_slice(alloc, self.hints.as_slice())?;
        Ok(Line {
            clause,
            hints: Hints::from_vec(hints),
        })
    }
}

fn copy_lines(alloc: Global, lines: &[Line]) -> Result<Lines, Memory>
    ensures { IfOk result (λ copy. copy ≡ lines.now) }
{
    let mut copy = Lines::new(alloc);
    for line in lines {
        copy.push(line.copy(alloc)?)?;
    }
    Ok(copy)
}

impl Refuted {
    pub fn copy(&self, alloc: Global) -> Result<Refuted, Memory>
        ensures { IfOk result (λ refuted. refuted ≡ self.now) }
    {
        let core = Vec::from_slice(alloc, self.core.as_slice())?;
        let lines = copy_lines(alloc, self.lines.as_slice())?;
        Ok(Refuted {
            core: Lits::from_vec(core),
            lines,
        })
    }
}
