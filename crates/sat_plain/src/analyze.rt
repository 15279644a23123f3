//! What is learnt from a conflict: the decisions that led to it.

ghost use Rattle.std.specs.Prelude.{◌≡◌, ◌+◌, ◌<◌, All, None, length, IfOk, OnOk};
ghost use Rattle.ja_base.specs.Clauses.{IsBelow};
ghost use Rattle.refute_check.specs.Lines.{refusal};
ghost use Rattle.sat_plain.specs.Trails.{AreForced, lits_of};
ghost use Rattle.sat_plain.specs.Steps.{IsConflict};
ghost use Rattle.sat_plain.specs.Walks.{IsWalking, IsLast};

use crate::derivation::Derivation;
use crate::trail::Trail;
use ja_base::Memory;
use refute_check::{Line, Numbered};
use std::alloc::Global;

/// A line, and the place of the highest decision whose negation is in its clause.
#[derive(Debug, Drop)]
pub(crate) struct Learnt {
    pub(crate) line: Line,
    pub(crate) last: Option<u32>,
}

/// A walk down the trail, and the place of the highest decision that it kept.
#[derive(Debug, Drop)]
struct Walk {
    derivation: Derivation,
    last: Option<u32>,
}

impl Walk {
    /// Goes on below a place.
    fn step(&mut self, trail: &Trail, clauses: &Numbered, at: u32) -> Result<(), Memory>
        requires at { at < length trail.now.places }
        requires below { All (IsBelow trail.now.vars) clauses.now.list }
        requires forced { AreForced clauses.now.list trail.now.places }
        requires walk { IsWalking trail.now.vars clauses.now.list trail.now.places (at + 1)
            self.old.derivation self.old.last }
        ensures { OnOk result (IsWalking trail.now.vars clauses.now.list trail.now.places at
            self.new.derivation self.new.last) }
    {
        let place = trail.place(at);
        let lit = place.lit;
        if self.derivation.skips(lit) {
            return Ok(());
        }
        match place.reason {
            Some(number) => {
                self.derivation
                    .resolve(lit, number, clauses.clause(number))?;
                Ok(())
            }
            None => {
                self.derivation.keep(lit)?;
                self.last = Some(self.last.unwrap_or(at));
                Ok(())
            }
        }
    }
}

/// Walks down from a conflict, keeps decisions and resolves the other places.
pub(crate) fn derive(
    alloc: Global,
    trail: &Trail,
    clauses: &Numbered,
    conflict: u32,
) -> Result<Learnt, Memory>
    requires below { All (IsBelow trail.now.vars) clauses.now.list }
    requires forced { AreForced clauses.now.list trail.now.places }
    requires conflict { IsConflict clauses.now.list (lits_of trail.now.places) conflict }
    ensures accepted { IfOk result (λ learnt.
        refusal trail.now.vars clauses.now.list learnt.line.clause learnt.line.hints ≡ None) }
    ensures last { IfOk result (λ learnt.
        IsLast trail.now.places 0 learnt.line.clause learnt.last) }
{
    let clause = clauses.clause(conflict);
    let derivation = Derivation::begin(alloc, trail.vars(), conflict, clause)?;
    let mut walk = Walk {
        derivation,
        last: None,
    };
    for at in (0..trail.len()).rev() {
        walk.step(trail, clauses, at)?;
    }
    let Walk { derivation, last } = walk;
    let line = derivation.finish(alloc)?;
    Ok(Learnt { line, last })
}
