//! How a line is derived from a conflict.

ghost use Rattle.std.specs.Prelude.{◌≡◌, ◌*◌, ◌<◌, ◌≤◌, ◌++◌, [], ◌∷◌, length, not, true, IfOk, OnOk, OnErr};
ghost use Rattle.std.specs.Bool.{OnTrue};
ghost use Rattle.ja_base.specs.Literals.{bit, negated};
ghost use Rattle.ja_base.specs.Clauses.{IsBelow, IsSetOf};
ghost use Rattle.refute_check.specs.Lines.{assumed, unknown};
ghost use Rattle.refute_check.specs.Spans.{Spans};
ghost use Rattle.sat_plain.specs.Derive.{resolved_marks, Begins, Skips, Resolves, Keeps, Finishes};

use ja_base::{Clause, Lit, Memory};
use refute_check::{Hints, Line, assume};
use std::alloc::Global;
use std::marker::Model;

/// A walk down a trail from a conflict, place by place. A literal that is not marked is skipped; one that is marked is
/// resolved by the clause that forces it, or kept. The line's clause is the negation of those that were kept, and any choice
/// of them gives an accepted line.
#[derive(Debug, Drop)]
pub struct Derivation {
    marks: Vec<bool>,
    lits: Vec<Lit>,
    hints: Vec<u32>,
}

impl Model for Derivation {
    ghost use Rattle.std.specs.Prelude.{◌<◌, ◌^◌, length};
    ghost use Rattle.sat_plain.specs.Derive.{Derived};

    ghost Value = { Derived };

    ghost view = { λ a. record {
      marks = a.marks.items;
      lits = a.lits.items;
      hints = a.hints.items;
    } };

    ghost invariant = { λ a. length a.hints.items < 2 ^ 32 };
}

impl Derivation {
    /// The walk begins at the end of the trail, with the number of a clause that is false there.
    pub fn begin(
        alloc: Global,
        vars: u32,
        number: u32,
        clause: &Clause,
    ) -> Result<Derivation, Memory>
        requires { IsBelow vars clause.now }
        ensures width { IfOk result (λ walk. length walk.marks ≡ 2 * vars) }
        ensures marks { IfOk result (λ walk. walk.marks ≡ assumed clause.now (unknown vars)) }
        ensures lits { IfOk result (λ walk. walk.lits ≡ []) }
        ensures begins { IfOk result (Begins vars number clause.now) }
    {
        let mut marks = vec![in alloc; false; 2 * vars as usize]?;
        let mut hints = Vec::new(alloc);
        hints.push(number)?;
        assume(&mut marks, clause.lits());
        Ok(Derivation {
            marks,
            lits: Vec::new(alloc),
            hints,
        })
    }

    /// Whether the literal is not marked: the walk is then below its place.
    pub fn skips(&self, lit: Lit) -> bool
        requires { lit < length self.now.marks }
        ensures value { result ≡ not (bit self.now.marks lit) }
        ensures skips { OnTrue result (Skips self.now lit) }
    {
        !self.marks[lit.number() as usize]
    }

    /// Resolves the literal by the clause of this number, which forces it.
    pub fn resolve(&mut self, lit: Lit, number: u32, clause: &Clause) -> Result<(), Memory>
        requires lit { (lit < length self.old.marks) × (negated lit < length self.old.marks) }
        requires clause { Spans (length self.old.marks) clause.now }
        ensures width { length self.new.marks ≡ length self.old.marks }
        ensures marks { OnOk result
            (self.new.marks ≡ resolved_marks clause.now lit self.old.marks) }
        ensures lits { self.new.lits ≡ self.old.lits }
        ensures err { OnErr result (self.new ≡ self.old) }
        ensures resolves { OnOk result (Resolves self.old lit number clause.now self.new) }
    {
        if self.hints.len() >= u32::MAX as usize {
            return Err(Memory);
        }
        self.hints.push(number)?;
        assume(&mut self.marks, clause.lits());
        self.marks[lit.number() as usize] = false;
        self.marks[lit.not().number() as usize] = false;
        Ok(())
    }

    /// Keeps the literal, which is marked: its negation joins the clause.
    pub fn keep(&mut self, lit: Lit) -> Result<(), Memory>
        requires { bit self.old.marks lit ≡ true }
        ensures marks { self.new.marks ≡ self.old.marks }
        ensures lits { OnOk result (self.new.lits ≡ self.old.lits ++ negated lit ∷ []) }
        ensures err { OnErr result (self.new ≡ self.old) }
        ensures keeps { OnOk result (Keeps self.old lit self.new) }
    {
        self.lits.push(lit.not())?;
        Ok(())
    }

    /// The line, once the walk is at the lowest place.
    pub fn finish(self, alloc: Global) -> Result<Line, Memory>
        ensures clause { IfOk result (λ line. IsSetOf self.lits line.clause) }
        ensures accepted { IfOk result (Finishes self) }
    {
        let Derivation {
            marks: _,
            lits,
            mut hints,
        } = self;
        hints.reverse();
        let clause = Clause::from_lits(alloc, lits.as_slice())?;
        Ok(Line {
            clause,
            hints: Hints::from_vec(hints),
        })
    }
}
