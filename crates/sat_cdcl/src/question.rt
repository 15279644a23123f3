//! What a question without a log works on, and what it learns.

ghost use Rattle.std.specs.Prelude.{◌≡◌, ℕ, ◌≤◌, [], List, All, None, option_copied, false, IfOk, OnOk};
ghost use Rattle.std.specs.Bool.{OnFalse};
ghost use Rattle.refute_check.specs.Lines.{refusal};
ghost use Rattle.sat_plain.specs.Answer.{ExtraIsBelow};
ghost use Rattle.sat_watch.specs.Stores.{IsThere};
ghost use Rattle.sat_cdcl.specs.Files.{list_of, IsKept};
ghost use Rattle.sat_cdcl.specs.Questions.{is_tainted, IsKeepable, IsLearning, LearnsOn};

use crate::database::Database;
use crate::query::Query;
use ja_base::{Clause, Memory};
use refute_check::{Hints, Line, Lines};
use std::alloc::Global;

/// A clause of more literals is not kept behind its question.
const LONGEST: usize = 6;

/// A query that logs no line; the number of the first clause that came in it; for each since then, whether it may rest on the
/// extra one; and copies of the short ones that do not.
#[derive(Debug, Drop)]
pub(crate) struct Question {
    pub(crate) query: Query,
    pub(crate) first: u32,
    pub(crate) taints: Vec<bool>,
    pub(crate) kept: Vec<Clause>,
}

impl Question {
    /// Nothing is learnt yet.
    pub(crate) fn new(alloc: Global, first: u32) -> Question
        ensures free { result.query.free ≡ None }
        ensures cursor { result.query.cursor ≡ 0 }
        ensures first { result.first ≡ first }
        ensures taints { result.taints.items ≡ [] }
        ensures kept { result.kept.items ≡ [] }
    {
        Question {
            query: Query {
                lines: Lines::new(alloc),
                free: None,
                cursor: 0,
            },
            first,
            taints: Vec::new(alloc),
            kept: Vec::new(alloc),
        }
    }

    /// Whether the clause of this number may rest on the extra one.
    fn is_tainted(&self, number: u32) -> bool
        ensures { result ≡ is_tainted self.now.first self.now.taints.items number }
    {
        if number < self.first {
            return false;
        }
        let at = (number - self.first) as usize;
        at < self.taints.len() && self.taints[at]
    }

    /// Whether one of these clauses may rest on the extra one.
    fn rests_on(&self, hints: &Hints) -> bool
        ensures { OnFalse result (All (λ n. is_tainted self.now.first self.now.taints.items n
            ≡ false) hints.now) }
    {
        for at in 0..hints.len() {
            if self.is_tainted(*hints.get(at)) {
                return true;
            }
        }
        false
    }

    /// A copy is kept, unless the clause may rest on the extra one or is long.
    pub(crate) fn note(
        &mut self,
        alloc: Global,
        clause: &Clause,
        tainted: bool,
    ) -> Result<(), Memory>
        ensures query { self.new.query ≡ self.old.query }
        ensures first { self.new.first ≡ self.old.first }
        ensures taints { self.new.taints.items ≡ self.old.taints.items }
        ensures keeps { (vars : ℕ) (added : List (List ℕ))
            → All (IsKeepable vars added) self.old.kept.items
            → (tainted ≡ false → IsKeepable vars added clause.now)
            → All (IsKeepable vars added) self.new.kept.items }
    {
        if tainted {
            return Ok(());
        }
        if clause.lits().len() > LONGEST {
            return Ok(());
        }
        let copy = clause.copy(alloc)?;
        self.kept.push(copy)?;
        Ok(())
    }

    /// The clause of a line takes the next number, and a slot, which is told.
    pub(crate) fn learn(
        &mut self,
        alloc: Global,
        db: &mut Database,
        line: Line,
    ) -> Result<u32, Memory>
        requires { refusal db.old.watched.trail.vars (list_of db.old) line.clause line.hints
            ≡ None }
        ensures there { IfOk result (λ slot. IsThere db.new.watched.store slot line.clause) }
        ensures trail { db.new.watched.trail ≡ db.old.watched.trail }
        ensures query { self.new.query ≡ self.old.query }
        ensures learns { LearnsOn db.old self.old db.new self.new }
        ensures kept { IsKept db.old db.new }
    {
        let tainted = self.rests_on(&line.hints);
        let Line { clause, hints: _ } = line;
        self.note(alloc, &clause, tainted)?;
        self.taints.reserve(1)?;
        let slot = db.put(clause)?;
        self.taints.push_reserved(tainted);
        Ok(slot)
    }

    /// The extra clause takes the next number, where it is given.
    pub(crate) fn put_extra(
        &mut self,
        alloc: Global,
        db: &mut Database,
        extra: Option<&Clause>,
    ) -> Result<(), Memory>
        requires { ExtraIsBelow db.old.watched.trail.vars (option_copied extra) }
        ensures learns { OnOk result ((added : List (List ℕ))
            → IsLearning db.old.watched.trail.vars added None (list_of db.old) self.old
            → IsLearning db.new.watched.trail.vars added (option_copied extra.entry)
            (list_of db.new) self.new) }
        ensures keeps { self.new.kept.items ≡ self.old.kept.items }
        ensures query { self.new.query ≡ self.old.query }
        ensures trail { db.new.watched.trail ≡ db.old.watched.trail }
        ensures kept { IsKept db.old db.new }
    {
        match extra {
            None => Ok(()),
            Some(clause) => {
                let clause = clause.copy(alloc)?;
                self.taints.reserve(1)?;
                db.put(clause)?;
                self.taints.push_reserved(true);
                Ok(())
            }
        }
    }
}
