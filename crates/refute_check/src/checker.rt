//! The checker of a log.

ghost use Rattle.std.specs.Prelude.{◌≡◌, ◌+◌, ◌<◌, ◌≤◌, [], length, Some, None, All, IfOk, IfErr, OnOk, OnErr, is_ok};
ghost use Rattle.std.specs.Bool.{OnTrue};
ghost use Rattle.ja_base.specs.Clauses.{IsBelow};
ghost use Rattle.refute_check.specs.Lines.{refusal, accepts_line};
ghost use Rattle.refute_check.specs.Refuted.{IsRefuted, is_covered};
ghost use Rattle.refute_check.specs.Checked.{FollowsOne, IsAdded, with_line, without_lines};

use crate::covers::covers;
use crate::judge::judge;
use crate::lines::Line;
use crate::numbered::Numbered;
use ja_base::{Clause, Lit, Memory};
use std::alloc::Global;
use std::marker::Model;

/// Clauses that are numbered from 0: added ones and those of accepted lines, in order.
#[derive(Debug, Drop)]
pub struct Checker {
    vars: u32,
    values: Vec<bool>,
    clauses: Numbered,
}

impl Model for Checker {
    ghost use Rattle.std.specs.Prelude.{◌≡◌, All};
    ghost use Rattle.ja_base.specs.Clauses.{IsBelow};
    ghost use Rattle.refute_check.specs.Lines.{unknown};
    ghost use Rattle.refute_check.specs.Checked.{Checked, Follows};

    ghost Value = { Checked };

    ghost view = { λ a. record {
      vars = a.vars;
      list = a.clauses.list;
      spare = a.clauses.spare;
      added = a.clauses.added;
      kept = a.clauses.kept;
    } };

    ghost invariant = { λ a. (a.values.items ≡ unknown a.vars) × All (IsBelow a.vars) a.clauses.list
        × Follows a.clauses.added a.clauses.list };
}

/// A line that is not accepted, with the hint at which it fails.
#[derive(Debug, Drop)]
pub struct LineRefused {
    pub hint: u32,
    pub line: Line,
}

impl Checker {
    /// A checker of clauses over the variables below `vars`.
    pub fn new(alloc: Global, vars: u32) -> Result<Checker, Memory>
        ensures { IfOk result (λ checker. checker
            ≡ record { vars = vars; list = []; spare = 0; added = []; kept = 0 }) }
    {
        Ok(Checker {
            vars,
            values: vec![in alloc; false; 2 * vars as usize]?,
            clauses: Numbered::new(alloc),
        })
    }

    /// Makes room for so many lines.
    pub fn reserve(&mut self, lines: u32) -> Result<(), Memory>
        ensures ok { OnOk result (lines ≤ self.new.spare) }
        ensures same { self.new ≡ record self.old { spare = self.new.spare } }
        ensures room { self.old.spare ≤ self.new.spare }
        ensures err { OnErr result (self.new ≡ self.old) }
    {
        self.clauses.reserve(lines)
    }

    /// Adds a clause, and tells its number.
    pub fn add(&mut self, alloc: Global, clause: &Clause) -> Result<u32, Memory>
        requires { IsBelow self.old.vars clause.now }
        ensures number { IfOk result (λ n. n ≡ length self.old.list) }
        ensures ok { OnOk result (IsAdded self.old clause.now self.new) }
        ensures err { OnErr result (self.new ≡ self.old) }
    {
        self.clauses.add(clause.copy(alloc)?)
    }

    /// Takes a line that unit propagation accepts, and tells its number; or gives the line back. No memory is taken.
    pub fn line(&mut self, line: Line) -> Result<u32, LineRefused>
        requires { 0 < self.old.spare }
        ensures exact { is_ok result
            ≡ accepts_line self.old.vars self.old.list line.clause line.hints }
        ensures number { IfOk result (λ n. n ≡ length self.old.list) }
        ensures ok { OnOk result (self.new ≡ with_line self.old line.clause) }
        ensures follows { OnOk result (FollowsOne self.old.added line.clause) }
        ensures hint { IfErr result (λ refused.
            refusal self.old.vars self.old.list line.clause line.hints ≡ Some refused.hint) }
        ensures given_back { IfErr result (λ refused. refused.line ≡ line) }
        ensures err { OnErr result (self.new ≡ self.old) }
    {
        let number = self.clauses.len();
        match judge(self.vars, &mut self.values, &self.clauses, &line) {
            Some(hint) => Err(LineRefused { hint, line }),
            None => {
                let Line { clause, hints: _ } = line;
                self.clauses.put(clause);
                Ok(number)
            }
        }
    }

    /// Whether some clause is false under these literals, or they contradict each other.
    pub fn covers(&self, under: &[Lit]) -> bool
        ensures exact { result ≡ is_covered self.now.list under.now }
        ensures refuted { OnTrue result (IsRefuted self.now.vars self.now.added under.now) }
    {
        covers(self.clauses.as_slice(), under)
    }

    /// Drops the lines that came after the last added clause.
    pub fn forget_lines(&mut self)
        ensures { self.new ≡ without_lines self.old }
    {
        self.clauses.forget_lines();
    }
}
