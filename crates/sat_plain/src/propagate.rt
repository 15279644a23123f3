//! Unit propagation by passes over all clauses, and decisions where it ends.

ghost use Rattle.std.specs.Prelude.{◌≡◌, ◌<◌, [], All, length, slice_index_or};
ghost use Rattle.ja_base.specs.Clauses.{IsBelow};
ghost use Rattle.ja_base.specs.Trails.{open_lits};
ghost use Rattle.refute_check.specs.Lines.{found_of};
ghost use Rattle.sat_plain.specs.Trails.{AreForced, IsAssigned, IsGrown, IsQuiet};
ghost use Rattle.sat_plain.specs.Steps.{IsExamined, IsPassed, IsAdvanced};

use crate::trail::Trail;
use ja_base::Lit;
use refute_check::{Found, Numbered, scan};

/// What a step leaves.
#[derive(Clone, Copy, Debug)]
pub(crate) enum Progress {
    /// The clause of this number is false.
    Conflict(u32),
    /// Some literal became true.
    Moved,
    /// There was nothing to do.
    Quiet,
}

/// Makes the literal true that the clause of this number forces, if it forces one.
fn examine(trail: &mut Trail, clauses: &Numbered, at: u32) -> Found
    requires at { at < length clauses.now.list }
    requires below { All (IsBelow trail.old.vars) clauses.now.list }
    requires forced { AreForced clauses.now.list trail.old.places }
    ensures value { result ≡ found_of trail.old.values
        (open_lits trail.old.values (slice_index_or clauses.now.list at [])) }
    ensures vars { trail.new.vars ≡ trail.old.vars }
    ensures step { IsExamined clauses.now.list at trail.old trail.new result }
    ensures grown { IsGrown trail.old.places trail.new.places }
    ensures forced { AreForced clauses.now.list trail.new.places }
    ensures is { IsAssigned trail.new }
{
    match scan(trail.values(), clauses.clause(at).lits()) {
        Found::Forces(lit) => {
            trail.push(Lit(lit), Some(at));
            Found::Forces(lit)
        }
        Found::False => Found::False,
        Found::Other => Found::Other,
    }
}

/// Goes once over all clauses.
fn pass(trail: &mut Trail, clauses: &Numbered) -> Progress
    requires below { All (IsBelow trail.old.vars) clauses.now.list }
    requires forced { AreForced clauses.now.list trail.old.places }
    ensures vars { trail.new.vars ≡ trail.old.vars }
    ensures grown { IsGrown trail.old.places trail.new.places }
    ensures forced { AreForced clauses.now.list trail.new.places }
    ensures is { IsAssigned trail.new }
    ensures step { IsPassed clauses.now.list trail.old trail.new result }
{
    let before = trail.len();
    for at in 0..clauses.len() {
        if let Found::False = examine(trail, clauses, at) {
            return Progress::Conflict(at);
        }
    }
    if trail.len() > before {
        Progress::Moved
    } else {
        Progress::Quiet
    }
}

/// Gives the first variable that has no value the value 0, if there is one.
fn decide(trail: &mut Trail, clauses: &Numbered) -> Progress
    requires forced { AreForced clauses.now.list trail.old.places }
    requires quiet { IsQuiet clauses.now.list trail.old.values }
    ensures vars { trail.new.vars ≡ trail.old.vars }
    ensures grown { IsGrown trail.old.places trail.new.places }
    ensures forced { AreForced clauses.now.list trail.new.places }
    ensures is { IsAssigned trail.new }
    ensures step { IsAdvanced clauses.now.list trail.old trail.new result }
{
    match trail.unset() {
        Some(var) => {
            trail.push(Lit::new(var, true), None);
            Progress::Moved
        }
        None => Progress::Quiet,
    }
}

/// One pass, or a decision where it finds nothing to do.
pub(crate) fn advance(trail: &mut Trail, clauses: &Numbered) -> Progress
    requires below { All (IsBelow trail.old.vars) clauses.now.list }
    requires forced { AreForced clauses.now.list trail.old.places }
    ensures vars { trail.new.vars ≡ trail.old.vars }
    ensures grown { IsGrown trail.old.places trail.new.places }
    ensures forced { AreForced clauses.now.list trail.new.places }
    ensures is { IsAssigned trail.new }
    ensures step { IsAdvanced clauses.now.list trail.old trail.new result }
{
    match pass(trail, clauses) {
        Progress::Conflict(number) => Progress::Conflict(number),
        Progress::Moved => Progress::Moved,
        Progress::Quiet => decide(trail, clauses),
    }
}
