//! What the clauses and literals of a task mean, over plain data.

ghost use Rattle.std.specs.Prelude.{◌≡◌, length};
ghost use Rattle.aig_model.specs.Netlist.{Netlist, IsSound};
ghost use Rattle.aig_model.specs.Task.{VerificationTask};
ghost use Rattle.ja_project.specs.CodedClauses.{coded_clauses, held_literals};
ghost use Rattle.ja_project.specs.Meaning.{CodesSteps, CodesAssumptions};
ghost use Rattle.ja_project.specs.Laws.{CutRowsMeet, LatchValuesAreValues, NextValuesAreValues};
ghost use Rattle.ja_project.specs.Start.{StartsExactly};

/// The clauses of a sound design hold exactly at its steps under the constraints.
pub fn coded_clauses_mean_steps()
    ensures { (n : Netlist) → IsSound n → CodesSteps n (coded_clauses n) }
{}

/// The held literals are 1 exactly where no property that is expected to hold is broken.
pub fn held_literals_mean_assumptions()
    ensures { (t : VerificationTask) → length t.expected ≡ length t.design.bads
        → CodesAssumptions t (held_literals t) }
{}

pub fn cut_rows_meet()
    ensures { CutRowsMeet }
{}

pub fn latch_values_are_values()
    ensures { LatchValuesAreValues }
{}

pub fn next_values_are_values()
    ensures { NextValuesAreValues }
{}

/// Which clauses hold at the start is told by the resets alone.
pub fn starts_exactly()
    ensures { StartsExactly }
{}
