//! What closed lists are good for, over plain data.

ghost use Rattle.ja_base.specs.Laws.{ReachableStatesMeet, CoveredNeverFails, JoinIsInductive, AssumptionsDischarge, CoveredNeverBreaks};
ghost use Rattle.inv_cert.specs.Proofs.{OpenIsNotInductive, ProofsAreTaken};

pub fn reachable_states_meet()
    ensures { ReachableStatesMeet }
{}

pub fn covered_never_fails()
    ensures { CoveredNeverFails }
{}

pub fn join_is_inductive()
    ensures { JoinIsInductive }
{}

pub fn assumptions_discharge()
    ensures { AssumptionsDischarge }
{}

pub fn covered_never_breaks()
    ensures { CoveredNeverBreaks }
{}

/// Candidates that each have a proof are not refused.
pub fn proofs_are_taken()
    ensures { ProofsAreTaken }
{}

/// A row in which a clause holds and does not hold one step later shows that the list is not inductive.
pub fn open_is_not_inductive()
    ensures { OpenIsNotInductive }
{}
