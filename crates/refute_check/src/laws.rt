//! What accepted lines mean, over plain data.

ghost use Rattle.refute_check.specs.Laws.{AcceptedHolds, CoveredIsRefuted, RefutesIsRefuted};

pub fn accepted_lines_hold()
    ensures { AcceptedHolds }
{}

pub fn what_is_covered_is_refuted()
    ensures { CoveredIsRefuted }
{}

pub fn what_lines_refute_is_refuted()
    ensures { RefutesIsRefuted }
{}
