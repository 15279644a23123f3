//! The verdict over one line.

ghost use Rattle.std.specs.Prelude.{◌≡◌, All};
ghost use Rattle.ja_base.specs.Clauses.{IsBelow};
ghost use Rattle.refute_check.specs.Lines.{refusal, unknown};

use crate::fit::fits;
use crate::lines::Line;
use crate::numbered::Numbered;
use crate::propagate::{assume, follow, release, withdraw};

/// Which hint is refused, if one is. What becomes known on the way is taken back.
pub(crate) fn judge(vars: u32, values: &mut [bool], clauses: &Numbered, line: &Line) -> Option<u32>
    requires values { values.old ≡ unknown vars }
    requires clauses { All (IsBelow vars) clauses.now.list }
    ensures same { values.new ≡ values.old }
    ensures value { result ≡ refusal vars clauses.now.list line.now.clause line.now.hints }
{
    let lits = line.clause.lits();
    if !fits(vars, lits) {
        return Some(0);
    }
    let hints = line.hints.as_slice();
    assume(values, lits);
    let refused = follow(values, clauses, hints);
    release(values, clauses, hints);
    withdraw(values, lits);
    refused
}
