//! The status that a sign-off ends with.

ghost use Rattle.std.specs.Prelude.{◌≡◌, ◌<◌, length, slice_index_or};
ghost use Rattle.std.specs.List.{list_any};
ghost use Rattle.ja_base.specs.Literals.{bit};
ghost use Rattle.store_core.specs.declared.mark.Mark.TheVariants.{Proved};
ghost use Rattle.store_core.specs.MarkKinds.{is_unknown};
ghost use Rattle.debug_set.specs.Verdicts.{is_expected, are_expected, status_of};

use aig_model::Expect;
use store_core::Mark;

fn is_unknown(mark: Mark) -> bool
    ensures { result ≡ is_unknown mark }
{
    matches!(mark, Mark::Budget(_) | Mark::Cancelled)
}

fn some_unknown(marks: &[Mark]) -> bool
    ensures { result ≡ list_any is_unknown marks.now }
{
    marks.iter().any(|mark| is_unknown(*mark))
}

fn is_expected(assumed: bool, mark: Mark) -> bool
    ensures { result ≡ is_expected assumed mark }
{
    match mark {
        Mark::Proved => assumed,
        Mark::Fails => !assumed,
        Mark::Budget(_) | Mark::Cancelled => false,
    }
}

fn are_expected(expect: &Expect, marks: &[Mark]) -> bool
    requires { length marks.now ≡ length expect.now }
    ensures { result ≡ are_expected expect.now marks.now }
{
    for prop in 0..expect.len() {
        if !is_expected(expect.is_assumed(prop), marks[prop as usize]) {
            return false;
        }
    }
    true
}

/// 2 where a property is unknown; else 0 where all came as expected, and 1 where one did not. It takes no memory.
pub fn status_of(expect: &Expect, marks: &[Mark]) -> u8
    requires { length marks.now ≡ length expect.now }
    ensures { result ≡ status_of expect.now marks.now }
{
    if some_unknown(marks) {
        2
    } else if are_expected(expect, marks) {
        0
    } else {
        1
    }
}
