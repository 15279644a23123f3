//! Whether the properties that are expected to hold were proved together.

ghost use Rattle.std.specs.Prelude.{◌≡◌, ◌<◌, ◌↔◌, ◌&&◌, not, length, map, IsTrue};
ghost use Rattle.ja_base.specs.Literals.{bit};
ghost use Rattle.store_core.specs.MarkKinds.{is_proved};
ghost use Rattle.debug_set.specs.Verdicts.{IsJoined};

use aig_model::Expect;
use store_core::Mark;

fn is_open(expect: &Expect, marks: &[Mark], prop: u32) -> bool
    requires within { prop < length expect.now }
    requires marks { length marks.now ≡ length expect.now }
    ensures { result ≡ (bit expect.now prop && not (bit (map is_proved marks.now) prop)) }
{
    expect.is_assumed(prop) && !matches!(marks[prop as usize], Mark::Proved)
}

/// Whether each property that is expected to hold has the mark Proved. It takes no memory.
pub fn is_joined(expect: &Expect, marks: &[Mark]) -> bool
    requires { length marks.now ≡ length expect.now }
    ensures { IsTrue result ↔ IsJoined expect.now marks.now }
{
    for prop in 0..expect.len() {
        if is_open(expect, marks, prop) {
            return false;
        }
    }
    true
}
