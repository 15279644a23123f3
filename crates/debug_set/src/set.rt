//! The debugging set.

ghost use Rattle.std.specs.Prelude.{◌≡◌, ◌<◌, ◌&&◌, ◌++◌, ◌∷◌, [], length, map, if◌then◌else◌, IfOk, OnOk};
ghost use Rattle.ja_base.specs.Literals.{bit};
ghost use Rattle.store_core.specs.MarkKinds.{fails};
ghost use Rattle.debug_set.specs.Verdicts.{IsDebuggingSet};

use aig_model::Expect;
use ja_base::{Memory, Props};
use std::alloc::Global;
use store_core::Mark;

fn breaks_expectation(expect: &Expect, marks: &[Mark], prop: u32) -> bool
    requires within { prop < length expect.now }
    requires marks { length marks.now ≡ length expect.now }
    ensures { result ≡ (bit expect.now prop && bit (map fails marks.now) prop) }
{
    expect.is_assumed(prop) && matches!(marks[prop as usize], Mark::Fails)
}

fn add_where(set: &mut Props, prop: u32, is_in: bool) -> Result<(), Memory>
    ensures { OnOk result (set.new ≡ set.old ++ (if is_in then prop ∷ [] else [])) }
{
    if is_in {
        set.push(prop)?;
    }
    Ok(())
}

/// In ascending order the properties that are expected to hold and have the mark Fails.
pub fn debugging_set(alloc: Global, expect: &Expect, marks: &[Mark]) -> Result<Props, Memory>
    requires { length marks.now ≡ length expect.now }
    ensures { IfOk result (IsDebuggingSet expect.now marks.now) }
{
    let mut set = Props::new(alloc);
    for prop in 0..expect.len() {
        add_where(&mut set, prop, breaks_expectation(expect, marks, prop))?;
    }
    Ok(set)
}
