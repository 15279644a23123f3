//! What is found on small designs. Their failures were worked out by hand.

ghost use Rattle.std.specs.Prelude.{◌≡◌, ◌<◌, length, IfSome};

use crate::simulate;
use aig_model::{Expect, Task};
use aiger_ascii::read_ascii;
use ja_base::Row;
use std::alloc::Global;
use std::test::Fail;

/// Three latches in a chain: the first is 1 from step 1 on, the second from step 2 on, the third from step 3 on. The first
/// property is broken where the third is 1, the second where the first is.
const CHAIN: &[u8] = b"aag 3 0 3 0 0 2\n2 1\n4 2\n6 4\n6\n2\n";

/// The property is broken two steps behind an input that is 1, if it is 1 twice in a row.
const TWICE: &[u8] = b"aag 4 1 2 0 1 1\n2\n4 2\n6 8\n6\n8 4 2\n";

/// The same, where the input may not be 1.
const NEVER: &[u8] = b"aag 4 1 2 0 1 1 1\n2\n4 2\n6 8\n6\n3\n8 4 2\n";

/// A latch that begins with either bit and keeps it, and a property of each bit.
const FREE: &[u8] = b"aag 1 0 1 0 0 2\n2 2 2\n2\n3\n";

/// A design; whether its second property is expected to fail, and is respected; for how many steps the first is looked at; and
/// the property that fails, with the number of its steps.
type Case = (&'static [u8], bool, bool, u32, Option<(u32, u32)>);

const CASES: [Case; 9] = [
    (CHAIN, true, false, 4, Some((0, 4))),
    (CHAIN, true, false, 1000, Some((0, 4))),
    (CHAIN, true, false, 3, None),
    (CHAIN, false, false, 2, Some((1, 2))),
    (CHAIN, false, false, 1, None),
    (CHAIN, false, true, 1000, None),
    (CHAIN, true, true, 4, Some((0, 4))),
    (NEVER, false, false, 200, None),
    (CHAIN, true, false, 0, None),
];

fn expectations(alloc: Global, props: u32, second_fails: bool) -> Option<Expect>
    ensures { IfSome result (λ expect. length expect ≡ props) }
{
    let mut expect = Expect::all(alloc, props).ok()?;
    if second_fails && props > 1 {
        expect.set_fail(1);
    }
    Some(expect)
}

fn task_of(alloc: Global, text: &[u8], second_fails: bool) -> Option<Task>
    ensures { IfSome result (λ task. 0 < length task.design.bads) }
{
    let design = read_ascii(alloc, text).ok()?;
    if design.props() == 0 {
        return None;
    }
    let expect = expectations(alloc, design.props(), second_fails)?;
    Task::new(alloc, design, expect).ok()
}

/// The bit of the second property, if there is one.
fn respect_of(alloc: Global, props: u32, second: bool) -> Option<Row>
    ensures { IfSome result (λ respect. length respect ≡ props) }
{
    let mut respect = Row::zeros(alloc, props).ok()?;
    if props > 1 {
        respect.set(1, second);
    }
    Some(respect)
}

/// The property of the failure that is found, and its steps.
fn found(
    alloc: Global,
    task: &Task,
    second_respected: bool,
    seed: u64,
    steps: u32,
) -> Result<Option<(u32, u32)>, Fail>
    requires { 0 < length task.now.design.bads }
{
    let props = task.design().props();
    let respect = respect_of(alloc, props, second_respected).ok_or("memory")?;
    let found = simulate(alloc, task, 0, &respect, seed, steps)?;
    Ok(found.map(|failure| (failure.prop(), failure.stim().inputs().len())))
}

#[test]
fn finds_what_is_wanted(rt: HostRuntime) -> Result<(), Fail> {
    let alloc = rt.alloc();
    for (text, fails, respected, steps, expected) in CASES {
        let task = task_of(alloc, text, fails).ok_or("a design")?;
        if found(alloc, &task, respected, 7, steps)? != expected {
            return Err("another failure".into());
        }
    }
    Ok(())
}

// Each run takes other inputs, so that one of the steps comes behind two inputs that are 1; the same seed gives the same run.
#[test]
fn takes_random_inputs(rt: HostRuntime) -> Result<(), Fail> {
    let alloc = rt.alloc();
    let task = task_of(alloc, TWICE, false).ok_or("a design")?;
    for seed in 0..20 {
        let first = found(alloc, &task, false, seed, 1000)?;
        let Some((0, steps)) = first else {
            return Err("no failure".into());
        };
        if steps < 3 || found(alloc, &task, false, seed, 1000)? != first {
            return Err("another run".into());
        }
    }
    Ok(())
}

// Some seeds begin with the bit 1, the others with 0; where the first property is not broken, the second one is.
#[test]
fn takes_random_first_rows(rt: HostRuntime) -> Result<(), Fail> {
    let alloc = rt.alloc();
    let task = task_of(alloc, FREE, false).ok_or("a design")?;
    let mut one = false;
    let mut zero = false;
    for seed in 0..20 {
        match found(alloc, &task, false, seed, 1)? {
            Some((0, 1)) => one = true,
            Some((1, 1)) => zero = true,
            _ => return Err("no failure".into()),
        }
    }
    if one && zero {
        Ok(())
    } else {
        Err("one bit alone".into())
    }
}
