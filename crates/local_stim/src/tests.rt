ghost use Rattle.std.specs.Prelude.{◌≡◌, ◌<◌, length, All, IfOk};
ghost use Rattle.aig_model.specs.Refusals.{AreInRange};

use crate::{Confirm, LocalFailure, stim_text};
use aig_model::{Design, Expect, Parts, Stimulus, Task};
use ja_base::{Items, Lit, Memory, OrMemory, Row, Rows};
use std::alloc::Global;
use std::test::Fail;

/// No variable; the first property is broken at each step, the second at none.
fn parts_of(alloc: Global) -> Result<Parts, Memory>
    ensures { IfOk result AreInRange }
{
    let mut bads = Items::new(alloc);
    bads.push(Lit(1))?;
    bads.push(Lit(0))?;
    Ok(Parts {
        vars: 0,
        inputs: Items::new(alloc),
        latches: Items::new(alloc),
        bads,
        constraints: Items::new(alloc),
        outputs: Items::new(alloc),
        gates: Items::new(alloc),
    })
}

/// A task of these lists, and a stimulus of one step.
fn task_of(alloc: Global, design: Design) -> Result<Task, Memory>
    ensures { IfOk result (λ task. task.design ≡ design) }
{
    let expect = Expect::all(alloc, design.props())?;
    Task::new(alloc, design, expect)
}

fn one_step(alloc: Global, design: &Design) -> Result<Stimulus, Memory>
    ensures first { IfOk result (λ stim. length stim.first ≡ length design.now.latches) }
    ensures rows { IfOk result (λ stim. All (λ row. length row ≡ length design.now.inputs) stim.inputs) }
{
    let first = Row::zeros(alloc, design.latches())?;
    let inputs = Rows::one(alloc, Row::zeros(alloc, design.inputs())?)?;
    Ok(Stimulus::new(first, inputs))
}

/// Why the stimulus of one step is not kept for a property, if it is not.
fn refusal_of(alloc: Global, task: &Task, prop: u32) -> Result<Option<Confirm>, Memory>
    requires { prop < length task.now.design.bads }
{
    match LocalFailure::of(alloc, task, prop, one_step(alloc, task.design())?) {
        Ok(_failure) => Ok(None),
        Err(OrMemory::Refused(why)) => Ok(Some(why)),
        Err(OrMemory::Memory) => Err(Memory),
    }
}

#[test]
fn keeps_failures_alone(rt: HostRuntime) -> Result<(), Fail> {
    let alloc = rt.alloc();
    let Ok(design) = Design::build(alloc, parts_of(alloc)?) else {
        return Err("lists of a design".into());
    };
    let task = task_of(alloc, design)?;
    for (prop, refusal) in [(0, None), (1, Some(Confirm::NotBad))] {
        assert!(rt; prop < task.design().props());
        assert_eq!(rt; refusal_of(alloc, &task, prop)?, refusal, "property {prop}");
    }
    Ok(())
}

#[test]
fn writes_the_text_of_a_stimulus(rt: HostRuntime) -> Result<(), Fail> {
    let alloc = rt.alloc();
    let mut first = Row::zeros(alloc, 3)?;
    first.set(1, true);
    let mut inputs = Rows::one(alloc, Row::ones(alloc, 1)?)?;
    inputs.push(Row::zeros(alloc, 1)?)?;
    let text = stim_text(alloc, 12, &Stimulus::new(first, inputs))?;
    assert_eq!(rt; text.bytes(), b"1\nb12\n010\n1\n0\n.\n".as_slice());
    Ok(())
}
