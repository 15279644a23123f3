ghost use Rattle.std.specs.Prelude.{◌≡◌, [], IfOk};
ghost use Rattle.aig_model.specs.Refusals.{AreInRange};

use crate::Closed;
use crate::join::joined;
use aig_model::{AndGates, Design, Expect, Latches, Parts, Task};
use ja_base::{Clause, ClauseList, ClosedSet, Lit, Lits, Memory};
use std::alloc::Global;
use std::test::Fail;

fn list(alloc: Global, clauses: &[&[Lit]]) -> Result<ClauseList, Memory> {
    let mut list = ClauseList::new(alloc);
    for lits in clauses {
        list.push(Clause::from_lits(alloc, lits)?)?;
    }
    Ok(list)
}

#[test]
fn joins_lists(rt: HostRuntime) -> Result<(), Fail> {
    let alloc = rt.alloc();
    let first = list(alloc, &[&[Lit(7), Lit(4)], &[Lit(2)]])?;
    let second = list(
        alloc,
        &[
            &[Lit(3)],
            &[Lit(4), Lit(7)],
            &[Lit(4), Lit(6)],
            &[Lit(2)],
            &[],
            &[Lit(6), Lit(4)],
            &[Lit(3)],
        ],
    )?;
    let both = joined(alloc, &first, &second)?;
    let expected: [&[Lit]; 5] = [
        &[Lit(4), Lit(7)],
        &[Lit(2)],
        &[Lit(3)],
        &[Lit(4), Lit(6)],
        &[],
    ];
    assert_eq!(rt; both.len(), 5);
    for (clause, lits) in both.as_slice().iter().zip(expected) {
        assert_eq!(rt; clause.lits(), lits);
    }
    Ok(())
}

fn no_parts(alloc: Global) -> Parts
    ensures { AreInRange result }
{
    Parts {
        vars: 0,
        inputs: Lits::new(alloc),
        latches: Latches::new(alloc),
        bads: Lits::new(alloc),
        constraints: Lits::new(alloc),
        outputs: Lits::new(alloc),
        gates: AndGates::new(alloc),
    }
}

#[test]
fn joins_lists_of_a_task(rt: HostRuntime) -> Result<(), Fail> {
    let alloc = rt.alloc();
    let design = Design::build(alloc, no_parts(alloc))?;
    let expect = Expect::all(alloc, design.props())?;
    let closed = Closed::empty(alloc, &Task::new(alloc, design, expect)?)?;
    let copy = closed.copy(alloc)?;
    assert_eq!(rt; closed.join(alloc, &copy)?.len(), 0);
    Ok(())
}
