ghost use Rattle.std.specs.Prelude.{◌≡◌, ◌^◌, ◌<◌, length, IfOk};
ghost use Rattle.aig_model.specs.Refusals.{AreInRange};

use crate::plan;
use aig_model::{AndGate, AndGates, Design, Expect, Parts, Task};
use ja_base::{Items, Lit, Lits, Memory, OrMemory};
use std::alloc::Global;
use std::test::Fail;

// The last gate comes first. Variable 3 has depth 1, variable 4 depth 2, variable 5 depth 3.
const GATES: [AndGate; 3] = [
    AndGate {
        lhs: Lit(10),
        rhs0: Lit(2),
        rhs1: Lit(9),
    },
    AndGate {
        lhs: Lit(6),
        rhs0: Lit(2),
        rhs1: Lit(4),
    },
    AndGate {
        lhs: Lit(8),
        rhs0: Lit(7),
        rhs1: Lit(3),
    },
];

fn lits_of(alloc: Global, lits: &[Lit]) -> Result<Lits, Memory>
    requires { length lits.now < 2 ^ 32 }
    ensures { IfOk result (λ items. items ≡ lits.now) }
{
    Ok(Items::from_vec(Vec::from_slice(alloc, lits)?))
}

fn gates_of(alloc: Global, gates: &[AndGate]) -> Result<AndGates, Memory>
    requires { length gates.now < 2 ^ 32 }
    ensures { IfOk result (λ items. items ≡ gates.now) }
{
    Ok(Items::from_vec(Vec::from_slice(alloc, gates)?))
}

/// Two inputs, and five properties: of depth 3, 1, 0, 2 and 1.
fn parts_of(alloc: Global) -> Result<Parts, Memory>
    ensures { IfOk result AreInRange }
{
    Ok(Parts {
        vars: 5,
        inputs: lits_of(alloc, &[Lit(2), Lit(4)])?,
        latches: Items::new(alloc),
        bads: lits_of(alloc, &[Lit(10), Lit(6), Lit(2), Lit(8), Lit(7)])?,
        constraints: lits_of(alloc, &[])?,
        outputs: lits_of(alloc, &[])?,
        gates: gates_of(alloc, &GATES)?,
    })
}

/// Each property is expected to hold where its bit is 1.
fn expect_of(alloc: Global, props: u32, holds: &[bool]) -> Result<Expect, Memory>
    ensures { IfOk result (λ expect. length expect ≡ props) }
{
    let mut expect = Expect::all(alloc, props)?;
    for prop in 0..props {
        if holds.get(prop as usize) == Some(&false) {
            expect.set_fail(prop);
        }
    }
    Ok(expect)
}

fn task_of(alloc: Global, holds: &[bool]) -> Result<Option<Task>, Memory> {
    match Design::build(alloc, parts_of(alloc)?) {
        Ok(design) => {
            let expect = expect_of(alloc, design.props(), holds)?;
            Ok(Some(Task::new(alloc, design, expect)?))
        }
        Err(OrMemory::Refused(_)) => Ok(None),
        Err(OrMemory::Memory) => Err(Memory),
    }
}

const ROWS: [([bool; 5], [u32; 5]); 3] = [
    ([true, true, true, true, true], [2, 1, 4, 3, 0]),
    ([true, false, false, true, true], [4, 3, 0, 2, 1]),
    ([false, false, false, false, true], [4, 2, 1, 3, 0]),
];

#[test]
fn orders_properties(rt: HostRuntime) -> Result<(), Fail> {
    let alloc = rt.alloc();
    for (holds, expected) in ROWS {
        let task = task_of(alloc, holds.as_slice())?.ok_or("the lists make no design")?;
        let found = plan(alloc, &task)?;
        assert_eq!(rt; found.as_slice(), expected.as_slice());
    }
    Ok(())
}
