ghost use Rattle.std.specs.Prelude.{◌≡◌, ◌^◌, ◌<◌, nat_lt, IfOk, length};
ghost use Rattle.std.specs.List.{list_all};
ghost use Rattle.ja_base.specs.Literals.{variable};
ghost use Rattle.aig_model.specs.Refusals.{AreInRange};

use crate::{Coded, ResetTable, negated_next};
use aig_model::{AndGate, AndGates, Design, Expect, Latch, Latches, Parts, Reset, Task};
use ja_base::{Clause, Items, Lit, Lits, Memory, OrMemory};
use std::alloc::Global;
use std::process::Abort;
use std::test::Fail;

const LATCHES: [Latch; 2] = [
    Latch {
        lit: Lit(4),
        next: Lit(6),
        reset: Reset::One,
    },
    Latch {
        lit: Lit(6),
        next: Lit(5),
        reset: Reset::Free,
    },
];

const GATES: [AndGate; 3] = [
    AndGate {
        lhs: Lit(10),
        rhs0: Lit(4),
        rhs1: Lit(2),
    },
    AndGate {
        lhs: Lit(12),
        rhs0: Lit(6),
        rhs1: Lit(6),
    },
    AndGate {
        lhs: Lit(14),
        rhs0: Lit(4),
        rhs1: Lit(5),
    },
];

fn lits_of(alloc: Global, lits: &[Lit]) -> Result<Lits, Memory>
    requires { length lits.now < 2 ^ 32 }
    ensures { IfOk result (λ items. items ≡ lits.now) }
{
    Ok(Items::from_vec(Vec::from_slice(alloc, lits)?))
}

fn latches_of(alloc: Global, latches: &[Latch]) -> Result<Latches, Memory>
    requires { length latches.now < 2 ^ 32 }
    ensures { IfOk result (λ items. items ≡ latches.now) }
{
    Ok(Items::from_vec(Vec::from_slice(alloc, latches)?))
}

fn gates_of(alloc: Global, gates: &[AndGate]) -> Result<AndGates, Memory>
    requires { length gates.now < 2 ^ 32 }
    ensures { IfOk result (λ items. items ≡ gates.now) }
{
    Ok(Items::from_vec(Vec::from_slice(alloc, gates)?))
}

/// Nothing defines variable 4.
fn parts_of(alloc: Global) -> Result<Parts, Memory>
    ensures { IfOk result AreInRange }
{
    Ok(Parts {
        vars: 7,
        inputs: lits_of(alloc, &[Lit(2)])?,
        latches: latches_of(alloc, &LATCHES)?,
        bads: lits_of(alloc, &[Lit(10), Lit(15), Lit(12)])?,
        constraints: lits_of(alloc, &[Lit(3), Lit(13)])?,
        outputs: lits_of(alloc, &[])?,
        gates: gates_of(alloc, &GATES)?,
    })
}

/// Property 1 is expected to fail.
fn task_of(rt: &impl Abort, alloc: Global) -> Result<Option<Task>, Memory> {
    match Design::build(alloc, parts_of(alloc)?) {
        Ok(design) => {
            let mut expect = Expect::all(alloc, design.props())?;
            assert!(rt; expect.len() == 3);
            expect.set_fail(1);
            Ok(Some(Task::new(alloc, design, expect)?))
        }
        Err(OrMemory::Refused(_)) => Ok(None),
        Err(OrMemory::Memory) => Err(Memory),
    }
}

#[test]
fn codes_a_task(rt: HostRuntime) -> Result<(), Fail> {
    let alloc = rt.alloc();
    let task = task_of(&rt, alloc)?.ok_or("the lists make no design")?;
    let coded = Coded::new(alloc, &task)?;
    let want: [&[Lit]; 13] = [
        &[Lit(1)],
        &[Lit(4), Lit(11)],
        &[Lit(2), Lit(11)],
        &[Lit(3), Lit(5), Lit(10)],
        &[Lit(6), Lit(13)],
        &[Lit(6), Lit(13)],
        &[Lit(7), Lit(12)],
        &[Lit(4), Lit(15)],
        &[Lit(5), Lit(15)],
        &[Lit(4), Lit(5), Lit(14)],
        &[Lit(9)],
        &[Lit(3)],
        &[Lit(13)],
    ];
    assert_eq!(rt; coded.vars(), 8);
    assert_eq!(rt; coded.clauses().len(), 13);
    for (clause, lits) in coded.clauses().as_slice().iter().zip(want) {
        assert_eq!(rt; clause.lits(), lits);
    }
    assert_eq!(rt; coded.held(), [Lit(11), Lit(13)].as_slice());
    let design = coded.task().design();
    let bads = [Lit(10), Lit(15), Lit(12)];
    for prop in 0..design.props() {
        let bad = coded.bad(prop);
        assert_eq!(rt; bads.get(prop as usize), Some(&bad));
    }
    Ok(())
}

/// What the resets say of a clause: how it starts, and its negated literals one step later, or 0 where there are less than two.
#[derive(Clone, Copy, Debug, PartialEq, Eq)]
enum Seen {
    Foreign,
    Starts([Lit; 2]),
    /// The row that falsifies it.
    Falsified([Lit; 2], [bool; 2]),
}

use Seen::{Falsified, Foreign, Starts};

fn is_below(lits: &[Lit]) -> bool
    ensures { result ≡ list_all (λ l. nat_lt (variable l) 8) lits.now }
{
    lits.iter().all(|lit| lit.var().number() < 8)
}

fn first_two(lits: &[Lit]) -> [Lit; 2] {
    let mut two = [Lit(0); 2];
    for (place, lit) in two.iter_mut().zip(lits) {
        *place = *lit;
    }
    two
}

fn look(rt: &impl Abort, alloc: Global, coded: &Coded, lits: [Lit; 2]) -> Result<Seen, Memory> {
    let table = ResetTable::new(alloc, coded.task())?;
    let clause = Clause::from_lits(alloc, &lits)?;
    assert!(rt; coded.vars() == 8);
    assert!(rt; is_below(clause.lits()));
    if table.is_foreign(&clause) {
        return Ok(Foreign);
    }
    let under = negated_next(alloc, coded, &clause)?;
    let later = first_two(under.as_slice());
    if table.starts(&clause) {
        return Ok(Starts(later));
    }
    let row = table.falsifying(alloc, &clause)?;
    assert!(rt; row.len() == 2);
    Ok(Falsified(later, [row.get(0), row.get(1)]))
}

// The latch 4 starts at 1 and takes the bit of 6; the latch 6 is free at the start and takes the other bit of 4.
const ROWS: [([u32; 2], Seen); 9] = [
    ([4, 4], Starts([Lit(7), Lit(0)])),
    ([5, 5], Falsified([Lit(6), Lit(0)], [true, true])),
    ([6, 6], Falsified([Lit(4), Lit(0)], [true, false])),
    ([7, 5], Falsified([Lit(6), Lit(5)], [true, true])),
    ([6, 5], Falsified([Lit(6), Lit(4)], [true, false])),
    ([4, 7], Starts([Lit(7), Lit(5)])),
    ([2, 4], Foreign),
    ([6, 7], Foreign),
    ([0, 5], Foreign),
];

#[test]
fn looks_at_clauses(rt: HostRuntime) -> Result<(), Fail> {
    let alloc = rt.alloc();
    let task = task_of(&rt, alloc)?.ok_or("the lists make no design")?;
    let coded = Coded::new(alloc, &task)?;
    for ([first, second], expected) in ROWS {
        let found = look(&rt, alloc, &coded, [Lit(first), Lit(second)])?;
        assert_eq!(rt; found, expected);
    }
    Ok(())
}
