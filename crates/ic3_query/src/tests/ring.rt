//! A task of four latches, and by hand which steps it has.

ghost use Rattle.std.specs.Prelude.{◌≡◌, ◌^◌, ◌<◌, IfOk, length};
ghost use Rattle.aig_model.specs.Refusals.{AreInRange};

use aig_model::{AndGate, AndGates, Design, Expect, Latch, Latches, Parts, Reset, Task};
use ja_base::{Clause, Items, Lit, Lits, Memory, OrMemory};
use std::alloc::Global;
use std::process::Abort;

/// The latch a takes the bit of b, b that of the gate 10, c the other bit of the gate 10, d the bit of c.
const LATCHES: [Latch; 4] = [
    Latch {
        lit: Lit(4),
        next: Lit(6),
        reset: Reset::Zero,
    },
    Latch {
        lit: Lit(6),
        next: Lit(10),
        reset: Reset::Zero,
    },
    Latch {
        lit: Lit(8),
        next: Lit(11),
        reset: Reset::Free,
    },
    Latch {
        lit: Lit(16),
        next: Lit(8),
        reset: Reset::One,
    },
];

/// Both a and the input; both b and c; both the input and c.
const GATES: [AndGate; 3] = [
    AndGate {
        lhs: Lit(10),
        rhs0: Lit(4),
        rhs1: Lit(2),
    },
    AndGate {
        lhs: Lit(12),
        rhs0: Lit(6),
        rhs1: Lit(8),
    },
    AndGate {
        lhs: Lit(14),
        rhs0: Lit(2),
        rhs1: Lit(8),
    },
];

fn lits_of(alloc: Global, lits: &[Lit]) -> Result<Lits, Memory>
    requires { length lits.now < 2 ^ 32 }
    ensures { IfOk result (λ items. items ≡ lits.now) }
{
    Ok(Items::from_vec(Vec::from_slice(alloc, lits)?))
}

fn latches_of(alloc: Global, latches: &[Latch]) -> Result<Latches, Memory>
    requires { length latches.now < 2 ^ 32 }
    ensures { IfOk result (λ items. items ≡ latches.now) }
{
    Ok(Items::from_vec(Vec::from_slice(alloc, latches)?))
}

fn gates_of(alloc: Global, gates: &[AndGate]) -> Result<AndGates, Memory>
    requires { length gates.now < 2 ^ 32 }
    ensures { IfOk result (λ items. items ≡ gates.now) }
{
    Ok(Items::from_vec(Vec::from_slice(alloc, gates)?))
}

/// The properties are broken where b and c are 1, and where c is 1. The input and c are never both 1.
fn parts_of(alloc: Global) -> Result<Parts, Memory>
    ensures { IfOk result AreInRange }
{
    Ok(Parts {
        vars: 8,
        inputs: lits_of(alloc, &[Lit(2)])?,
        latches: latches_of(alloc, &LATCHES)?,
        bads: lits_of(alloc, &[Lit(12), Lit(8)])?,
        constraints: lits_of(alloc, &[Lit(15)])?,
        outputs: lits_of(alloc, &[])?,
        gates: gates_of(alloc, &GATES)?,
    })
}

/// Property 1 is expected to fail.
pub(crate) fn ring_task(rt: &impl Abort, alloc: Global) -> Result<Task, Memory> {
    match Design::build(alloc, parts_of(alloc)?) {
        Ok(design) => {
            let mut expect = Expect::all(alloc, design.props())?;
            assert!(rt; expect.len() == 2);
            expect.set_fail(1);
            Task::new(alloc, design, expect)
        }
        Err(OrMemory::Refused(_)) => panic!(rt; "the lists make no design"),
        Err(OrMemory::Memory) => Err(Memory),
    }
}

/// The bits of a, b, c and d, and that of the input.
#[derive(Clone, Copy, Debug, PartialEq, Eq)]
pub(crate) struct Step {
    pub(crate) now: [bool; 4],
    pub(crate) input: bool,
}

impl Step {
    /// The step of a number from 0 to 31.
    pub(crate) fn of(number: u32) -> Step {
        Step {
            now: [
                number & 1 != 0,
                number & 2 != 0,
                number & 4 != 0,
                number & 8 != 0,
            ],
            input: number & 16 != 0,
        }
    }

    pub(crate) fn later(&self) -> [bool; 4] {
        let [a, b, c, _] = self.now;
        [b, a && self.input, !(a && self.input), c]
    }

    fn is_constrained(&self) -> bool {
        let [_, _, c, _] = self.now;
        !(self.input && c)
    }

    fn breaks(&self, prop: u32) -> bool {
        let [_, b, c, _] = self.now;
        if prop == 0 { b && c } else { c }
    }

    /// At level 0 a and b are 0 and d is 1. That a and b are not both 1 is known; a is 0 at level 1, and where it is 1 at level 2,
    /// c is too.
    fn is_in(&self, level: u32) -> bool {
        let [a, b, c, d] = self.now;
        let known = !(a && b);
        match level {
            0 => known && !a && !b && d,
            1 => known && !a,
            2 => known && (!a || c),
            _ => known,
        }
    }

    /// A step from the level that leads out of the clause.
    pub(crate) fn leads_out(&self, level: u32, signs: [u32; 4]) -> bool {
        self.is_in(level)
            && holds(signs, self.now)
            && self.is_constrained()
            && !self.breaks(0)
            && !holds(signs, self.later())
    }

    /// A step from the level that breaks the property.
    pub(crate) fn leads_to_bad(&self, level: u32, prop: u32) -> bool {
        self.is_in(level) && self.is_constrained() && self.breaks(prop)
    }
}

/// A clause as a sign for each of a, b, c and d: 1 for the latch, 2 for its negation, 0 where it does not stand there.
pub(crate) fn signs_of(number: u32) -> [u32; 4] {
    [number % 3, number / 3 % 3, number / 9 % 3, number / 27 % 3]
}

pub(crate) fn holds(signs: [u32; 4], row: [bool; 4]) -> bool {
    let mut some = false;
    for (sign, bit) in signs.into_iter().zip(row) {
        if sign == 1 && bit || sign == 2 && !bit {
            some = true;
        }
    }
    some
}

pub(crate) fn clause_of(alloc: Global, signs: [u32; 4]) -> Result<Clause, Memory> {
    let mut lits = Lits::new(alloc);
    let latches = [[4, 5], [6, 7], [8, 9], [16, 17]];
    for (sign, [plain, negated]) in signs.into_iter().zip(latches) {
        match sign {
            1 => lits.push(Lit(plain))?,
            2 => lits.push(Lit(negated))?,
            _ => {}
        }
    }
    Clause::from_lits(alloc, lits.as_slice())
}
