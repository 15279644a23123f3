//! Cubes of two small designs, whose clauses were worked out by hand.

ghost use Rattle.std.specs.Prelude.{◌≡◌, ◌+◌, ◌^◌, ◌<◌, nat_lt, true, All, IfOk, length};
ghost use Rattle.std.specs.List.{list_all};
ghost use Rattle.std.specs.Bool.{OnTrue};
ghost use Rattle.ja_base.specs.Literals.{value, variable};
ghost use Rattle.ja_base.specs.Clauses.{IsBelow};
ghost use Rattle.ja_base.specs.Valuation.{IsValuation, latch_row, input_row};
ghost use Rattle.aig_model.specs.Netlist.{circuit};
ghost use Rattle.aig_model.specs.Refusals.{AreInRange};

use crate::lift;
use aig_eval::{lit_of, step_into};
use aig_model::{AndGate, AndGates, Design, Latch, Latches, Parts, Reset};
use ja_base::{Items, Lit, Lits, Memory, OrMemory, Row};
use std::alloc::Global;
use std::process::Abort;
use std::test::Fail;

const LATCHES: [Latch; 2] = [
    Latch {
        lit: Lit(6),
        next: Lit(2),
        reset: Reset::Zero,
    },
    Latch {
        lit: Lit(8),
        next: Lit(10),
        reset: Reset::Zero,
    },
];

const GATES: [AndGate; 2] = [
    AndGate {
        lhs: Lit(10),
        rhs0: Lit(4),
        rhs1: Lit(3),
    },
    AndGate {
        lhs: Lit(12),
        rhs0: Lit(8),
        rhs1: Lit(6),
    },
];

/// Here the walk takes latch 6 for the gate 12, and then latch 8 for the gate 10, which does for both.
const OTHER_GATES: [AndGate; 2] = [
    AndGate {
        lhs: Lit(10),
        rhs0: Lit(8),
        rhs1: Lit(2),
    },
    AndGate {
        lhs: Lit(12),
        rhs0: Lit(6),
        rhs1: Lit(8),
    },
];

fn lits_of(alloc: Global, lits: &[Lit]) -> Result<Lits, Memory>
    requires { length lits.now < 2 ^ 32 }
    ensures { IfOk result (λ items. items ≡ lits.now) }
{
    Ok(Items::from_vec(Vec::from_slice(alloc, lits)?))
}

fn latches_of(alloc: Global, latches: &[Latch]) -> Result<Latches, Memory>
    requires { length latches.now < 2 ^ 32 }
    ensures { IfOk result (λ items. items ≡ latches.now) }
{
    Ok(Items::from_vec(Vec::from_slice(alloc, latches)?))
}

fn gates_of(alloc: Global, gates: &[AndGate]) -> Result<AndGates, Memory>
    requires { length gates.now < 2 ^ 32 }
    ensures { IfOk result (λ items. items ≡ gates.now) }
{
    Ok(Items::from_vec(Vec::from_slice(alloc, gates)?))
}

fn parts_of(alloc: Global) -> Result<Parts, Memory>
    ensures { IfOk result AreInRange }
{
    Ok(Parts {
        vars: 6,
        inputs: lits_of(alloc, &[Lit(2), Lit(4)])?,
        latches: latches_of(alloc, &LATCHES)?,
        outputs: lits_of(alloc, &[Lit(8)])?,
        bads: lits_of(alloc, &[Lit(12), Lit(8)])?,
        constraints: lits_of(alloc, &[])?,
        gates: gates_of(alloc, &GATES)?,
    })
}

fn other_parts_of(alloc: Global) -> Result<Parts, Memory>
    ensures { IfOk result AreInRange }
{
    Ok(Parts {
        vars: 6,
        inputs: lits_of(alloc, &[Lit(2), Lit(4)])?,
        latches: latches_of(alloc, &LATCHES)?,
        outputs: lits_of(alloc, &[])?,
        bads: lits_of(alloc, &[])?,
        constraints: lits_of(alloc, &[])?,
        gates: gates_of(alloc, &OTHER_GATES)?,
    })
}

fn design_of(alloc: Global, parts: Parts) -> Result<Option<Design>, Memory>
    requires { AreInRange parts }
{
    match Design::build(alloc, parts) {
        Ok(design) => Ok(Some(design)),
        Err(OrMemory::Refused(_)) => Ok(None),
        Err(OrMemory::Memory) => Err(Memory),
    }
}

fn row_of(alloc: Global, bits: [bool; 2]) -> Result<Row, Memory>
    ensures { IfOk result (λ row. length row ≡ 2) }
{
    let mut row = Row::zeros(alloc, 2)?;
    row.set(0, bits[0]);
    row.set(1, bits[1]);
    Ok(row)
}

fn values_of(alloc: Global, design: &Design, latches: &Row, inputs: &Row) -> Result<Row, Memory>
    requires latches { length latches.now ≡ length design.now.latches }
    requires inputs { length inputs.now ≡ length design.now.inputs }
    ensures { IfOk result (λ vals. IsValuation (circuit design.now)
        (latch_row (circuit design.now) vals) (input_row (circuit design.now) vals) vals) }
{
    let mut vals = Row::zeros(alloc, design.vars() + 1)?;
    step_into(design, latches, inputs, &mut vals);
    Ok(vals)
}

fn is_below(lits: &[Lit]) -> bool
    ensures { result ≡ list_all (λ l. nat_lt (variable l) 7) lits.now }
{
    lits.iter().all(|lit| lit.var().number() < 7)
}

fn is_met(vals: &Row, target: &[Lit]) -> bool
    requires { IsBelow (length vals.now) target.now }
    ensures { OnTrue result (All (λ l. value vals.now l ≡ true) target.now) }
{
    for lit in target {
        if !lit_of(vals, *lit) {
            return false;
        }
    }
    true
}

/// The literals of the clause, and 0 for each that it has less than two.
fn lifted_lits(
    rt: &impl Abort,
    alloc: Global,
    design: &Design,
    state: [bool; 2],
    inputs: [bool; 2],
    target: &[Lit],
) -> Result<[Lit; 2], Memory> {
    assert!(rt; design.latches() == 2 && design.inputs() == 2 && design.vars() == 6);
    assert!(rt; is_below(target));
    let latches = row_of(alloc, state)?;
    let inputs = row_of(alloc, inputs)?;
    let vals = values_of(alloc, design, &latches, &inputs)?;
    assert!(rt; vals.len() == 7);
    assert!(rt; is_met(&vals, target));
    let clause = lift(alloc, design, &vals, target)?;
    let mut two = [Lit(0); 2];
    for (place, lit) in two.iter_mut().zip(clause.lits()) {
        *place = *lit;
    }
    Ok(two)
}

/// The latch row, the input row, the target literals, and the literals of the clause.
type Case = ([bool; 2], [bool; 2], [u32; 2], [u32; 2]);

const CASES: [Case; 6] = [
    ([false, true], [false, false], [8, 8], [9, 0]),
    ([true, true], [false, false], [12, 12], [7, 9]),
    ([false, true], [false, false], [13, 13], [6, 0]),
    ([true, false], [false, true], [13, 10], [8, 0]),
    ([true, true], [false, true], [10, 4], [0, 0]),
    ([false, true], [true, true], [7, 8], [6, 9]),
];

#[test]
fn lifts_to_the_least_cube(rt: HostRuntime) -> Result<(), Fail> {
    let alloc = rt.alloc();
    let design = design_of(alloc, parts_of(alloc)?)?.ok_or("the lists make no design")?;
    for (state, inputs, [first, second], [low, high]) in CASES {
        let target = [Lit(first), Lit(second)];
        let found = lifted_lits(&rt, alloc, &design, state, inputs, &target)?;
        assert_eq!(rt; found, [Lit(low), Lit(high)]);
    }
    Ok(())
}

#[test]
fn drops_what_the_walk_took_too_much(rt: HostRuntime) -> Result<(), Fail> {
    let alloc = rt.alloc();
    let design = design_of(alloc, other_parts_of(alloc)?)?.ok_or("the lists make no design")?;
    let target = [Lit(11), Lit(13)];
    let found = lifted_lits(&rt, alloc, &design, [false; 2], [true, false], &target)?;
    assert_eq!(rt; found, [Lit(8), Lit(0)]);
    Ok(())
}
