ghost use Rattle.std.specs.Prelude.{◌≡◌, ◌<◌, ℕ, List, IfOk};
ghost use Rattle.ja_base.specs.Clauses.{IsBelow};

mod masks;
mod no_rows;

use crate::tests::masks::{VARS, clause_of, has_row, holds, lits_of, mask_of, row_mask};
use crate::tests::no_rows::NoRows;
use crate::{PlainSat, Probe, Probed, Sat, SatAnswer};
use ja_base::{Memory, Meter, Row, Var};
use ja_outside::{MemFlag, NoFlag};
use refute_check::{Checker, Refuted};
use std::alloc::Global;
use std::test::Fail;

fn checker_of(alloc: Global, clauses: &[u64]) -> Result<Checker, Memory> {
    let mut checker = Checker::new(alloc, VARS)?;
    for mask in clauses {
        let clause = clause_of(alloc, *mask)?;
        checker.add(alloc, &clause)?;
    }
    Ok(checker)
}

/// Whether a fresh checker takes each line and then covers the core.
fn is_shown(alloc: Global, clauses: &[u64], refuted: &Refuted) -> Result<bool, Memory> {
    let mut checker = checker_of(alloc, clauses)?;
    let copy = refuted.copy(alloc)?;
    for line in copy.lines.as_slice() {
        checker.reserve(1)?;
        let line = line.copy(alloc)?;
        if checker.line(line).is_err() {
            return Ok(false);
        }
    }
    Ok(checker.covers(copy.core.as_slice()))
}

/// Whether the answer is one that a count over the rows gives, with a refutation that a checker takes.
fn is_right(
    alloc: Global,
    clauses: &[u64],
    under: u64,
    answer: &SatAnswer,
) -> Result<bool, Memory> {
    match answer {
        SatAnswer::Sat(row) => Ok(holds(clauses, under, row_mask(row))),
        SatAnswer::Unsat(refuted) => {
            let shown = is_shown(alloc, clauses, refuted)?;
            let core = mask_of(refuted.core.as_slice());
            Ok(shown && core & !under == 0 && !has_row(clauses, under))
        }
        SatAnswer::Spent | SatAnswer::Stopped | SatAnswer::Memory => Ok(false),
    }
}

fn solver_of(alloc: Global, clauses: &[u64]) -> Result<PlainSat, Memory>
    ensures { IfOk result (λ solver. solver.vars ≡ 3) }
{
    let mut solver = PlainSat::make(alloc, VARS)?;
    for mask in clauses {
        let clause = clause_of(alloc, *mask)?;
        solver.add(alloc, &clause)?;
    }
    Ok(solver)
}

fn agrees(alloc: Global, clauses: &[u64], under: u64) -> Result<bool, Memory> {
    let mut solver = solver_of(alloc, clauses)?;
    let lits = lits_of(alloc, under)?;
    let answer = solver.solve(
        alloc,
        lits.as_slice(),
        None,
        &mut Meter::new(None),
        &mut NoFlag,
    );
    is_right(alloc, clauses, under, &answer)
}

// Every list of three out of the clauses with at most two literals over two variables; one that holds always, as {0, 1},
// stands for none.
#[test]
fn agrees_over_two_variables(rt: HostRuntime) -> Result<(), Fail> {
    let alloc = rt.alloc();
    let clauses = [
        0b0000, 0b0001, 0b0010, 0b0100, 0b1000, 0b0011, 0b0101, 0b0110, 0b1001, 0b1010, 0b1100,
    ];
    for first in clauses {
        for second in clauses {
            for third in clauses {
                for under in [0b0000, 0b0001, 0b1000, 0b0110, 0b0011] {
                    assert!(rt;
                        agrees(alloc, &[first, second, third], under)?,
                        "{first} {second} {third} under {under}"
                    );
                }
            }
        }
    }
    Ok(())
}

// Eight clauses over three variables, of which most have two literals, from a fixed sequence of numbers.
#[test]
fn agrees_over_three_variables(rt: HostRuntime) -> Result<(), Fail> {
    let alloc = rt.alloc();
    let mut number: u64 = 1;
    for turn in 0..300 {
        let mut clauses = [0; 8];
        for clause in clauses.iter_mut() {
            number = number
                .wrapping_mul(6364136223846793005)
                .wrapping_add(1442695040888963407);
            *clause = (number >> 33 & number >> 43 | number >> 53 & number >> 58) & 0b111111;
        }
        let under = number >> 23 & number >> 13 & number >> 3 & 0b111111;
        assert!(rt; agrees(alloc, &clauses, under)?, "turn {turn}");
    }
    Ok(())
}

/// What is told of an answer: of a row the literals of variable 2, of a refutation its core.
#[derive(Clone, Copy, Debug, PartialEq, Eq)]
enum Told {
    Row(u64),
    Core(u64),
    Spent,
    Stopped,
    Memory,
}

fn told_of(answer: &SatAnswer) -> Told {
    match answer {
        SatAnswer::Sat(row) => Told::Row(row_mask(row) & 0b110000),
        SatAnswer::Unsat(refuted) => Told::Core(mask_of(refuted.core.as_slice())),
        SatAnswer::Spent => Told::Spent,
        SatAnswer::Stopped => Told::Stopped,
        SatAnswer::Memory => Told::Memory,
    }
}

fn ask(
    alloc: Global,
    solver: &mut PlainSat,
    under: u64,
    extra: Option<u64>,
    limit: Option<u64>,
    after: Option<u64>,
) -> Result<Told, Memory>
    requires { solver.old.vars ≡ 3 }
    ensures { solver.new.vars ≡ 3 }
{
    let lits = lits_of(alloc, under)?;
    let mut meter = Meter::new(limit);
    let mut flag = MemFlag::new(after);
    match extra {
        Some(mask) => {
            let clause = clause_of(alloc, mask)?;
            let answer = solver.solve(alloc, lits.as_slice(), Some(&clause), &mut meter, &mut flag);
            Ok(told_of(&answer))
        }
        None => {
            let answer = solver.solve(alloc, lits.as_slice(), None, &mut meter, &mut flag);
            Ok(told_of(&answer))
        }
    }
}

// The clauses {2, 4} and {3, 4}: without 4 there is one conflict, and so two units and two polls.
#[test]
fn answers_queries(rt: HostRuntime) -> Result<(), Fail> {
    let alloc = rt.alloc();
    let mut solver = solver_of(alloc, &[0b010100, 0b011000])?;
    let rows: [(u64, Option<u64>, Option<u64>, Option<u64>, Told); 12] = [
        (0b100000, None, None, None, Told::Core(0b100000)),
        (0b000000, None, None, None, Told::Row(0b010000)),
        (0b110000, None, None, None, Told::Core(0b110000)),
        (0b000000, Some(0b100000), None, None, Told::Core(0b000000)),
        (0b000000, None, None, None, Told::Row(0b010000)),
        (0b000000, None, Some(0), None, Told::Spent),
        (0b100000, None, Some(1), None, Told::Spent),
        (0b100000, None, Some(2), None, Told::Core(0b100000)),
        (0b000000, None, None, Some(0), Told::Stopped),
        (0b100000, None, None, Some(1), Told::Stopped),
        (0b100000, None, None, Some(2), Told::Core(0b100000)),
        (0b000000, None, Some(0), Some(0), Told::Spent),
    ];
    for (under, extra, limit, after, answer) in rows {
        assert_eq!(rt;
            ask(alloc, &mut solver, under, extra, limit, after)?,
            answer,
            "under {under} with {extra:?}, {limit:?} and {after:?}"
        );
    }
    Ok(())
}

// The clauses {2, 4} and {2, 5}: the decision of 3 ends in a conflict, and then a row is found. A second unit is asked for
// at that conflict, and behind it a second poll.
#[test]
fn pays_for_a_conflict_before_a_row(rt: HostRuntime) -> Result<(), Fail> {
    let alloc = rt.alloc();
    let mut solver = solver_of(alloc, &[0b010100, 0b100100])?;
    let rows: [(Option<u64>, Option<u64>, Told); 4] = [
        (Some(1), None, Told::Spent),
        (Some(2), None, Told::Row(0b100000)),
        (None, Some(1), Told::Stopped),
        (None, Some(2), Told::Row(0b100000)),
    ];
    for (limit, after, answer) in rows {
        assert_eq!(rt;
            ask(alloc, &mut solver, 0, None, limit, after)?,
            answer,
            "{limit:?} and {after:?}"
        );
    }
    Ok(())
}

/// What is told of a question without a log: of a row that was all 1 before, its bits.
fn told_of_probe(probed: &Probed, row: &Row) -> Told {
    match probed {
        Probed::Open => Told::Row(row_mask(row)),
        Probed::Closed(core) => Told::Core(mask_of(core.as_slice())),
        Probed::Spent => Told::Spent,
        Probed::Stopped => Told::Stopped,
        Probed::Memory => Told::Memory,
    }
}

fn probe<S: Probe>(
    alloc: Global,
    under: u64,
    among: Option<&[Var]>,
    width: u32,
    limit: Option<u64>,
) -> Result<Told, Memory> {
    let mut solver = S::make(alloc, VARS)?;
    let lits = lits_of(alloc, under)?;
    let extra = clause_of(alloc, 0b011000)?;
    let mut row = Row::ones(alloc, width)?;
    let probed = solver.probe(
        alloc,
        lits.as_slice(),
        Some(&extra),
        among,
        &mut row,
        &mut Meter::new(limit),
        &mut NoFlag,
    );
    Ok(told_of_probe(&probed, &row))
}

// The clause {3, 4} alone, as the extra one. The front of a row is written, and no bit past the variables.
#[test]
fn asks_without_a_log(rt: HostRuntime) -> Result<(), Fail> {
    let alloc = rt.alloc();
    let rows: [(u64, Option<&[Var]>, u32, Option<u64>, Told); 6] = [
        (0b000100, None, 3, None, Told::Row(0b010110)),
        (0b000100, None, 4, None, Told::Row(0b01010110)),
        (0b000100, None, 2, None, Told::Row(0b000110)),
        (0b000100, Some(&[Var(0)]), 3, None, Told::Row(0b010110)),
        (0b100101, None, 3, None, Told::Core(0b100100)),
        (0b000100, None, 3, Some(0), Told::Spent),
    ];
    for (under, among, width, limit, answer) in rows {
        assert_eq!(rt;
            probe::<PlainSat>(alloc, under, among, width, limit)?,
            answer,
            "under {under} with {width} bits and {limit:?}"
        );
    }
    assert_eq!(rt;
        probe::<NoRows>(alloc, 0b000100, None, 3, None)?,
        Told::Memory
    );
    Ok(())
}

/// What any solver tells of a fresh variable 2, where its literal 4 is to hold with `under`.
fn told_by<S: Sat>(alloc: Global, under: u64) -> Result<Told, Memory> {
    let mut solver = S::make(alloc, 2)?;
    solver.fresh()?;
    let clause = clause_of(alloc, 0b010000)?;
    solver.add(alloc, &clause)?;
    let lits = lits_of(alloc, under)?;
    let answer = solver.solve(
        alloc,
        lits.as_slice(),
        None,
        &mut Meter::new(None),
        &mut NoFlag,
    );
    Ok(told_of(&answer))
}

#[test]
fn asks_any_solver(rt: HostRuntime) -> Result<(), Fail> {
    let alloc = rt.alloc();
    assert_eq!(rt; told_by::<PlainSat>(alloc, 0b000001)?, Told::Row(0b010000));
    assert_eq!(rt; told_by::<NoRows>(alloc, 0b000001)?, Told::Memory);
    assert_eq!(rt; told_by::<PlainSat>(alloc, 0b100001)?, Told::Core(0b100000));
    assert_eq!(rt; told_by::<NoRows>(alloc, 0b100001)?, Told::Core(0b100000));
    Ok(())
}
