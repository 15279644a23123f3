ghost use Rattle.std.specs.Prelude.{◌≡◌, IfOk};
ghost use Rattle.ja_base.specs.Clauses.{IsBelow};

mod masks;

use crate::tests::masks::{VARS, clause_of, has_row, holds, lits_of, mask_of, row_mask};
use crate::{KeepSat, LearnSat};
use ja_base::{Clause, Lit, Memory, Meter, Row, Var};
use ja_outside::{MemFlag, NoFlag};
use refute_check::{Checker, Refuted};
use sat_plain::{Probe, Probed, Sat, SatAnswer};
use std::alloc::Global;
use std::test::Fail;

/// Whether a fresh checker takes each line and then covers the core.
fn is_shown(alloc: Global, clauses: &[u64], refuted: &Refuted) -> Result<bool, Memory> {
    let mut checker = Checker::new(alloc, VARS)?;
    for mask in clauses {
        let clause = clause_of(alloc, *mask)?;
        checker.add(alloc, &clause)?;
    }
    let copy = refuted.copy(alloc)?;
    for line in copy.lines.as_slice() {
        checker.reserve(1)?;
        let line = line.copy(alloc)?;
        if checker.line(line).is_err() {
            return Ok(false);
        }
    }
    Ok(checker.covers(copy.core.as_slice()))
}

/// Whether the answer is one that a count over the rows gives, with a refutation that a checker takes.
fn is_right(
    alloc: Global,
    clauses: &[u64],
    under: u64,
    answer: &SatAnswer,
) -> Result<bool, Memory> {
    match answer {
        SatAnswer::Sat(row) => Ok(holds(clauses, under, row_mask(row))),
        SatAnswer::Unsat(refuted) => {
            let shown = is_shown(alloc, clauses, refuted)?;
            let core = mask_of(refuted.core.as_slice());
            Ok(shown && core & !under == 0 && !has_row(clauses, under))
        }
        SatAnswer::Spent | SatAnswer::Stopped | SatAnswer::Memory => Ok(false),
    }
}

fn solver_of(alloc: Global, clauses: &[u64]) -> Result<LearnSat, Memory>
    ensures { IfOk result (λ solver. solver.vars ≡ 12) }
{
    let mut solver = LearnSat::make(alloc, VARS)?;
    for mask in clauses {
        let clause = clause_of(alloc, *mask)?;
        solver.add(alloc, &clause)?;
    }
    Ok(solver)
}

/// Whether the solver is right under each of these in turn.
fn agrees(alloc: Global, clauses: &[u64], unders: &[u64]) -> Result<bool, Memory> {
    let mut solver = solver_of(alloc, clauses)?;
    for under in unders {
        let lits = lits_of(alloc, *under)?;
        let answer = solver.solve(
            alloc,
            lits.as_slice(),
            None,
            &mut Meter::new(None),
            &mut NoFlag,
        );
        if !is_right(alloc, clauses, *under, &answer)? {
            return Ok(false);
        }
    }
    Ok(true)
}

// Every list of three out of the clauses with at most two literals over two variables; one that holds always, as {0, 1},
// stands for none. One solver answers under contradicting literals, then under none.
#[test]
fn agrees_over_two_variables(rt: HostRuntime) -> Result<(), Fail> {
    let alloc = rt.alloc();
    let clauses = [
        0b0000, 0b0001, 0b0010, 0b0100, 0b1000, 0b0011, 0b0101, 0b0110, 0b1001, 0b1010, 0b1100,
    ];
    for first in clauses {
        for second in clauses {
            for third in clauses {
                assert!(rt;
                    agrees(
                        alloc,
                        &[first, second, third],
                        &[0b0001, 0b1000, 0b0110, 0b0011, 0b0000]
                    )?,
                    "{first} {second} {third}"
                );
            }
        }
    }
    Ok(())
}

/// The next number of a fixed sequence.
fn next(number: u64) -> u64 {
    number
        .wrapping_mul(6364136223846793005)
        .wrapping_add(1442695040888963407)
}

/// The solver that keeps what it learns, with all of the clauses but the last.
fn keeper_of(alloc: Global, clauses: &[u64]) -> Result<KeepSat, Memory>
    ensures { IfOk result (λ solver. solver.vars ≡ 12) }
{
    let mut solver = KeepSat::make(alloc, VARS)?;
    for mask in &clauses[..clauses.len().saturating_sub(1)] {
        let clause = clause_of(alloc, *mask)?;
        solver.add(alloc, &clause)?;
    }
    Ok(solver)
}

/// Whether the answer to a question is one that a count over the rows gives.
fn is_told(clauses: &[u64], under: u64, probed: &Probed, row: &Row) -> bool {
    match probed {
        Probed::Open => holds(clauses, under, row_mask(row)),
        Probed::Closed(core) => {
            let core = mask_of(core.as_slice());
            core & !under == 0 && !has_row(clauses, core)
        }
        Probed::Spent | Probed::Stopped | Probed::Memory => false,
    }
}

// All variables, in an order of their own.
const ALL: [Var; 12] = [
    Var(7),
    Var(0),
    Var(5),
    Var(10),
    Var(3),
    Var(8),
    Var(1),
    Var(6),
    Var(11),
    Var(4),
    Var(9),
    Var(2),
];

/// Whether a question is answered right, with the last clause as the extra one, or without one and with all variables given.
fn probes(
    alloc: Global,
    solver: &mut KeepSat,
    clauses: &[u64],
    under: u64,
    with_extra: bool,
) -> Result<bool, Memory>
    requires { solver.old.vars ≡ 12 }
    ensures { solver.new.vars ≡ 12 }
{
    let lits = lits_of(alloc, under)?;
    let mut row = Row::zeros(alloc, VARS)?;
    let last = clauses.len().saturating_sub(1);
    let extra = clause_of(alloc, *clauses.get(last).unwrap_or(&0))?;
    let given = if with_extra { Some(&extra) } else { None };
    let asked = if with_extra {
        clauses
    } else {
        &clauses[..last]
    };
    let among = if with_extra { None } else { Some(&ALL[..]) };
    let probed = solver.probe(
        alloc,
        lits.as_slice(),
        given,
        among,
        &mut row,
        &mut Meter::new(None),
        &mut NoFlag,
    );
    Ok(is_told(asked, under, &probed, &row))
}

/// Whether the solver that keeps what it learns is right under each of these in turn, with the extra clause and without it.
fn agrees_on_questions(alloc: Global, clauses: &[u64], unders: &[u64]) -> Result<bool, Memory> {
    let mut solver = keeper_of(alloc, clauses)?;
    for under in unders {
        for with_extra in [true, false] {
            if !probes(alloc, &mut solver, clauses, *under, with_extra)? {
                return Ok(false);
            }
        }
    }
    Ok(true)
}

// Fifty clauses with three literals over twelve variables, where about half of the lists have a row; three literals are assumed
// at first, then both signs of one, then none. Questions have one more clause in turn.
#[test]
fn agrees_near_the_threshold(rt: HostRuntime) -> Result<(), Fail> {
    let alloc = rt.alloc();
    let mut number: u64 = 1;
    for turn in 0..200 {
        let mut clauses = [0; 51];
        for clause in clauses.iter_mut() {
            for _ in 0..3 {
                number = next(number);
                *clause |= 1 << ((number >> 33) % 24);
            }
        }
        let under = 1 << ((number >> 43) % 24)
            | 1 << ((number >> 53) % 24)
            | 1 << ((number >> 23) % 24);
        let unders = [under, 0b11, 0];
        assert!(rt; agrees(alloc, &clauses, &unders)?, "query {turn}");
        assert!(rt;
            agrees_on_questions(alloc, &clauses, &unders)?,
            "question {turn}"
        );
    }
    Ok(())
}

/// What is told of an answer: of a row the literals of variable 2, of a refutation its core.
#[derive(Clone, Copy, Debug, PartialEq, Eq)]
enum Told {
    Row(u64),
    Core(u64),
    Spent,
    Stopped,
    Memory,
}

fn ask(
    alloc: Global,
    solver: &mut LearnSat,
    under: u64,
    extra: u64,
    limit: Option<u64>,
    after: Option<u64>,
) -> Result<Told, Memory>
    requires { solver.old.vars ≡ 12 }
    ensures { solver.new.vars ≡ 12 }
{
    let lits = lits_of(alloc, under)?;
    let clause = clause_of(alloc, extra)?;
    let mut meter = Meter::new(limit);
    let mut flag = MemFlag::new(after);
    let answer = solver.solve(alloc, lits.as_slice(), Some(&clause), &mut meter, &mut flag);
    Ok(match answer {
        SatAnswer::Sat(row) => Told::Row(row_mask(&row) & 0b110000),
        SatAnswer::Unsat(refuted) => Told::Core(mask_of(refuted.core.as_slice())),
        SatAnswer::Spent => Told::Spent,
        SatAnswer::Stopped => Told::Stopped,
        SatAnswer::Memory => Told::Memory,
    })
}

/// What a question is answered with.
fn question(
    alloc: Global,
    solver: &mut KeepSat,
    under: u64,
    extra: u64,
    limit: Option<u64>,
    after: Option<u64>,
) -> Result<Told, Memory>
    requires { solver.old.vars ≡ 12 }
    ensures { solver.new.vars ≡ 12 }
{
    let lits = lits_of(alloc, under)?;
    let clause = clause_of(alloc, extra)?;
    let mut row = Row::zeros(alloc, VARS)?;
    let mut meter = Meter::new(limit);
    let mut flag = MemFlag::new(after);
    let probed = solver.probe(
        alloc,
        lits.as_slice(),
        Some(&clause),
        None,
        &mut row,
        &mut meter,
        &mut flag,
    );
    Ok(match probed {
        Probed::Open => Told::Row(row_mask(&row) & 0b110000),
        Probed::Closed(core) => Told::Core(mask_of(core.as_slice())),
        Probed::Spent => Told::Spent,
        Probed::Stopped => Told::Stopped,
        Probed::Memory => Told::Memory,
    })
}

// The clauses {2, 4} and {3, 4}, and an extra one that always holds or says that 4 is false: without 4 there is one conflict,
// and so two units and two polls. Where the literals contradict one another there is none.
#[test]
fn answers_queries(rt: HostRuntime) -> Result<(), Fail> {
    let alloc = rt.alloc();
    let mut solver = solver_of(alloc, &[0b010100, 0b011000])?;
    let all = 0b000011;
    let rows: [(u64, u64, Option<u64>, Option<u64>, Told); 11] = [
        (0b100000, all, None, None, Told::Core(0b100000)),
        (0b000000, all, None, None, Told::Row(0b010000)),
        (0b110000, all, Some(1), None, Told::Core(0b110000)),
        (0b000000, 0b100000, None, None, Told::Core(0b000000)),
        (0b000000, all, None, None, Told::Row(0b010000)),
        (0b000000, all, Some(0), None, Told::Spent),
        (0b100000, all, Some(1), None, Told::Spent),
        (0b100000, all, Some(2), None, Told::Core(0b100000)),
        (0b000000, all, None, Some(0), Told::Stopped),
        (0b100000, all, None, Some(1), Told::Stopped),
        (0b100000, all, Some(0), Some(0), Told::Spent),
    ];
    for (under, extra, limit, after, answer) in rows {
        assert_eq!(rt;
            ask(alloc, &mut solver, under, extra, limit, after)?,
            answer,
            "under {under} with {extra}, {limit:?} and {after:?}"
        );
    }
    Ok(())
}

/// A variable that is new, and a clause that says that it is 1.
fn fresh_one(alloc: Global, solver: &mut KeepSat) -> Result<Lit, Memory> {
    let var = solver.fresh()?;
    let lit = Lit::new(var, false);
    let clause = Clause::from_lits(alloc, &[lit])?;
    solver.add(alloc, &clause)?;
    Ok(lit)
}

// The clauses {2, 4} and {3, 4}, and an extra one that always holds or says that 4 is false: without 4 there is one conflict,
// and so two units and two polls. A solver that learnt nothing yet answers each; a variable that is new is 12, and has its own
// bit.
#[test]
fn answers_questions(rt: HostRuntime) -> Result<(), Fail> {
    let alloc = rt.alloc();
    let all = 0b000011;
    let rows: [(u64, u64, Option<u64>, Option<u64>, Told); 10] = [
        (0b100000, all, None, None, Told::Core(0b100000)),
        (0b000000, all, None, None, Told::Row(0b010000)),
        (0b110000, all, Some(1), None, Told::Core(0b110000)),
        (0b000000, 0b100000, None, None, Told::Core(0b000000)),
        (0b000000, all, None, None, Told::Row(0b010000)),
        (0b000000, all, Some(0), None, Told::Spent),
        (0b100000, all, Some(1), None, Told::Spent),
        (0b100000, all, Some(2), None, Told::Core(0b100000)),
        (0b000000, all, None, Some(0), Told::Stopped),
        (0b100000, all, None, Some(1), Told::Stopped),
    ];
    for (under, extra, limit, after, answer) in rows {
        let mut solver = keeper_of(alloc, &[0b010100, 0b011000, 0])?;
        assert_eq!(rt;
            question(alloc, &mut solver, under, extra, limit, after)?,
            answer,
            "under {under} with {extra}, {limit:?} and {after:?}"
        );
    }
    let mut solver = keeper_of(alloc, &[0b010100, 0b011000, 0])?;
    assert_eq!(rt; fresh_one(alloc, &mut solver)?, Lit(24));
    let mut row = Row::zeros(alloc, 13)?;
    let probed = solver.probe(
        alloc,
        &[],
        None,
        None,
        &mut row,
        &mut Meter::new(None),
        &mut NoFlag,
    );
    assert!(rt; is_told(&[0b010100, 0b011000, 1 << 24], 0, &probed, &row));
    Ok(())
}
