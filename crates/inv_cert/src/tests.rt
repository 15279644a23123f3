//! A ring of three latches a, b, c with the numbers 2, 4, 6, of which one is 1, and a first. The property 0 is broken where a
//! and b are 1, 1 where b and c are, 2 where a and c are. A checker has the coded clauses at 0 to 9: 1 to 3 for the gate 8 of a
//! and b, 4 to 6 for the gate 10 of b and c, 7 to 9 for the gate 12 of a and c; the three assumptions at 10 to 12; then the lists.

ghost use Rattle.std.specs.Prelude.{◌≡◌, ◌+◌, ◌++◌, nat_lt, All, IfOk, OnOk};
ghost use Rattle.std.specs.List.{list_all};
ghost use Rattle.ja_base.specs.Literals.{variable};
ghost use Rattle.ja_base.specs.Clauses.{IsBelow};
ghost use Rattle.aig_model.specs.Refusals.{AreInRange};
ghost use Rattle.aig_model.specs.Task.{problem};

use crate::{Closed, NotClosed, StepChecker};
use aig_model::{AndGate, AndGates, Design, Expect, Latch, Latches, Parts, Reset, Task};
use ja_base::{Clause, ClauseList, ClosedSet, Lit, Lits, Memory, OrMemory};
use ja_project::Coded;
use refute_check::{Hints, Line, Lines, Proofs, Refuted};
use std::alloc::Global;
use std::process::Abort;
use std::test::Fail;

/// One or two literals, or 0 in place of one that lacks; none at all: no clause.
type Numbers = [u32; 2];

/// Not both a and b, not both a and c, not both b and c.
const AB: Numbers = [3, 5];

const AC: Numbers = [3, 7];

const BC: Numbers = [5, 7];

const NO: Numbers = [0, 0];

/// The proof of a candidate, or of a property; the clauses of the lines stand here with their hints.
#[derive(Clone, Copy)]
enum Given {
    Missing,
    NoLine,
    /// AC by 12 and 9: a step from a and c to a and b would have broken the property 2 before.
    Holds,
    /// AC by 9 alone.
    Unfinished,
    /// AB by 10 and 3, then AB by 10 alone.
    SecondUnfinished,
    /// Not 8, by 1, 2 and the clause AB at 10.
    Covers,
    /// Not 8, by 1 and 10.
    CoversUnfinished,
}

use Given::{Covers, CoversUnfinished, Holds, Missing, NoLine, SecondUnfinished, Unfinished};

fn latch(lit: u32, next: u32, reset: Reset) -> Latch
    ensures { result ≡ record { lit = lit; next = next; reset = reset } }
{
    Latch {
        lit: Lit(lit),
        next: Lit(next),
        reset,
    }
}

fn gate(lhs: u32, rhs0: u32, rhs1: u32) -> AndGate
    ensures { result ≡ record { lhs = lhs; rhs0 = rhs0; rhs1 = rhs1 } }
{
    AndGate {
        lhs: Lit(lhs),
        rhs0: Lit(rhs0),
        rhs1: Lit(rhs1),
    }
}

fn ring(alloc: Global) -> Result<Parts, Memory>
    ensures { IfOk result AreInRange }
{
    let a = latch(2, 6, Reset::One);
    let b = latch(4, 2, Reset::Zero);
    let c = latch(6, 4, Reset::Zero);
    let gates = [gate(8, 4, 2), gate(10, 6, 4), gate(12, 6, 2)];
    let bads = [Lit(8), Lit(10), Lit(12)];
    Ok(Parts {
        vars: 6,
        inputs: Lits::new(alloc),
        latches: Latches::from_vec(Vec::from_array(alloc, [a, b, c])?),
        bads: Lits::from_vec(Vec::from_array(alloc, bads)?),
        constraints: Lits::new(alloc),
        outputs: Lits::new(alloc),
        gates: AndGates::from_vec(Vec::from_array(alloc, gates)?),
    })
}

/// Each property is expected to hold.
fn ring_task(alloc: Global) -> Result<Task, Fail> {
    let design = Design::build(alloc, ring(alloc)?)?;
    let expect = Expect::all(alloc, design.props())?;
    Ok(Task::new(alloc, design, expect)?)
}

fn clause(alloc: Global, numbers: Numbers) -> Result<Clause, Memory> {
    let mut lits = Lits::new(alloc);
    for number in numbers {
        if number != 0 {
            lits.push(Lit(number))?;
        }
    }
    Clause::from_lits(alloc, lits.as_slice())
}

fn is_below(lits: &[Lit]) -> bool
    ensures { result ≡ list_all (λ l. nat_lt (variable l) 7) lits.now }
{
    lits.iter().all(|lit| lit.var().number() < 7)
}

fn clauses(rt: &impl Abort, alloc: Global, lists: &[Numbers]) -> Result<ClauseList, Memory>
    ensures { IfOk result (All (IsBelow 7)) }
{
    let mut clauses = ClauseList::new(alloc);
    for numbers in lists {
        let clause = clause(alloc, *numbers)?;
        if !clause.lits().is_empty() {
            assert!(rt; is_below(clause.lits()));
            clauses.push(clause)?;
        }
    }
    Ok(clauses)
}

fn line(alloc: Global, numbers: Numbers, given: &[u32]) -> Result<Line, Memory> {
    let mut hints = Hints::new(alloc);
    for hint in given {
        hints.push(*hint)?;
    }
    let clause = clause(alloc, numbers)?;
    Ok(Line { clause, hints })
}

fn lines(alloc: Global, given: Given) -> Result<Lines, Memory> {
    let mut lines = Lines::new(alloc);
    match given {
        Given::Missing | Given::NoLine => {}
        Given::Holds => lines.push(line(alloc, AC, &[12, 9])?)?,
        Given::Unfinished => lines.push(line(alloc, AC, &[9])?)?,
        Given::SecondUnfinished => {
            lines.push(line(alloc, AB, &[10, 3])?)?;
            lines.push(line(alloc, AB, &[10])?)?;
        }
        Given::Covers => lines.push(line(alloc, [9, 0], &[1, 2, 10])?)?,
        Given::CoversUnfinished => lines.push(line(alloc, [9, 0], &[1, 10])?)?,
    }
    Ok(lines)
}

fn proof(alloc: Global, given: Given) -> Result<Refuted, Memory> {
    Ok(Refuted {
        core: Lits::new(alloc),
        lines: lines(alloc, given)?,
    })
}

fn proofs(alloc: Global, all: &[Given]) -> Result<Proofs, Memory> {
    let mut proofs = Proofs::new(alloc);
    for given in all {
        if !matches!(given, Given::Missing) {
            proofs.push(proof(alloc, *given)?)?;
        }
    }
    Ok(proofs)
}

/// Clauses over the variables of the task.
fn candidates_of(
    rt: &impl Abort,
    alloc: Global,
    coded: &Coded,
    lists: &[Numbers],
) -> Result<ClauseList, Memory>
    ensures { IfOk result (All (IsBelow (coded.now.design.vars + 1))) }
{
    assert!(rt; coded.vars() == 7);
    clauses(rt, alloc, lists)
}

fn check(
    rt: &impl Abort,
    alloc: Global,
    coded: &Coded,
    base: &Closed,
    candidates: [Numbers; 2],
    given: [Given; 2],
) -> Result<Result<Closed, NotClosed>, Memory>
    requires { problem base.now.task ≡ problem coded.now }
    ensures { IfOk result (λ answer. IfOk answer (λ closed. closed.task ≡ coded.now)) }
{
    let candidates = candidates_of(rt, alloc, coded, &candidates)?;
    match Closed::check(alloc, coded, base, candidates, proofs(alloc, &given)?) {
        Ok(closed) => Ok(Ok(closed)),
        Err(OrMemory::Refused(refusal)) => Ok(Err(refusal)),
        Err(OrMemory::Memory) => Err(Memory),
    }
}

/// The clauses come behind those that the checker has.
fn add_each(alloc: Global, checker: &mut StepChecker, clauses: &[Clause]) -> Result<(), Memory>
    requires { All (IsBelow (checker.old.task.design.vars + 1)) clauses.now }
    ensures { OnOk result (checker.new ≡ record {
      task = checker.old.task;
      list = checker.old.list ++ clauses.now;
    }) }
{
    for clause in clauses {
        checker.add(alloc, clause)?;
    }
    Ok(())
}

/// What `grow` answers, by a checker that holds the list, and to which the candidates come.
fn grow(
    rt: &impl Abort,
    alloc: Global,
    coded: &Coded,
    list: &mut Closed,
    checker: &mut StepChecker,
    wanted: ([Numbers; 2], [Given; 2]),
) -> Result<Result<(), NotClosed>, Memory>
    requires task { problem list.old.task ≡ problem coded.now }
    requires checker { checker.old ≡ record { task = coded.now; list = list.old.clauses } }
    ensures task { problem list.new.task ≡ problem coded.now }
    ensures checker { IfOk result (λ answer. OnOk answer
        (checker.new ≡ record { task = coded.now; list = list.new.clauses })) }
{
    let (candidates, given) = wanted;
    let candidates = candidates_of(rt, alloc, coded, &candidates)?;
    let added = list.fresh(alloc, &candidates)?;
    add_each(alloc, checker, added.as_slice())?;
    match list.grow(alloc, coded, checker, added, proofs(alloc, &given)?) {
        Ok(()) => Ok(Ok(())),
        Err(OrMemory::Refused(refusal)) => Ok(Err(refusal)),
        Err(OrMemory::Memory) => Err(Memory),
    }
}

/// The list grows to what `check` gives.
fn grow_as_checked(
    rt: &impl Abort,
    alloc: Global,
    coded: &Coded,
    list: &mut Closed,
    checker: &mut StepChecker,
    wanted: ([Numbers; 2], [Given; 2]),
) -> Result<(), Memory>
    requires task { problem list.old.task ≡ problem coded.now }
    requires checker { checker.old ≡ record { task = coded.now; list = list.old.clauses } }
    ensures task { problem list.new.task ≡ problem coded.now }
    ensures checker { OnOk result
        (checker.new ≡ record { task = coded.now; list = list.new.clauses }) }
{
    let (candidates, given) = wanted;
    let Ok(expected) = check(rt, alloc, coded, list, candidates, given)? else {
        panic!(rt; "not closed");
    };
    let Ok(()) = grow(rt, alloc, coded, list, checker, wanted)? else {
        panic!(rt; "not grown");
    };
    assert_eq!(rt; numbers(list), numbers(&expected));
    Ok(())
}

fn covers(
    rt: &impl Abort,
    alloc: Global,
    coded: &Coded,
    list: &Closed,
    prop: u32,
    given: Given,
) -> Result<Result<(), NotClosed>, Memory>
    requires { problem list.now.task ≡ problem coded.now }
{
    assert!(rt; prop < coded.task().design().props());
    match list.covers(alloc, coded, prop, proof(alloc, given)?) {
        Ok(()) => Ok(Ok(())),
        Err(OrMemory::Refused(refusal)) => Ok(Err(refusal)),
        Err(OrMemory::Memory) => Err(Memory),
    }
}

fn clause_numbers(clause: &Clause) -> Numbers {
    let mut numbers = NO;
    for (number, lit) in numbers.iter_mut().zip(clause.lits()) {
        *number = lit.number();
    }
    numbers
}

fn numbers_at(list: &Closed, at: u32) -> Numbers {
    if at < list.len() {
        clause_numbers(list.clause(at))
    } else {
        NO
    }
}

/// The clauses of a list, if it has at most two.
fn numbers(list: &Closed) -> [Numbers; 2] {
    [numbers_at(list, 0), numbers_at(list, 1)]
}

// Of an unfinished proof the line is refused where its hints end.
const AT_FIRST: NotClosed = NotClosed::Line {
    candidate: 0,
    line: 0,
    hint: 1,
};

const AT_SECOND: NotClosed = NotClosed::Line {
    candidate: 1,
    line: 1,
    hint: 1,
};

const AT_PROPERTY: NotClosed = NotClosed::Line {
    candidate: 0,
    line: 0,
    hint: 2,
};

/// Candidates with their proofs, and what is answered.
type Row = ([Numbers; 2], [Given; 2], Result<[Numbers; 2], NotClosed>);

// The candidates AB and BC stand at 13 and 14: with AB before it, BC needs no line.
const ROWS: [Row; 15] = [
    ([NO, NO], [Missing, Missing], Ok([NO, NO])),
    ([AB, NO], [Holds, Missing], Ok([AB, NO])),
    ([AB, NO], [Holds, NoLine], Ok([AB, NO])),
    ([AB, AB], [Holds, Holds], Ok([AB, NO])),
    ([AB, BC], [Holds, NoLine], Ok([AB, BC])),
    ([AB, NO], [Missing, Missing], Err(NotClosed::Missing(0))),
    ([AB, BC], [Holds, Missing], Err(NotClosed::Missing(1))),
    (
        [[8, 0], [4, 0]],
        [Missing, Missing],
        Err(NotClosed::Foreign(0)),
    ),
    ([AB, [2, 3]], [Holds, Missing], Err(NotClosed::Foreign(1))),
    (
        [[4, 0], [8, 0]],
        [Missing, Missing],
        Err(NotClosed::Start(0)),
    ),
    ([AB, [3, 6]], [Holds, Missing], Err(NotClosed::Start(1))),
    ([AB, NO], [Unfinished, Missing], Err(AT_FIRST)),
    ([AB, BC], [Holds, SecondUnfinished], Err(AT_SECOND)),
    ([AB, NO], [NoLine, Holds], Err(NotClosed::Left(0))),
    ([AB, AC], [Holds, NoLine], Err(NotClosed::Left(1))),
];

/// Whether the row is answered as it says.
fn is_answered(
    rt: &impl Abort,
    alloc: Global,
    coded: &Coded,
    base: &Closed,
    row: Row,
) -> Result<bool, Memory>
    requires { problem base.now.task ≡ problem coded.now }
{
    let (candidates, given, expected) = row;
    match check(rt, alloc, coded, base, candidates, given)? {
        Ok(closed) => Ok(expected == Ok(numbers(&closed))),
        Err(refusal) => Ok(expected == Err(refusal)),
    }
}

#[test]
fn checks_candidates(rt: HostRuntime) -> Result<(), Fail> {
    let alloc = rt.alloc();
    let task = ring_task(alloc)?;
    let coded = Coded::new(alloc, &task)?;
    let base = Closed::empty(alloc, &task)?;
    for (at, row) in ROWS.into_iter().enumerate() {
        assert!(rt; is_answered(&rt, alloc, &coded, &base, row)?, "row {at}");
    }
    Ok(())
}

// The checker of a property has the list at 10, and no assumption.
#[test]
fn goes_on_from_a_list(rt: HostRuntime) -> Result<(), Fail> {
    let alloc = rt.alloc();
    let task = ring_task(alloc)?;
    let coded = Coded::new(alloc, &task)?;
    let none = Closed::empty(alloc, &task)?;
    let Ok(base) = check(&rt, alloc, &coded, &none, [AB, NO], [Holds, Missing])? else {
        panic!(rt; "not closed");
    };
    let rows = [
        (0, Covers, Ok(())),
        (1, Covers, Err(NotClosed::Left(0))),
        (0, NoLine, Err(NotClosed::Left(0))),
        (0, CoversUnfinished, Err(AT_PROPERTY)),
    ];
    for (prop, given, expected) in rows {
        assert_eq!(rt; covers(&rt, alloc, &coded, &base, prop, given)?, expected);
    }
    let rows = [
        ([AB, NO], [Holds, Missing], [AB, NO]),
        ([BC, NO], [NoLine, Missing], [AB, BC]),
    ];
    for (candidates, given, expected) in rows {
        let Ok(closed) = check(&rt, alloc, &coded, &base, candidates, given)? else {
            panic!(rt; "not closed");
        };
        assert_eq!(rt; numbers(&closed), expected);
    }
    Ok(())
}

// AB and BC come to the checker at 13 and 14.
fn grow_twice(
    rt: &impl Abort,
    alloc: Global,
    coded: &Coded,
    list: &mut Closed,
    checker: &mut StepChecker,
) -> Result<(), Memory>
    requires task { problem list.old.task ≡ problem coded.now }
    requires checker { checker.old ≡ record { task = coded.now; list = list.old.clauses } }
    ensures task { problem list.new.task ≡ problem coded.now }
    ensures checker { OnOk result
        (checker.new ≡ record { task = coded.now; list = list.new.clauses }) }
{
    let first = ([AB, NO], [Holds, Missing]);
    grow_as_checked(rt, alloc, coded, list, checker, first)?;
    let second = ([BC, AB], [NoLine, Holds]);
    grow_as_checked(rt, alloc, coded, list, checker, second)?;
    assert_eq!(rt; numbers(list), [AB, BC]);
    Ok(())
}

// A refusal is that of `check`, and leaves the list as it was.
fn refuse_as_checked(
    rt: &impl Abort,
    alloc: Global,
    coded: &Coded,
    list: &mut Closed,
    checker: &mut StepChecker,
) -> Result<(), Memory>
    requires task { problem list.old.task ≡ problem coded.now }
    requires checker { checker.old ≡ record { task = coded.now; list = list.old.clauses } }
{
    let refused = ([AC, NO], [Unfinished, Missing], Err(AT_FIRST));
    assert!(rt; is_answered(rt, alloc, coded, list, refused)?);
    let refused = ([AC, NO], [Unfinished, Missing]);
    let grown = grow(rt, alloc, coded, list, checker, refused)?;
    assert_eq!(rt; grown, Err(AT_FIRST));
    assert_eq!(rt; numbers(list), [AB, BC]);
    Ok(())
}

/// Both, one after the other.
fn grow_and_refuse(
    rt: &impl Abort,
    alloc: Global,
    coded: &Coded,
    list: &mut Closed,
    checker: &mut StepChecker,
) -> Result<(), Memory>
    requires task { problem list.old.task ≡ problem coded.now }
    requires checker { checker.old ≡ record { task = coded.now; list = list.old.clauses } }
{
    grow_twice(rt, alloc, coded, list, checker)?;
    refuse_as_checked(rt, alloc, coded, list, checker)
}

#[test]
fn grows_by_one_checker(rt: HostRuntime) -> Result<(), Fail> {
    let alloc = rt.alloc();
    let task = ring_task(alloc)?;
    let coded = Coded::new(alloc, &task)?;
    let mut list = Closed::empty(alloc, &task)?;
    let mut checker = StepChecker::new(alloc, &coded)?;
    let grown = grow_and_refuse(&rt, alloc, &coded, &mut list, &mut checker);
    Ok(grown?)
}
