//! Questions over a task of four latches, by the plain solver and by one whose first answers pass no test, against a count of its
//! steps. The levels go to 2; what is known is one clause.

ghost use Rattle.std.specs.Prelude.{◌≡◌, ◌≤◌, [], false, nat_lt, IfOk, OnOk, length};
ghost use Rattle.std.specs.Bool.{OnTrue};
ghost use Rattle.std.specs.List.{list_all};
ghost use Rattle.ja_base.specs.Literals.{variable};
ghost use Rattle.aig_model.specs.Netlist.{circuit};
ghost use Rattle.aig_model.specs.Task.{problem};
ghost use Rattle.ja_project.specs.Latches.{is_foreign};
ghost use Rattle.ic3_query.specs.Known.{HoldsAtStart, all_of};
ghost use Rattle.ic3_query.specs.Questions.{AreOwnLevels, IsRoom};
ghost use Rattle.ic3_query.specs.Serving.{Serves};

mod blind;
mod ring;

use crate::tests::blind::Blind;
use crate::tests::ring::{Step, clause_of, ring_task, signs_of};
use crate::{
    Asked, Certifier, Halt, Known, Room, ask, ask_bad, ask_known, first_solver, grow, join, keep,
    open,
};
use ic3_frames::Frames;
use inv_cert::Closed;
use ja_base::{Clause, ClosedSet, Lit, Memory, Meter};
use ja_outside::{Flag, MemFlag, NoFlag};
use ja_project::{Coded, ResetTable};
use sat_plain::{PlainSat, Probe, Sat};
use std::alloc::Global;
use std::process::Abort;
use std::test::Fail;

/// A search before its first question.
#[derive(Drop)]
struct Search<S> {
    solver: S,
    frames: Frames,
    known: Known,
    room: Room,
}

fn are_below(vars: u32, lits: &[Lit]) -> bool
    ensures { result ≡ list_all (λ l. nat_lt (variable l) vars) lits.now }
{
    lits.iter().all(|lit| lit.var().number() < vars)
}

/// The clause, if it is over latches.
fn own(rt: &impl Abort, coded: &Coded, table: &ResetTable, clause: Clause) -> Clause
    requires { table.now ≡ coded.now.design }
    ensures value { result ≡ clause }
    ensures own { is_foreign (circuit coded.now.design) result ≡ false }
{
    assert!(rt; are_below(coded.vars(), clause.lits()));
    assert!(rt; !table.is_foreign(&clause));
    clause
}

/// Whether some literal agrees with a reset, so that each initial row meets the clause.
fn begins(coded: &Coded, table: &ResetTable, clause: &Clause) -> bool
    requires table { table.now ≡ coded.now.design }
    requires own { is_foreign (circuit coded.now.design) clause.now ≡ false }
    ensures { OnTrue result (HoldsAtStart (circuit coded.now.design) clause.now) }
{
    let _task = coded.task();
    table.starts(clause)
}

/// The clause of these literals, if it is over latches and each initial row meets it.
fn begun(
    rt: &impl Abort,
    alloc: Global,
    coded: &Coded,
    table: &ResetTable,
    lits: &[Lit],
) -> Result<Clause, Memory>
    requires { table.now ≡ coded.now.design }
    ensures own { IfOk result (λ clause. is_foreign (circuit coded.now.design) clause ≡ false) }
    ensures begins { IfOk result (HoldsAtStart (circuit coded.now.design)) }
{
    let clause = Clause::from_lits(alloc, lits)?;
    let clause = own(rt, coded, table, clause);
    assert!(rt; begins(coded, table, &clause));
    Ok(clause)
}

fn keep_own<S: Sat>(
    alloc: Global,
    coded: &Coded,
    solver: &mut S,
    frames: &mut Frames,
    known: &Known,
    clause: Clause,
    level: u32,
) -> Result<(), Memory>
    requires low { 1 ≤ level }
    requires high { level ≤ frames.old.top }
    requires own { is_foreign (circuit coded.now.design) clause ≡ false }
    requires begins { HoldsAtStart (circuit coded.now.design) clause }
    requires levels { AreOwnLevels coded.now.design frames.old.kept }
    requires serves { Serves coded.now.design (all_of known.now) frames.old
        (S.count solver.old) (S.added solver.old) }
    ensures top { frames.new.top ≡ frames.old.top }
    ensures levels { OnOk result (AreOwnLevels coded.now.design frames.new.kept) }
    ensures serves { OnOk result (Serves coded.now.design (all_of known.now) frames.new
        (S.count solver.new) (S.added solver.new)) }
{
    keep(alloc, coded, solver, frames, known, clause, level)?;
    Ok(())
}

/// A solver with the levels 0 to 2, at which no clause stands.
fn opened<S: Sat>(alloc: Global, coded: &Coded, known: &Known) -> Result<(S, Frames), Memory>
    requires { problem known.now.task ≡ problem coded.now }
    ensures frames { IfOk result (λ made. made.1 ≡ record { top = 2; kept = [] }) }
    ensures serves { IfOk result (λ made. Serves coded.now.design (all_of known.now) made.1
        (S.count made.0) (S.added made.0)) }
{
    let mut solver: S = first_solver(alloc, coded, known)?;
    open(alloc, coded, &mut solver, known)?;
    let mut frames = Frames::new(alloc);
    grow(coded, &mut solver, &mut frames, known)?;
    grow(coded, &mut solver, &mut frames, known)?;
    Ok((solver, frames))
}

/// The clause becomes known, since no step leads out of it.
fn learn<S: Probe>(
    rt: &impl Abort,
    alloc: Global,
    coded: &Coded,
    solver: &mut S,
    frames: &mut Frames,
    known: &mut Known,
    room: &mut Room,
    clause: Clause,
) -> Result<(), Halt>
    requires low { 1 ≤ frames.old.top }
    requires task { problem known.old.task ≡ problem coded.now }
    requires own { is_foreign (circuit coded.now.design) clause ≡ false }
    requires begins { HoldsAtStart (circuit coded.now.design) clause }
    requires room { IsRoom coded.now.design room.old.row room.old.vals }
    requires levels { AreOwnLevels coded.now.design frames.old.kept }
    requires serves { Serves coded.now.design (all_of known.old) frames.old
        (S.count solver.old) (S.added solver.old) }
    ensures top { frames.new.top ≡ frames.old.top }
    ensures task { problem known.new.task ≡ problem coded.now }
    ensures room { IsRoom coded.now.design room.new.row room.new.vals }
    ensures levels { OnOk result (AreOwnLevels coded.now.design frames.new.kept) }
    ensures serves { OnOk result (Serves coded.now.design (all_of known.new) frames.new
        (S.count solver.new) (S.added solver.new)) }
{
    let mut meter = Meter::new(None);
    let Asked::Blocked(_core) = ask_known(
        alloc,
        coded,
        solver,
        frames,
        known,
        &clause,
        room,
        &mut meter,
        &mut NoFlag,
    )?
    else {
        panic!(rt; "a step leads out of what is to be known");
    };
    join(alloc, coded, solver, frames, known, clause)?;
    Ok(())
}

/// That a is 0 is kept at level 1, that c is 1 where a is at level 2, and that not both a and b are 1 is known.
fn make_search<S: Probe + Drop>(
    rt: &impl Abort,
    alloc: Global,
    coded: &Coded,
    table: &ResetTable,
) -> Result<Search<S>, Halt>
    requires { table.now ≡ coded.now.design }
    ensures top { IfOk result (λ made. made.frames.top ≡ 2) }
    ensures task { IfOk result (λ made. problem made.known.task ≡ problem coded.now) }
    ensures room { IfOk result (λ made. IsRoom coded.now.design made.room.row made.room.vals) }
    ensures levels { IfOk result (λ made. AreOwnLevels coded.now.design made.frames.kept) }
    ensures serves { IfOk result (λ made. Serves coded.now.design (all_of made.known) made.frames
        (S.count made.solver) (S.added made.solver)) }
{
    let mut known = Known::of(alloc, Closed::empty(alloc, coded.task())?);
    let (mut solver, mut frames): (S, Frames) = opened(alloc, coded, &known)?;
    let mut room = Room::new(alloc, coded)?;
    let low = begun(rt, alloc, coded, table, &[Lit(5)])?;
    keep_own(alloc, coded, &mut solver, &mut frames, &known, low, 1)?;
    let good = begun(rt, alloc, coded, table, &[Lit(5), Lit(7)])?;
    learn(
        rt,
        alloc,
        coded,
        &mut solver,
        &mut frames,
        &mut known,
        &mut room,
        good,
    )?;
    let high = begun(rt, alloc, coded, table, &[Lit(5), Lit(8)])?;
    keep_own(alloc, coded, &mut solver, &mut frames, &known, high, 2)?;
    Ok(Search {
        solver,
        frames,
        known,
        room,
    })
}

fn asked<S: Probe + Drop, F: Flag>(
    rt: &impl Abort,
    alloc: Global,
    level: u32,
    signs: [u32; 4],
    meter: &mut Meter,
    flag: &mut F,
) -> Result<bool, Halt>
    requires { level ≤ 3 }
{
    let coded = Coded::new(alloc, &ring_task(rt, alloc)?)?;
    let table = ResetTable::new(alloc, coded.task())?;
    let mut made: Search<S> = make_search(rt, alloc, &coded, &table)?;
    let clause = own(rt, &coded, &table, clause_of(alloc, signs)?);
    match ask(
        alloc,
        &coded,
        &mut made.solver,
        &made.frames,
        &made.known,
        level,
        &clause,
        &mut made.room,
        meter,
        flag,
    )? {
        Asked::Before => Ok(true),
        Asked::Blocked(_) => Ok(false),
    }
}

fn asked_bad<S: Probe + Drop>(
    rt: &impl Abort,
    alloc: Global,
    level: u32,
    prop: u32,
) -> Result<bool, Halt>
    requires { level ≤ 3 }
{
    let coded = Coded::new(alloc, &ring_task(rt, alloc)?)?;
    let table = ResetTable::new(alloc, coded.task())?;
    let mut made: Search<S> = make_search(rt, alloc, &coded, &table)?;
    assert!(rt; prop < coded.task().design().props());
    let mut meter = Meter::new(None);
    ask_bad(
        alloc,
        &coded,
        prop,
        &mut made.solver,
        &made.frames,
        &made.known,
        level,
        &mut made.room,
        &mut meter,
        &mut NoFlag,
    )
}

fn some_leads_out(level: u32, signs: [u32; 4]) -> bool {
    (0..32).any(|number| Step::of(number).leads_out(level, signs))
}

fn some_leads_to_bad(level: u32, prop: u32) -> bool {
    (0..32).any(|number| Step::of(number).leads_to_bad(level, prop))
}

#[test]
fn asks_for_each_clause(rt: HostRuntime) -> Result<(), Fail> {
    let alloc = rt.alloc();
    for level in 0..4 {
        for number in 0..81 {
            let signs = signs_of(number);
            let mut meter = Meter::new(None);
            let plain = asked::<PlainSat, _>(&rt, alloc, level, signs, &mut meter, &mut NoFlag);
            let blind = asked::<Blind, _>(&rt, alloc, level, signs, &mut meter, &mut NoFlag);
            let expected = Ok(some_leads_out(level, signs));
            assert_eq!(rt; plain, expected, "{signs:?} at {level}");
            assert_eq!(rt; blind, expected, "{signs:?} at {level}, all variables");
        }
    }
    Ok(())
}

#[test]
fn asks_for_each_property(rt: HostRuntime) -> Result<(), Fail> {
    let alloc = rt.alloc();
    for level in 0..4 {
        for prop in 0..2 {
            let expected = Ok(some_leads_to_bad(level, prop));
            let plain = asked_bad::<PlainSat>(&rt, alloc, level, prop);
            let blind = asked_bad::<Blind>(&rt, alloc, level, prop);
            assert_eq!(rt; plain, expected, "{prop} at {level}");
            assert_eq!(rt; blind, expected, "{prop} at {level}, all variables");
        }
    }
    Ok(())
}

// Not a, from level 2: a step from b leads out of it.
#[test]
fn ends_without_an_answer(rt: HostRuntime) -> Result<(), Fail> {
    let alloc = rt.alloc();
    let signs = [2, 0, 0, 0];
    let rows = [
        (Some(0), None, Err(Halt::Spent)),
        (None, Some(0), Err(Halt::Stopped)),
        (Some(9), Some(9), Ok(true)),
    ];
    for (limit, after, expected) in rows {
        let mut meter = Meter::new(limit);
        let mut flag = MemFlag::new(after);
        let answer = asked::<PlainSat, _>(&rt, alloc, 2, signs, &mut meter, &mut flag);
        assert_eq!(rt; answer, expected, "{limit:?}, {after:?}");
    }
    Ok(())
}

/// What is known where a list is, and the clause of these literals behind it, out of which no step leads.
fn known_with(
    rt: &impl Abort,
    alloc: Global,
    coded: &Coded,
    list: &Closed,
    lits: &[Lit],
) -> Result<Known, Halt>
    requires task { problem list.now.task ≡ problem coded.now }
    ensures task { IfOk result (λ known. problem known.task ≡ problem coded.now) }
{
    let table = ResetTable::new(alloc, coded.task())?;
    let mut known = Known::of(alloc, list.copy(alloc)?);
    let (mut solver, mut frames): (PlainSat, Frames) = opened(alloc, coded, &known)?;
    let mut room = Room::new(alloc, coded)?;
    let clause = begun(rt, alloc, coded, &table, lits)?;
    learn(
        rt,
        alloc,
        coded,
        &mut solver,
        &mut frames,
        &mut known,
        &mut room,
        clause,
    )?;
    Ok(known)
}

/// The closed list with that clause behind it.
fn closed_with(
    rt: &impl Abort,
    alloc: Global,
    coded: &Coded,
    certifier: &mut Certifier<PlainSat>,
    list: &Closed,
    lits: &[Lit],
) -> Result<Closed, Halt>
    requires task { problem list.now.task ≡ problem coded.now }
    requires certifier { certifier.old ≡ coded.now }
    ensures task { IfOk result (λ closed. problem closed.task ≡ problem coded.now) }
    ensures certifier { certifier.new ≡ certifier.old }
{
    let mut known = known_with(rt, alloc, coded, list, lits)?;
    let mut meter = Meter::new(None);
    known.close(alloc, coded, certifier, &mut meter, &mut NoFlag)?;
    let closed = known.list().copy(alloc)?;
    Ok(closed)
}

fn are_clauses(list: &Closed, clauses: &[[Lit; 2]]) -> bool {
    list.len() as usize == clauses.len()
        && (0..list.len()).all(|at| list.clause(at).lits() == clauses[at as usize].as_slice())
}

// Without a unit nothing is closed, and with any number of them the clause that has no proof yet.
fn close_twice(
    rt: &impl Abort,
    alloc: Global,
    coded: &Coded,
    certifier: &mut Certifier<PlainSat>,
    known: &mut Known,
) -> Result<(), Halt>
    requires task { problem known.old.task ≡ problem coded.now }
    requires certifier { certifier.old ≡ coded.now }
{
    assert_eq!(rt; (known.list().len(), known.own().len()), (0, 1));
    let mut meter = Meter::new(Some(0));
    let spent = known.close(alloc, coded, certifier, &mut meter, &mut NoFlag);
    assert_eq!(rt; spent, Err(Halt::Spent));
    assert_eq!(rt; (known.list().len(), known.own().len()), (0, 1));
    let mut meter = Meter::new(None);
    known.close(alloc, coded, certifier, &mut meter, &mut NoFlag)?;
    assert_eq!(rt; (known.list().len(), known.own().len()), (1, 0));
    assert_eq!(rt; known.list().clause(0).lits(), [Lit(5), Lit(7)].as_slice());
    Ok(())
}

#[test]
fn closes_what_is_known(rt: HostRuntime) -> Result<(), Fail> {
    let alloc = rt.alloc();
    let coded = Coded::new(alloc, &ring_task(&rt, alloc)?)?;
    let none = Closed::empty(alloc, coded.task())?;
    let mut known = known_with(&rt, alloc, &coded, &none, &[Lit(5), Lit(7)])?;
    let mut certifier: Certifier<PlainSat> = Certifier::new(&coded)?;
    let closed = close_twice(&rt, alloc, &coded, &mut certifier, &mut known);
    Ok(closed?)
}

// Not both a and b, and not both b and c. A list of the second alone does not begin with what is loaded for both.
fn close_behind(
    rt: &impl Abort,
    alloc: Global,
    coded: &Coded,
    certifier: &mut Certifier<PlainSat>,
    none: &Closed,
) -> Result<(), Halt>
    requires task { problem none.now.task ≡ problem coded.now }
    requires certifier { certifier.old ≡ coded.now }
{
    let ab = [Lit(5), Lit(7)];
    let bc = [Lit(7), Lit(9)];
    let first = closed_with(rt, alloc, coded, certifier, none, &ab)?;
    assert!(rt; are_clauses(&first, &[ab]));
    let both = closed_with(rt, alloc, coded, certifier, &first, &bc)?;
    assert!(rt; are_clauses(&both, &[ab, bc]));
    let other = closed_with(rt, alloc, coded, certifier, none, &bc)?;
    assert!(rt; are_clauses(&other, &[bc]));
    certifier.learn(alloc, coded, &both)?;
    let last = closed_with(rt, alloc, coded, certifier, &other, &ab)?;
    assert!(rt; are_clauses(&last, &[bc, ab]));
    Ok(())
}

#[test]
fn closes_behind_what_is_loaded(rt: HostRuntime) -> Result<(), Fail> {
    let alloc = rt.alloc();
    let coded = Coded::new(alloc, &ring_task(&rt, alloc)?)?;
    let none = Closed::empty(alloc, coded.task())?;
    let mut certifier: Certifier<PlainSat> = Certifier::new(&coded)?;
    let closed = close_behind(&rt, alloc, &coded, &mut certifier, &none);
    Ok(closed?)
}
