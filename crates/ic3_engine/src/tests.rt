//! The worked designs on one engine each: with the properties in order and in reverse.

ghost use Rattle.std.specs.Prelude.{◌≡◌, ◌<◌, length, IfOk, IfSome};
ghost use Rattle.aig_model.specs.Task.{problem};
ghost use Rattle.ic3_engine.specs.Engines.{IsReadyFor};
ghost use Rattle.ic3_engine.specs.Found.{IsFound};

use crate::own::prove_own;
use crate::{Engine, Found, LocalAnswer, NoShare, prove, prove_local};
use aig_model::{Expect, Task};
use aiger_ascii::read_ascii;
use ic3_query::Halt;
use inv_cert::Closed;
use ja_base::{Memory, Meter};
use ja_outside::{Flag, MemFlag, NoFlag};
use ja_project::Coded;
use sat_plain::{PlainSat, Probe};
use std::alloc::Global;
use std::test::Fail;

/// What came of a property.
#[derive(Clone, Copy, Debug, PartialEq, Eq)]
enum Mark {
    Proved,
    Fails,
    Halted(Halt),
}

use Mark::{Fails, Proved};

/// Two latches: the first is 1 from step 1 on, the second one step later.
const TWO: &[u8] = b"aag 2 0 2 0 0 2\n2 1\n4 2\n2\n4\n";

/// A one-hot ring of three, and for each two of its latches that they are not both 1.
const RING: &[u8] = b"aag 6 0 3 0 3 3\n2 6 1\n4 2\n6 4\n8\n10\n12\n8 4 2\n10 6 4\n12 6 2\n";

/// An arbiter with two grants, of which the second needs that the first was not asked for: both are never given, and the second
/// is.
const GRANTS: &[u8] = b"aag 6 2 2 1 2 2\n2\n4\n6 2\n8 10\n8\n12\n8\n10 4 3\n12 8 6\n";

/// A latch that keeps the value with which it starts, and one that takes the input.
const FREE: &[u8] = b"aag 3 1 2 0 0 2\n2\n4 4 4\n6 2\n4\n6\n";

/// A counter of six bits, which starts at 0: the property is that its highest bit is 0.
const COUNTER: &[u8] =
    b"aag 25 0 6 0 19 1\n2 3\n4 19\n6 27\n8 35\n10 43\n12 51\n12\n14 4 3\n16 5 2\n\
    18 17 15\n20 4 2\n22 21 6\n24 20 7\n26 25 23\n28 20 6\n30 29 8\n32 28 9\n\
    34 33 31\n36 28 8\n38 37 10\n40 36 11\n42 41 39\n44 36 10\n46 45 12\n48 44 13\n\
    50 49 47\n";

/// A design, the properties that are expected to fail, and what comes of each.
type Row = (&'static [u8], [bool; 3], &'static [Mark]);

const ROWS: [Row; 11] = [
    (TWO, [false, false, false], &[Fails, Proved]),
    (TWO, [true, false, false], &[Fails, Fails]),
    (TWO, [true, true, false], &[Fails, Fails]),
    (RING, [false, false, false], &[Proved, Proved, Proved]),
    (b"aag 0 0 0 0 0 1\n1\n", [false, false, false], &[Fails]),
    (b"aag 0 0 0 0 0 1\n0\n", [false, false, false], &[Proved]),
    (
        b"aag 1 0 1 0 0 2\n2 3\n2\n2\n",
        [false, false, false],
        &[Fails, Fails],
    ),
    (
        b"aag 1 0 1 0 0 1\n2 2 2\n2\n",
        [false, false, false],
        &[Fails],
    ),
    (
        b"aag 1 1 0 0 0 1 1\n2\n2\n0\n",
        [false, false, false],
        &[Proved],
    ),
    (GRANTS, [false, true, false], &[Proved, Fails]),
    (
        b"aag 1 0 1 2 0\n2 3\n2\n3\n",
        [false, false, false],
        &[Proved, Fails],
    ),
];

fn set_failing(expect: &mut Expect, prop: u32, fails: bool)
    requires { prop < length expect.old }
    ensures { length expect.new ≡ length expect.old }
{
    if fails {
        expect.set_fail(prop);
    }
}

fn expectations(alloc: Global, props: u32, failing: [bool; 3]) -> Option<Expect>
    ensures { IfSome result (λ expect. length expect ≡ props) }
{
    let mut expect = Expect::all(alloc, props).ok()?;
    for prop in 0..props {
        set_failing(&mut expect, prop, failing.get(prop as usize) == Some(&true));
    }
    Some(expect)
}

fn coded(alloc: Global, text: &[u8], failing: [bool; 3]) -> Option<Coded> {
    let design = read_ascii(alloc, text).ok()?;
    let expect = expectations(alloc, design.props(), failing)?;
    let task = Task::new(alloc, design, expect).ok()?;
    Coded::new(alloc, &task).ok()
}

/// An engine that knows nothing yet.
fn engine<S: Probe>(alloc: Global, coded: &Coded) -> Result<Engine<S, S>, Memory>
    ensures { IfOk result (IsReadyFor S.count S.added coded.now) }
{
    let view = Closed::empty(alloc, coded.task())?;
    let engine = Engine::new(alloc, coded, &view)?;
    Ok(engine)
}

fn outcome<S: Probe, F: Flag>(
    alloc: Global,
    coded: &Coded,
    prop: u32,
    engine: &mut Engine<S, S>,
    meter: &mut Meter,
    flag: &mut F,
) -> Mark
    requires within { prop < length coded.now.design.bads }
    requires ready { IsReadyFor S.count S.added coded.now engine.old }
    ensures ready { IsReadyFor S.count S.added coded.now engine.new }
{
    let Ok(task) = coded.task().share() else {
        return Mark::Halted(Halt::Memory);
    };
    let mut share = NoShare::new(task);
    match prove_own(alloc, coded, prop, engine, meter, flag, &mut share) {
        Ok(Found::Proved(_)) => Proved,
        Ok(Found::Fails(_)) => Fails,
        Err(halt) => Mark::Halted(halt),
    }
}

/// What the engine finds where it is asked once.
fn found<S: Probe>(
    alloc: Global,
    coded: &Coded,
    prop: u32,
    engine: &mut Engine<S, S>,
) -> Result<Found, Fail>
    requires within { prop < length coded.now.design.bads }
    requires ready { IsReadyFor S.count S.added coded.now engine.old }
    ensures found { IfOk result (IsFound coded.now prop engine.old.failed) }
    ensures ready { IsReadyFor S.count S.added coded.now engine.new }
{
    let mut share = NoShare::new(coded.task().share()?);
    let mut meter = Meter::new(None);
    match prove(
        alloc,
        coded,
        prop,
        engine,
        &mut meter,
        &mut NoFlag,
        &mut share,
    ) {
        Ok(found) => Ok(found),
        Err(_) => Err("halted".into()),
    }
}

/// The property of the failure that is found where this one is asked for once, and its steps.
fn first_broken<S: Probe>(
    alloc: Global,
    coded: &Coded,
    prop: u32,
    engine: &mut Engine<S, S>,
) -> Result<(u32, u32), Fail>
    requires within { prop < length coded.now.design.bads }
    requires ready { IsReadyFor S.count S.added coded.now engine.old }
    ensures ready { IsReadyFor S.count S.added coded.now engine.new }
{
    let Found::Fails(failure) = found::<S>(alloc, coded, prop, engine)? else {
        return Err("no failure".into());
    };
    Ok((failure.prop(), failure.stim().inputs().len()))
}

/// Whether the properties come out so, one after another on one engine.
fn are_marked<S: Probe>(
    alloc: Global,
    coded: &Coded,
    reversed: bool,
    expected: &[Mark],
) -> Result<bool, Memory> {
    let mut engine: Engine<S, S> = engine(alloc, coded)?;
    let props = coded.task().design().props();
    for at in 0..props {
        let prop = if reversed { props - 1 - at } else { at };
        let mut meter = Meter::new(None);
        let found = outcome(alloc, coded, prop, &mut engine, &mut meter, &mut NoFlag);
        if expected.get(prop as usize) != Some(&found) {
            return Ok(false);
        }
    }
    Ok(true)
}

/// What comes of the property alone, with nothing known and nobody to share with.
fn mark_alone<S: Probe, F: Flag>(
    alloc: Global,
    coded: &Coded,
    prop: u32,
    view: &Closed,
    meter: &mut Meter,
    flag: &mut F,
) -> Result<Mark, Memory>
    requires within { prop < length coded.now.design.bads }
    requires view { problem view.now.task ≡ problem coded.now }
{
    let mut share = NoShare::new(coded.task().share()?);
    match prove_local::<S, S, F, NoShare>(alloc, coded, prop, view, meter, flag, &mut share) {
        LocalAnswer::Proved(_) => Ok(Proved),
        LocalAnswer::Fails(_) => Ok(Fails),
        LocalAnswer::Spent => Ok(Mark::Halted(Halt::Spent)),
        LocalAnswer::Stopped => Ok(Mark::Halted(Halt::Stopped)),
        LocalAnswer::Memory => Err(Memory),
    }
}

/// Whether the properties come out so, each by itself.
fn are_marked_alone<S: Probe>(
    alloc: Global,
    coded: &Coded,
    expected: &[Mark],
) -> Result<bool, Memory> {
    let view = Closed::empty(alloc, coded.task())?;
    for prop in 0..coded.task().design().props() {
        let mut meter = Meter::new(None);
        let found = mark_alone::<S, NoFlag>(alloc, coded, prop, &view, &mut meter, &mut NoFlag)?;
        if expected.get(prop as usize) != Some(&found) {
            return Ok(false);
        }
    }
    Ok(true)
}

#[test]
fn marks_worked_designs(rt: HostRuntime) -> Result<(), Fail> {
    let alloc = rt.alloc();
    for (number, (text, failing, expected)) in ROWS.into_iter().enumerate() {
        let coded = coded(alloc, text, failing).ok_or("no design")?;
        assert!(rt;
            are_marked::<PlainSat>(alloc, &coded, false, expected)?,
            "{number}"
        );
        assert!(rt;
            are_marked::<PlainSat>(alloc, &coded, true, expected)?,
            "{number} reversed"
        );
        assert!(rt;
            are_marked_alone::<PlainSat>(alloc, &coded, expected)?,
            "{number} alone"
        );
    }
    Ok(())
}

// Where a call ends without an answer, the engine goes on from what it knows.
#[test]
fn goes_on_behind_a_halt(rt: HostRuntime) -> Result<(), Fail> {
    let alloc = rt.alloc();
    let coded = coded(alloc, RING, [false; 3]).ok_or("no design")?;
    let mut engine: Engine<PlainSat, PlainSat> = engine(alloc, &coded)?;
    if coded.task().design().props() == 3 {
        let mut meter = Meter::new(Some(1));
        let spent = outcome(alloc, &coded, 0, &mut engine, &mut meter, &mut NoFlag);
        assert_eq!(rt; spent, Mark::Halted(Halt::Spent));
        let mut meter = Meter::new(None);
        let stopped = outcome(
            alloc,
            &coded,
            1,
            &mut engine,
            &mut meter,
            &mut MemFlag::new(Some(0)),
        );
        assert_eq!(rt; stopped, Mark::Halted(Halt::Stopped));
        let mut meter = Meter::new(None);
        let proved = outcome(alloc, &coded, 0, &mut engine, &mut meter, &mut NoFlag);
        assert_eq!(rt; proved, Proved);
    }
    Ok(())
}

// A list that covers the property is found to do so by one question: a unit for it, and one for the conflict that ends it.
#[test]
fn ends_where_the_list_covers(rt: HostRuntime) -> Result<(), Fail> {
    let alloc = rt.alloc();
    let coded = coded(alloc, RING, [false; 3]).ok_or("no design")?;
    let mut engine: Engine<PlainSat, PlainSat> = engine(alloc, &coded)?;
    if coded.task().design().props() == 3 {
        let found = found::<PlainSat>(alloc, &coded, 0, &mut engine)?;
        let Found::Proved(proved) = found else {
            return Err("not proved".into());
        };
        for (limit, expected) in [(1, Mark::Halted(Halt::Spent)), (2, Proved)] {
            let mut meter = Meter::new(Some(limit));
            let again = mark_alone::<PlainSat, NoFlag>(
                alloc,
                &coded,
                0,
                &proved.list,
                &mut meter,
                &mut NoFlag,
            )?;
            assert_eq!(rt; again, expected, "{limit}");
        }
        let stopped = mark_alone::<PlainSat, MemFlag>(
            alloc,
            &coded,
            0,
            &proved.list,
            &mut Meter::new(None),
            &mut MemFlag::new(Some(0)),
        )?;
        assert_eq!(rt; stopped, Mark::Halted(Halt::Stopped));
    }
    Ok(())
}

// The second latch is 1 from step 2 on, the first from step 1 on: a search for the longer failure leaves a top above the shorter.
#[test]
fn finds_a_failure_below_the_top(rt: HostRuntime) -> Result<(), Fail> {
    let alloc = rt.alloc();
    let coded = coded(alloc, TWO, [true, true, false]).ok_or("no design")?;
    let mut engine: Engine<PlainSat, PlainSat> = engine(alloc, &coded)?;
    if coded.task().design().props() == 2 {
        let mut meter = Meter::new(None);
        let longer = outcome(alloc, &coded, 1, &mut engine, &mut meter, &mut NoFlag);
        assert_eq!(rt; longer, Fails);
        assert!(rt; engine.search.frames.top() >= 2);
        let found = found::<PlainSat>(alloc, &coded, 0, &mut engine)?;
        let Found::Fails(failure) = found else {
            return Err("no failure".into());
        };
        assert_eq!(rt; failure.prop(), 0);
        assert_eq!(rt; failure.stim().inputs().len(), 2);
    }
    Ok(())
}

// The first latch may be 1 at the start, and then b0 fails there. The way to a failure of b1 is lifted to rows in which it is.
#[test]
fn tells_what_the_way_breaks_first(rt: HostRuntime) -> Result<(), Fail> {
    let alloc = rt.alloc();
    let coded = coded(alloc, FREE, [false; 3]).ok_or("no design")?;
    let mut engine: Engine<PlainSat, PlainSat> = engine(alloc, &coded)?;
    if coded.task().design().props() == 2 {
        let first = first_broken::<PlainSat>(alloc, &coded, 1, &mut engine)?;
        assert_eq!(rt; first, (0, 1));
        let second = first_broken::<PlainSat>(alloc, &coded, 1, &mut engine)?;
        assert_eq!(rt; second, (1, 2));
    }
    Ok(())
}

// The highest bit is first 1 at step 32. The levels rise to 16, where a random run meets what they would reach only higher up.
#[test]
fn looks_at_random_runs_where_the_top_is_high(rt: HostRuntime) -> Result<(), Fail> {
    let alloc = rt.alloc();
    let coded = coded(alloc, COUNTER, [false; 3]).ok_or("no design")?;
    let mut engine: Engine<PlainSat, PlainSat> = engine(alloc, &coded)?;
    if coded.task().design().props() == 1 {
        let broken = first_broken::<PlainSat>(alloc, &coded, 0, &mut engine)?;
        assert_eq!(rt; broken, (0, 33));
    }
    assert_eq!(rt; engine.search.frames.top(), 16);
    Ok(())
}
