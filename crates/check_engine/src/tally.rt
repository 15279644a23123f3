//! All properties of a design on one engine.

ghost use Rattle.std.specs.Prelude.{◌≡◌, ◌<◌, length};
ghost use Rattle.ic3_engine.specs.Engines.{IsReadyFor};

use ic3_engine::{Engine, Found, NoShare, prove};
use inv_cert::Closed;
use ja_base::{ClosedSet, Memory, Meter};
use ja_outside::Flag;
use ja_project::Coded;
use sat_plain::{Probe, Sat};
use std::alloc::Global;

/// What came of the properties, and what it cost.
#[derive(Clone, Copy, Debug, PartialEq, Eq)]
pub(crate) struct Tally {
    pub proved: u32,
    pub failing: u32,
    /// Left for want of memory.
    pub open: u32,
    /// The clauses that are known at the end.
    pub clauses: u32,
    pub units: u64,
}

/// A flag that is never raised, and counts how often it is looked at: once behind each unit.
#[derive(Drop)]
pub(crate) struct Units {
    polls: u64,
}

impl Flag for Units {
    ghost use Rattle.std.specs.Prelude.{false};

    ghost raised = { λ _. 0 };

    ghost may_rise = { λ _. false };

    fn poll(&mut self) -> bool
        ensures { result ≡ false }
    {
        self.polls = self.polls.saturating_add(1);
        false
    }
}

/// What the engine finds, with no limit; None for want of memory.
fn find<S: Probe, L: Sat>(
    alloc: Global,
    coded: &Coded,
    prop: u32,
    engine: &mut Engine<S, L>,
    units: &mut Units,
) -> Option<Found>
    requires within { prop < length coded.now.design.bads }
    requires ready { IsReadyFor S.count S.added coded.now engine.old }
    ensures ready { IsReadyFor S.count S.added coded.now engine.new }
{
    let task = coded.task().share().ok()?;
    let mut share = NoShare::new(task);
    let mut meter = Meter::new(None);
    prove(alloc, coded, prop, engine, &mut meter, units, &mut share).ok()
}

/// Counts the answer, and tells whether it is of the property: a failure of another one, broken first on the way, is counted where
/// that one is asked for.
fn count(found: &Option<Found>, prop: u32, tally: &mut Tally) -> bool {
    match found {
        Some(Found::Proved(_)) => tally.proved = tally.proved.saturating_add(1),
        Some(Found::Fails(failure)) => {
            if failure.prop() != prop {
                return false;
            }
            tally.failing = tally.failing.saturating_add(1);
        }
        None => tally.open = tally.open.saturating_add(1),
    }
    true
}

/// One property. Each failure of another is told once, so that there are no more of them than properties.
fn take<S: Probe, L: Sat>(
    alloc: Global,
    coded: &Coded,
    prop: u32,
    engine: &mut Engine<S, L>,
    tally: &mut Tally,
)
    requires within { prop < length coded.now.design.bads }
    requires ready { IsReadyFor S.count S.added coded.now engine.old }
    ensures ready { IsReadyFor S.count S.added coded.now engine.new }
{
    let mut units = Units { polls: 0 };
    for _ in 0..=coded.task().design().props() {
        let found = find::<S, L>(alloc, coded, prop, engine, &mut units);
        if count(&found, prop, tally) {
            break;
        }
    }
    tally.units = tally.units.saturating_add(units.polls);
}

/// The properties in the order of their numbers.
pub(crate) fn tally_of<S: Probe, L: Sat>(alloc: Global, coded: &Coded) -> Result<Tally, Memory> {
    let view = Closed::empty(alloc, coded.task())?;
    let mut engine: Engine<S, L> = Engine::new(alloc, coded, &view)?;
    let mut tally = Tally {
        proved: 0,
        failing: 0,
        open: 0,
        clauses: 0,
        units: 0,
    };
    for prop in 0..coded.task().design().props() {
        take::<S, L>(alloc, coded, prop, &mut engine, &mut tally);
    }
    let known = &engine.search.known;
    tally.clauses = known.list().len().saturating_add(known.own().len());
    Ok(tally)
}
