//! Before a level is looked at: cubes of rows that break the property are blocked for good, as far as that goes. What the levels
//! block for some steps alone would else hide them.

ghost use Rattle.std.specs.Prelude.{◌≡◌, true, false, IfOk, OnOk};
ghost use Rattle.ja_base.specs.Invariants.{Covers};
ghost use Rattle.ja_outside.specs.Flags.{IsPolled, IsFoundRaised};
ghost use Rattle.aig_model.specs.Netlist.{circuit};
ghost use Rattle.aig_model.specs.Task.{problem};
ghost use Rattle.sat_plain.specs.Ticks.{IsLater};
ghost use Rattle.ja_project.specs.Latches.{is_foreign};
ghost use Rattle.ic3_query.specs.Endings.{IsCharged, OnStopped};
ghost use Rattle.ic3_query.specs.Known.{IsForGood, all_of};
ghost use Rattle.ic3_query.specs.Questions.{IsRoom};
ghost use Rattle.ic3_general.specs.Aims.{IsAim};
ghost use Rattle.ic3_engine.specs.Climbing.{IsEngine};
ghost use Rattle.ic3_engine.specs.Knowing.{IsLook};
ghost use Rattle.ic3_engine.specs.Turns.{state};

use crate::ascending::known_covers;
use crate::good::for_good;
use crate::outcome::Look;
use crate::putting::put;
use crate::search::Search;
use ic3_general::{Aim, lifted_bad};
use ic3_query::{Halt, extend};
use ja_base::{Clause, ClauseList, Memory, Meter};
use ja_outside::Flag;
use ja_project::{Coded, ResetTable};
use sat_plain::{Probe, Sat};
use std::alloc::Global;

/// The clause is known from now on, and blocked at the top.
fn know<S: Sat>(
    alloc: Global,
    coded: &Coded,
    z: &mut Search<S>,
    clause: Clause,
) -> Result<(), Memory>
    requires engine { IsEngine coded.now (state z.old.known z.old.frames z.old.queue
        (S.count z.old.solver) (S.added z.old.solver)) }
    requires own { is_foreign (circuit coded.now.design) clause ≡ false }
    requires good { IsForGood (circuit coded.now.design) coded.now.expected
        (all_of z.old.known) clause }
    ensures engine { OnOk result (IsEngine coded.now (state z.new.known z.new.frames z.new.queue
        (S.count z.new.solver) (S.added z.new.solver))) }
    ensures task { problem z.new.known.task ≡ problem coded.now }
    ensures top { z.new.frames.top ≡ z.old.frames.top }
    ensures room { z.new.room ≡ z.old.room }
{
    let _task = coded.task();
    let mut more = ClauseList::new(alloc);
    more.push(clause.copy(alloc)?)?;
    let _before = z.known.own();
    extend(alloc, coded, &mut z.solver, &z.frames, &mut z.known, more)?;
    put(alloc, &mut z.frames, &clause)?;
    let _after = z.known.own();
    Ok(())
}

/// One cube of rows that break the property, of those that what is known allows, is blocked for good if it is inductive with it.
fn look<S: Probe, F: Flag>(
    alloc: Global,
    coded: &Coded,
    table: &ResetTable,
    aim: &Aim,
    z: &mut Search<S>,
    meter: &mut Meter,
    flag: &mut F,
) -> Result<Look, Halt>
    requires table { table.now ≡ coded.now.design }
    requires aim { IsAim coded.now aim.now }
    requires engine { IsEngine coded.now (state z.old.known z.old.frames z.old.queue
        (S.count z.old.solver) (S.added z.old.solver)) }
    requires room { IsRoom coded.now.design z.old.room.row z.old.room.vals }
    ensures look { IfOk result
        (IsLook (circuit coded.now.design) (all_of z.new.known) aim.now.prop) }
    ensures engine { OnOk result (IsEngine coded.now (state z.new.known z.new.frames z.new.queue
        (S.count z.new.solver) (S.added z.new.solver))) }
    ensures task { problem z.new.known.task ≡ problem coded.now }
    ensures top { z.new.frames.top ≡ z.old.frames.top }
    ensures room { IsRoom coded.now.design z.new.room.row z.new.room.vals }
    ensures charged { IsCharged meter.old meter.new result }
    ensures later { IsLater meter.old meter.new }
    ensures stopped { OnStopped result (IsFoundRaised F.may_rise F.raised flag.old flag.new) }
    ensures flag { IsPolled F.may_rise F.raised flag.old flag.new }
{
    let _task = coded.task();
    if known_covers(alloc, coded, aim.prop, z, meter, flag)? {
        return Ok(Look::Covered);
    }
    let cube = lifted_bad(alloc, coded, aim, &z.room.vals)?;
    if !table.starts(&cube.clause) {
        return Ok(Look::Open);
    }
    match for_good(
        alloc,
        coded,
        table,
        &mut z.solver,
        &z.frames,
        &z.known,
        &cube.clause,
        &mut z.room,
        meter,
        flag,
    )? {
        None => Ok(Look::Open),
        Some(part) => {
            know(alloc, coded, z, part)?;
            Ok(Look::Blocked)
        }
    }
}

/// Whether what is known covers the property, once cubes were blocked for good: one after another until one is not inductive, and
/// not more than there are latches.
pub(crate) fn covers_for_good<S: Probe, F: Flag>(
    alloc: Global,
    coded: &Coded,
    table: &ResetTable,
    aim: &Aim,
    z: &mut Search<S>,
    meter: &mut Meter,
    flag: &mut F,
) -> Result<bool, Halt>
    requires table { table.now ≡ coded.now.design }
    requires aim { IsAim coded.now aim.now }
    requires engine { IsEngine coded.now (state z.old.known z.old.frames z.old.queue
        (S.count z.old.solver) (S.added z.old.solver)) }
    requires room { IsRoom coded.now.design z.old.room.row z.old.room.vals }
    ensures covers { IfOk result (λ covered. covered ≡ true
        → Covers (circuit coded.now.design) (all_of z.new.known) aim.now.prop) }
    ensures engine { OnOk result (IsEngine coded.now (state z.new.known z.new.frames z.new.queue
        (S.count z.new.solver) (S.added z.new.solver))) }
    ensures task { problem z.new.known.task ≡ problem coded.now }
    ensures top { OnOk result (z.new.frames.top ≡ z.old.frames.top) }
    ensures room { IsRoom coded.now.design z.new.room.row z.new.room.vals }
    ensures charged { IsCharged meter.old meter.new result }
    ensures later { IsLater meter.old meter.new }
    ensures stopped { OnStopped result (IsFoundRaised F.may_rise F.raised flag.old flag.new) }
    ensures flag { IsPolled F.may_rise F.raised flag.old flag.new }
{
    let latches = coded.task().design().latches();
    for _ in 0..latches.max(1) {
        match look(alloc, coded, table, aim, z, meter, flag)? {
            Look::Covered => return Ok(true),
            Look::Blocked => {}
            Look::Open => return Ok(false),
        }
    }
    Ok(false)
}
