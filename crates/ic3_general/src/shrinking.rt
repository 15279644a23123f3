//! Shrinking: from a blocked clause to a part of it that is blocked too, so that a cube grows.

ghost use Rattle.std.specs.Prelude.{◌≡◌, ◌+◌, ◌*◌, ◌^◌, ◌≤◌, ◌<◌, [], true, false, length, filter, Contains, IsSome, IfOk, IfSome};
ghost use Rattle.ja_base.specs.Clauses.{is_part};
ghost use Rattle.ja_outside.specs.Flags.{IsPolled, IsFoundRaised};
ghost use Rattle.aig_model.specs.Netlist.{circuit, IsSound};
ghost use Rattle.aig_model.specs.Task.{problem};
ghost use Rattle.sat_plain.specs.Ticks.{IsLater, TicksAtMost};
ghost use Rattle.ja_project.specs.Latches.{is_foreign};
ghost use Rattle.ja_project.specs.Start.{agrees_with_reset, starts};
ghost use Rattle.ic3_query.specs.Endings.{IsCharged, OnStopped};
ghost use Rattle.ic3_query.specs.Known.{all_of};
ghost use Rattle.ic3_query.specs.Questions.{AreOwnLevels, IsBlockedBy, IsKeptAt, IsRoom};
ghost use Rattle.ic3_query.specs.Serving.{Serves};
ghost use Rattle.ic3_general.specs.Shrinking.{AreBlockedAtTop, IsAfter, IsCut, IsShrunk, IsStartingPart};

use crate::cutting::{cut, without};
use ic3_frames::Frames;
use ic3_query::{Asked, Halt, Known, Room, ask};
use ja_base::{Clause, Lit, Lits, Memory, Meter};
use ja_outside::Flag;
use ja_project::{Coded, ResetTable};
use sat_plain::Probe;
use std::alloc::Global;

/// After so many drops in a row that failed no more are tried.
const MOST_FAILED: u32 = 3;

/// What is left of a clause, and how many drops failed in a row.
#[derive(Debug, Drop)]
struct Left {
    clause: Clause,
    failed: u32,
}

/// What is left without the literal, if that is to be asked about: not once too many drops failed, and not where an initial row
/// would falsify it.
fn candidate(
    alloc: Global,
    table: &ResetTable,
    left: &Left,
    lit: Lit,
) -> Result<Option<Clause>, Memory>
    requires sound { IsSound table.now }
    requires own { is_foreign (circuit table.now) left.now.clause ≡ false }
    ensures few { IfOk result (λ tried. IsSome tried → left.now.failed < 3) }
    ensures part { IfOk result
        (λ tried. IfSome tried (IsStartingPart table.now left.now.clause)) }
{
    if left.failed >= MOST_FAILED || !left.clause.lits().contains(&lit) {
        return Ok(None);
    }
    let tried = without(alloc, &left.clause, lit)?;
    let begins = table.starts(&tried);
    if !begins {
        return Ok(None);
    }
    Ok(Some(tried))
}

/// What is left after the answer.
fn after(
    alloc: Global,
    coded: &Coded,
    table: &ResetTable,
    left: Left,
    tried: &Clause,
    asked: Asked,
) -> Result<Left, Memory>
    requires few { left.failed < 3 }
    requires table { table.now ≡ coded.now.design }
    requires own { is_foreign (circuit coded.now.design) tried.now ≡ false }
    requires begins { starts (circuit coded.now.design) tried.now ≡ true }
    ensures { IfOk result
        (λ now. IsAfter coded.now.design left.clause tried.now asked now.clause) }
{
    match asked {
        Asked::Before => Ok(Left {
            clause: left.clause,
            failed: left.failed + 1,
        }),
        Asked::Blocked(core) => {
            let clause = cut(alloc, coded, table, tried, &core)?;
            Ok(Left { clause, failed: 0 })
        }
    }
}

/// What is left once the drop of one literal was tried.
fn try_drop<S: Probe, F: Flag>(
    alloc: Global,
    coded: &Coded,
    table: &ResetTable,
    solver: &mut S,
    frames: &Frames,
    known: &Known,
    level: u32,
    lit: Lit,
    left: Left,
    room: &mut Room,
    meter: &mut Meter,
    flag: &mut F,
) -> Result<Left, Halt>
    requires table { table.now ≡ coded.now.design }
    requires level { level ≤ frames.now.top + 1 }
    requires left { IsShrunk coded.now (all_of known.now) frames.now level left.clause
        left.clause }
    requires levels { AreOwnLevels coded.now.design frames.now.kept }
    requires task { problem known.now.task ≡ problem coded.now }
    requires room { IsRoom coded.now.design room.old.row room.old.vals }
    requires serves { Serves coded.now.design (all_of known.now) frames.now
        (S.count solver.old) (S.added solver.old) }
    ensures room { IsRoom coded.now.design room.new.row room.new.vals }
    ensures count { S.count solver.new ≡ S.count solver.old }
    ensures added { S.added solver.new ≡ S.added solver.old }
    ensures shrunk { IfOk result (λ now. IsShrunk coded.now (all_of known.now) frames.now level
        left.clause now.clause) }
    ensures charged { IsCharged meter.old meter.new result }
    ensures later { IsLater meter.old meter.new }
    ensures stopped { OnStopped result (IsFoundRaised F.may_rise F.raised flag.old flag.new) }
    ensures flag { IsPolled F.may_rise F.raised flag.old flag.new }
    ensures bounded { TicksAtMost meter.old meter.new (2 * (1 + 3 ^ S.count solver.old)) }
{
    let _task = coded.task();
    let Some(tried) = candidate(alloc, table, &left, lit)? else {
        return Ok(left);
    };
    let asked = ask(
        alloc, coded, solver, frames, known, level, &tried, room, meter, flag,
    )?;
    let left = after(alloc, coded, table, left, &tried, asked)?;
    Ok(left)
}

/// What is left of the first part once the drop of each literal of the clause was tried.
fn try_all<S: Probe, F: Flag>(
    alloc: Global,
    coded: &Coded,
    table: &ResetTable,
    solver: &mut S,
    frames: &Frames,
    known: &Known,
    level: u32,
    clause: &Clause,
    first: Clause,
    room: &mut Room,
    meter: &mut Meter,
    flag: &mut F,
) -> Result<Clause, Halt>
    requires table { table.now ≡ coded.now.design }
    requires level { level ≤ frames.now.top + 1 }
    requires first { IsShrunk coded.now (all_of known.now) frames.now level clause.now first }
    requires levels { AreOwnLevels coded.now.design frames.now.kept }
    requires task { problem known.now.task ≡ problem coded.now }
    requires room { IsRoom coded.now.design room.old.row room.old.vals }
    requires serves { Serves coded.now.design (all_of known.now) frames.now
        (S.count solver.old) (S.added solver.old) }
    ensures room { IsRoom coded.now.design room.new.row room.new.vals }
    ensures count { S.count solver.new ≡ S.count solver.old }
    ensures added { S.added solver.new ≡ S.added solver.old }
    ensures shrunk { IfOk result (λ part. IsShrunk coded.now (all_of known.now) frames.now level
        clause.now part) }
    ensures charged { IsCharged meter.old meter.new result }
    ensures later { IsLater meter.old meter.new }
    ensures stopped { OnStopped result (IsFoundRaised F.may_rise F.raised flag.old flag.new) }
    ensures flag { IsPolled F.may_rise F.raised flag.old flag.new }
    ensures bounded { TicksAtMost meter.old meter.new
        ((length clause.now + 1) * (2 * (1 + 3 ^ S.count solver.old))) }
{
    let mut left = Left {
        clause: first,
        failed: 0,
    };
    for lit in clause.lits() {
        left = try_drop(
            alloc, coded, table, solver, frames, known, level, *lit, left, room, meter, flag,
        )?;
    }
    Ok(left.clause)
}

/// A part of a clause that is kept by each step from the level and met by each initial row, as the clause is. `core` has the
/// literals of the question that sufficed. At the level above the top nothing counts but what is known.
pub fn shrink<S: Probe, F: Flag>(
    alloc: Global,
    coded: &Coded,
    table: &ResetTable,
    solver: &mut S,
    frames: &Frames,
    known: &Known,
    level: u32,
    clause: &Clause,
    core: &Lits,
    room: &mut Room,
    meter: &mut Meter,
    flag: &mut F,
) -> Result<Clause, Halt>
    requires table { table.now ≡ coded.now.design }
    requires level { level ≤ frames.now.top + 1 }
    requires own { is_foreign (circuit coded.now.design) clause.now ≡ false }
    requires begins { starts (circuit coded.now.design) clause.now ≡ true }
    requires blocked { IsBlockedBy coded.now (all_of known.now) frames.now level clause.now
        core.now }
    requires levels { AreOwnLevels coded.now.design frames.now.kept }
    requires task { problem known.now.task ≡ problem coded.now }
    requires room { IsRoom coded.now.design room.old.row room.old.vals }
    requires serves { Serves coded.now.design (all_of known.now) frames.now
        (S.count solver.old) (S.added solver.old) }
    ensures room { IsRoom coded.now.design room.new.row room.new.vals }
    ensures count { S.count solver.new ≡ S.count solver.old }
    ensures added { S.added solver.new ≡ S.added solver.old }
    ensures part { IfOk result (λ part. is_part part clause.now ≡ true) }
    ensures own { IfOk result (λ part. is_foreign (circuit coded.now.design) part ≡ false) }
    ensures begins { IfOk result (λ part. starts (circuit coded.now.design) part ≡ true) }
    ensures kept { IfOk result (IsKeptAt coded.now (all_of known.now) frames.now level) }
    ensures alone { AreBlockedAtTop frames.now (all_of known.now) → level ≤ frames.now.top
        → IfOk result (IsKeptAt coded.now [] frames.now level) }
    ensures charged { IsCharged meter.old meter.new result }
    ensures later { IsLater meter.old meter.new }
    ensures stopped { OnStopped result (IsFoundRaised F.may_rise F.raised flag.old flag.new) }
    ensures flag { IsPolled F.may_rise F.raised flag.old flag.new }
    ensures bounded { TicksAtMost meter.old meter.new
        ((length clause.now + 1) * (2 * (1 + 3 ^ S.count solver.old))) }
{
    let _known = known.own();
    let first = cut(alloc, coded, table, clause, core)?;
    let part = try_all(
        alloc, coded, table, solver, frames, known, level, clause, first, room, meter, flag,
    )?;
    Ok(part)
}
