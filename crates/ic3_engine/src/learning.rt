//! An engine takes up the clauses of a closed list.

ghost use Rattle.std.specs.Prelude.{◌≡◌, OnOk};
ghost use Rattle.ja_base.specs.ClauseSets.{joined};
ghost use Rattle.aig_model.specs.Task.{problem};
ghost use Rattle.ic3_query.specs.Questions.{IsRoom};
ghost use Rattle.ic3_engine.specs.Climbing.{IsEngine};
ghost use Rattle.ic3_engine.specs.Engines.{IsReadyFor};
ghost use Rattle.ic3_engine.specs.Turns.{state};

use crate::engine::Engine;
use crate::putting::put_known;
use crate::search::Search;
use crate::share::Share;
use ic3_query::import;
use inv_cert::Closed;
use ja_base::Memory;
use ja_project::Coded;
use sat_plain::Sat;
use std::alloc::Global;

/// The clauses come into what is known, into the solver, and to the top of the levels.
fn take_up<S: Sat>(
    alloc: Global,
    coded: &Coded,
    z: &mut Search<S>,
    more: &Closed,
) -> Result<(), Memory>
    requires more { problem more.now.task ≡ problem coded.now }
    requires engine { IsEngine coded.now (state z.old.known z.old.frames z.old.queue
        (S.count z.old.solver) (S.added z.old.solver)) }
    requires room { IsRoom coded.now.design z.old.room.row z.old.room.vals }
    ensures engine { OnOk result (IsEngine coded.now (state z.new.known z.new.frames
        z.new.queue (S.count z.new.solver) (S.added z.new.solver))) }
    ensures list { OnOk result (z.new.known.list ≡ joined z.old.known.list more.now.clauses) }
    ensures own { z.new.known.own ≡ z.old.known.own }
    ensures top { z.new.frames.top ≡ z.old.frames.top }
    ensures queue { z.new.queue ≡ z.old.queue }
    ensures task { problem z.new.known.task ≡ problem coded.now }
    ensures room { IsRoom coded.now.design z.new.room.row z.new.room.vals }
{
    import(alloc, coded, &mut z.solver, &z.frames, &mut z.known, more)?;
    put_known(alloc, &mut z.frames, &z.known)?;
    Ok(())
}

/// What the store has that was not seen becomes known, without a question.
pub(crate) fn take_news<S: Sat, H: Share>(
    alloc: Global,
    coded: &Coded,
    z: &mut Search<S>,
    share: &mut H,
) -> Result<(), Memory>
    requires share { H.task share.old ≡ problem coded.now }
    requires engine { IsEngine coded.now (state z.old.known z.old.frames z.old.queue
        (S.count z.old.solver) (S.added z.old.solver)) }
    requires room { IsRoom coded.now.design z.old.room.row z.old.room.vals }
    ensures engine { OnOk result (IsEngine coded.now (state z.new.known z.new.frames
        z.new.queue (S.count z.new.solver) (S.added z.new.solver))) }
    ensures top { z.new.frames.top ≡ z.old.frames.top }
    ensures queue { z.new.queue ≡ z.old.queue }
    ensures task { problem z.new.known.task ≡ problem coded.now }
    ensures room { IsRoom coded.now.design z.new.room.row z.new.room.vals }
    ensures share_task { H.task share.new ≡ H.task share.old }
    ensures share_later { H.later share.old share.new }
{
    if let Some(more) = share.import(alloc)? {
        take_up(alloc, coded, z, &more)?;
    }
    Ok(())
}

/// What the list says is known from now on, without a question. A live engine stays live.
pub fn learn<S: Sat, L: Sat>(
    alloc: Global,
    coded: &Coded,
    engine: &mut Engine<S, L>,
    more: &Closed,
) -> Result<(), Memory>
    requires more { problem more.now.task ≡ problem coded.now }
    requires ready { IsReadyFor S.count S.added coded.now engine.old }
    ensures ready { IsReadyFor S.count S.added coded.now engine.new }
    ensures list { OnOk result (engine.new.search.known.list
        ≡ joined engine.old.search.known.list more.now.clauses) }
    ensures own { engine.new.search.known.own ≡ engine.old.search.known.own }
    ensures live { OnOk result (engine.new.live ≡ engine.old.live) }
    ensures top { engine.new.search.frames.top ≡ engine.old.search.frames.top }
    ensures failed { engine.new.failed ≡ engine.old.failed }
{
    if engine.live {
        engine.live = false;
        take_up(alloc, coded, &mut engine.search, more)?;
        engine.live = true;
        return Ok(());
    }
    engine.search.known.import(alloc, more)?;
    Ok(())
}
