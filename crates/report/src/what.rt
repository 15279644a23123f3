//! What an entry of the journal says.

ghost use Rattle.std.specs.Prelude.{◌≡◌};
ghost use Rattle.report.specs.Entries.{cancel_what, draw_what, give_up_what, import_what, property_of, publish_what, settle_what, what_head, what_of};

use store_core::{Event, Mark, Reply};

/// The event and its reply, without the numbers of clauses. Properties are numbers; of two marks the one that was offered comes
/// first.
#[derive(Clone, Copy, Debug, PartialEq, Eq)]
pub enum What {
    Draws(u32),
    DrawsNone,
    Imports,
    Publishes,
    Settles(u32, Mark),
    SettlesHad(u32, Mark, Mark),
    Cancels(u32),
    CancelsNot(u32),
    GivesUp(u32),
    GoesOn(u32),
    GivesUpHad(u32, Mark),
}

fn draw_what(reply: Reply) -> Option<What>
    ensures { result ≡ draw_what reply }
{
    match reply {
        Reply::Job { prop, .. } => Some(What::Draws(prop)),
        Reply::NoJob { .. } => Some(What::DrawsNone),
        _ => None,
    }
}

fn import_what(reply: Reply) -> Option<What>
    ensures { result ≡ import_what reply }
{
    match reply {
        Reply::Clauses { .. } => Some(What::Imports),
        _ => None,
    }
}

fn publish_what(reply: Reply) -> Option<What>
    ensures { result ≡ publish_what reply }
{
    match reply {
        Reply::Added { .. } => Some(What::Publishes),
        _ => None,
    }
}

fn settle_what(prop: u32, mark: Mark, reply: Reply) -> Option<What>
    ensures { result ≡ settle_what prop mark reply }
{
    match reply {
        Reply::Settled { .. } => Some(What::Settles(prop, mark)),
        Reply::Had { mark: had } => Some(What::SettlesHad(prop, mark, had)),
        _ => None,
    }
}

fn cancel_what(prop: u32, reply: Reply) -> Option<What>
    ensures { result ≡ cancel_what prop reply }
{
    match reply {
        Reply::Cancelled => Some(What::Cancels(prop)),
        Reply::NotNow => Some(What::CancelsNot(prop)),
        _ => None,
    }
}

fn give_up_what(prop: u32, reply: Reply) -> Option<What>
    ensures { result ≡ give_up_what prop reply }
{
    match reply {
        Reply::GaveUp => Some(What::GivesUp(prop)),
        Reply::GoOn => Some(What::GoesOn(prop)),
        Reply::Had { mark } => Some(What::GivesUpHad(prop, mark)),
        _ => None,
    }
}

/// What the event and its reply say. None where the one is no reply to the other.
pub fn what_of(event: &Event, reply: Reply) -> Option<What>
    ensures { result ≡ what_of event.now reply }
{
    match event {
        Event::Draw => draw_what(reply),
        Event::Import => import_what(reply),
        Event::Publish { .. } => publish_what(reply),
        Event::Settle { prop, mark, .. } => settle_what(*prop, *mark, reply),
        Event::Cancel { prop } => cancel_what(*prop, reply),
        Event::GiveUp { prop } => give_up_what(*prop, reply),
    }
}

/// The words in front of the property.
pub fn head_of(what: What) -> &'static [u8]
    ensures { result.now ≡ what_head what }
{
    match what {
        What::Draws(_) => b"draw ",
        What::DrawsNone => b"draw none",
        What::Imports => b"import",
        What::Publishes => b"publish",
        What::Settles(..) | What::SettlesHad(..) => b"settle ",
        What::Cancels(_) | What::CancelsNot(_) => b"cancel ",
        What::GivesUp(_) | What::GoesOn(_) | What::GivesUpHad(..) => b"giveup ",
    }
}

/// The property that is spoken of.
pub fn property_of(what: What) -> Option<u32>
    ensures { result ≡ property_of what }
{
    match what {
        What::DrawsNone | What::Imports | What::Publishes => None,
        What::Draws(prop)
        | What::Settles(prop, _)
        | What::SettlesHad(prop, _, _)
        | What::Cancels(prop)
        | What::CancelsNot(prop)
        | What::GivesUp(prop)
        | What::GoesOn(prop)
        | What::GivesUpHad(prop, _) => Some(prop),
    }
}

/// A line of the journal: which seat, what it asked and got, and the number of clauses behind the entry.
#[derive(Clone, Copy, Debug, PartialEq, Eq)]
pub struct Said {
    pub seat: u32,
    pub what: What,
    pub upto: u32,
}
