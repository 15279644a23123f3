//! Lines of a journal, without their LF.

ghost use Rattle.std.specs.Prelude.{◌≡◌, option_map};
ghost use Rattle.report.specs.JournalLines.{cancel_at, draw_at, give_up_at, had_at, property_at, said_of, settle_at, what_at};

use crate::tokens::{mark, small, small_behind};
use crate::what::{Said, What};
use ja_text::{space, word};
use store_core::Mark;

#[tactic(auto, unfolding(crate::specs::JournalLines::property_at))]
fn property(bytes: &[u8]) -> Option<(u32, &[u8])>
    ensures { property_at bytes.now ≡ option_map (λ x. (x.0, x.1.now)) result }
{
    small_behind(b"b", bytes)
}

#[tactic(auto, unfolding(crate::specs::JournalLines::had_at))]
fn had(bytes: &[u8]) -> Option<(Mark, &[u8])>
    ensures { had_at bytes.now ≡ option_map (λ x. (x.0, x.1.now)) result }
{
    let rest = word(bytes, b" had ")?;
    mark(rest)
}

#[tactic(auto, unfolding(crate::specs::JournalLines::draw_at))]
fn draw(bytes: &[u8]) -> Option<(What, &[u8])>
    ensures { draw_at bytes.now ≡ option_map (λ x. (x.0, x.1.now)) result }
{
    if let Some(rest) = word(bytes, b"none") {
        return Some((What::DrawsNone, rest));
    }
    let (prop, rest) = property(bytes)?;
    Some((What::Draws(prop), rest))
}

#[tactic(auto, unfolding(crate::specs::JournalLines::settle_at))]
fn settle(bytes: &[u8]) -> Option<(What, &[u8])>
    ensures { settle_at bytes.now ≡ option_map (λ x. (x.0, x.1.now)) result }
{
    let (prop, rest) = property(bytes)?;
    let rest = space(rest)?;
    let (offered, rest) = mark(rest)?;
    match had(rest) {
        Some((stays, rest)) => Some((What::SettlesHad(prop, offered, stays), rest)),
        None => Some((What::Settles(prop, offered), rest)),
    }
}

#[tactic(auto, unfolding(crate::specs::JournalLines::cancel_at))]
fn cancel(bytes: &[u8]) -> Option<(What, &[u8])>
    ensures { cancel_at bytes.now ≡ option_map (λ x. (x.0, x.1.now)) result }
{
    let (prop, rest) = property(bytes)?;
    if let Some(rest) = word(rest, b" yes") {
        return Some((What::Cancels(prop), rest));
    }
    let rest = word(rest, b" no")?;
    Some((What::CancelsNot(prop), rest))
}

#[tactic(auto, unfolding(crate::specs::JournalLines::give_up_at))]
fn give_up(bytes: &[u8]) -> Option<(What, &[u8])>
    ensures { give_up_at bytes.now ≡ option_map (λ x. (x.0, x.1.now)) result }
{
    let (prop, rest) = property(bytes)?;
    if let Some(rest) = word(rest, b" yes") {
        return Some((What::GivesUp(prop), rest));
    }
    if let Some(rest) = word(rest, b" goon") {
        return Some((What::GoesOn(prop), rest));
    }
    let (stays, rest) = had(rest)?;
    Some((What::GivesUpHad(prop, stays), rest))
}

#[tactic(auto, unfolding(crate::specs::JournalLines::what_at))]
fn what(bytes: &[u8]) -> Option<(What, &[u8])>
    ensures { what_at bytes.now ≡ option_map (λ x. (x.0, x.1.now)) result }
{
    if let Some(rest) = word(bytes, b"draw ") {
        return draw(rest);
    }
    if let Some(rest) = word(bytes, b"import") {
        return Some((What::Imports, rest));
    }
    if let Some(rest) = word(bytes, b"publish") {
        return Some((What::Publishes, rest));
    }
    if let Some(rest) = word(bytes, b"settle ") {
        return settle(rest);
    }
    if let Some(rest) = word(bytes, b"cancel ") {
        return cancel(rest);
    }
    let rest = word(bytes, b"giveup ")?;
    give_up(rest)
}

/// What the line of an entry says.
#[tactic(auto, unfolding(crate::specs::JournalLines::said_of))]
pub fn said_of(line: &[u8]) -> Option<Said>
    ensures { result ≡ said_of line.now }
{
    let (seat, rest) = small(line)?;
    let rest = space(rest)?;
    let (what, rest) = what(rest)?;
    match small_behind(b" at ", rest) {
        Some((upto, [])) => Some(Said { seat, what, upto }),
        _ => None,
    }
}
