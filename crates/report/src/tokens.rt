//! What stands at the front of what is left of a line. Each answers what it read and what follows.

ghost use Rattle.std.specs.Prelude.{◌≡◌, ◌<◌, ◌≤◌, IfSome, length, option_map};
ghost use Rattle.report.specs.Tokens.{budget_at, exact_at, has_leading_zero, is_beyond, mark_at, small_at, small_behind};

use ja_text::{number, word};
use store_core::Mark;

pub fn has_leading_zero(bytes: &[u8]) -> bool
    ensures { result ≡ has_leading_zero bytes.now }
{
    matches!(bytes, [b'0', b'0'..=b'9', ..])
}

/// Whether the number that was read in front of the rest is a greater one, which is read as 2^64 - 1.
fn is_beyond(bytes: &[u8], number: u64, rest: &[u8]) -> bool
    requires { length rest.now ≤ length bytes.now }
    ensures { result ≡ is_beyond bytes.now (number, rest.now) }
{
    number == u64::MAX && &bytes[..bytes.len() - rest.len()] != b"18446744073709551615".as_slice()
}

/// A number in the digits in which it is written: no zero in front, and below 2^64.
#[tactic(auto, unfolding(crate::specs::Tokens::exact_at))]
pub fn exact(bytes: &[u8]) -> Option<(u64, &[u8])>
    ensures read { exact_at bytes.now ≡ option_map (λ x. (x.0, x.1.now)) result }
    ensures shorter { IfSome result (λ x. length x.1.now < length bytes.now) }
{
    let (number, rest) = number(bytes)?;
    if has_leading_zero(bytes) || is_beyond(bytes, number, rest) {
        return None;
    }
    Some((number, rest))
}

/// Such a number below 2^32.
#[tactic(auto, unfolding(crate::specs::Tokens::small_at))]
pub fn small(bytes: &[u8]) -> Option<(u32, &[u8])>
    ensures read { small_at bytes.now ≡ option_map (λ x. (x.0, x.1.now)) result }
    ensures shorter { IfSome result (λ x. length x.1.now < length bytes.now) }
{
    let (number, rest) = exact(bytes)?;
    if number > u64::from(u32::MAX) {
        return None;
    }
    Some((number as u32, rest))
}

/// Such a number behind the word.
#[tactic(auto, unfolding(crate::specs::Tokens::small_behind))]
pub fn small_behind<'a>(word: &[u8], bytes: &'a [u8]) -> Option<(u32, &'a [u8])>
    ensures read { small_behind word.now bytes.now ≡ option_map (λ x. (x.0, x.1.now)) result }
    ensures shorter { IfSome result (λ x. length x.1.now < length bytes.now) }
{
    let digits = ja_text::word(bytes, word)?;
    small(digits)
}

#[tactic(auto, unfolding(crate::specs::Tokens::budget_at))]
fn budget(bytes: &[u8]) -> Option<(Mark, &[u8])>
    ensures { budget_at bytes.now ≡ option_map (λ x. (x.0, x.1.now)) result }
{
    let digits = word(bytes, b"unknown budget ")?;
    let (units, rest) = exact(digits)?;
    Some((Mark::Budget(units), rest))
}

#[tactic(auto, unfolding(crate::specs::Tokens::mark_at))]
pub fn mark(bytes: &[u8]) -> Option<(Mark, &[u8])>
    ensures { mark_at bytes.now ≡ option_map (λ x. (x.0, x.1.now)) result }
{
    if let Some(rest) = word(bytes, b"proved") {
        return Some((Mark::Proved, rest));
    }
    if let Some(rest) = word(bytes, b"fails") {
        return Some((Mark::Fails, rest));
    }
    if let Some(rest) = word(bytes, b"unknown cancelled") {
        return Some((Mark::Cancelled, rest));
    }
    budget(bytes)
}
