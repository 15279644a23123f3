//! Numbers, each behind a space.

ghost use Rattle.std.specs.Prelude.{◌≡◌, ◌<◌, IfOk, IfSome, length, option_map};
ghost use Rattle.refute_text.specs.Reading.{TakesSpaced, TakesAll, has_leading_zero, spaced_at};

use ja_base::{Items, Memory};
use ja_text::{number, space};
use std::alloc::Global;

fn has_leading_zero(bytes: &[u8]) -> bool
    ensures { result ≡ has_leading_zero bytes.now }
{
    matches!(bytes, [b'0', b'0'..=b'9', ..])
}

/// The number behind the space at the front, in the digits that are written of it.
#[tactic(auto, unfolding(crate::specs::Reading::spaced_at))]
fn take_number(bytes: &[u8]) -> Option<(u32, &[u8])>
    ensures read { spaced_at bytes.now ≡ option_map (λ x. (x.0, x.1.now)) result }
    ensures shorter { IfSome result (λ x. length x.1.now < length bytes.now) }
{
    let digits = space(bytes)?;
    let (number, rest) = number(digits)?;
    if number > u64::from(u32::MAX) || has_leading_zero(digits) {
        return None;
    }
    Some((number as u32, rest))
}

/// All such numbers at the front, and what follows them.
pub fn take_numbers(alloc: Global, bytes: &[u8]) -> Result<(Items<u32>, &[u8]), Memory>
    ensures { IfOk result (λ x. TakesAll TakesSpaced bytes.now x.0 x.1.now) }
{
    let mut numbers = Items::new(alloc);
    let mut rest = bytes;
    while let Some((number, after)) = take_number(rest) {
        numbers.push(number)?;
        rest = after;
    }
    Ok((numbers, rest))
}
