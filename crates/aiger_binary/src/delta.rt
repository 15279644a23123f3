//! A number in groups of seven bits.

ghost use Rattle.std.specs.Prelude.{◌≡◌, [], ◌∷◌, MatchOption};
ghost use Rattle.ja_text.specs.Reading.{Gives};
ghost use Rattle.aiger_binary.specs.Reading.{delta_at};

use aiger_lines::{Read, ReadRefusal, place};
use ja_base::OrMemory;

/// The most bytes of a delta.
const MOST_DELTA_BYTES: usize = 5;

/// The byte at the front, and what follows it.
fn first(bytes: &[u8]) -> Option<(u8, &[u8])>
    ensures { MatchOption result (bytes.now ≡ []) (λ x. bytes.now ≡ x.0 ∷ x.1.now) }
{
    match bytes {
        [byte, rest @ ..] => Some((*byte, rest)),
        [] => None,
    }
}

/// The delta at the front, in a file of so many bytes, and what follows it.
#[tactic(auto, using(crate::proofs::DeltaLemmas::product_small), unfolding(crate::specs::Reading::delta_at))]
pub fn delta(size: usize, bytes: &[u8]) -> Read<(u64, &[u8])>
    ensures { Gives (λ x. (x.0, x.1.now)) result (delta_at size bytes.now) }
{
    let mut number = 0;
    let mut scale = 1;
    let mut rest = bytes;
    for _ in 0..MOST_DELTA_BYTES {
        let Some((byte, after)) = first(rest) else {
            return Err(OrMemory::Refused(ReadRefusal::Short { at: size }));
        };
        number += u64::from(byte % 128) * scale;
        if byte < 128 {
            return Ok((number, after));
        }
        scale *= 128;
        rest = after;
    }
    Err(OrMemory::Refused(ReadRefusal::Line {
        at: place(size, bytes),
    }))
}
