//! A row of numbers.

ghost use Rattle.std.specs.Prelude.{◌≡◌, ◌<◌, ◌≤◌, length, slice_get, Some, IfSome, option_map};
ghost use Rattle.ja_text.specs.Rows.{row_at};

use crate::bytes::{newline, number, space};
use std::marker::Model;

/// One to nine numbers in order.
#[derive(Clone, Copy, Debug)]
pub struct Numbers {
    places: [u64; 9],
    count: usize,
}

impl Model for Numbers {
    ghost use Rattle.std.specs.Prelude.{ℕ, ◌≡◌, ◌-◌, ◌<◌, ◌≤◌, ◌++◌, List, length, take, refl};
    ghost use Rattle.ja_text.specs.Padded.{padded, length-front};

    ghost Value = { List ℕ };

    ghost view = { λ a. take a.count a.places };

    ghost invariant = { λ a.
        (0 < a.count) × (a.count ≤ 9) × (a.places ≡ padded (take a.count a.places)) };

    ghost inverse = { λ ns. record { places = padded ns; count = length ns } };

    ghost inverse_ok = { λ a h. rw (← h.2, length-front a.count a.places h.1 h.2) refl };
}

impl Numbers {
    /// From 1 to 9.
    pub fn len(&self) -> usize
        ensures len { result ≡ length self.now }
        ensures some { 0 < result }
        ensures most { result ≤ 9 }
    {
        self.count
    }

    pub fn get(&self, at: usize) -> u64
        requires { at < length self.now }
        ensures { slice_get self.now at ≡ Some result }
    {
        self.as_slice()[at]
    }

    pub fn as_slice(&self) -> &[u64]
        ensures value { result.now ≡ self.now }
        ensures some { 0 < length self.now }
        ensures most { length self.now ≤ 9 }
    {
        &self.places[..self.count]
    }
}

/// The row of one to nine numbers at the front, with one space between two and LF at its end.
pub fn row(bytes: &[u8]) -> Option<(Numbers, &[u8])>
    ensures read { row_at 9 bytes.now ≡ option_map (λ x. (x.0, x.1.now)) result }
    ensures shorter { IfSome result (λ x. length x.1.now < length bytes.now) }
{
    let mut places = [0; 9];
    let mut rest = bytes;
    for place in 0..9 {
        let (next, after) = number(rest)?;
        places[place] = next;
        if let Some(end) = newline(after) {
            let count = place + 1;
            return Some((Numbers { places, count }, end));
        }
        rest = space(after)?;
    }
    None
}
