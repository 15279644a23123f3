//! The version that a text names.

ghost use Rattle.std.specs.Prelude.{◌≡◌, option_map};
ghost use Rattle.std.specs.List.{list_all};
ghost use Rattle.ja_text.specs.Numbers.{is_digit};
ghost use Rattle.report.specs.Whole.{is_other, other_at};

use crate::tokens::has_leading_zero;
use ja_text::{line, word};

fn are_digits(line: &[u8]) -> bool
    ensures { result ≡ list_all is_digit line.now }
{
    line.iter().all(|b| matches!(*b, b'0'..=b'9'))
}

fn is_other(digits: &[u8]) -> bool
    ensures { result ≡ is_other digits.now }
{
    !digits.is_empty()
        && are_digits(digits)
        && !has_leading_zero(digits)
        && digits != b"1".as_slice()
}

/// The digits of another version than 1, where the first line names one.
#[tactic(auto, unfolding(crate::specs::Whole::other_at))]
pub fn other_version(bytes: &[u8]) -> Option<&[u8]>
    ensures { other_at bytes.now ≡ option_map (λ x. x.now) result }
{
    let rest = word(bytes, b"jasign ")?;
    let (digits, _) = line(rest)?;
    if !is_other(digits) {
        return None;
    }
    Some(digits)
}
