//! What follows the gates.

ghost use Rattle.std.specs.Prelude.{◌≡◌, ◌↔◌, IsTrue, IfNone, IfSome};
ghost use Rattle.ja_text.specs.Lines.{IsOneLine};
ghost use Rattle.aiger_lines.specs.Tail.{symbol_count, IsPassedOver, IsComments, IsTail, HasBadLine};
ghost use Rattle.aiger_lines.specs.Reading.{is_symbol};

use crate::sizes::Header;
use ja_text::{line, number, space};

/// How many items the letter of a symbol can name.
fn count(header: &Header, letter: u8) -> u64
    ensures { result ≡ symbol_count header.now letter }
{
    match letter {
        b'i' => header.inputs,
        b'l' => header.latches,
        b'o' => header.outputs,
        b'b' => header.bads,
        b'c' => header.constraints,
        b'j' => header.justice,
        b'f' => header.fairness,
        _ => 0,
    }
}

fn symbol(header: &Header, line: &[u8]) -> bool
    ensures { result ≡ is_symbol header.now line.now }
{
    let [letter, rest @ ..] = line else {
        return false;
    };
    let Some((position, name)) = number(rest) else {
        return false;
    };
    position < count(header, *letter) && space(name).is_some()
}

fn is_passed_over(header: &Header, line: &[u8]) -> bool
    requires { IsOneLine line.now }
    ensures { IsTrue result ↔ IsPassedOver header.now line.now }
{
    line.is_empty() || symbol(header, line)
}

fn comments(bytes: &[u8]) -> bool
    ensures { IsTrue result ↔ IsComments bytes.now }
{
    match bytes {
        [b'c', b'0'..=b'9', ..] => false,
        [b'c', ..] => true,
        _ => false,
    }
}

/// The bytes from the first line on that is neither passed over nor begins comments, if there is one.
pub fn bad_line<'a>(header: &Header, bytes: &'a [u8]) -> Option<&'a [u8]>
    ensures none { IfNone result (IsTail header.now bytes.now) }
    ensures some { IfSome result (λ rest. HasBadLine header.now bytes.now rest.now) }
{
    let mut rest = bytes;
    while !comments(rest) {
        let Some((first, after)) = line(rest) else {
            return if is_passed_over(header, rest) {
                None
            } else {
                Some(rest)
            };
        };
        if !is_passed_over(header, first) {
            return Some(rest);
        }
        rest = after;
    }
    None
}
