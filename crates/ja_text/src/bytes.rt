//! What stands at the front of bytes: a number, a space, an LF, a word, a line. Each answers what it read and what follows.

ghost use Rattle.std.specs.Prelude.{◌≡◌, ◌+◌, ◌<◌, ◌==◌, IfSome, length, option_map, position};
ghost use Rattle.ja_text.specs.Numbers.{number_at, whole_number};
ghost use Rattle.ja_text.specs.Lines.{space_at, newline_at, word_at, line_at};

/// The number whose digits stand at the front, all of them. A greater one than 2^64 - 1 is answered as that.
#[tactic(auto, unfolding(crate::specs::Numbers::number_at))]
pub fn number(bytes: &[u8]) -> Option<(u64, &[u8])>
    ensures read { number_at bytes.now ≡ option_map (λ x. (x.0, x.1.now)) result }
    ensures shorter { IfSome result (λ x. length x.1.now < length bytes.now) }
{
    let [first @ b'0'..=b'9', rest @ ..] = bytes else {
        return None;
    };
    let mut number = u64::from(*first - b'0');
    let mut rest = rest;
    while let [digit @ b'0'..=b'9', after @ ..] = rest {
        number = number
            .saturating_mul(10)
            .saturating_add(u64::from(*digit - b'0'));
        rest = after;
    }
    Some((number, rest))
}

/// The number that the bytes are, with nothing behind it.
pub fn whole_number(bytes: &[u8]) -> Option<u64>
    ensures { result ≡ whole_number (number_at bytes.now) }
{
    match number(bytes) {
        Some((number, [])) => Some(number),
        _ => None,
    }
}

#[tactic(auto, unfolding(crate::specs::Lines::space_at))]
pub fn space(bytes: &[u8]) -> Option<&[u8]>
    ensures read { space_at bytes.now ≡ option_map (λ x. x.now) result }
    ensures shorter { IfSome result (λ x. length x.now < length bytes.now) }
{
    match bytes {
        [b' ', rest @ ..] => Some(rest),
        _ => None,
    }
}

#[tactic(auto, unfolding(crate::specs::Lines::newline_at))]
pub fn newline(bytes: &[u8]) -> Option<&[u8]>
    ensures read { newline_at bytes.now ≡ option_map (λ x. x.now) result }
    ensures shorter { IfSome result (λ x. length x.now < length bytes.now) }
{
    match bytes {
        [b'\n', rest @ ..] => Some(rest),
        _ => None,
    }
}

/// What follows the word, which stands at the front byte for byte.
#[tactic(auto, unfolding(crate::specs::Lines::word_at))]
pub fn word<'a>(bytes: &'a [u8], word: &[u8]) -> Option<&'a [u8]>
    ensures read { word_at word.now bytes.now ≡ option_map (λ x. x.now) result }
    ensures taken { IfSome result (λ x. length x.now + length word.now ≡ length bytes.now) }
{
    if bytes.starts_with(word) {
        Some(&bytes[word.len()..])
    } else {
        None
    }
}

fn newline_place(bytes: &[u8]) -> Option<usize>
    ensures { result ≡ position (λ b. b == 10) bytes.now }
{
    bytes.iter().position(|b| *b == b'\n')
}

/// The bytes up to the next LF. The LF is taken and is no part of the line.
pub fn line(bytes: &[u8]) -> Option<(&[u8], &[u8])>
    ensures read { line_at bytes.now ≡ option_map (λ x. (x.0.now, x.1.now)) result }
    ensures shorter { IfSome result (λ x. length x.1.now < length bytes.now) }
{
    let at = newline_place(bytes)?;
    Some((&bytes[..at], &bytes[at + 1..]))
}
