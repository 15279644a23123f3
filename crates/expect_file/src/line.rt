//! One line of an expectations file.

ghost use Rattle.std.specs.Prelude.{◌≡◌, ◌<◌, ◌∷◌, length, option_map, IfSome};
ghost use Rattle.expect_file.specs.ExpectationsReading.{is_remark, entry_of, parts, parts_behind};

use ja_text::{line, whole_number, word};

/// What a line says of a property.
#[derive(Clone, Copy, Debug, PartialEq, Eq)]
pub struct Entry {
    pub property: u64,
    /// Whether it is expected to hold.
    pub holds: bool,
}

/// The first line, and what follows its LF, if an LF follows.
pub fn cut(bytes: &[u8]) -> (&[u8], Option<&[u8]>)
    ensures lines { parts bytes.now
        ≡ result.0.now ∷ parts_behind (option_map (λ x. x.now) result.1) }
    ensures shorter { IfSome result.1 (λ rest. length rest.now < length bytes.now) }
{
    match line(bytes) {
        Some((line, rest)) => (line, Some(rest)),
        None => (bytes, None),
    }
}

/// An empty line, or one that begins with `#`.
pub fn is_remark(line: &[u8]) -> bool
    ensures { result ≡ is_remark line.now }
{
    matches!(line, [] | [b'#', ..])
}

/// `hold b` or `fail b`, and a number.
#[tactic(auto, unfolding(crate::specs::ExpectationsReading::entry_of))]
pub fn entry_of(line: &[u8]) -> Option<Entry>
    ensures { result ≡ entry_of line.now }
{
    if let Some(digits) = word(line, b"hold b") {
        let property = whole_number(digits)?;
        return Some(Entry {
            property,
            holds: true,
        });
    }
    let digits = word(line, b"fail b")?;
    let property = whole_number(digits)?;
    Some(Entry {
        property,
        holds: false,
    })
}
