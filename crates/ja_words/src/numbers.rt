//! Numbers in words.

ghost use Rattle.std.specs.Prelude.{◌≡◌, ◌≤◌, option_map, IfSome};
ghost use Rattle.ja_text.specs.Numbers.{number_at};
ghost use Rattle.ja_text.specs.Numbers as numbers;
ghost use Rattle.ja_words.specs.Words.{in_range, named_number, number_or};

use ja_text::whole_number;

/// The number that the word names, if it is from `least` to `most`.
fn number_in(word: &str, least: u64, most: u64) -> Option<u64>
    ensures value { result ≡ in_range least most (numbers.whole_number (number_at word.now)) }
    ensures within { IfSome result (λ n. (least ≤ n) × (n ≤ most)) }
{
    let number = whole_number(word.as_bytes())?;
    if least <= number && number <= most {
        Some(number)
    } else {
        None
    }
}

/// The same, where there may be no word; without one there is no number.
pub(crate) fn named_number(word: Option<&str>, least: u64, most: u64) -> Option<u64>
    ensures value { result
        ≡ named_number least most (option_map (λ x. x.now) word.entry) }
    ensures within { IfSome result (λ n. (least ≤ n) × (n ≤ most)) }
{
    match word {
        Some(word) => number_in(word, least, most),
        None => None,
    }
}

/// The number that the word names, if it is from 1 to `most`; without a word `plain`. None where it is another.
pub(crate) fn number_or(word: Option<&str>, plain: u64, most: u64) -> Option<u64>
    requires some { 1 ≤ plain }
    requires few { plain ≤ most }
    ensures value { result ≡ number_or plain most (option_map (λ x. x.now) word.entry) }
    ensures within { IfSome result (λ n. (1 ≤ n) × (n ≤ most)) }
{
    match word {
        Some(word) => number_in(word, 1, most),
        None => Some(plain),
    }
}
