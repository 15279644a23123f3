//! What is read is spelled so, and what is spelled so is read so: each form against its grammar.

ghost use Rattle.std.specs.Prelude.{◌≡◌, ◌<◌, ◌≤◌, ◌^◌, ◌↔◌, ℕ, List, [], ◌∷◌, ◌++◌, length, Some, None};
ghost use Rattle.std.specs.Prelude.{decimal};
ghost use Rattle.ja_text.specs.Numbers.{IsNumber, IsCanonical, BeginsWithoutDigit, TakesNumber, number_at, whole_number};
ghost use Rattle.ja_text.specs.Lines.{IsOneLine, TakesLine, space_at, newline_at, word_at, line_at};
ghost use Rattle.ja_text.specs.Rows.{IsRow, TakesRow, row_at};

/// A number is read as its digits say, all of them; no bytes are two numbers.
pub fn number_is_exact()
    ensures spelled { (bytes rest : List ℕ) (n : ℕ) → number_at bytes ≡ Some (n, rest)
        → TakesNumber bytes n rest }
    ensures read { (text rest : List ℕ) (n : ℕ) → IsNumber text n → BeginsWithoutDigit rest
        → number_at (text ++ rest) ≡ Some (n, rest) }
    ensures none { (bytes : List ℕ) → (number_at bytes ≡ None) ↔ BeginsWithoutDigit bytes }
    ensures one { (a b x y : List ℕ) (m n : ℕ) → IsNumber a m → IsNumber b n
        → BeginsWithoutDigit x → BeginsWithoutDigit y → a ++ x ≡ b ++ y → (m ≡ n) × (x ≡ y) }
{}

pub fn whole_number_is_exact()
    ensures { (bytes : List ℕ) (n : ℕ) → (whole_number (number_at bytes) ≡ Some n)
        ↔ IsNumber bytes n }
{}

/// What is written of a number is read as that number, and is its only text that is neither saturated nor has a
/// leading zero.
pub fn decimal_is_exact()
    ensures number { (n : ℕ) → n < 2 ^ 64 → IsNumber (decimal n) n }
    ensures canonical { (text : List ℕ) (n : ℕ) → n < 2 ^ 64
        → IsCanonical text n ↔ (text ≡ decimal n) }
{}

pub fn space_is_exact()
    ensures { (bytes rest : List ℕ) → (space_at bytes ≡ Some rest) ↔ (bytes ≡ 32 ∷ rest) }
{}

pub fn newline_is_exact()
    ensures { (bytes rest : List ℕ) → (newline_at bytes ≡ Some rest) ↔ (bytes ≡ 10 ∷ rest) }
{}

pub fn word_is_exact()
    ensures { (word bytes rest : List ℕ)
        → (word_at word bytes ≡ Some rest) ↔ (bytes ≡ word ++ rest) }
{}

/// A line goes to the first LF; where there is none, no line is read.
pub fn line_is_exact()
    ensures spelled { (bytes text rest : List ℕ) → line_at bytes ≡ Some (text, rest)
        → TakesLine bytes text rest }
    ensures read { (text rest : List ℕ) → IsOneLine text
        → line_at (text ++ 10 ∷ rest) ≡ Some (text, rest) }
    ensures none { (bytes : List ℕ) → (line_at bytes ≡ None) ↔ IsOneLine bytes }
    ensures one { (a b x y : List ℕ) → IsOneLine a → IsOneLine b → a ++ 10 ∷ x ≡ b ++ 10 ∷ y
        → (a ≡ b) × (x ≡ y) }
{}

/// A row is read as its numbers, with nothing but one space between two; no bytes are two rows, and a row is a line.
pub fn row_is_exact()
    ensures spelled { (most : ℕ) (bytes numbers rest : List ℕ)
        → row_at most bytes ≡ Some (numbers, rest) → TakesRow most bytes numbers rest }
    ensures read { (most : ℕ) (text numbers rest : List ℕ) → IsRow text numbers
        → length numbers ≤ most → row_at most (text ++ rest) ≡ Some (numbers, rest) }
    ensures one { (a b x y ms ns : List ℕ) → IsRow a ms → IsRow b ns → a ++ x ≡ b ++ y
        → (ms ≡ ns) × (x ≡ y) }
    ensures line { (text numbers : List ℕ) → IsRow text numbers
        → (line : List ℕ) × IsOneLine line × (text ≡ line ++ 10 ∷ []) }
{}
