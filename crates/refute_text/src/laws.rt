//! Laws of refutation texts.

ghost use Rattle.std.specs.Prelude.{◌≡◌, ℕ, List};
ghost use Rattle.refute_check.specs.declared.lines.Line.{Line};
ghost use Rattle.refute_text.specs.RefutationText.{IsFirstBadLine, Spells};

/// Bytes spell at most one list of lines.
pub fn text_has_one_list()
    ensures { (bytes : List ℕ) (a b : List Line) → Spells bytes a → Spells bytes b → a ≡ b }
{}

/// Bytes have at most one first line that is none.
pub fn bad_places_agree()
    ensures { (bytes : List ℕ) (i j : ℕ) → IsFirstBadLine bytes i → IsFirstBadLine bytes j → i ≡ j }
{}

/// Where bytes spell lines, each line is one.
pub fn text_has_no_bad_line()
    ensures { (bytes : List ℕ) (lines : List Line) (at : ℕ) → Spells bytes lines
        → IsFirstBadLine bytes at → ⊥ }
{}
