//! What is read is spelled so, and what is spelled so is read so: each part of a file against its grammar.

ghost use Rattle.std.specs.Prelude.{◌≡◌, ◌≤◌, ◌⊎◌, ℕ, List, ◌++◌, length, Ok};
ghost use Rattle.std.specs.List.{AllByRecursion};
ghost use Rattle.ja_text.specs.Forms.{BeginsWith};
ghost use Rattle.ja_text.specs.Repeated.{repeated};
ghost use Rattle.aig_model.specs.declared.netlist.Reset.{Reset};
ghost use Rattle.aiger_lines.specs.declared.form.Form.{Form};
ghost use Rattle.aiger_lines.specs.declared.sizes.Header.{Header};
ghost use Rattle.aiger_lines.specs.Header.{IsHeaderLine, IsWithinLimits};
ghost use Rattle.aiger_lines.specs.Lines.{AreLines, IsLiteralLine, IsUsed, TakesItems, reset_number};
ghost use Rattle.aiger_lines.specs.Tail.{IsTail, HasBadLine};
ghost use Rattle.aiger_lines.specs.Reading.{header_at, literal_at, reset_at};

use crate::limits::MOST_BYTES;

pub fn header_is_exact()
    ensures line { (form : Form) (bytes rest : List ℕ) (h : Header)
        → header_at form bytes ≡ Ok (h, rest)
        → BeginsWith (λ text. IsHeaderLine form text h) bytes rest }
    ensures limits { (form : Form) (bytes rest : List ℕ) (h : Header)
        → header_at form bytes ≡ Ok (h, rest)
        → IsWithinLimits form h × (length bytes ≤ MOST_BYTES) }
    ensures read { (form : Form) (text rest : List ℕ) (h : Header) → IsHeaderLine form text h
        → IsWithinLimits form h → length (text ++ rest) ≤ MOST_BYTES
        → header_at form (text ++ rest) ≡ Ok (h, rest) }
{}

pub fn literals_are_exact()
    ensures spelled { (vars size n : ℕ) (bytes ls rest : List ℕ)
        → repeated (literal_at vars size) n bytes ≡ Ok (ls, rest)
        → TakesItems IsLiteralLine (IsUsed vars) bytes ls rest × (length ls ≡ n) }
    ensures read { (vars size : ℕ) (text ls rest : List ℕ) → AreLines IsLiteralLine text ls
        → AllByRecursion (IsUsed vars) ls
        → repeated (literal_at vars size) (length ls) (text ++ rest) ≡ Ok (ls, rest) }
{}

pub fn reset_is_exact()
    ensures spelled { (latch at n : ℕ) (reset : Reset) → reset_at latch at n ≡ Ok reset
        → n ≡ reset_number latch reset }
    ensures read { (latch at : ℕ) (reset : Reset) → 2 ≤ latch
        → reset_at latch at (reset_number latch reset) ≡ Ok reset }
{}

/// What follows the gates ends, or it has one first line that is not in form.
pub fn tail_is_exact()
    ensures some { (h : Header) (text : List ℕ)
        → IsTail h text ⊎ ((rest : List ℕ) × HasBadLine h text rest) }
    ensures one { (h : Header) (text a b : List ℕ) → HasBadLine h text a
        → HasBadLine h text b → a ≡ b }
    ensures none { (h : Header) (text rest : List ℕ) → IsTail h text → HasBadLine h text rest → ⊥ }
{}
