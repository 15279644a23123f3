//! Bytes spell exactly one design, or they have exactly one first refusal.

ghost use Rattle.std.specs.Prelude.{◌≡◌, ℕ, List};
ghost use Rattle.ja_base.specs.Circuit.{Circuit};
ghost use Rattle.aiger_lines.specs.declared.refusal.ReadRefusal.{ReadRefusal};
ghost use Rattle.aiger_binary.specs.Grammar.{IsBinaryDesign};
ghost use Rattle.aiger_binary.specs.FirstRefusal.{IsFirstRefusal, SpellsOrIsRefused};

pub fn text_has_one_design()
    ensures { (bytes : List ℕ) (c d : Circuit)
        → IsBinaryDesign bytes c → IsBinaryDesign bytes d → c ≡ d }
{}

pub fn design_has_no_refusal()
    ensures { (bytes : List ℕ) (c : Circuit) (refusal : ReadRefusal)
        → IsBinaryDesign bytes c → IsFirstRefusal bytes refusal → ⊥ }
{}

pub fn refusals_agree()
    ensures { (bytes : List ℕ) (a b : ReadRefusal)
        → IsFirstRefusal bytes a → IsFirstRefusal bytes b → a ≡ b }
{}

pub fn spells_or_is_refused()
    ensures { SpellsOrIsRefused }
{}
