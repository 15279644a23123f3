//! What an expectations file says.

ghost use Rattle.std.specs.Prelude.{◌≡◌, ℕ, Bool, List, Ok};
ghost use Rattle.aig_model.specs.Netlist.{Netlist};
ghost use Rattle.expect_file.specs.ExpectationsReading.{expectations_of};
ghost use Rattle.expect_file.specs.FirstRefusal.{SpellsOrIsRefused};
ghost use Rattle.expect_file.specs.ExpectationsText.{IsExpectations};

/// What is read, the text says, what it says is read, and it says one thing of the properties of a design.
pub fn expectations_text_is_exact()
    ensures spelled { (d : Netlist) (bytes : List ℕ) (expected : List Bool)
        → expectations_of d bytes ≡ Ok expected → IsExpectations d bytes expected }
    ensures read { (d : Netlist) (bytes : List ℕ) (expected : List Bool)
        → IsExpectations d bytes expected → expectations_of d bytes ≡ Ok expected }
    ensures one { (d : Netlist) (bytes : List ℕ) (a b : List Bool) → IsExpectations d bytes a
        → IsExpectations d bytes b → a ≡ b }
{}

/// Bytes say what is expected of a design, or they have a first refusal.
pub fn spells_or_is_refused()
    ensures { SpellsOrIsRefused }
{}
