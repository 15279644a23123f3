//! Laws over the definitions alone: each is the contract of a function that does nothing.

ghost use Rattle.std.specs.Prelude.{◌≡◌};
ghost use Rattle.ja_base.specs.Circuit.{IsAcyclic};
ghost use Rattle.aig_model.specs.declared.netlist.Parts.{Parts};
ghost use Rattle.aig_model.specs.declared.build.BuildRefusal.{BuildRefusal};
ghost use Rattle.aig_model.specs.Netlist.{Netlist, IsSound, circuit};
ghost use Rattle.aig_model.specs.Refusals.{MakesDesign, IsRefusal};

/// In the circuit of a sound netlist no gate depends on itself.
pub fn sound_netlists_are_acyclic()
    ensures { (n : Netlist) → IsSound n → IsAcyclic (circuit n) }
{}

/// At most one refusal is right.
pub fn refusals_agree()
    ensures { (p : Parts) (r q : BuildRefusal) → IsRefusal p r → IsRefusal p q → r ≡ q }
{}

/// Lists that make a design have no refusal.
pub fn designs_are_not_refused()
    ensures { (p : Parts) (r : BuildRefusal) → MakesDesign p → IsRefusal p r → ⊥ }
{}
