//! Laws of valuations: a design has exactly one for each latch row and input row of its widths.

ghost use Rattle.std.specs.Prelude.{◌≡◌, Bool, List, length};
ghost use Rattle.ja_base.specs.Valuation.{IsValuation};
ghost use Rattle.ja_base.specs.Laws.{ValuationsAgree};
ghost use Rattle.aig_model.specs.Netlist.{Netlist, circuit, IsSound};

/// A sound design has a valuation for each latch row and input row of its widths.
pub fn valuation_exists()
    ensures { (n : Netlist) (state input : List Bool) → IsSound n → length state ≡ length n.latches
        → length input ≡ length n.inputs
        → (values : List Bool) × IsValuation (circuit n) state input values }
{}

/// An acyclic circuit has at most one.
pub fn valuations_agree()
    ensures { ValuationsAgree }
{}

/// A sound design has at most one.
pub fn valuation_is_unique()
    ensures { (n : Netlist) (state input v w : List Bool) → IsSound n
        → IsValuation (circuit n) state input v → IsValuation (circuit n) state input w → v ≡ w }
{}
