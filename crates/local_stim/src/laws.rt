//! Laws of verdicts and of stimulus texts.

ghost use Rattle.std.specs.Prelude.{◌≡◌, ◌↔◌, ℕ, List, Ok};
ghost use Rattle.ja_base.specs.Circuit.{Problem, IsAcyclic};
ghost use Rattle.ja_base.specs.Runs.{Trace, IsLocalFailure};
ghost use Rattle.aig_model.specs.Netlist.{Netlist};
ghost use Rattle.local_stim.specs.FirstRefusal.{SpellsOrIsRefused};
ghost use Rattle.local_stim.specs.StimulusReading.{stimulus_of};
ghost use Rattle.local_stim.specs.StimulusText.{IsStimulusText, WrittenIsSpelled};
ghost use Rattle.local_stim.specs.Verdict.{IsVerdict, HasVerdict};
ghost use Rattle.local_stim.specs.declared.verdict.Confirm.{Confirm};

/// The verdict `Local` says that the stimulus is a local failure.
pub fn local_is_local_failure()
    ensures { (t : Problem) (p : ℕ) (m : Trace)
        → IsVerdict t p m Confirm.Local ↔ IsLocalFailure t p m }
{}

/// A stimulus that suits a sound design has a verdict.
pub fn verdict_exists()
    ensures { HasVerdict }
{}

/// A stimulus has at most one verdict.
pub fn verdicts_exclude()
    ensures { (t : Problem) (p : ℕ) (m : Trace) (a b : Confirm) → IsAcyclic t.circuit
        → IsVerdict t p m a → IsVerdict t p m b → a ≡ b }
{}

/// What is read is spelled so, what is spelled so is read so, and one text spells at most one stimulus of a design.
pub fn stimulus_text_is_exact()
    ensures spelled { (d : Netlist) (bytes : List ℕ) (p : ℕ) (m : Trace)
        → stimulus_of d bytes ≡ Ok (p, m) → IsStimulusText d bytes p m }
    ensures read { (d : Netlist) (bytes : List ℕ) (p : ℕ) (m : Trace) → IsStimulusText d bytes p m
        → stimulus_of d bytes ≡ Ok (p, m) }
    ensures one { (d : Netlist) (bytes : List ℕ) (p q : ℕ) (m n : Trace)
        → IsStimulusText d bytes p m → IsStimulusText d bytes q n → (p ≡ q) × (m ≡ n) }
{}

/// What is written of a stimulus within the limits spells it, so it is read back.
pub fn written_is_spelled()
    ensures { WrittenIsSpelled }
{}

/// Bytes spell a stimulus of a design, or they have a first refusal.
pub fn spells_or_is_refused()
    ensures { SpellsOrIsRefused }
{}
