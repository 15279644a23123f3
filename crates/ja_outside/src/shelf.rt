//! A shelf of files, one of which is read at a time.

ghost use Rattle.std.specs.Prelude.{◌≡◌, ℕ, ◌≤◌, ◌⊎◌, Bool, List, Option, length, is_ok, IsTrue, IfOk, OnOk, OnErr};
ghost use Rattle.ja_outside.specs.Faults.{Rose};
ghost use Rattle.ja_outside.specs.Shelf.{Held, Selects, Lacks, Moves};

use crate::failed::Failed;

/// Files under names. A name that is selected is then read piece by piece, from its first byte on.
pub trait Shelf {
    /// What each name holds, where the shelf tells. No call changes it.
    ghost holds: { Self → Held };

    /// What is left of the selected file, where the shelf tells.
    ghost left: { Self → Option (List ℕ) };

    ghost is_selected: { Self → Bool };

    /// How many calls failed for a reason of the outside.
    ghost faults: { Self → ℕ };

    fn select(&mut self, name: &str) -> Result<(), Failed>
        ensures kept { holds self.new ≡ holds self.old }
        ensures selected { is_selected self.new ≡ is_ok result }
        ensures ok { OnOk result (Selects (holds self.old) name.now (left self.new)) }
        ensures failed { OnErr result
            (Rose (faults self.old) (faults self.new) ⊎ Lacks (holds self.old) name.now) }
        ensures quiet { OnOk result (faults self.new ≡ faults self.old) }
        ensures later { faults self.old ≤ faults self.new };

    /// Moves the next bytes to the front of `buf`. What the rest of `buf` then has is not said.
    fn read(&mut self, buf: &mut [u8]) -> Result<usize, Failed>
        requires { IsTrue (is_selected self.old) }
        ensures kept { holds self.new ≡ holds self.old }
        ensures selected { IsTrue (is_selected self.new) }
        ensures fits { IfOk result (λ n. n ≤ length buf.new) }
        ensures ok { IfOk result (λ n. Moves (left self.old) (left self.new) n buf.new) }
        ensures err { OnErr result (left self.new ≡ left self.old) }
        ensures failed { OnErr result (Rose (faults self.old) (faults self.new)) }
        ensures quiet { OnOk result (faults self.new ≡ faults self.old) }
        ensures later { faults self.old ≤ faults self.new };
}
