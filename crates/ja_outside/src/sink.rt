//! A sink, to which bytes are written in order.

ghost use Rattle.std.specs.Prelude.{◌≡◌, ℕ, ◌<◌, ◌≤◌, List, Option, Ok, length, take, IfOk, OnOk, OnErr};
ghost use Rattle.ja_outside.specs.Faults.{Rose};
ghost use Rattle.ja_outside.specs.Sink.{Appends};

use crate::failed::Failed;

pub trait Sink {
    /// The bytes written so far, where the sink tells.
    ghost written: { Self → Option (List ℕ) };

    /// How many calls failed.
    ghost faults: { Self → ℕ };

    /// Takes as many bytes from the front of `piece` as it can now.
    fn write(&mut self, piece: &[u8]) -> Result<usize, Failed>
        ensures fits { IfOk result (λ n. n ≤ length piece.now) }
        ensures some { IfOk result (λ n. 0 < length piece.now → 0 < n) }
        ensures empty { length piece.now ≡ 0 → result ≡ Ok 0 }
        ensures ok { IfOk result
            (λ n. Appends (written self.old) (written self.new) (take n piece.now)) }
        ensures err { OnErr result (written self.new ≡ written self.old) }
        ensures failed { OnErr result (Rose (faults self.old) (faults self.new)) }
        ensures quiet { OnOk result (faults self.new ≡ faults self.old) }
        ensures later { faults self.old ≤ faults self.new };
}
