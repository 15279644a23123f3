//! A file read to its end, and bytes written to the last one.

ghost use Rattle.std.specs.Prelude.{◌≡◌, ◌≤◌, ◌⊎◌, length, IsTrue, OnOk, OnErr};
ghost use Rattle.ja_outside.specs.Faults.{Rose};
ghost use Rattle.ja_outside.specs.Shelf.{IsWhole, IsLonger, TakesOver, TakesWithin, Lacks};
ghost use Rattle.ja_outside.specs.Sink.{Appends, AppendsPart};
ghost use Rattle.ja_outside.specs.Whole.{IfBytes, OnTooLarge, MatchTooLarge, OnFailed, UnlessFailed};

use crate::failed::Failed;
use crate::shelf::Shelf;
use crate::sink::Sink;
use std::alloc::Global;

/// What came of reading a file to its end.
#[derive(Debug, Drop)]
pub enum Whole {
    Bytes(Vec<u8>),
    TooLarge,
    Failed,
    Memory,
}

/// At most so many bytes are asked for at once.
const PIECE: usize = 65536;

/// Selects a file and reads it to its end, or until more than `limit` bytes were taken.
pub fn read_whole<F: Shelf>(alloc: Global, shelf: &mut F, name: &str, limit: u64) -> Whole
    ensures kept { F.holds shelf.new ≡ F.holds shelf.old }
    ensures bytes { IfBytes result (λ bytes. IsWhole (F.holds shelf.old) name.now bytes) }
    ensures within { IfBytes result (λ bytes. length bytes ≤ limit) }
    ensures too_large { OnTooLarge result (IsLonger (F.holds shelf.old) name.now limit) }
    ensures exact { MatchTooLarge result
        (TakesOver (F.holds shelf.old) name.now (F.left shelf.new) limit)
        (IsTrue (F.is_selected shelf.new)
        → TakesWithin (F.holds shelf.old) name.now (F.left shelf.new) limit) }
    ensures failed { OnFailed result
        (Rose (F.faults shelf.old) (F.faults shelf.new) ⊎ Lacks (F.holds shelf.old) name.now) }
    ensures quiet { UnlessFailed result (F.faults shelf.new ≡ F.faults shelf.old) }
    ensures later { F.faults shelf.old ≤ F.faults shelf.new }
{
    let Ok(()) = shelf.select(name) else {
        return Whole::Failed;
    };
    let mut bytes = Vec::new(alloc);
    let mut piece = [0; PIECE];
    loop {
        match shelf.read(&mut piece) {
            Ok(0) => return Whole::Bytes(bytes),
            Ok(taken) => {
                if taken as u64 > limit - bytes.len() as u64 {
                    return Whole::TooLarge;
                }
                let Ok(()) = bytes.extend_from_slice(&piece[..taken]) else {
                    return Whole::Memory;
                };
            }
            Err(Failed) => return Whole::Failed,
        }
    }
}

/// Writes all bytes in order, in as many pieces as the sink wants.
pub fn write_whole<K: Sink>(out: &mut K, bytes: &[u8]) -> Result<(), Failed>
    ensures ok { OnOk result (Appends (K.written out.old) (K.written out.new) bytes.now) }
    ensures err { OnErr result (AppendsPart (K.written out.old) (K.written out.new) bytes.now) }
    ensures failed { OnErr result (Rose (K.faults out.old) (K.faults out.new)) }
    ensures quiet { OnOk result (K.faults out.new ≡ K.faults out.old) }
    ensures later { K.faults out.old ≤ K.faults out.new }
{
    let mut done = 0;
    while done < bytes.len() {
        done += out.write(&bytes[done..])?;
    }
    Ok(())
}
