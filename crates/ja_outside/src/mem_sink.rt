//! A sink in memory, for tests and for callers that want the bytes.

ghost use Rattle.std.specs.Prelude.{◌≡◌, [], length, min, ◌≤◌, is_err, IfOk};
ghost use Rattle.ja_outside.specs.InMemory.{is_full, wrote};

use crate::failed::Failed;
use crate::sink::Sink;
use ja_base::Memory;
use std::alloc::Global;
use std::marker::Model;

/// It takes so many bytes in all, and none of its calls takes memory.
#[derive(Debug, Drop)]
pub struct MemSink {
    bytes: Vec<u8>,
    room: u64,
    faults: u64,
}

impl Model for MemSink {
    ghost use Rattle.std.specs.Prelude.{◌+◌, ◌≤◌, vec_len, vec_capacity};
    ghost use Rattle.ja_outside.specs.InMemory.{SinkInMemory};

    ghost Value = { SinkInMemory };

    ghost view = { λ a. record { bytes = a.bytes.items; room = a.room; faults = a.faults } };

    ghost invariant = { λ a. vec_len a.bytes + a.room ≤ vec_capacity a.bytes };
}

impl MemSink {
    pub fn new(alloc: Global, room: u64) -> Result<MemSink, Memory>
        ensures { IfOk result (λ sink. sink ≡ record { bytes = []; room = room; faults = 0 }) }
    {
        Ok(MemSink {
            bytes: Vec::with_capacity(alloc, room as usize)?,
            room,
            faults: 0,
        })
    }

    /// What was written so far.
    pub fn bytes(&self) -> &[u8]
        ensures { result.now ≡ self.now.bytes }
    {
        self.bytes.as_slice()
    }

    pub fn faults(&self) -> u64
        ensures { result ≡ self.now.faults }
    {
        self.faults
    }
}

impl Sink for MemSink {
    ghost use Rattle.std.specs.Prelude.{Some};

    ghost written = { λ s. Some s.bytes };

    ghost faults = { λ s. s.faults };

    fn write(&mut self, piece: &[u8]) -> Result<usize, Failed>
        ensures answer { is_err result ≡ is_full self.old piece.now }
        ensures taken { IfOk result (λ n. n ≡ min (length piece.now) self.old.room) }
        ensures after { self.new ≡ wrote self.old piece.now }
        ensures later { self.old.faults ≤ self.new.faults }
    {
        if !piece.is_empty() && self.room == 0 {
            self.faults = self.faults.saturating_add(1);
            return Err(Failed);
        }
        let taken = piece.len().min(self.room as usize);
        self.bytes.extend_from_slice(&piece[..taken]).unwrap();
        self.room -= taken as u64;
        Ok(taken)
    }
}
