//! How the program meets the outside world: a shelf of files that are read, a sink that is written, a
//! flag that stops a run, a gate that workers pass. Each is a trait, with an implementation in memory; `specs/Shelf.antt`,
//! `specs/Sink.antt` and `specs/Flags.antt` say what their calls do. Of a gate nothing is said.
#![tactic(auto)]

mod failed;
mod files;
mod flag;
mod gate;
mod hold_gate;
mod laws;
mod mem_flag;
mod mem_shelf;
mod mem_sink;
mod plan;
mod shelf;
mod sink;
mod whole;

pub use failed::Failed;
pub use flag::{Flag, NoFlag};
pub use gate::{Gate, GatePoint};
pub use hold_gate::HoldGate;
pub use laws::{shelf_has_an_answer, shelf_has_one_answer};
pub use mem_flag::MemFlag;
pub use mem_shelf::MemShelf;
pub use mem_sink::MemSink;
pub use shelf::Shelf;
pub use sink::Sink;
pub use whole::{Whole, read_whole, write_whole};

#[cfg(test)]
mod tests;
