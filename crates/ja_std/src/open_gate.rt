//! The gate of a run that nobody watches.

use ja_outside::{Gate, GatePoint};

/// It never holds anyone.
#[derive(Debug, Drop)]
pub struct OpenGate;

impl Gate for OpenGate {
    fn pass(&self, _point: GatePoint) {}
}
