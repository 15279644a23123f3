//! A gate that shows whether two workers were under way at once.

use crate::gate::{Gate, GatePoint};
use std::hint::spin_loop;
use std::sync::atomic::{AtomicBool, AtomicU64, Ordering};

/// Holds the first worker that has drawn a property until another one passes with an answer, or so many turns are used up.
#[derive(Debug, Drop)]
pub struct HoldGate {
    turns: u64,
    /// A worker has drawn.
    drawn: AtomicBool,
    /// How many answers have passed; the number wraps.
    answered: AtomicU64,
    met: AtomicBool,
}

impl HoldGate {
    pub fn new(turns: u64) -> HoldGate {
        HoldGate {
            turns,
            drawn: AtomicBool::new(false),
            answered: AtomicU64::new(0),
            met: AtomicBool::new(false),
        }
    }

    /// Whether no answer passed before the first worker was held, and one did while it was.
    pub fn met(&self) -> bool {
        self.met.load(Ordering::SeqCst)
    }

    fn hold(&self) {
        let before = self.answered.load(Ordering::SeqCst);
        for _ in 0..self.turns {
            if self.answered.load(Ordering::SeqCst) != before {
                self.met.store(before == 0, Ordering::SeqCst);
                return;
            }
            spin_loop();
        }
    }
}

impl Gate for HoldGate {
    fn pass(&self, point: GatePoint) {
        match point {
            GatePoint::Drawn => {
                if !self.drawn.swap(true, Ordering::SeqCst) {
                    self.hold();
                }
            }
            GatePoint::Answered => {
                self.answered.fetch_add(1, Ordering::SeqCst);
            }
        }
    }
}
