//! A question without a log, of the solver that keeps what it learns.

use crate::keep_sat::KeepSat;
use ja_base::{Clause, Lit, Meter, Row, Var};
use ja_outside::Flag;
use sat_plain::{Payment, Probe, Probed, pay};
use std::alloc::Global;

impl Probe for KeepSat {
    /// Where variables are given it decides these alone, beside the literals of `under`.
    fn probe<F: Flag>(
        &mut self,
        alloc: Global,
        under: &[Lit],
        extra: Option<&Clause>,
        among: Option<&[Var]>,
        row: &mut Row,
        meter: &mut Meter,
        flag: &mut F,
    ) -> Probed {
        match pay(meter, flag) {
            Payment::Spent => Probed::Spent,
            Payment::Stopped => Probed::Stopped,
            Payment::Paid => {
                self.reduce(alloc);
                self.question(alloc, under, extra, among, row, meter, flag)
            }
        }
    }
}
