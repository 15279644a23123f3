//! Another solver, for tests.

use ja_base::{Clause, Lit, Memory, Meter, Row, Var};
use ja_outside::Flag;
use sat_plain::{PlainSat, Probe, Probed, Sat, SatAnswer};
use std::alloc::Global;

/// A solver that finds no room for a row.
#[derive(Debug, Drop)]
pub(crate) struct NoRows {
    plain: PlainSat,
}

impl Sat for NoRows {
    ghost count = { λ s. s.plain.vars };

    ghost added = { λ s. s.plain.added };

    fn make(alloc: Global, vars: u32) -> Result<NoRows, Memory> {
        let plain = PlainSat::make(alloc, vars)?;
        Ok(NoRows { plain })
    }

    fn fresh(&mut self) -> Result<Var, Memory> {
        let var = self.plain.fresh()?;
        Ok(var)
    }

    fn add(&mut self, alloc: Global, clause: &Clause) -> Result<u32, Memory> {
        let number = self.plain.add(alloc, clause)?;
        Ok(number)
    }

    fn solve<F: Flag>(
        &mut self,
        alloc: Global,
        under: &[Lit],
        extra: Option<&Clause>,
        meter: &mut Meter,
        flag: &mut F,
    ) -> SatAnswer {
        match self.plain.solve(alloc, under, extra, meter, flag) {
            SatAnswer::Sat(_) => SatAnswer::Memory,
            SatAnswer::Unsat(refuted) => SatAnswer::Unsat(refuted),
            SatAnswer::Spent => SatAnswer::Spent,
            SatAnswer::Stopped => SatAnswer::Stopped,
            SatAnswer::Memory => SatAnswer::Memory,
        }
    }
}

impl Probe for NoRows {
    fn probe<F: Flag>(
        &mut self,
        alloc: Global,
        under: &[Lit],
        extra: Option<&Clause>,
        among: Option<&[Var]>,
        row: &mut Row,
        meter: &mut Meter,
        flag: &mut F,
    ) -> Probed {
        match self
            .plain
            .probe(alloc, under, extra, among, row, meter, flag)
        {
            Probed::Open => Probed::Memory,
            Probed::Closed(core) => Probed::Closed(core),
            Probed::Spent => Probed::Spent,
            Probed::Stopped => Probed::Stopped,
            Probed::Memory => Probed::Memory,
        }
    }
}
