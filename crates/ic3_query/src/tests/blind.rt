//! A solver that finds nothing where it is told which variables to decide.

ghost use Rattle.std.specs.Prelude.{◌≡◌, length};

use ja_base::{Clause, Lit, Memory, Meter, Row, Var};
use ja_outside::Flag;
use sat_plain::{PlainSat, Probe, Probed, Sat, SatAnswer};
use std::alloc::Global;

/// The plain solver, but that its row is all 0 where variables are given.
#[derive(Debug, Drop)]
pub(crate) struct Blind {
    inner: PlainSat,
}

fn blank(row: &mut Row)
    ensures { length row.new ≡ length row.old }
{
    for at in 0..row.len() {
        row.set(at, false);
    }
}

impl Sat for Blind {
    ghost count = { λ s. s.inner.vars };

    ghost added = { λ s. s.inner.added };

    fn make(alloc: Global, vars: u32) -> Result<Blind, Memory> {
        let inner = PlainSat::make(alloc, vars)?;
        Ok(Blind { inner })
    }

    fn fresh(&mut self) -> Result<Var, Memory> {
        self.inner.fresh()
    }

    fn add(&mut self, alloc: Global, clause: &Clause) -> Result<u32, Memory> {
        self.inner.add(alloc, clause)
    }

    fn solve<F: Flag>(
        &mut self,
        alloc: Global,
        under: &[Lit],
        extra: Option<&Clause>,
        meter: &mut Meter,
        flag: &mut F,
    ) -> SatAnswer {
        self.inner.solve(alloc, under, extra, meter, flag)
    }
}

impl Probe for Blind {
    fn probe<F: Flag>(
        &mut self,
        alloc: Global,
        under: &[Lit],
        extra: Option<&Clause>,
        among: Option<&[Var]>,
        row: &mut Row,
        meter: &mut Meter,
        flag: &mut F,
    ) -> Probed {
        match among {
            Some(_) => {
                let probed = self
                    .inner
                    .probe(alloc, under, extra, None, row, meter, flag);
                blank(row);
                probed
            }
            None => self
                .inner
                .probe(alloc, under, extra, None, row, meter, flag),
        }
    }
}
