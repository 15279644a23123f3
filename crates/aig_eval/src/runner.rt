//! The run of a design over input rows, one step at a time.

ghost use Rattle.std.specs.Prelude.{◌≡◌, ◌+◌, Bool, false, List, [], ◌∷◌, ◌++◌, length, replicate, IfOk};
ghost use Rattle.ja_base.specs.Valuation.{IsValuation, next_state};
ghost use Rattle.aig_model.specs.Netlist.{circuit};
ghost use Rattle.aig_eval.specs.Run.{Fits, RunsTo};

use crate::step::{evaluate, next_into};
use aig_model::Design;
use ja_base::{Memory, Row};
use std::alloc::Global;
use std::marker::Model;

/// Where a run stands: the latch row that its next step starts from, and the values of its last step, which are all 0 before
/// the first. Both rows are kept for the whole run.
#[derive(Debug, Drop)]
pub struct Runner {
    state: Row,
    vals: Row,
}

impl Model for Runner {
    ghost use Rattle.aig_eval.specs.Run.{Standing};

    ghost Value = { Standing };

    ghost view = { λ r. record { state = r.state; values = r.vals } };
}

impl Runner {
    /// The run that begins with this latch row.
    pub fn start(alloc: Global, d: &Design, first: &Row) -> Result<Runner, Memory>
        requires { length first.now ≡ length d.now.latches }
        ensures start { IfOk result (λ r. r ≡ record {
          state = first.now;
          values = replicate (d.now.vars + 1) false;
        }) }
        ensures fits { IfOk result (λ r. Fits (circuit d.now) r) }
        ensures run { IfOk result (λ r. RunsTo (circuit d.now) first.now [] [] r.state) }
    {
        let vals = Row::zeros(alloc, d.vars() + 1)?;
        let state = first.copy(alloc)?;
        Ok(Runner { state, vals })
    }

    /// One step, for a design that the runner fits.
    pub fn step(&mut self, d: &Design, inputs: &Row)
        requires fits { Fits (circuit d.now) self.old }
        requires inputs { length inputs.now ≡ length d.now.inputs }
        ensures values { IsValuation (circuit d.now) self.old.state inputs.now self.new.values }
        ensures state { self.new.state ≡ next_state (circuit d.now) self.new.values }
        ensures fits { Fits (circuit d.now) self.new }
        ensures run { (first : List Bool) (rows steps : List (List Bool))
            → RunsTo (circuit d.now) first rows steps self.old.state
            → RunsTo (circuit d.now) first (rows ++ inputs.now ∷ []) (steps ++ self.new.values ∷ [])
            self.new.state }
    {
        evaluate(d, &self.state, inputs, &mut self.vals);
        next_into(d, &self.vals, &mut self.state);
    }

    /// The values of the last step.
    pub fn vals(&self) -> &Row
        ensures { result.now ≡ self.now.values }
    {
        &self.vals
    }
}
