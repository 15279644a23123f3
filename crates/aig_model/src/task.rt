//! A design with its expectations, and a stimulus.

ghost use Rattle.std.specs.Prelude.{◌≡◌, length, IfOk};
ghost use Rattle.aig_model.specs.Netlist.{IsSound};

use crate::design::Design;
use crate::expect::Expect;
use ja_base::{Memory, Row, Rows};
use std::alloc::Global;
use std::marker::Model;
use std::sync::Arc;

#[derive(Debug, Drop)]
struct Shared {
    design: Design,
    expect: Expect,
}

/// A design and one expectation for each of its properties, shared by its copies.
#[derive(Drop)]
pub struct Task {
    shared: Arc<Shared>,
}

impl Model for Task {
    ghost use Rattle.std.specs.Prelude.{◌≡◌, length};
    ghost use Rattle.std.specs.Arc.{arc_value};
    ghost use Rattle.aig_model.specs.Netlist.{IsSound};
    ghost use Rattle.aig_model.specs.Task.{VerificationTask};

    ghost Value = { VerificationTask };

    ghost view = { λ t. record {
      design = (arc_value t.shared).design;
      expected = (arc_value t.shared).expect;
    } };

    ghost invariant = { λ t.
        length (arc_value t.shared).expect ≡ length (arc_value t.shared).design.bads };
}

impl Task {
    pub fn new(alloc: Global, design: Design, expect: Expect) -> Result<Task, Memory>
        requires { length expect ≡ length design.bads }
        ensures { IfOk result (λ task. task ≡ record { design = design; expected = expect }) }
    {
        Ok(Task {
            shared: Arc::new(alloc, Shared { design, expect })?,
        })
    }

    /// The same task again, without a copy of what it holds.
    pub fn share(&self) -> Result<Task, Memory>
        ensures { IfOk result (λ task. task ≡ self.now) }
    {
        Ok(Task {
            shared: Arc::try_clone(&self.shared)?,
        })
    }

    pub fn design(&self) -> &Design
        ensures value { result.now ≡ self.now.design }
        ensures expected { length self.now.expected ≡ length self.now.design.bads }
    {
        &self.shared.design
    }

    pub fn expect(&self) -> &Expect
        ensures value { result.now ≡ self.now.expected }
        ensures expected { length self.now.expected ≡ length self.now.design.bads }
    {
        &self.shared.expect
    }
}

/// A first latch row, and an input row for each step.
#[derive(Debug, Drop)]
pub struct Stimulus {
    pub first: Row,
    pub inputs: Rows,
}

impl Model for Stimulus {
    ghost use Rattle.ja_base.specs.Runs.{Trace};

    ghost Value = { Trace };

    ghost view = { λ s. record { first = s.first; inputs = s.inputs } };
}

impl Stimulus {
    pub fn new(first: Row, inputs: Rows) -> Stimulus
        ensures { result ≡ record { first = first; inputs = inputs } }
    {
        Stimulus { first, inputs }
    }

    pub fn first(&self) -> &Row
        ensures { result.now ≡ self.now.first }
    {
        &self.first
    }

    pub fn inputs(&self) -> &Rows
        ensures { result.now ≡ self.now.inputs }
    {
        &self.inputs
    }
}
