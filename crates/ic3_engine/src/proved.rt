//! What was proved of a property.

ghost use Rattle.ja_base.specs.Invariants.{Covers};
ghost use Rattle.aig_model.specs.Netlist.{circuit};

use inv_cert::Closed;

/// A closed list that covers the property, with nothing assumed.
#[derive(Drop)]
pub struct ProvedList {
    pub list: Closed,
    pub prop: u32,
    pub ghost covered: { Covers (circuit list.task.design) list.clauses prop },
}
