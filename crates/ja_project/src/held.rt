//! The literals that hold where no assumption is broken.

ghost use Rattle.std.specs.Prelude.{◌≡◌, ◌<◌, ◌++◌, IfOk, OnOk, length};
ghost use Rattle.ja_project.specs.CodedClauses.{held_literals, held_literals_of};

use aig_model::Task;
use ja_base::{Lits, Memory};
use std::alloc::Global;

fn add_held(task: &Task, prop: u32, held: &mut Lits) -> Result<(), Memory>
    requires { prop < length task.now.design.bads }
    ensures { OnOk result (held.new ≡ held.old ++ held_literals_of task.now prop) }
{
    if task.expect().is_assumed(prop) {
        held.push(task.design().bad(prop).not())?;
    }
    Ok(())
}

pub fn held_literals(alloc: Global, task: &Task) -> Result<Lits, Memory>
    ensures { IfOk result (λ held. held ≡ held_literals task.now) }
{
    let mut held = Lits::new(alloc);
    for prop in 0..task.design().props() {
        add_held(task, prop, &mut held)?;
    }
    Ok(held)
}
