//! Lifting: from one step to a cube of latch rows that all lead on. Callers read nothing but that it has the row and that all of
//! it leads.

ghost use Rattle.std.specs.Prelude.{◌≡◌, ◌<◌, ◌∷◌, ◌++◌, false, length, IfOk, OnOk};
ghost use Rattle.std.specs.List.{list_any};
ghost use Rattle.ja_base.specs.Invariants.{latch_value};
ghost use Rattle.ja_base.specs.Valuation.{IsBad, IsValuation, MeetsConstraints, AssumptionsHold, latch_row, input_row, next_state};
ghost use Rattle.aig_model.specs.Netlist.{circuit};
ghost use Rattle.ja_project.specs.Latches.{is_foreign};
ghost use Rattle.ic3_general.specs.Cubes.{IsOutside};
ghost use Rattle.ic3_general.specs.Aims.{IsAim, LeadsOn};

use crate::aim::Aim;
use crate::dropping::lift;
use crate::rows::input_of;
use crate::targets::{bad_target, step_target};
use ja_base::{Clause, Memory, Row, Rows};
use ja_project::Coded;
use std::alloc::Global;

/// The clause that excludes a cube, and the input rows that lead on from it.
#[derive(Debug, Drop)]
pub struct Cube {
    pub clause: Clause,
    pub chain: Rows,
}

/// The rows behind a first one.
fn extended(alloc: Global, first: Row, chain: &Rows) -> Result<Rows, Memory>
    ensures { IfOk result (λ rows. rows ≡ first ∷ chain.now) }
{
    let mut rows = Rows::one(alloc, first)?;
    for row in chain.as_slice() {
        rows.push(row.copy(alloc)?)?;
    }
    Ok(rows)
}

/// A cube around the latch row of a step that leads into the cube which the clause excludes and breaks nothing that the aim
/// respects. `vals` has the values of the step.
pub fn lifted(
    alloc: Global,
    coded: &Coded,
    aim: &Aim,
    vals: &Row,
    clause: &Clause,
    chain: &Rows,
) -> Result<Cube, Memory>
    requires aim { IsAim coded.now aim.now }
    requires step { IsValuation (circuit coded.now.design)
        (latch_row (circuit coded.now.design) vals.now)
        (input_row (circuit coded.now.design) vals.now) vals.now }
    requires constrained { MeetsConstraints (circuit coded.now.design) vals.now }
    requires held { AssumptionsHold (circuit coded.now.design) aim.now.respect vals.now }
    requires later { list_any (latch_value (circuit coded.now.design).latches
        (next_state (circuit coded.now.design) vals.now)) clause.now ≡ false }
    ensures own { IfOk result
        (λ cube. is_foreign (circuit coded.now.design) cube.clause ≡ false) }
    ensures around { IfOk result (λ cube. IsOutside (circuit coded.now.design) cube.clause
        (latch_row (circuit coded.now.design) vals.now)) }
    ensures leads { IfOk result (λ cube. LeadsOn coded.now aim.now clause.now chain.now
        → LeadsOn coded.now aim.now cube.clause cube.chain) }
    ensures chain { IfOk result (λ cube. cube.chain
        ≡ input_row (circuit coded.now.design) vals.now ∷ chain.now) }
{
    let design = coded.task().design();
    let target = step_target(alloc, coded, &aim.respect, clause)?;
    let clause = lift(alloc, design, vals, target.as_slice())?;
    let input = input_of(alloc, design, vals)?;
    let chain = extended(alloc, input, chain)?;
    Ok(Cube { clause, chain })
}

/// A cube around the latch row of a step that breaks the property. `vals` has the values of the step.
pub fn lifted_bad(alloc: Global, coded: &Coded, aim: &Aim, vals: &Row) -> Result<Cube, Memory>
    requires aim { IsAim coded.now aim.now }
    requires step { IsValuation (circuit coded.now.design)
        (latch_row (circuit coded.now.design) vals.now)
        (input_row (circuit coded.now.design) vals.now) vals.now }
    requires constrained { MeetsConstraints (circuit coded.now.design) vals.now }
    requires bad { IsBad (circuit coded.now.design) aim.now.prop vals.now }
    ensures own { IfOk result
        (λ cube. is_foreign (circuit coded.now.design) cube.clause ≡ false) }
    ensures around { IfOk result (λ cube. IsOutside (circuit coded.now.design) cube.clause
        (latch_row (circuit coded.now.design) vals.now)) }
    ensures leads { IfOk result (λ cube. LeadsOn coded.now aim.now cube.clause cube.chain) }
    ensures chain { IfOk result (λ cube. length cube.chain ≡ 1) }
{
    let design = coded.task().design();
    let target = bad_target(alloc, coded, aim.prop)?;
    let clause = lift(alloc, design, vals, target.as_slice())?;
    let input = input_of(alloc, design, vals)?;
    let chain = Rows::one(alloc, input)?;
    Ok(Cube { clause, chain })
}
