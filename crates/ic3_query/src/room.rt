//! The rows in which questions are asked.

ghost use Rattle.std.specs.Prelude.{IfOk};
ghost use Rattle.ic3_query.specs.Questions.{IsRoom};

use crate::cones::Cones;
use ja_base::{Memory, Row};
use ja_project::Coded;
use std::alloc::Global;

/// Made once, so that a question takes memory for its literals and its core alone.
#[derive(Debug, Drop)]
pub struct Room {
    /// What the solver found.
    pub row: Row,
    /// The values of a step, which answer the question.
    pub vals: Row,
    pub(crate) cones: Cones,
}

impl Room {
    pub fn new(alloc: Global, coded: &Coded) -> Result<Room, Memory>
        ensures { IfOk result (λ room. IsRoom coded.now.design room.row room.vals) }
    {
        let vars = coded.vars();
        Ok(Room {
            row: Row::zeros(alloc, vars)?,
            vals: Row::zeros(alloc, vars)?,
            cones: Cones::new(alloc, coded.task().design())?,
        })
    }
}
