//! The opening and the task of a board, by a type.

ghost use Rattle.std.specs.Prelude.{[], false, None};
ghost use Rattle.std.specs.FinMap as finite_map;
ghost use Rattle.ja_base.specs.Circuit.{Problem};
ghost use Rattle.store_core.specs.declared.journal.Opening.{Opening};

use std::marker::Brand;

/// A type that names one opening and one task, so that values which are shared between threads can say that theirs are these.
pub trait Naming: Send + Sync {
    ghost opening: { Opening };

    ghost task: { Problem };
}

/// Where it is passed, the call picks the opening and the task.
impl Naming for Brand {
    ghost opening = { record { plan = []; assumed = []; fail_fast = false; limit = None } };

    ghost task = { record {
      circuit = record {
        vars = 0;
        inputs = [];
        latches = [];
        gates = finite_map.empty;
        bads = [];
        constraints = [];
      };
      assumed = [];
    } };
}
