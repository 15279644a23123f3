//! A closed list of at most one clause, a failure and a naming, for tests: over a design whose two properties are broken at
//! each step.

ghost use Rattle.std.specs.Prelude.{◌≡◌, ◌<◌, ◌∷◌, [], List, ℕ, ⊤, true, false, None, Some, if◌then◌else◌, IfOk};
ghost use Rattle.ja_base.specs.Circuit.{Problem};
ghost use Rattle.ja_base.specs.Runs.{Trace};
ghost use Rattle.store_core.specs.Boards.{Opens};
ghost use Rattle.store_core.specs.Examples.{two_broken, one_step};
ghost use Rattle.desk.specs.Examples.{two_opened};

use ja_base::{Clause, ClauseList, ClosedSet, Lit, Memory, Row, Shown};
use std::alloc::Global;
use store_core::{Naming, Opening, Plan};

/// The clause of the literal 2, or none.
#[derive(Drop)]
pub(crate) struct OneClause {
    clause: Clause,
    has: bool,
    ghost is_two: { clause ≡ 2 ∷ [] },
}

impl OneClause {
    pub(crate) fn new(alloc: Global, has: bool) -> Result<OneClause, Memory>
        ensures { IfOk result (λ list. list.has ≡ has) }
    {
        let clause = Clause::from_lits(alloc, &[Lit(2)])?;
        Ok(OneClause { clause, has })
    }
}

impl ClosedSet for OneClause {
    ghost clauses = { λ a. if a.has then (2 ∷ []) ∷ [] else [] };

    ghost task = { λ a. two_broken };

    ghost bound = { λ t. 0 };

    ghost covers = { λ t clauses p. ⊤ };

    fn len(&self) -> u32 {
        u32::from(self.has)
    }

    fn clause(&self, at: u32) -> &Clause {
        &self.clause
    }

    fn join(&self, alloc: Global, other: &OneClause) -> Result<OneClause, Memory> {
        OneClause::new(alloc, self.has || other.has)
    }

    fn extend(&mut self, alloc: Global, other: &OneClause) -> Result<ClauseList, Memory> {
        let mut added = ClauseList::new(alloc);
        if other.has && !self.has {
            added.push(self.clause.copy(alloc)?)?;
            self.has = true;
        }
        Ok(added)
    }

    fn copy(&self, alloc: Global) -> Result<OneClause, Memory> {
        OneClause::new(alloc, self.has)
    }

    ghost grows = { λ t few many p covered part. tt };
}

/// The failure of a property in one step without inputs.
#[derive(Drop)]
pub(crate) struct OneStep {
    prop: u32,
    ghost within: { prop < 2 },
}

impl OneStep {
    pub(crate) fn new(prop: u32) -> OneStep
        requires { prop < 2 }
        ensures { result.prop ≡ prop }
    {
        OneStep { prop }
    }
}

impl Shown for OneStep {
    ghost task = { λ a. two_broken };

    ghost property = { λ a. a.prop };

    ghost stimulus = { λ a. one_step };

    fn prop(&self) -> u32 {
        self.prop
    }
}

/// The opening of the tests, and their task.
pub(crate) struct TwoBroken;

impl Naming for TwoBroken {
    ghost opening = { two_opened };

    ghost task = { two_broken };
}

/// The plan 0, 1; both properties are expected to hold.
pub(crate) fn opening_of(alloc: Global) -> Result<Opening, Memory>
    ensures opening { IfOk result (λ opening. opening ≡ two_opened) }
    ensures opens { IfOk result (λ opening. Opens two_broken opening) }
{
    let mut plan = Plan::new(alloc);
    plan.push(0)?;
    plan.push(1)?;
    let opening = Opening {
        plan,
        assumed: Row::ones(alloc, 2)?,
        fail_fast: true,
        limit: None,
    };
    Ok(opening)
}
