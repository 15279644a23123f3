//! What a search takes from others, and what it gives to them.

ghost use Rattle.std.specs.Prelude.{◌≡◌, IfOk};
ghost use Rattle.ja_base.specs.Circuit.{Problem};
ghost use Rattle.aig_model.specs.Task.{problem};
ghost use Rattle.ic3_engine.specs.Shares.{IsNews, Seen};

use aig_model::Task;
use inv_cert::Closed;
use ja_base::Memory;
use std::alloc::Global;
use std::marker::Model;

/// A store of closed lists that others fill too.
pub trait Share {
    /// The task that the lists are closed for. No call changes it.
    ghost task: { Self → Problem };

    /// What the store had when it was last looked at, and what was seen of it.
    ghost seen: { Self → Seen };

    /// The second value is the first, or one that it has become since.
    ghost later: { Self → Self → Type 0 };

    /// Looks at the store: all that it has, where not all of that was seen.
    fn import(&mut self, alloc: Global) -> Result<Option<Closed>, Memory>
        ensures task { task self.new ≡ task self.old }
        ensures later { later self.old self.new }
        ensures news { IfOk result (IsNews (task self.old) (seen self.old) (seen self.new)) };

    /// Gives the clauses of a list to the store.
    fn publish(&mut self, alloc: Global, part: &Closed) -> Result<(), Memory>
        requires { problem part.now.task ≡ task self.old }
        ensures task { task self.new ≡ task self.old }
        ensures later { later self.old self.new }
        ensures seen { seen self.new ≡ seen self.old };

    /// Each value is later than itself.
    ghost same: { (s : Self) → later s s };

    /// What is later than a later value is later.
    ghost chain: { (a b c : Self) → later a b → later b c → later a c };
}

/// There is nobody to share with: the store has no clause.
#[derive(Drop)]
pub struct NoShare {
    task: Task,
}

impl Model for NoShare {
    ghost use Rattle.aig_model.specs.Task.{VerificationTask};

    ghost Value = { VerificationTask };

    ghost view = { λ s. s.task };
}

impl NoShare {
    pub fn new(task: Task) -> NoShare
        ensures { result ≡ task }
    {
        NoShare { task }
    }
}

impl Share for NoShare {
    ghost use Rattle.std.specs.Prelude.{[], ⊤};

    ghost task = { λ s. problem s };

    ghost seen = { λ s. record { store = []; known = [] } };

    ghost later = { λ before now. ⊤ };

    fn import(&mut self, _alloc: Global) -> Result<Option<Closed>, Memory> {
        Ok(None)
    }

    fn publish(&mut self, _alloc: Global, _part: &Closed) -> Result<(), Memory> {
        Ok(())
    }

    ghost same = { λ s. tt };

    ghost chain = { λ a b c first second. tt };
}
