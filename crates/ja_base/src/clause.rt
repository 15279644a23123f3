//! Clauses: sets of literals, of which one is to hold.

ghost use Rattle.std.specs.Prelude.{◌≡◌, ◌↔◌, length, All, Contains, IfOk, IsTrue};
ghost use Rattle.std.specs.List.{list_any};
ghost use Rattle.std.specs.List.Sorted.{IsStrictlyIncreasing};
ghost use Rattle.ja_base.specs.Literals.{value};
ghost use Rattle.ja_base.specs.Clauses.{IsSetOf, IsBelow, is_part};

use crate::Lit;
use crate::items::Items;
use crate::memory::Memory;
use crate::row::Row;
use smallvec::SmallVec;
use std::alloc::Global;
use std::marker::Model;

/// Literals in ascending order, none twice; both signs of a variable may stand in it. Up to four need no allocation.
#[derive(Debug, Drop)]
pub struct Clause {
    lits: SmallVec<Lit, 4>,
}

impl Model for Clause {
    ghost use Rattle.std.specs.Prelude.{ℕ, List};
    ghost use Rattle.std.specs.List.Sorted.{IsStrictlyIncreasing};

    ghost Value = { List ℕ };

    ghost view = { λ a. a.lits.items };

    ghost invariant = { λ a. IsStrictlyIncreasing a.lits.items };
}

/// A list of clauses.
pub type ClauseList = Items<Clause>;

impl Clause {
    pub fn from_lits(alloc: Global, lits: &[Lit]) -> Result<Clause, Memory>
        ensures set { IfOk result (IsSetOf lits.now) }
        ensures ascending { IsStrictlyIncreasing lits.now
            → IfOk result (λ clause. clause ≡ lits.now) }
    {
        let mut lits = SmallVec::from_slice(alloc, lits)?;
        lits.as_mut_slice().sort_unstable();
        lits.dedup();
        Ok(Clause { lits })
    }

    pub fn lits(&self) -> &[Lit]
        ensures value { result.now ≡ self.now }
        ensures ascends { IsStrictlyIncreasing self.now }
    {
        self.lits.as_slice()
    }

    pub fn copy(&self, alloc: Global) -> Result<Clause, Memory>
        ensures { IfOk result (λ clause. clause ≡ self.now) }
    {
        Ok(Clause {
            lits: SmallVec::from_slice(alloc, self.lits.as_slice())?,
        })
    }

    /// Whether each literal of this clause stands in the other.
    pub fn subsumes(&self, other: &Clause) -> bool
        ensures value { result ≡ is_part self.now other.now }
        ensures exact { IsTrue result ↔ All (Contains other.now) self.now }
    {
        is_among(self.lits(), other.lits())
    }

    /// Whether some literal of the clause is 1.
    pub fn holds_in(&self, vals: &Row) -> bool
        requires { IsBelow (length vals.now) self.now }
        ensures { result ≡ list_any (value vals.now) self.now }
    {
        for lit in self.lits() {
            if vals.get(lit.var().number()) != lit.is_neg() {
                return true;
            }
        }
        false
    }
}

/// One walk over both, since both ascend.
fn is_among(part: &[Lit], whole: &[Lit]) -> bool
    requires part { IsStrictlyIncreasing part.now }
    requires whole { IsStrictlyIncreasing whole.now }
    ensures { result ≡ is_part part.now whole.now }
{
    let mut wanted = part;
    for lit in whole {
        let [first, others @ ..] = wanted else {
            return true;
        };
        if *first < *lit {
            return false;
        }
        if *first == *lit {
            wanted = others;
        }
    }
    wanted.is_empty()
}
