//! The queue, in the order in which its obligations were put.

ghost use Rattle.std.specs.Prelude.{◌≡◌, ◌<◌, ◌^◌, nat_lt, [], ◌∷◌, ◌++◌, Some, length, slice_get, if◌then◌else◌, OnOk, OnErr, IfSome};
ghost use Rattle.std.specs.Option.{IfNone};
ghost use Rattle.ic3_oblig.specs.declared.obligation.Obligation as obligation;
ghost use Rattle.ic3_oblig.specs.Lowest.{IsLowestOf, IsTaken};

use crate::obligation::Obligation;
use ja_base::Memory;
use std::alloc::Global;
use std::marker::Model;

/// Contracts see it as the list of its obligations, the one put first in front.
#[derive(Debug, Drop)]
pub struct Queue {
    waiting: Vec<Obligation>,
}

impl Model for Queue {
    ghost use Rattle.std.specs.Prelude.{List};
    ghost use Rattle.ic3_oblig.specs.declared.obligation.Obligation as obligation;

    ghost Value = { List obligation.Obligation };

    ghost view = { λ a. a.waiting.items };
}

/// Of two places the second, where its level is lower.
fn lower(waiting: &[Obligation], at: usize, next: usize) -> usize
    requires at { at < length waiting.now }
    requires next { next < length waiting.now }
    ensures { (a n : obligation.Obligation) → slice_get waiting.now at ≡ Some a
        → slice_get waiting.now next ≡ Some n
        → result ≡ (if nat_lt n.level a.level then next else at) }
{
    if waiting[next].level < waiting[at].level {
        next
    } else {
        at
    }
}

fn lowest(waiting: &[Obligation]) -> Option<usize>
    ensures found { IfSome result (IsLowestOf waiting.now (length waiting.now)) }
    ensures none { IfNone result (waiting.now ≡ []) }
{
    if waiting.is_empty() {
        return None;
    }
    let mut at = 0;
    for next in 1..waiting.len() {
        at = lower(waiting, at, next);
    }
    Some(at)
}

impl Queue {
    pub fn new(alloc: Global) -> Queue
        ensures { result ≡ [] }
    {
        Queue {
            waiting: Vec::new(alloc),
        }
    }

    pub fn put(&mut self, obligation: Obligation) -> Result<(), Memory>
        ensures ok { OnOk result (self.new ≡ self.old ++ obligation ∷ []) }
        ensures err { OnErr result (self.new ≡ self.old) }
    {
        self.waiting.push(obligation)?;
        Ok(())
    }

    /// One of the lowest level, among these the one put first.
    pub fn take(&mut self) -> Option<Obligation>
        ensures taken { IfSome result (λ o. IsTaken self.old o self.new) }
        ensures none { IfNone result ((self.old ≡ []) × (self.new ≡ [])) }
    {
        let at = lowest(self.waiting.as_slice())?;
        Some(self.waiting.remove(at))
    }
}
