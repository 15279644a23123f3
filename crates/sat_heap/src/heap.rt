//! The heap.

ghost use Rattle.std.specs.Prelude.{◌≡◌, ℕ, ◌/◌, ◌<◌, ◌^◌, [], ◌∷◌, ◌++◌, false, true, length, map, replicate, slice_get, slice_set, slice_index, Some, IfOk, OnOk, OnErr, IfSome, IfNone};
ghost use Rattle.ja_base.specs.Literals.{bit};
ghost use Rattle.ja_base.specs.Meter.{next_count};
ghost use Rattle.sat_heap.specs.Heaps.{IsGreatest};

use crate::order::{Order, add};
use crate::sift::{enter, leave, raise};
use ja_base::{Memory, Var};
use std::alloc::Global;
use std::marker::Model;

/// As many variables have literals.
const MOST_VARS: u32 = 1 << 31;

/// Variables by their activity, the greatest first. A variable that left keeps its activity, and the room that it needs to
/// come back.
#[derive(Debug, Drop)]
pub struct Heap {
    order: Order,
    activity: Vec<u64>,
    len: u32,
}

impl Model for Heap {
    ghost use Rattle.sat_heap.specs.Heaps.{Heaped};
    ghost use Rattle.sat_heap.specs.Orders.{IsHeap, inside_of};

    ghost Value = { Heaped };

    ghost view = { λ a. record {
      activity = a.activity.items;
      inside = inside_of a.len a.order.places.items;
    } };

    ghost invariant = { λ a. IsHeap a.len a.order.vars.items a.order.places.items
        a.activity.items };
}

impl Heap {
    fn empty(alloc: Global) -> Heap
        ensures { result ≡ record { activity = []; inside = [] } }
    {
        Heap {
            order: Order {
                vars: Vec::new(alloc),
                places: Vec::new(alloc),
            },
            activity: Vec::new(alloc),
            len: 0,
        }
    }

    /// All variables are in it, each with activity 0. Want of memory also where there are more variables than literals can
    /// name.
    pub fn new(alloc: Global, vars: u32) -> Result<Heap, Memory>
        ensures { IfOk result (λ heap. heap
            ≡ record { activity = replicate vars 0; inside = replicate vars true }) }
    {
        let mut heap = Heap::empty(alloc);
        for _ in 0..vars {
            heap.fresh()?;
        }
        Ok(heap)
    }

    /// A variable that is not in it, with activity 0.
    fn outside(&mut self) -> Result<Var, Memory>
        ensures width { length self.old.inside ≡ length self.old.activity }
        ensures var { IfOk result (λ var. var ≡ length self.old.activity) }
        ensures small { IfOk result (λ var. var < 2 ^ 31) }
        ensures ok { OnOk result (self.new ≡ record {
          activity = self.old.activity ++ 0 ∷ [];
          inside = self.old.inside ++ false ∷ [];
        }) }
        ensures err { OnErr result (self.new ≡ self.old) }
    {
        let var = self.activity.len() as u32;
        if var >= MOST_VARS {
            return Err(Memory);
        }
        self.activity.reserve(1)?;
        add(&mut self.order, var)?;
        self.activity.push_reserved(0);
        Ok(Var(var))
    }

    /// One more variable, the least that it does not have yet. It is in the heap, with activity 0.
    pub fn fresh(&mut self) -> Result<Var, Memory>
        ensures var { IfOk result (λ var. var ≡ length self.old.activity) }
        ensures small { IfOk result (λ var. var < 2 ^ 31) }
        ensures ok { OnOk result (self.new ≡ record {
          activity = self.old.activity ++ 0 ∷ [];
          inside = self.old.inside ++ true ∷ [];
        }) }
        ensures err { OnErr result (self.new ≡ self.old) }
    {
        let var = self.outside()?;
        self.put(var);
        Ok(var)
    }

    /// How many variables there are, in the heap or not.
    pub fn vars(&self) -> u32
        ensures count { result ≡ length self.now.activity }
        ensures inside { length self.now.inside ≡ length self.now.activity }
    {
        self.activity.len() as u32
    }

    pub fn has(&self, var: Var) -> bool
        requires { var < length self.now.activity }
        ensures { result ≡ bit self.now.inside var }
    {
        self.order.places[var.number() as usize] < self.len
    }

    /// The activity of a variable, in the heap or not.
    pub fn activity(&self, var: Var) -> u64
        requires { var < length self.now.activity }
        ensures { slice_get self.now.activity var ≡ Some result }
    {
        self.activity[var.number() as usize]
    }

    /// A variable that is not in the heap comes back. Nothing grows.
    pub fn put(&mut self, var: Var)
        requires var { var < length self.old.activity }
        requires out { bit self.old.inside var ≡ false }
        ensures { self.new ≡ record self.old { inside = slice_set self.old.inside var true } }
    {
        enter(
            &mut self.order,
            self.activity.as_slice(),
            self.len,
            var.number(),
        );
        self.len += 1;
    }

    /// A variable of the greatest activity leaves the heap, if one is there.
    pub fn pop(&mut self) -> Option<Var>
        ensures some { IfSome result (IsGreatest self.old) }
        ensures below { IfSome result (λ var. var < length self.old.activity) }
        ensures small { IfSome result (λ var. var < 2 ^ 31) }
        ensures left { IfSome result (λ var. self.new
            ≡ record self.old { inside = slice_set self.old.inside var false }) }
        ensures empty { IfNone result ((v : ℕ) → bit self.old.inside v ≡ false) }
        ensures none { IfNone result (self.new ≡ self.old) }
    {
        if self.len == 0 {
            return None;
        }
        let var = leave(&mut self.order, self.activity.as_slice(), self.len);
        self.len -= 1;
        Some(Var(var))
    }

    /// One unit more for a variable, in the heap or not.
    pub fn bump(&mut self, var: Var)
        requires { var < length self.old.activity }
        ensures { self.new ≡ record self.old {
          activity = slice_set self.old.activity var
              (next_count (slice_index self.old.activity var));
        } }
    {
        raise(&mut self.order, &mut self.activity, self.len, var.number());
    }

    /// Each variable keeps half of its activity, so that what was bumped long ago counts less.
    pub fn halve(&mut self)
        ensures { self.new ≡ record self.old { activity = map (λ a. a / 2) self.old.activity } }
    {
        halve(&mut self.activity);
    }
}

fn halve(activity: &mut Vec<u64>)
    ensures { activity.new.items ≡ map (λ a. a / 2) activity.old.items }
{
    for count in activity.iter_mut() {
        *count /= 2;
    }
}
