//! Which variable is decided next, and with which sign.

ghost use Rattle.std.specs.Prelude.{◌≡◌, ◌+◌, ◌*◌, ◌<◌, ◌≤◌, ◌^◌, None, false, length, option_copied, IfOk, IfSome, IfNone, OnOk, OnErr};
ghost use Rattle.std.specs.Bool.{OnTrue};
ghost use Rattle.ja_base.specs.Literals.{bit, variable};
ghost use Rattle.ja_base.specs.Trails.{IsFull};
ghost use Rattle.sat_plain.specs.Trails.{IsAssigned};
ghost use Rattle.sat_watch.specs.Stores.{value_of};
ghost use Rattle.sat_cdcl.specs.Assumptions.{IsDecidedFor};

use ja_base::{Lit, Memory, Var};
use sat_heap::Heap;
use sat_plain::Trail;
use std::alloc::Global;
use std::marker::Model;

/// Activities fade once in so many conflicts.
const FADES_EVERY: u32 = 16;

/// As many variables have literals.
pub(crate) const MOST_VARS: u32 = 1 << 31;

/// Variables by their activity, the sign of each when it last had a value, how many conflicts came since activities faded, how
/// many of the variables that a question gives were passed by, the first variable that may have no value and is not in
/// the heap, and how many of the trail's first places were found to be forced. A variable that took part in no conflict since its
/// activity faded does not come back to the heap.
#[derive(Debug, Drop)]
pub(crate) struct Order {
    heap: Heap,
    negs: Vec<bool>,
    conflicts: u32,
    passed: usize,
    least: u32,
    ground: u32,
}

impl Model for Order {
    ghost use Rattle.std.specs.Prelude.{◌≡◌, ℕ, length};

    ghost Value = { ℕ };

    ghost view = { λ a. length a.negs.items };

    ghost invariant = { λ a. length a.heap.activity ≡ length a.negs.items };
}

/// Whether the variable has no value.
fn is_unset(trail: &Trail, var: Var) -> bool
    requires below { var < trail.now.vars }
    requires small { var < 2 ^ 31 }
    ensures { OnTrue result ((bit trail.now.values (2 * var) ≡ false)
        × (bit trail.now.values (2 * var + 1) ≡ false)) }
{
    let lit = Lit::new(var, false);
    !trail.is_true(lit) && !trail.is_true(lit.not())
}

/// Whether the variable is one of the trail's, and has no value.
fn is_open(trail: &Trail, var: Var) -> bool
    ensures { OnTrue result ((var < trail.now.vars) × (var < 2 ^ 31)
        × (bit trail.now.values (2 * var) ≡ false)
        × (bit trail.now.values (2 * var + 1) ≡ false)) }
{
    let number = var.number();
    number < MOST_VARS && number < trail.vars() && is_unset(trail, var)
}

impl Order {
    /// Each variable has activity 0 and is decided to be 0 at first.
    pub(crate) fn new(alloc: Global, vars: u32) -> Result<Order, Memory>
        ensures { IfOk result (λ order. order ≡ vars) }
    {
        let heap = Heap::new(alloc, vars)?;
        let negs = vec![in alloc; true; vars as usize]?;
        Ok(Order {
            heap,
            negs,
            conflicts: 0,
            passed: 0,
            least: 0,
            ground: 0,
        })
    }

    /// One more variable.
    pub(crate) fn fresh(&mut self) -> Result<(), Memory>
        ensures ok { OnOk result (self.new ≡ self.old + 1) }
        ensures err { OnErr result (self.new ≡ self.old) }
    {
        self.negs.reserve(1)?;
        self.heap.fresh()?;
        self.negs.push_reserved(true);
        Ok(())
    }

    /// The variable took part in a conflict.
    pub(crate) fn bump(&mut self, var: Var)
        requires { var < self.old }
        ensures { self.new ≡ self.old }
    {
        self.heap.bump(var);
    }

    /// One more conflict: now and then what was bumped long ago counts less.
    pub(crate) fn fade(&mut self)
        ensures { self.new ≡ self.old }
    {
        if self.conflicts < FADES_EVERY {
            self.conflicts += 1;
            return;
        }
        self.heap.halve();
        self.conflicts = 1;
    }

    /// The variable of this literal, which is true, is about to lose its value.
    fn release(&mut self, lit: Lit)
        requires { variable lit < self.old }
        ensures { self.new ≡ self.old }
    {
        let var = lit.var();
        self.negs[var.number() as usize] = lit.is_neg();
        if self.heap.has(var) {
            return;
        }
        if self.heap.activity(var) == 0 {
            self.least = self.least.min(var.number());
            return;
        }
        self.heap.put(var);
    }

    /// The variables of all places but the first ones, so many, are about to lose their values.
    pub(crate) fn release_all(&mut self, trail: &Trail, to: u32)
        requires { trail.now.vars ≤ self.old }
        ensures same { self.new ≡ self.old }
        ensures is { IsAssigned trail.now }
    {
        self.passed = 0;
        self.ground = self.ground.min(to);
        for at in to..trail.len() {
            self.release(trail.place(at).lit);
        }
    }

    /// The first place that was decided, or the length of the trail. The search goes on where it ended before.
    pub(crate) fn ground(&mut self, trail: &Trail) -> u32
        ensures { self.new ≡ self.old }
    {
        for at in self.ground..trail.len() {
            if trail.place(at).reason.is_none() {
                self.ground = at;
                return at;
            }
        }
        self.ground = trail.len();
        trail.len()
    }

    /// A variable without a value that is in the heap, of the greatest activity.
    fn take(&mut self, trail: &Trail) -> Option<Var>
        requires { trail.now.vars ≤ self.old }
        ensures same { self.new ≡ self.old }
        ensures some { IfSome result (λ var. (var < trail.now.vars) × (var < 2 ^ 31)
            × (bit trail.now.values (2 * var) ≡ false)
            × (bit trail.now.values (2 * var + 1) ≡ false)) }
    {
        for _ in 0..self.heap.vars() {
            let var = self.heap.pop()?;
            if var.number() < trail.vars() && is_unset(trail, var) {
                return Some(var);
            }
        }
        None
    }

    /// The next variable without a value by number.
    fn take_next(&mut self, trail: &Trail) -> Option<Var>
        requires { trail.now.vars ≤ self.old }
        ensures same { self.new ≡ self.old }
        ensures some { IfSome result (λ var. (var < trail.now.vars) × (var < 2 ^ 31)
            × (bit trail.now.values (2 * var) ≡ false)
            × (bit trail.now.values (2 * var + 1) ≡ false)) }
    {
        for number in self.least..trail.vars() {
            if is_open(trail, Var(number)) {
                self.least = number;
                return Some(Var(number));
            }
        }
        self.least = trail.vars();
        None
    }

    /// A variable without a value, one that is in the heap if there is one.
    fn propose(&mut self, trail: &Trail) -> Option<Var>
        requires { trail.now.vars ≤ self.old }
        ensures same { self.new ≡ self.old }
        ensures some { IfSome result (λ var. (var < trail.now.vars) × (var < 2 ^ 31)
            × (bit trail.now.values (2 * var) ≡ false)
            × (bit trail.now.values (2 * var + 1) ≡ false)) }
    {
        match self.take(trail) {
            Some(var) => Some(var),
            None => self.take_next(trail),
        }
    }

    /// A variable without a value, if there is one.
    fn pick(&mut self, trail: &Trail) -> Option<Var>
        requires { trail.now.vars ≤ self.old }
        ensures same { self.new ≡ self.old }
        ensures some { IfSome result (λ var. (var < trail.now.vars) × (var < 2 ^ 31)
            × (bit trail.now.values (2 * var) ≡ false)
            × (bit trail.now.values (2 * var + 1) ≡ false)) }
        ensures full { IfNone result (IsFull trail.now.vars trail.now.values) }
    {
        match self.propose(trail) {
            Some(var) => Some(var),
            None => trail.unset(),
        }
    }

    /// The first of these variables without a value, behind those that were passed by.
    fn take_of(&mut self, trail: &Trail, vars: &[Var]) -> Option<Var>
        requires { trail.now.vars ≤ self.old }
        ensures same { self.new ≡ self.old }
        ensures some { IfSome result (λ var. (var < trail.now.vars) × (var < 2 ^ 31)
            × (bit trail.now.values (2 * var) ≡ false)
            × (bit trail.now.values (2 * var + 1) ≡ false)) }
    {
        for at in self.passed..vars.len() {
            if is_open(trail, vars[at]) {
                self.passed = at;
                return Some(vars[at]);
            }
        }
        None
    }

    /// A variable without a value, one of those that are given, if any are.
    fn choose(&mut self, trail: &Trail, among: Option<&[Var]>) -> Option<Var>
        requires { trail.now.vars ≤ self.old }
        ensures same { self.new ≡ self.old }
        ensures some { IfSome result (λ var. (var < trail.now.vars) × (var < 2 ^ 31)
            × (bit trail.now.values (2 * var) ≡ false)
            × (bit trail.now.values (2 * var + 1) ≡ false)) }
        ensures full { IfNone result (IsDecidedFor (option_copied among.entry)
            trail.now.vars trail.now.values) }
    {
        match among {
            Some(vars) => self.take_of(trail, vars),
            None => self.pick(trail),
        }
    }

    /// A literal of a variable without a value, if there is one. Where variables are given, it is one of these.
    pub(crate) fn next(&mut self, trail: &Trail, among: Option<&[Var]>) -> Option<Lit>
        requires { trail.now.vars ≤ self.old }
        ensures same { self.new ≡ self.old }
        ensures below { IfSome result (λ lit. variable lit < trail.now.vars) }
        ensures unset { IfSome result (λ lit. value_of trail.now.values lit ≡ None) }
        ensures full { IfNone result (IsDecidedFor (option_copied among.entry)
            trail.now.vars trail.now.values) }
    {
        let var = self.choose(trail, among)?;
        Some(Lit::new(var, self.negs[var.number() as usize]))
    }
}
