//! The literals that are true, in the order in which they became so.

ghost use Rattle.std.specs.Prelude.{◌≡◌, ℕ, ◌+◌, ◌*◌, ◌^◌, ◌<◌, ◌≤◌, ◌-◌, [], ◌∷◌, ◌++◌, Bool, false, true, length, take, slice_get, Some, IfOk, IfSome, IfNone, OnOk, OnErr};
ghost use Rattle.ja_base.specs.Literals.{bit, variable, negated};
ghost use Rattle.sat_plain.specs.Trails.{IsAssigned};

use crate::place::Place;
use ja_base::{Lit, Memory, Row, Var};
use std::alloc::Global;
use std::marker::Model;

/// As many variables have literals.
pub(crate) const MOST_VARS: u32 = 1 << 31;

/// A bit for each literal, set where it is true, and the places in order. There is room for a place for each variable.
#[derive(Debug, Drop)]
pub struct Trail {
    vars: u32,
    values: Vec<bool>,
    places: Vec<Place>,
}

impl Model for Trail {
    ghost use Rattle.std.specs.Prelude.{◌≤◌, ◌^◌, vec_capacity};
    ghost use Rattle.ja_base.specs.Trails.{IsTrail};
    ghost use Rattle.sat_plain.specs.Trails.{Assigned, lits_of};

    ghost Value = { Assigned };

    ghost view = { λ a. record {
      vars = a.vars;
      values = a.values.items;
      places = a.places.items;
    } };

    ghost invariant = { λ a. IsTrail a.vars a.values.items (lits_of a.places.items)
        × (a.vars ≤ vec_capacity a.places)
        × (a.vars ≤ 2 ^ 31) };
}

impl Trail {
    /// No literal is true.
    pub fn new(alloc: Global, vars: u32) -> Result<Trail, Memory>
        requires { vars ≤ 2 ^ 31 }
        ensures vars { IfOk result (λ trail. trail.vars ≡ vars) }
        ensures places { IfOk result (λ trail. trail.places ≡ []) }
    {
        let values = vec![in alloc; false; 2 * vars as usize]?;
        let places = Vec::with_capacity(alloc, vars as usize)?;
        Ok(Trail {
            vars,
            values,
            places,
        })
    }

    pub fn len(&self) -> u32
        ensures value { result ≡ length self.now.places }
        ensures is { IsAssigned self.now }
    {
        self.places.len() as u32
    }

    pub fn place(&self, at: u32) -> &Place
        requires { at < length self.now.places }
        ensures value { slice_get self.now.places at ≡ Some result.now }
        ensures is { IsAssigned self.now }
    {
        &self.places[at as usize]
    }

    pub fn vars(&self) -> u32
        ensures { result ≡ self.now.vars }
    {
        self.vars
    }

    pub fn values(&self) -> &[bool]
        ensures value { result.now ≡ self.now.values }
        ensures is { IsAssigned self.now }
    {
        self.values.as_slice()
    }

    pub fn is_true(&self, lit: Lit) -> bool
        requires { variable lit < self.now.vars }
        ensures value { result ≡ bit self.now.values lit }
        ensures is { IsAssigned self.now }
    {
        self.values[lit.number() as usize]
    }

    /// One more variable, which has no value.
    pub fn fresh(&mut self) -> Result<Var, Memory>
        ensures var { IfOk result (λ var. var ≡ self.old.vars) }
        ensures small { IfOk result (λ var. var < 2 ^ 31) }
        ensures ok { OnOk result (self.new.vars ≡ self.old.vars + 1) }
        ensures places { self.new.places ≡ self.old.places }
        ensures err { OnErr result (self.new ≡ self.old) }
    {
        if self.vars >= MOST_VARS {
            return Err(Memory);
        }
        let room = self.vars as usize + 1 - self.places.len();
        self.places.reserve(room)?;
        self.values.reserve(2)?;
        self.values.push_reserved(false);
        self.values.push_reserved(false);
        let var = Var(self.vars);
        self.vars += 1;
        Ok(var)
    }

    /// The literal becomes true.
    pub fn push(&mut self, lit: Lit, reason: Option<u32>)
        requires below { variable lit < self.old.vars }
        requires unset { bit self.old.values lit ≡ false }
        requires free { bit self.old.values (negated lit) ≡ false }
        ensures vars { self.new.vars ≡ self.old.vars }
        ensures places { self.new.places
            ≡ self.old.places ++ record { lit = lit; reason = reason } ∷ [] }
        ensures is { IsAssigned self.new }
    {
        self.values[lit.number() as usize] = true;
        self.places.push_reserved(Place { lit, reason });
    }

    /// The literal of the last place has no value again.
    fn pop(&mut self)
        requires { 0 < length self.old.places }
        ensures vars { self.new.vars ≡ self.old.vars }
        ensures places { self.new.places ≡ take (length self.old.places - 1) self.old.places }
    {
        if let Some(place) = self.places.pop() {
            self.values[place.lit.number() as usize] = false;
        }
    }

    /// Leaves the first places, so many.
    pub fn undo(&mut self, to: u32)
        ensures vars { self.new.vars ≡ self.old.vars }
        ensures places { self.new.places ≡ take to self.old.places }
        ensures is { IsAssigned self.new }
    {
        while self.len() > to {
            self.pop();
        }
    }

    /// The first variable that has no value.
    pub fn unset(&self) -> Option<Var>
        ensures var { IfSome result (λ var. (var < self.now.vars)
            × (bit self.now.values (2 * var) ≡ false)
            × (bit self.now.values (2 * var + 1) ≡ false)) }
        ensures small { IfSome result (λ var. var < 2 ^ 31) }
        ensures full { IfNone result ((var : ℕ) → var < self.now.vars
            → bit self.now.values (2 * var) ≡ false → bit self.now.values (2 * var + 1) ≡ true) }
        ensures is { IsAssigned self.now }
    {
        for var in 0..self.vars {
            let lit = 2 * var as usize;
            if !self.values[lit] && !self.values[lit + 1] {
                return Some(Var(var));
            }
        }
        None
    }

    /// The bit of each variable, 0 where it has no value.
    pub fn row(&self, alloc: Global) -> Result<Row, Memory>
        ensures width { IfOk result (λ row. length row ≡ self.now.vars) }
        ensures bits { IfOk result (λ row. (var : ℕ) → var < self.now.vars
            → bit row var ≡ bit self.now.values (2 * var)) }
        ensures is { IsAssigned self.now }
    {
        let mut row = Row::zeros(alloc, self.vars)?;
        for var in 0..self.vars {
            if self.values[2 * var as usize] {
                row.set(var, true);
            }
        }
        Ok(row)
    }
}
