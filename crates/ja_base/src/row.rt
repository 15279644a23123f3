//! Rows of bits, and lists of rows.

ghost use Rattle.std.specs.Prelude.{◌≡◌, ℕ, ◌^◌, ◌<◌, [], ◌∷◌, ◌++◌, Bool, true, false, List, length, replicate, slice_set, slice_get, Some, IfOk, OnOk, OnErr, vec_len};
ghost use Rattle.ja_base.specs.Literals.{bit};

use crate::memory::Memory;
use std::alloc::Global;
use std::marker::Model;

/// A row of bits, at most 2^32 - 1.
#[derive(Debug, Drop)]
pub struct Row {
    bits: Vec<bool>,
}

impl Model for Row {
    ghost use Rattle.std.specs.Prelude.{List, Bool, length, ◌<◌, ◌^◌};

    ghost Value = { List Bool };

    ghost view = { λ a. a.bits.items };

    ghost invariant = { λ a. length a.bits.items < 2 ^ 32 };
}

impl Row {
    /// `len` bits, each 0.
    pub fn zeros(alloc: Global, len: u32) -> Result<Row, Memory>
        ensures { IfOk result (λ row. row ≡ replicate len false) }
    {
        Ok(Row {
            bits: vec![in alloc; false; len as usize]?,
        })
    }

    /// These bits in order.
    pub fn from_bits(bits: Vec<bool>) -> Row
        requires { vec_len bits < 2 ^ 32 }
        ensures { result ≡ bits.items }
    {
        Row { bits }
    }

    /// `len` bits, each 1.
    pub fn ones(alloc: Global, len: u32) -> Result<Row, Memory>
        ensures { IfOk result (λ row. row ≡ replicate len true) }
    {
        Ok(Row {
            bits: vec![in alloc; true; len as usize]?,
        })
    }

    pub fn len(&self) -> u32
        ensures { result ≡ length self.now }
    {
        self.bits.len() as u32
    }

    pub fn as_slice(&self) -> &[bool]
        ensures value { result.now ≡ self.now }
        ensures short { length self.now < 2 ^ 32 }
    {
        self.bits.as_slice()
    }

    pub fn get(&self, at: u32) -> bool
        requires { at < length self.now }
        ensures { result ≡ bit self.now at }
    {
        self.bits[at as usize]
    }

    pub fn set(&mut self, at: u32, bit: bool)
        requires { at < length self.old }
        ensures { self.new ≡ slice_set self.old at bit }
    {
        self.bits[at as usize] = bit;
    }

    pub fn copy(&self, alloc: Global) -> Result<Row, Memory>
        ensures { IfOk result (λ row. row ≡ self.now) }
    {
        Ok(Row {
            bits: Vec::from_slice(alloc, self.bits.as_slice())?,
        })
    }
}

/// At least one row, and at most 2^32 - 1.
#[derive(Debug, Drop)]
pub struct Rows {
    rows: Vec<Row>,
}

impl Model for Rows {
    ghost use Rattle.std.specs.Prelude.{List, Bool, length, ◌<◌, ◌^◌};

    ghost Value = { List (List Bool) };

    ghost view = { λ a. a.rows.items };

    ghost invariant = { λ a. (0 < length a.rows.items) × (length a.rows.items < 2 ^ 32) };
}

impl Rows {
    pub fn one(alloc: Global, first: Row) -> Result<Rows, Memory>
        ensures { IfOk result (λ rows. rows ≡ first ∷ []) }
    {
        let mut rows = Vec::new(alloc);
        rows.push(first)?;
        Ok(Rows { rows })
    }

    /// At least 1.
    pub fn len(&self) -> u32
        ensures len { result ≡ length self.now }
        ensures some { 0 < result }
    {
        self.rows.len() as u32
    }

    pub fn get(&self, at: u32) -> &Row
        requires { at < length self.now }
        ensures { slice_get self.now at ≡ Some result.now }
    {
        &self.rows[at as usize]
    }

    pub fn as_slice(&self) -> &[Row]
        ensures value { result.now ≡ self.now }
        ensures some { 0 < length self.now }
        ensures short { length self.now < 2 ^ 32 }
    {
        self.rows.as_slice()
    }

    /// A row that finds no place is dropped.
    pub fn push(&mut self, row: Row) -> Result<(), Memory>
        ensures ok { OnOk result (self.new ≡ self.old ++ row ∷ []) }
        ensures err { OnErr result (self.new ≡ self.old) }
    {
        if self.rows.len() >= u32::MAX as usize {
            return Err(Memory);
        }
        self.rows.push(row)?;
        Ok(())
    }

    pub fn copy(&self, alloc: Global) -> Result<Rows, Memory>
        ensures { IfOk result (λ rows. rows ≡ self.now) }
    {
        let mut rows = Vec::new(alloc);
        for row in self.as_slice() {
            rows.push(row.copy(alloc)?)?;
        }
        Ok(Rows { rows })
    }
}
