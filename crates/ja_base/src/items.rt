//! The one list type: contracts see it as a list.

ghost use Rattle.std.specs.Prelude.{◌≡◌, ◌^◌, ◌<◌, ◌↔◌, [], ◌∷◌, ◌++◌, List, length, Some, slice_get, slice_set, vec_len, IfSome, IsNone, OnOk, OnErr};

use crate::Lit;
use crate::memory::Memory;
use std::alloc::Global;
use std::marker::Model;

/// At most 2^32 - 1 items in order. It keeps the allocator that it was made with.
#[derive(Debug, Drop)]
pub struct Items<T> {
    items: Vec<T>,
}

impl<T> Model for Items<T> {
    ghost use Rattle.std.specs.Prelude.{List, length, ◌<◌, ◌^◌};

    ghost Value = { List T };

    ghost view = { λ a. a.items.items };

    ghost invariant = { λ a. length a.items.items < 2 ^ 32 };
}

/// A list of literals.
pub type Lits = Items<Lit>;

/// A list of properties, by number.
pub type Props = Items<u32>;

impl<T> Items<T> {
    pub fn new(alloc: Global) -> Items<T>
        ensures { result ≡ [] }
    {
        Items {
            items: Vec::new(alloc),
        }
    }

    /// The items of a vector, without a copy.
    pub fn from_vec(items: Vec<T>) -> Items<T>
        requires { vec_len items < 2 ^ 32 }
        ensures { result ≡ items.items }
    {
        Items { items }
    }

    /// The vector of the items, without a copy.
    pub fn into_vec(self) -> Vec<T>
        ensures { result.items ≡ self }
    {
        self.items
    }

    pub fn len(&self) -> u32
        ensures { result ≡ length self.now }
    {
        self.items.len() as u32
    }

    pub fn get(&self, at: u32) -> &T
        requires { at < length self.now }
        ensures { slice_get self.now at ≡ Some result.now }
    {
        &self.items[at as usize]
    }

    pub fn as_slice(&self) -> &[T]
        ensures value { result.now ≡ self.now }
        ensures short { length self.now < 2 ^ 32 }
    {
        self.items.as_slice()
    }

    /// An item that finds no place is dropped.
    pub fn push(&mut self, item: T) -> Result<(), Memory>
    where
        T: Drop,
        ensures ok { OnOk result (self.new ≡ self.old ++ item ∷ []) }
        ensures err { OnErr result (self.new ≡ self.old) }
    {
        if self.items.len() >= u32::MAX as usize {
            return Err(Memory);
        }
        self.items.push(item)?;
        Ok(())
    }

    /// Takes the last item away, if there is one.
    pub fn pop(&mut self) -> Option<T>
        ensures some { IfSome result (λ item. self.old ≡ self.new ++ item ∷ []) }
        ensures none { IsNone result ↔ (self.old ≡ []) }
        ensures empty { IsNone result → self.new ≡ [] }
    {
        self.items.pop()
    }

    /// Puts an item in the place of another, which is dropped.
    pub fn set(&mut self, at: u32, item: T)
    where
        T: Drop,
        requires { at < length self.old }
        ensures { self.new ≡ slice_set self.old at item }
    {
        self.items[at as usize] = item;
    }

    /// Moves the items of another list behind these; where they find no place they are dropped.
    pub fn append(&mut self, more: Items<T>) -> Result<(), Memory>
    where
        T: Drop,
        ensures ok { OnOk result (self.new ≡ self.old ++ more) }
        ensures err { OnErr result (self.new ≡ self.old) }
    {
        if more.items.len() > u32::MAX as usize - self.items.len() {
            return Err(Memory);
        }
        let mut more = more.items;
        self.items.append(&mut more)?;
        Ok(())
    }
}
