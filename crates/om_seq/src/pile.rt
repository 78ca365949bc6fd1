//! A stack of items: contracts see them from the top down.

ghost use Rattle.std.specs.Prelude.{◌≡◌, ◌++◌, ◌↔◌, ◌≤◌, [], ◌∷◌, IsTrue, IfOk, IfErr, OnOk, OnErr, length, drop, slice_get, reverse, option_map};

use crate::AllocResult;
use std::alloc::{AllocFailed, Global};
use std::marker::Model;

/// A stack of items, kept as a vector whose last item is the top.
///
/// Contracts see the list of its items, the top one first.
#[derive(Drop)]
pub struct Pile<T> {
    items: Vec<T>,
}

impl<T> Model for Pile<T> {
    ghost use Rattle.std.specs.Prelude.{List, reverse};

    ghost Value = { List T };

    ghost view = { λ p. reverse p.items.items };
}

impl<T> Pile<T> {
    /// The empty stack. It takes no memory.
    pub fn new(alloc: Global) -> Pile<T>
        ensures { result ≡ [] }
    {
        Pile {
            items: Vec::new(alloc),
        }
    }

    /// The stack of a vector's items, the last one on top. It takes no memory.
    pub fn of(items: Vec<T>) -> Pile<T>
        ensures { result ≡ reverse items.items }
    {
        Pile { items }
    }

    /// How many items there are.
    pub fn len(&self) -> usize
        ensures { result ≡ length self.now }
    {
        self.items.len()
    }

    /// Whether there is no item.
    pub fn is_empty(&self) -> bool
        ensures { IsTrue result ↔ (self.now ≡ []) }
    {
        self.items.is_empty()
    }

    /// The items as a slice, the top one last.
    pub fn as_slice(&self) -> &[T]
        ensures { reverse result.now ≡ self.now }
    {
        self.items.as_slice()
    }

    /// Pushes an item. When out of memory, the stack is unchanged, and the item comes back.
    pub fn push(&mut self, item: T) -> Result<(), AllocFailed<T>>
        ensures pushed { OnOk result (self.new ≡ item ∷ self.old) }
        ensures unchanged_on_error { OnErr result (self.new ≡ self.old) }
        ensures item_back { IfErr result (λ failed. failed.value ≡ item) }
    {
        self.items.push(item)
    }

    /// Takes the top item off; `None` exactly where there is none. It takes no memory.
    pub fn pop(&mut self) -> Option<T>
        ensures top { result ≡ slice_get self.old 0 }
        ensures rest { self.new ≡ drop 1 self.old }
    {
        self.items.pop()
    }

    /// The top item; `None` exactly where there is none.
    pub fn top(&self) -> Option<&T>
        ensures { option_map (λ t. t.now) result ≡ slice_get self.now 0 }
    {
        self.items.last()
    }

    /// The item at this depth, the top one at 0; `None` exactly where there is none.
    pub fn get(&self, depth: usize) -> Option<&T>
        ensures { option_map (λ t. t.now) result ≡ slice_get self.now depth }
    {
        if depth >= self.items.len() {
            return None;
        }
        self.items.get(self.items.len() - 1 - depth)
    }

    /// A copy of a stack of plain items; its only error is out of memory.
    pub fn copy(&self, alloc: Global) -> AllocResult<Pile<T>>
    where
        T: Copy,
        ensures { IfOk result (λ copy. copy ≡ self.now) }
    {
        Ok(Pile {
            items: Vec::from_slice(alloc, self.items.as_slice())?,
        })
    }
}
