//! A stack that several owners share, and whose items they share too.

ghost use Rattle.std.specs.Prelude.{◌≡◌, [], IfOk, reverse};

use om_foot::Shared;
use om_seq::{AllocResult, Pile};
use std::alloc::Global;
use std::marker::Model;

/// A stack of items that its copies share.
///
/// Contracts see the list of its items, the top one first. A copy costs the same for any number of
/// items.
#[derive(Drop)]
pub struct SharedPile<T> {
    items: Shared<Pile<Shared<T>>>,
}

impl<T> Model for SharedPile<T> {
    ghost use Rattle.std.specs.Prelude.{List};

    ghost Value = { List T };

    ghost view = { λ p. p.items };
}

impl<T> SharedPile<T> {
    /// The empty stack; its only error is out of memory.
    pub fn new(alloc: Global) -> AllocResult<SharedPile<T>>
    where
        T: Drop,
        ensures { IfOk result (λ pile. pile ≡ []) }
    {
        Ok(SharedPile {
            items: Shared::of(alloc, Pile::new(alloc))?,
        })
    }

    /// The stack of a vector's items, the last one on top; its only error is out of memory.
    pub fn of(alloc: Global, items: Vec<Shared<T>>) -> AllocResult<SharedPile<T>>
    where
        T: Drop,
        ensures { IfOk result (λ pile. pile ≡ reverse items.items) }
    {
        Ok(SharedPile {
            items: Shared::of(alloc, Pile::of(items))?,
        })
    }

    /// The shared items, as a stack.
    pub fn shares(&self) -> &Pile<Shared<T>>
        ensures { result.now ≡ self.now }
    {
        self.items.get()
    }

    /// The same stack for one owner more; its only error is out of memory, where it has 2^63 owners.
    pub fn copy(&self) -> AllocResult<SharedPile<T>>
        ensures { IfOk result (λ pile. pile ≡ self.now) }
    {
        Ok(SharedPile {
            items: self.items.copy()?,
        })
    }
}
