//! A value that several owners share, and that none of them changes.

ghost use Rattle.std.specs.Prelude.{◌≡◌, IfOk};

use om_seq::AllocResult;
use std::alloc::Global;
use std::marker::Model;
use std::sync::Arc;

/// A value that its copies share.
///
/// Contracts see the value alone. A copy costs the same for a value of any size.
#[derive(Drop)]
pub struct Shared<T> {
    value: Arc<T>,
}

impl<T> Model for Shared<T> {
    ghost use Rattle.std.specs.Arc.{arc_value};

    ghost Value = { T };

    ghost view = { λ s. arc_value s.value };
}

impl<T> Shared<T> {
    /// A value with one owner; its only error is out of memory.
    pub fn of(alloc: Global, value: T) -> AllocResult<Shared<T>>
    where
        T: Drop,
        ensures { IfOk result (λ shared. shared ≡ value) }
    {
        Ok(Shared {
            value: Arc::new(alloc, value)?,
        })
    }

    /// The value.
    pub fn get(&self) -> &T
        ensures { result.now ≡ self.now }
    {
        &self.value
    }

    /// The same value for one owner more; its only error is out of memory, where it has 2^63 owners.
    pub fn copy(&self) -> AllocResult<Shared<T>>
        ensures { IfOk result (λ shared. shared ≡ self.now) }
    {
        Ok(Shared {
            value: Arc::try_clone(&self.value)?,
        })
    }
}
