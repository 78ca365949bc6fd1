//! Accesses of objects that a store shares, as undo records keep them.

ghost use Rattle.std.specs.Prelude.{◌≡◌, IfOk};

use crate::footprint::{Access, Mode};
use crate::shared::Shared;
use crate::shared_object::SharedObject;
use om_seq::AllocResult;
use std::alloc::Global;
use std::marker::Model;

// A shared object, and how it is accessed.
//
// Contracts see the access alone.
#[derive(Drop)]
struct ObjectAccess {
    object: SharedObject,
    mode: Mode,
}

impl Model for ObjectAccess {
    ghost use Rattle.om_foot.specs.declared.footprint.Access.{Access};

    ghost Value = { Access };

    ghost view = { λ a. record { object = a.object; mode = a.mode } };
}

/// An access of a shared object. Its copies share it, and each takes 8 bytes.
///
/// Contracts see the access alone.
pub struct SharedAccess {
    access: Shared<ObjectAccess>,
}

// By hand: other crates call this, and do not prove anew how each part is dropped.
impl Drop for SharedAccess {
    fn drop(self) {
        let SharedAccess { access } = self;
        drop(access);
    }
}

impl Model for SharedAccess {
    ghost use Rattle.om_foot.specs.declared.footprint.Access.{Access};

    ghost Value = { Access };

    ghost view = { λ a. a.access };
}

impl SharedAccess {
    /// The access of an object with a mode, which nothing shares yet. Its only error is out of memory.
    pub fn of(alloc: Global, object: SharedObject, mode: Mode) -> AllocResult<SharedAccess>
        ensures { IfOk result (λ shared. shared ≡ record { object = object; mode = mode }) }
    {
        Ok(SharedAccess {
            access: Shared::of(alloc, ObjectAccess { object, mode })?,
        })
    }

    /// An access that shares nothing with another. Its only error is out of memory.
    pub fn new(alloc: Global, access: &Access) -> AllocResult<SharedAccess>
        ensures { IfOk result (λ shared. shared ≡ access.now) }
    {
        let object = SharedObject::of(alloc, &access.object)?;
        SharedAccess::of(alloc, object, access.mode)
    }

    /// Its object.
    pub fn object(&self) -> &SharedObject
        ensures { result.now ≡ self.now.object }
    {
        &self.access.get().object
    }

    /// Its mode.
    pub fn mode(&self) -> Mode
        ensures { result ≡ self.now.mode }
    {
        self.access.get().mode
    }

    /// The same access for one owner more; its only error is out of memory.
    pub fn copy(&self) -> AllocResult<SharedAccess>
        ensures { IfOk result (λ shared. shared ≡ self.now) }
    {
        Ok(SharedAccess {
            access: self.access.copy()?,
        })
    }

    /// A copy of the access that shares nothing.
    pub fn access(&self) -> Access
        ensures { result ≡ self.now }
    {
        Access {
            object: *self.object().get(),
            mode: self.mode(),
        }
    }
}
