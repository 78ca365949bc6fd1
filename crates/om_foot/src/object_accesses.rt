//! Objects with their accesses, for all that name them.

ghost use Rattle.std.specs.Prelude.{◌≡◌, IfOk, IfSome};
ghost use Rattle.om_foot.specs.declared.footprint.Mode.TheVariants as modes;

use crate::footprint::{Access, Mode};
use crate::object::Obj;
use crate::shared_access::SharedAccess;
use crate::shared_object::SharedObject;
use om_seq::AllocResult;
use std::alloc::Global;
use std::marker::Model;

/// An object behind a pointer, with its access of each mode that was asked for.
///
/// Contracts see the object alone.
#[derive(Drop)]
pub struct ObjectAccesses {
    object: SharedObject,
    read: Option<SharedAccess>,
    write: Option<SharedAccess>,
    add: Option<SharedAccess>,
}

impl Model for ObjectAccesses {
    ghost use Rattle.std.specs.Prelude.{◌≡◌, IfSome};
    ghost use Rattle.om_foot.specs.declared.footprint.Mode.TheVariants as modes;
    ghost use Rattle.om_foot.specs.declared.object.Obj.{Obj};

    ghost Value = { Obj };

    ghost view = { λ a. a.object };

    ghost invariant = { λ a.
        IfSome a.read (λ shared. shared ≡ record { object = a.object; mode = modes.Read })
        × IfSome a.write (λ shared. shared ≡ record { object = a.object; mode = modes.Write })
        × IfSome a.add (λ shared. shared ≡ record { object = a.object; mode = modes.Add }) };
}

// An object's access with a mode, made where it was not asked for before.
fn access_of(
    alloc: Global,
    object: &SharedObject,
    made: &mut Option<SharedAccess>,
    mode: Mode,
) -> AllocResult<SharedAccess>
    requires { IfSome made.old (λ shared. shared ≡ record { object = object.now; mode = mode }) }
    ensures shared { IfOk result (λ shared. shared ≡ record { object = object.now; mode = mode }) }
    ensures made { IfSome made.new (λ shared. shared ≡ record { object = object.now; mode = mode }) }
{
    if let Some(shared) = made {
        return shared.copy();
    }
    let shared = SharedAccess::of(alloc, object.copy()?, mode)?;
    *made = Some(shared.copy()?);
    Ok(shared)
}

impl ObjectAccesses {
    /// An object of which no access was asked for. Its only error is out of memory.
    pub fn of(alloc: Global, object: &Obj) -> AllocResult<ObjectAccesses>
        ensures { IfOk result (λ accesses. accesses ≡ object.now) }
    {
        Ok(ObjectAccesses {
            object: SharedObject::of(alloc, object)?,
            read: None,
            write: None,
            add: None,
        })
    }

    /// An access, shared with all that asked for it before where it is one of this object. Its only error is
    /// out of memory.
    pub fn share(&mut self, alloc: Global, access: &Access) -> AllocResult<SharedAccess>
        ensures shared { IfOk result (λ shared. shared ≡ access.now) }
        ensures stays { self.new ≡ self.old }
    {
        if self.object.get() != &access.object {
            return SharedAccess::new(alloc, access);
        }
        match access.mode {
            Mode::Read => access_of(alloc, &self.object, &mut self.read, Mode::Read),
            Mode::Write => access_of(alloc, &self.object, &mut self.write, Mode::Write),
            Mode::Add => access_of(alloc, &self.object, &mut self.add, Mode::Add),
        }
    }
}
