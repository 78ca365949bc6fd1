//! Objects that a store shares with what else names them.

ghost use Rattle.std.specs.Prelude.{◌≡◌, IfOk};
ghost use Rattle.om_foot.specs.contracts.object.ObjPartialEq.TheImpl.{eq-value};
ghost use Rattle.om_foot.specs.contracts.object.ObjPartialEq.TheImpl.Laws.{laws-law as eq_laws};
ghost use Rattle.om_foot.specs.contracts.object.ObjEq.TheImpl.Laws.{laws-law as equivalence_laws};
ghost use Rattle.om_foot.specs.contracts.object.ObjPartialOrd.TheImpl.{partial_cmp-value};
ghost use Rattle.om_foot.specs.contracts.object.ObjPartialOrd.TheImpl.Laws.{laws-law as order_laws};
ghost use Rattle.om_foot.specs.contracts.object.ObjOrd.TheImpl.{cmp-value};
ghost use Rattle.om_foot.specs.contracts.object.ObjOrd.TheImpl.Laws.{total-law, matches_partial_cmp-law, matches_eq-law};

use crate::object::Obj;
use crate::shared::Shared;
use om_seq::AllocResult;
use std::alloc::Global;
use std::cmp::Ordering;
use std::marker::Model;

/// An object behind a pointer. An object takes more than 500 bytes, and the records of a long run
/// name the same few objects over and over.
///
/// Contracts see the object alone, and its order.
#[derive(Drop)]
pub struct SharedObject {
    object: Shared<Obj>,
}

impl Model for SharedObject {
    ghost use Rattle.om_foot.specs.declared.object.Obj.{Obj};

    ghost Value = { Obj };

    ghost view = { λ s. s.object };
}

impl PartialEq for SharedObject {
    ghost eq = { λ a b. eq-value.it a b };

    ghost laws = { eq_laws };

    fn eq(&self, other: &Self) -> bool {
        self.object.get() == other.object.get()
    }
}

impl Eq for SharedObject {
    ghost laws = { equivalence_laws };
}

impl PartialOrd for SharedObject {
    ghost partial_cmp = { λ a b. partial_cmp-value.it a b };

    ghost laws = { order_laws };

    fn partial_cmp(&self, other: &Self) -> Option<Ordering> {
        self.object.get().partial_cmp(other.object.get())
    }
}

impl Ord for SharedObject {
    ghost cmp = { λ a b. cmp-value.it a b };

    ghost total = { total-law };

    ghost matches_partial_cmp = { matches_partial_cmp-law };

    ghost matches_eq = { matches_eq-law };

    fn cmp(&self, other: &Self) -> Ordering {
        self.object.get().cmp(other.object.get())
    }
}

impl SharedObject {
    /// An object that nothing shares yet. Its only error is out of memory.
    pub fn of(alloc: Global, object: &Obj) -> AllocResult<SharedObject>
        ensures { IfOk result (λ shared. shared ≡ object.now) }
    {
        Ok(SharedObject {
            object: Shared::of(alloc, *object)?,
        })
    }

    /// The object.
    pub fn get(&self) -> &Obj
        ensures { result.now ≡ self.now }
    {
        self.object.get()
    }

    /// The same object for one owner more; its only error is out of memory.
    pub fn copy(&self) -> AllocResult<SharedObject>
        ensures { IfOk result (λ shared. shared ≡ self.now) }
    {
        Ok(SharedObject {
            object: self.object.copy()?,
        })
    }
}
