//! What a store keeps at an object, and the places of the objects of one name.

ghost use Rattle.std.specs.Prelude.{◌≡◌, ◌<◌, ℕ, None, Some, true, is_some, IfOk, IfSome, OnOk, OnErr};
ghost use Rattle.std.specs.Option.{option_copied};
ghost use Rattle.om_foot.specs.declared.part.Part.{Part};
ghost use Rattle.om_foot.specs.declared.part.Part.TheVariants as parts;
ghost use Rattle.om_foot.specs.Parts.{part_of};
ghost use Rattle.om_cells.specs.Places.{value_at, PutsAt, StaysAt};

use om_foot::part::{Part, part_of};
use om_foot::{Access, ObjectAccesses, SharedAccess, SlotName};
use om_seq::AllocResult;
use om_state::Val;
use std::alloc::Global;
use std::collections::BTreeMap;
use std::marker::Model;
use std::mem;

/// The value that is kept at an object.
///
/// Contracts see the value alone.
#[derive(Drop)]
pub struct Place {
    /// The object, with its accesses, for all that name it.
    pub(crate) accesses: ObjectAccesses,
    value: Val,
}

impl Model for Place {
    ghost use Rattle.om_state.specs.declared.value.Val.{Val};

    ghost Value = { Val };

    ghost view = { λ p. p.value };
}

impl Place {
    /// The place of an object with a value.
    pub fn of(accesses: ObjectAccesses, value: Val) -> Place
        ensures { result ≡ value }
    {
        Place { accesses, value }
    }

    /// The value.
    pub fn value(&self) -> &Val
        ensures { result.now ≡ self.now }
    {
        &self.value
    }

    /// Puts a value, and answers the one before. It takes no memory.
    pub fn put(&mut self, value: Val) -> Val
        ensures before { result ≡ self.old }
        ensures after { self.new ≡ value }
    {
        mem::replace(&mut self.value, value)
    }
}

/// The places that are kept of the objects of one name, or of those without a name.
///
/// Contracts see the value that is kept at each part, as `value_at`.
#[derive(Drop)]
pub struct Places {
    places: BTreeMap<Part, Place>,
}

impl Model for Places {
    ghost use Rattle.om_cells.specs.Places.{Places};

    ghost Value = { Places };

    ghost view = { λ p. p.places.entries };
}

impl Places {
    /// No places. It takes no memory.
    pub fn new(alloc: Global) -> Places
        ensures { (q : Part) → value_at result q ≡ None }
    {
        Places {
            places: BTreeMap::new(alloc),
        }
    }

    /// The place at a part, if one is kept.
    pub fn get(&self, part: &Part) -> Option<&Place>
        ensures { option_copied result ≡ value_at self.now part.now }
    {
        self.places.get(part)
    }

    /// Keeps a place at a part. When out of memory, what is kept stays.
    pub fn enter(&mut self, part: Part, place: Place) -> AllocResult<()>
        ensures entered { OnOk result (PutsAt part (Some place) self.old self.new) }
        ensures unchanged_on_error { OnErr result (StaysAt self.old self.new) }
    {
        drop(self.places.insert(part, place)?);
        Ok(())
    }

    /// Puts a value at a part that is kept, and answers the one before. It takes no memory.
    pub fn put(&mut self, part: &Part, value: Val) -> Val
        requires { is_some (value_at self.old part.now) ≡ true }
        ensures before { Some result ≡ value_at self.old part.now }
        ensures after { PutsAt part.now (Some value) self.old self.new }
    {
        match self.places.get_mut(part) {
            Some(place) => place.put(value),
            None => unreachable!(),
        }
    }

    /// An access, shared with the place at its object's part; `None` where none is kept there. Its only error
    /// is out of memory. What is kept stays.
    pub fn share(&mut self, alloc: Global, access: &Access) -> AllocResult<Option<SharedAccess>>
        ensures shared { IfOk result (λ found. IfSome found (λ shared. shared ≡ access.now)) }
        ensures found { IfOk result
            (λ found. is_some found ≡ is_some (value_at self.old (part_of access.now.object))) }
        ensures stays { StaysAt self.old self.new }
    {
        match self.places.get_mut(&part_of(&access.object)) {
            Some(place) => Ok(Some(place.accesses.share(alloc, access)?)),
            None => Ok(None),
        }
    }

    /// Keeps nothing at a part. It takes no memory.
    pub fn remove(&mut self, part: &Part)
        ensures { PutsAt part.now None self.old self.new }
    {
        drop(self.places.remove(part));
    }

    /// Whether none of the first cells of a slot is kept.
    pub fn holds_none(&self, slot: &SlotName, count: u32) -> bool
        ensures { result ≡ true → (i : ℕ) → i < count
            → value_at self.now (parts.Cell slot.now.frame slot.now.slot i) ≡ None }
    {
        let first = part_of(&slot.cell(0));
        let end = part_of(&slot.cell(count));
        self.places.range(&first..&end).next().is_none()
    }
}
