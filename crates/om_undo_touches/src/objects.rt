//! The touches of objects that are no worker's control.

ghost use Rattle.std.specs.Prelude.{◌≡◌, ℕ, true, false, cond, nat_eq, ◌&&◌, OnOk, OnErr};
ghost use Rattle.om_foot.specs.declared.object.Obj.{Obj};
ghost use Rattle.om_foot.specs.declared.footprint.Mode.{Mode};
ghost use Rattle.om_foot.specs.declared.footprint.Mode.TheVariants as mode;
ghost use Rattle.om_foot.specs.Cells.{cells_of};
ghost use Rattle.om_undo_touches.specs.Slots.{is_cell_in};
ghost use Rattle.om_undo_touches.specs.Touches.{list_of, meets_at, meets, has_object_touch, knows, SameObjects, ObjectsWith, ObjectsWithout, LosesOfEntry};
ghost use Rattle.om_foot.specs.Firsts.{IsFirst};
ghost use Rattle.om_foot.specs.Serials.{has};

use crate::by_mode::Touches;
use om_foot::{Cells, Mode, Obj, SharedAccess, SharedCells, SharedObject, sooner};
use om_seq::AllocResult;
use std::alloc::Global;
use std::collections::BTreeMap;
use std::ops::Bound;

/// For each object its touches.
///
/// Contracts see which entry touches an object, and how (`has_object_touch`).
#[derive(Drop)]
pub struct ObjectTouches {
    objects: BTreeMap<SharedObject, Touches>,
}

// Whether an object is one of these cells.
fn is_cell_in(cells: &Cells, object: &Obj) -> bool
    ensures { result ≡ is_cell_in cells.now object.now }
{
    let Obj::Cell {
        task,
        frame,
        slot,
        index,
    } = object
    else {
        return false;
    };
    *index < cells.count
        && *slot == cells.slot.slot
        && *frame == cells.slot.frame
        && *task == cells.slot.task
}

// The first touch after a serial that conflicts with a write of an object, if it is one of these
// cells.
fn first_if_in(cells: &Cells, object: &Obj, touches: &Touches, serial: u64) -> Option<u64>
    ensures { IsFirst (λ s. is_cell_in cells.now object.now
        && meets_at (λ m s. has (list_of touches.now m) s) mode.Write s) serial result }
{
    if is_cell_in(cells, object) {
        touches.first_conflict(Mode::Write, serial)
    } else {
        None
    }
}

impl ObjectTouches {
    /// No touches. It takes no memory.
    pub(crate) fn new(alloc: Global) -> ObjectTouches
        ensures { (o : Obj) (m : Mode) (s : ℕ) → has_object_touch result o m s ≡ false }
    {
        ObjectTouches {
            objects: BTreeMap::new(alloc),
        }
    }

    // Makes an object known. No touch changes, also when out of memory.
    fn know(&mut self, object: &SharedObject) -> AllocResult<()>
        ensures same { SameObjects self.old self.new }
        ensures known { OnOk result (knows self.new object.now ≡ true) }
    {
        if self.objects.contains_key(object) {
            return Ok(());
        }
        let key = object.copy()?;
        drop(self.objects.insert(key, Touches::new())?);
        Ok(())
    }

    // Adds a touch of an object that is known. When out of memory, no touch changes.
    fn add_known(&mut self, alloc: Global, access: &SharedAccess, serial: u64) -> AllocResult<()>
        requires { knows self.old access.now.object ≡ true }
        ensures added { OnOk result (ObjectsWith access.now serial self.old self.new) }
        ensures unchanged_on_error { OnErr result (SameObjects self.old self.new) }
    {
        match self.objects.get_mut(access.object()) {
            Some(touches) => touches.add(alloc, access.mode(), serial),
            None => unreachable!(),
        }
    }

    // Makes an object known, and adds its first touch. When out of memory, no touch changes.
    fn add_first(&mut self, alloc: Global, access: &SharedAccess, serial: u64) -> AllocResult<()>
        ensures added { OnOk result (ObjectsWith access.now serial self.old self.new) }
        ensures unchanged_on_error { OnErr result (SameObjects self.old self.new) }
    {
        self.know(access.object())?;
        self.add_known(alloc, access, serial)
    }

    /// Adds a touch; an object that is known is sought once. When out of memory, no touch changes.
    pub(crate) fn add(
        &mut self,
        alloc: Global,
        access: &SharedAccess,
        serial: u64,
    ) -> AllocResult<()>
        ensures added { OnOk result (ObjectsWith access.now serial self.old self.new) }
        ensures unchanged_on_error { OnErr result (SameObjects self.old self.new) }
    {
        match self.objects.get_mut(access.object()) {
            Some(touches) => touches.add(alloc, access.mode(), serial),
            None => self.add_first(alloc, access, serial),
        }
    }

    /// Takes a touch out, if it is there. It takes no memory.
    pub(crate) fn remove(&mut self, access: &SharedAccess, serial: u64)
        ensures { ObjectsWithout access.now serial self.old self.new }
    {
        match self.objects.get_mut(access.object()) {
            Some(touches) => touches.remove(access.mode(), serial),
            None => {}
        }
    }

    /// The first touch after a serial that conflicts with an access.
    pub(crate) fn first_at(&self, access: &SharedAccess, serial: u64) -> Option<u64>
        ensures { IsFirst (meets_at (has_object_touch self.now access.now.object) access.now.mode)
            serial result }
    {
        match self.objects.get(access.object()) {
            Some(touches) => touches.first_conflict(access.mode(), serial),
            None => None,
        }
    }

    /// The first touch after a serial, of any mode, of one of these cells: a write conflicts with each.
    pub(crate) fn first_in(&self, cells: &SharedCells, serial: u64) -> Option<u64>
        ensures { IsFirst (meets (has_object_touch self.now) (cells_of cells.now)) serial result }
    {
        let all = cells.cells();
        let mut first = None;
        for (object, touches) in self.objects.range((
            Bound::Included(cells.first()),
            Bound::Excluded(cells.end()),
        )) {
            first = sooner(first, first_if_in(&all, object.get(), touches, serial));
        }
        first
    }

    // Whether an entry may touch one of these cells.
    fn may_touch(&self, cells: &SharedCells, serial: u64) -> bool
        ensures { result ≡ false
            → meets (has_object_touch self.now) (cells_of cells.now) serial ≡ false }
    {
        let Some(before) = serial.checked_sub(1) else {
            return true;
        };
        match self.first_in(cells, before) {
            Some(first) => first == serial,
            None => false,
        }
    }

    // Takes all touches of an entry out. It takes no memory.
    fn forget(&mut self, serial: u64)
        ensures { (o : Obj) (m : Mode) (s : ℕ) → has_object_touch self.new o m s
            ≡ cond (nat_eq serial s) false (has_object_touch self.old o m s) }
    {
        self.objects.retain(move |_, touches| {
            touches.forget(serial);
            true
        });
    }

    /// Takes the touches of these cells by an entry out, and perhaps others of the same entry, which
    /// `TouchLists::remove_all` takes out too. Mostly there are none, since an entry that names cells at once
    /// names none of them singly. It takes no memory.
    pub(crate) fn remove_in(&mut self, cells: &SharedCells, serial: u64)
        ensures { LosesOfEntry (cells_of cells.now) serial (has_object_touch self.old)
            (has_object_touch self.new) }
    {
        if self.may_touch(cells, serial) {
            self.forget(serial);
        }
    }
}
