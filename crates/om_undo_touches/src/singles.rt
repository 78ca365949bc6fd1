//! The touches of objects that are named singly: workers' controls, and all others.

ghost use Rattle.std.specs.Prelude.{◌≡◌, ℕ, ◌∷◌, [], true, false, take as first_so_many, OnOk, OnErr};
ghost use Rattle.om_foot.specs.declared.object.Obj.{Obj};
ghost use Rattle.om_foot.specs.declared.object.Obj.TheVariants as obj;
ghost use Rattle.om_foot.specs.declared.footprint.Mode.{Mode};
ghost use Rattle.om_foot.specs.declared.footprint.Mode.TheVariants as mode;
ghost use Rattle.om_foot.specs.Cells.{cells_of};
ghost use Rattle.om_undo_touches.specs.Accesses.{control_write};
ghost use Rattle.om_undo_touches.specs.Touches.{control_of, meets_at, meets, has_single_touch, IsSet, LosesOfEntry};
ghost use Rattle.om_foot.specs.Firsts.{IsFirst};

use crate::controls::ControlTouches;
use crate::objects::ObjectTouches;
use om_foot::{Mode, Obj, SharedAccess, SharedCells};
use om_seq::AllocResult;
use std::alloc::Global;

// The worker whose control an object is.
fn control_of(object: &Obj) -> Option<u8>
    ensures { result ≡ control_of object.now }
{
    let Obj::Control(worker) = object else {
        return None;
    };
    Some(*worker)
}

/// For each object its touches by accesses of it alone.
///
/// Contracts see which entry touches an object so, and how (`has_single_touch`).
#[derive(Drop)]
pub struct SingleTouches {
    // Each step touches its worker's control, so these lie apart, where they are found at once.
    controls: ControlTouches,
    objects: ObjectTouches,
}

impl SingleTouches {
    /// No touches. It takes no memory.
    pub(crate) fn new(alloc: Global) -> SingleTouches
        ensures { (o : Obj) (m : Mode) (s : ℕ) → has_single_touch result o m s ≡ false }
    {
        SingleTouches {
            controls: ControlTouches::new(alloc),
            objects: ObjectTouches::new(alloc),
        }
    }

    // Adds a touch. When out of memory, no touch changes.
    fn add(&mut self, alloc: Global, access: &SharedAccess, serial: u64) -> AllocResult<()>
        ensures added { OnOk result
            (IsSet true (access.now ∷ []) serial (has_single_touch self.old) (has_single_touch self.new)) }
        ensures unchanged_on_error { OnErr result
            ((o : Obj) (m : Mode) (s : ℕ) → has_single_touch self.new o m s ≡ has_single_touch self.old o m s) }
    {
        match control_of(access.object().get()) {
            Some(worker) => self.controls.add(alloc, worker, access.mode(), serial),
            None => self.objects.add(alloc, access, serial),
        }
    }

    /// Adds the touches of accesses. When out of memory, those of some accesses in front are added.
    pub(crate) fn add_each(
        &mut self,
        alloc: Global,
        footprint: &[SharedAccess],
        serial: u64,
    ) -> AllocResult<()>
        ensures added { OnOk result
            (IsSet true footprint.now serial (has_single_touch self.old) (has_single_touch self.new)) }
        ensures some_on_error { OnErr result ((n : ℕ) × IsSet true (first_so_many n footprint.now) serial
            (has_single_touch self.old) (has_single_touch self.new)) }
    {
        for access in footprint {
            match self.add(alloc, access, serial) {
                Ok(()) => {}
                Err(error) => return Err(error),
            }
        }
        Ok(())
    }

    /// Adds the write of a worker's control, and the touches of accesses. When out of memory, those of
    /// some in front are added.
    pub(crate) fn add_front(
        &mut self,
        alloc: Global,
        worker: u8,
        others: &[SharedAccess],
        serial: u64,
    ) -> AllocResult<()>
        ensures added { OnOk result (IsSet true (control_write worker ∷ others.now) serial
            (has_single_touch self.old) (has_single_touch self.new)) }
        ensures some_on_error { OnErr result
            ((n : ℕ) × IsSet true (first_so_many n (control_write worker ∷ others.now)) serial
            (has_single_touch self.old) (has_single_touch self.new)) }
    {
        self.controls.add(alloc, worker, Mode::Write, serial)?;
        self.add_each(alloc, others, serial)
    }

    /// Takes the write of a worker's control out, if it is there. It takes no memory.
    pub(crate) fn remove_control(&mut self, worker: u8, serial: u64)
        ensures { IsSet false (control_write worker ∷ []) serial (has_single_touch self.old)
            (has_single_touch self.new) }
    {
        self.controls.remove(worker, Mode::Write, serial);
    }

    /// Takes a touch out, if it is there. It takes no memory.
    pub(crate) fn remove(&mut self, access: &SharedAccess, serial: u64)
        ensures { IsSet false (access.now ∷ []) serial (has_single_touch self.old) (has_single_touch self.new) }
    {
        match control_of(access.object().get()) {
            Some(worker) => self.controls.remove(worker, access.mode(), serial),
            None => self.objects.remove(access, serial),
        }
    }

    /// Takes the touches of these cells by an entry out, and perhaps others of the same entry, which
    /// `TouchLists::remove_all` takes out too. It takes no memory.
    pub(crate) fn remove_in(&mut self, cells: &SharedCells, serial: u64)
        ensures { LosesOfEntry (cells_of cells.now) serial (has_single_touch self.old)
            (has_single_touch self.new) }
    {
        self.objects.remove_in(cells, serial);
    }

    /// The first touch after a serial that conflicts with the write of a worker's control.
    pub(crate) fn first_at_control(&self, worker: u8, serial: u64) -> Option<u64>
        ensures { IsFirst (meets_at (has_single_touch self.now (obj.Control worker)) mode.Write) serial
            result }
    {
        self.controls.first_at(worker, Mode::Write, serial)
    }

    /// The first touch after a serial that conflicts with an access.
    pub(crate) fn first_at(&self, access: &SharedAccess, serial: u64) -> Option<u64>
        ensures { IsFirst (meets_at (has_single_touch self.now access.now.object) access.now.mode) serial
            result }
    {
        match control_of(access.object().get()) {
            Some(worker) => self.controls.first_at(worker, access.mode(), serial),
            None => self.objects.first_at(access, serial),
        }
    }

    /// The first touch after a serial that conflicts with a write of one of these cells.
    pub(crate) fn first_in(&self, cells: &SharedCells, serial: u64) -> Option<u64>
        ensures { IsFirst (meets (has_single_touch self.now) (cells_of cells.now)) serial result }
    {
        self.objects.first_in(cells, serial)
    }
}
