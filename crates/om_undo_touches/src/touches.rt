//! The touches of objects by the entries of a history, so that the first later one that conflicts
//! with an entry is found without a look at the others.

ghost use Rattle.std.specs.Prelude.{◌≡◌, ℕ, ◌∷◌, [], false, take as first_so_many, OnOk, OnErr};
ghost use Rattle.om_foot.specs.declared.object.Obj.{Obj};
ghost use Rattle.om_foot.specs.declared.footprint.Mode.{Mode};
ghost use Rattle.om_foot.specs.Cells.{cells_of, cells_listed};
ghost use Rattle.om_undo_touches.specs.Accesses.{accesses_of};
ghost use Rattle.om_foot.specs.Firsts.{IsFirst};
ghost use Rattle.om_undo_touches.specs.Touches.{meets_at, meets, has_touch, AreSame, AreWith, AreWithout, AreOnly, LosesOfEntry};

use crate::accesses::Accesses;
use crate::singles::SingleTouches;
use crate::slots::SlotTouches;
use om_foot::{SharedAccess, SharedCells, sooner};
use om_seq::AllocResult;
use std::alloc::Global;

/// For each object its touches.
///
/// Contracts see which entry touches an object, and how (`has_touch`).
pub struct TouchLists {
    // The touches by accesses of single objects.
    singles: SingleTouches,
    // The touches of cells that were named at once.
    slots: SlotTouches,
}

// By hand: other crates call this, and do not prove anew how each part is dropped.
impl Drop for TouchLists {
    fn drop(self) {
        let TouchLists { singles, slots } = self;
        drop(singles);
        drop(slots);
    }
}

impl TouchLists {
    /// Lists without a touch. It takes no memory.
    pub fn new(alloc: Global) -> TouchLists
        ensures { (o : Obj) (m : Mode) (s : ℕ) → has_touch result o m s ≡ false }
    {
        TouchLists {
            singles: SingleTouches::new(alloc),
            slots: SlotTouches::new(alloc),
        }
    }

    /// Adds the touches of an entry. When out of memory, those of some accesses in front are added.
    pub fn add_each(&mut self, alloc: Global, footprint: &Accesses, serial: u64) -> AllocResult<()>
        ensures added { OnOk result (AreWith (accesses_of footprint.now) serial self.old self.new) }
        ensures some_on_error { OnErr result
            ((n : ℕ) × AreWith (first_so_many n (accesses_of footprint.now)) serial self.old self.new) }
    {
        let worker = footprint.worker();
        let (first, cells, last) = footprint.parts();
        self.singles.add_front(alloc, worker, first, serial)?;
        self.slots.add_each(alloc, cells, serial)?;
        self.singles.add_each(alloc, last, serial)
    }

    /// Adds the touches of an entry that has none yet. When out of memory, no touch changes.
    pub fn add_all(&mut self, alloc: Global, footprint: &Accesses, serial: u64) -> AllocResult<()>
        requires { (o : Obj) (m : Mode) → has_touch self.old o m serial ≡ false }
        ensures added { OnOk result (AreWith (accesses_of footprint.now) serial self.old self.new) }
        ensures unchanged_on_error { OnErr result (AreSame self.old self.new) }
    {
        match self.add_each(alloc, footprint, serial) {
            Ok(()) => Ok(()),
            Err(error) => {
                self.remove_all(footprint, serial);
                Err(error)
            }
        }
    }

    // Takes the touches of a single object by an entry out, and perhaps others of the same entry, which
    // `remove_all` takes out too.
    fn remove(&mut self, access: &SharedAccess, serial: u64)
        ensures { LosesOfEntry (access.now ∷ []) serial (has_touch self.old) (has_touch self.new) }
    {
        self.singles.remove(access, serial);
        self.slots.remove_at(access.object().get(), serial);
    }

    // Takes the touches of single objects by an entry out, and perhaps others of the same entry, which
    // `remove_all` takes out too.
    fn remove_each(&mut self, accesses: &[SharedAccess], serial: u64)
        ensures { LosesOfEntry accesses.now serial (has_touch self.old) (has_touch self.new) }
    {
        for access in accesses {
            self.remove(access, serial);
        }
    }

    // Takes the touches of cells by an entry out, and perhaps others of the same entry, which
    // `remove_all` takes out too.
    fn remove_in(&mut self, cells: &SharedCells, serial: u64)
        ensures { LosesOfEntry (cells_of cells.now) serial (has_touch self.old) (has_touch self.new) }
    {
        self.singles.remove_in(cells, serial);
        self.slots.remove(cells, serial);
    }

    // Takes the touches of all of these cells by an entry out, and perhaps others of the same entry,
    // which `remove_all` takes out too.
    fn remove_each_in(&mut self, all: &[SharedCells], serial: u64)
        ensures { LosesOfEntry (cells_listed all.now) serial (has_touch self.old) (has_touch self.new) }
    {
        for cells in all {
            self.remove_in(cells, serial);
        }
    }

    /// Takes the touches of an entry out. It must have none outside of this footprint: where cells were
    /// named at once, others of its touches may be taken out with them. It takes no memory.
    pub fn remove_all(&mut self, footprint: &Accesses, serial: u64)
        requires { AreOnly (accesses_of footprint.now) serial self.old }
        ensures { AreWithout (accesses_of footprint.now) serial self.old self.new }
    {
        let worker = footprint.worker();
        let (first, cells, last) = footprint.parts();
        self.singles.remove_control(worker, serial);
        self.remove_each(first, serial);
        self.remove_each_in(cells, serial);
        self.remove_each(last, serial);
    }

    // The first touch after a serial that conflicts with an access.
    fn first_at(&self, access: &SharedAccess, serial: u64) -> Option<u64>
        ensures { IsFirst (meets_at (has_touch self.now access.now.object) access.now.mode) serial
            result }
    {
        sooner(
            self.singles.first_at(access, serial),
            self.slots.first_at(access.object().get(), serial),
        )
    }

    // The first touch after a serial that conflicts with one of these accesses.
    fn first_of(&self, accesses: &[SharedAccess], serial: u64) -> Option<u64>
        ensures { IsFirst (meets (has_touch self.now) accesses.now) serial result }
    {
        let mut first = None;
        for access in accesses {
            first = sooner(first, self.first_at(access, serial));
        }
        first
    }

    // The first touch after a serial that conflicts with a write of one of these cells.
    fn first_in(&self, cells: &SharedCells, serial: u64) -> Option<u64>
        ensures { IsFirst (meets (has_touch self.now) (cells_of cells.now)) serial result }
    {
        sooner(
            self.singles.first_in(cells, serial),
            self.slots.first_in(cells, serial),
        )
    }

    // The first touch after a serial that conflicts with a write of a cell of all of these.
    fn first_in_any(&self, all: &[SharedCells], serial: u64) -> Option<u64>
        ensures { IsFirst (meets (has_touch self.now) (cells_listed all.now)) serial result }
    {
        let mut first = None;
        for cells in all {
            first = sooner(first, self.first_in(cells, serial));
        }
        first
    }

    /// The serial of the first entry after a serial that conflicts with a footprint: the least one
    /// over its objects. It takes no memory.
    pub fn first_conflict(&self, footprint: &Accesses, serial: u64) -> Option<u64>
        ensures { IsFirst (meets (has_touch self.now) (accesses_of footprint.now)) serial result }
    {
        let control = self.singles.first_at_control(footprint.worker(), serial);
        let (front, cells, last) = footprint.parts();
        let before = sooner(
            self.first_of(front, serial),
            self.first_in_any(cells, serial),
        );
        let others = sooner(before, self.first_of(last, serial));
        sooner(control, others)
    }
}
