//! The writes of cells that were named at once, by their slot.

ghost use Rattle.std.specs.Prelude.{◌≡◌, ℕ, ◌∷◌, [], true, false, take as first_so_many, OnOk, OnErr};
ghost use Rattle.om_foot.specs.declared.object.Obj.{Obj};
ghost use Rattle.om_foot.specs.declared.footprint.Mode.{Mode};
ghost use Rattle.om_foot.specs.Cells.{cells_of, cells_listed};
ghost use Rattle.om_undo_touches.specs.Slots.{has_span, spans_of, SameSlots, SlotsWith, SlotsWithout};
ghost use Rattle.om_foot.specs.Firsts.{IsFirst};
ghost use Rattle.om_undo_touches.specs.Touches.{meets, has_slot_write, has_slot_touch, IsSet, LosesOfEntry};

use crate::spans::Spans;
use om_foot::object::spot_of;
use om_foot::{Obj, SharedCells, SlotName};
use om_seq::AllocResult;
use std::alloc::Global;
use std::collections::BTreeMap;

/// For each slot the writes of its beginnings, each so many of its first cells. A run without arrays has
/// none, and then nothing is sought here.
///
/// Contracts see which entry touches a cell so (`has_slot_touch`).
#[derive(Drop)]
pub struct SlotTouches {
    slots: BTreeMap<SlotName, Spans>,
}

impl SlotTouches {
    /// No touches. It takes no memory.
    pub(crate) fn new(alloc: Global) -> SlotTouches
        ensures { (o : Obj) (m : Mode) (s : ℕ) → has_slot_touch result o m s ≡ false }
    {
        SlotTouches {
            slots: BTreeMap::new(alloc),
        }
    }

    // Adds the first writes of a slot. When out of memory, no touch changes.
    fn add_first(
        &mut self,
        alloc: Global,
        slot: &SlotName,
        count: u32,
        serial: u64,
    ) -> AllocResult<()>
        requires { (i s : ℕ) → has_span (spans_of self.old slot.now) i s ≡ false }
        ensures added { OnOk result (SlotsWith slot.now count serial self.old self.new) }
        ensures unchanged_on_error { OnErr result (SameSlots self.old self.new) }
    {
        let mut spans = Spans::new(alloc);
        spans.add(alloc, count, serial)?;
        drop(self.slots.insert(*slot, spans)?);
        Ok(())
    }

    // Adds the writes of so many cells of a slot. When out of memory, no touch changes.
    fn add_of(&mut self, alloc: Global, slot: &SlotName, count: u32, serial: u64) -> AllocResult<()>
        ensures added { OnOk result (SlotsWith slot.now count serial self.old self.new) }
        ensures unchanged_on_error { OnErr result (SameSlots self.old self.new) }
    {
        match self.slots.get_mut(slot) {
            Some(spans) => spans.add(alloc, count, serial),
            None => self.add_first(alloc, slot, count, serial),
        }
    }

    /// Adds the touches of cells. When out of memory, no touch changes.
    pub(crate) fn add(&mut self, alloc: Global, cells: &SharedCells, serial: u64) -> AllocResult<()>
        ensures added { OnOk result
            (IsSet true (cells_of cells.now) serial (has_slot_touch self.old) (has_slot_touch self.new)) }
        ensures unchanged_on_error { OnErr result
            (IsSet true [] serial (has_slot_touch self.old) (has_slot_touch self.new)) }
    {
        let cells = cells.cells();
        self.add_of(alloc, &cells.slot, cells.count, serial)
    }

    /// Adds the touches of all of these cells. When out of memory, those of some cells in front are
    /// added.
    pub(crate) fn add_each(
        &mut self,
        alloc: Global,
        all: &[SharedCells],
        serial: u64,
    ) -> AllocResult<()>
        ensures added { OnOk result
            (IsSet true (cells_listed all.now) serial (has_slot_touch self.old) (has_slot_touch self.new)) }
        ensures some_on_error { OnErr result ((n : ℕ) × IsSet true (first_so_many n (cells_listed all.now)) serial
            (has_slot_touch self.old) (has_slot_touch self.new)) }
    {
        for cells in all {
            match self.add(alloc, cells, serial) {
                Ok(()) => {}
                Err(error) => return Err(error),
            }
        }
        Ok(())
    }

    // Takes the writes of a slot by an entry out, if there are any. It takes no memory.
    fn remove_of(&mut self, slot: &SlotName, serial: u64)
        ensures { SlotsWithout slot.now serial self.old self.new }
    {
        match self.slots.get_mut(slot) {
            Some(spans) => spans.remove(serial),
            None => {}
        }
    }

    /// Takes the touches of the slot of these cells by an entry out. It takes no memory.
    pub(crate) fn remove(&mut self, cells: &SharedCells, serial: u64)
        ensures { LosesOfEntry (cells_of cells.now) serial (has_slot_touch self.old)
            (has_slot_touch self.new) }
    {
        let cells = cells.cells();
        self.remove_of(&cells.slot, serial);
    }

    /// Takes the touches of the slot of a cell by an entry out, if the object is a cell. It takes no
    /// memory.
    pub(crate) fn remove_at(&mut self, object: &Obj, serial: u64)
        ensures { (m : Mode) → LosesOfEntry (record { object = object.now; mode = m } ∷ []) serial
            (has_slot_touch self.old) (has_slot_touch self.new) }
    {
        if self.slots.is_empty() {
            return;
        }
        if let Some((slot, _)) = spot_of(object) {
            self.remove_of(&slot, serial);
        }
    }

    // The first write after a serial of the cell of an index.
    fn first_of(&self, slot: &SlotName, index: u32, serial: u64) -> Option<u64>
        ensures { IsFirst (has_span (spans_of self.now slot.now) index) serial result }
    {
        match self.slots.get(slot) {
            Some(spans) => spans.first_at(index, serial),
            None => None,
        }
    }

    /// The first touch of an object after a serial.
    pub(crate) fn first_at(&self, object: &Obj, serial: u64) -> Option<u64>
        ensures { IsFirst (has_slot_write self.now object.now) serial result }
    {
        if self.slots.is_empty() {
            return None;
        }
        match spot_of(object) {
            Some((slot, index)) => self.first_of(&slot, index, serial),
            None => None,
        }
    }

    /// The first touch after a serial of one of these cells. Two beginnings of a slot have a cell in
    /// common, its first, unless one has none.
    pub(crate) fn first_in(&self, cells: &SharedCells, serial: u64) -> Option<u64>
        ensures { IsFirst (meets (has_slot_touch self.now) (cells_of cells.now)) serial result }
    {
        let cells = cells.cells();
        if cells.count == 0 {
            return None;
        }
        self.first_of(&cells.slot, 0, serial)
    }
}
