//! The cells of a slot in a store, which are kept and written at once.

ghost use Rattle.std.specs.Prelude.{◌≡◌, ◌≤◌, ◌∷◌, [], All, true, IfOk, OnOk, OnErr};
ghost use Rattle.om_foot.specs.declared.object.Obj.{Obj};
ghost use Rattle.om_foot.specs.Cells.{cells_of};
ghost use Rattle.om_state.specs.declared.step.Update.TheVariants as update;
ghost use Rattle.om_state.specs.Runs.{puts_of, was_puts, were_listed};
ghost use Rattle.om_state.specs.State.{updated, taken_back, undo_record};
ghost use Rattle.om_cells.specs.Slots.{KeepsCells, Leads, olds};
ghost use Rattle.om_cells.specs.Stores.{LiesTogether, state_of, is_kept};

use crate::slots::noted;
use crate::store::Store;
use om_code::frame::Cell;
use om_foot::{Cells, SharedCells};
use om_seq::{AllocResult, Seq};
use om_state::was::Noted;
use om_state::{Run, Val, Was};
use std::alloc::Global;

impl Store {
    /// Keeps cells of a slot, with the values that they hold, and answers them, shared with all that name
    /// them. No value changes, also when out of memory.
    pub fn keep_cells(&mut self, alloc: Global, cells: &Cells) -> AllocResult<SharedCells>
        ensures shared { IfOk result (λ shared. shared ≡ cells.now) }
        ensures state { state_of self.new ≡ state_of self.old }
        ensures kept { OnOk result
            (All (λ a. is_kept self.new a.object ≡ true) (cells_of cells.now)) }
        ensures others_kept { (q : Obj) → is_kept self.old q ≡ true → is_kept self.new q ≡ true }
    {
        self.slots.keep(alloc, cells)
    }

    /// Puts a value into cells of a slot that are kept, and answers what they held. When out of memory,
    /// nothing changes.
    pub fn put_cells(
        &mut self,
        alloc: Global,
        cells: &SharedCells,
        cell: Cell,
    ) -> AllocResult<Seq<Was>>
        requires kept { All (λ a. is_kept self.old a.object ≡ true) (cells_of cells.now) }
        ensures was { IfOk result (λ was. were_listed was
            ≡ undo_record (cells_of cells.now) (puts_of cell cells.now.count) (state_of self.old)) }
        ensures state { OnOk result (state_of self.new
            ≡ updated (cells_of cells.now) (puts_of cell cells.now.count) (state_of self.old)) }
        ensures kept { (q : Obj) → is_kept self.new q ≡ is_kept self.old q }
        ensures unchanged_on_error { OnErr result (state_of self.new ≡ state_of self.old) }
    {
        let cells = cells.cells();
        let was = self.noted(alloc, &cells)?;
        let run = Run {
            cell,
            count: cells.count,
        };
        let puts = Seq::one(alloc, Was::Cells(run))?;
        self.write(&cells, puts);
        Ok(was)
    }

    /// Puts what cells of a slot held back into them, which are kept. It takes no memory.
    pub fn put_cells_back(&mut self, cells: &SharedCells, was: Seq<Was>)
        requires kept { All (λ a. is_kept self.old a.object ≡ true) (cells_of cells.now) }
        ensures state { state_of self.new
            ≡ taken_back (cells_of cells.now) (were_listed was) (state_of self.old) }
        ensures kept { (q : Obj) → is_kept self.new q ≡ is_kept self.old q }
    {
        self.write(&cells.cells(), was);
    }

    // Whether cells of a slot lie together, and none of them is kept by itself.
    fn lie_together(&self, cells: &Cells) -> bool
        ensures { result ≡ true → LiesTogether cells.now self.now }
    {
        self.slots.has(cells) && self.named.holds_none(&cells.slot, cells.count)
    }

    // What cells of a slot hold that are kept. Its only error is out of memory.
    fn noted(&self, alloc: Global, cells: &Cells) -> AllocResult<Seq<Was>>
        requires { KeepsCells (is_kept self.now) cells.now }
        ensures { IfOk result (λ was. were_listed was
            ≡ olds cells.now.slot 0 cells.now.count (state_of self.now)) }
    {
        if self.lie_together(cells) {
            noted(alloc, self.slots.values(&cells.slot), cells.count)
        } else {
            self.noted_each(alloc, cells)
        }
    }

    // The same, cell by cell.
    fn noted_each(&self, alloc: Global, cells: &Cells) -> AllocResult<Seq<Was>>
        requires { KeepsCells (is_kept self.now) cells.now }
        ensures { IfOk result (λ was. were_listed was
            ≡ olds cells.now.slot 0 cells.now.count (state_of self.now)) }
    {
        let mut noted = Noted::new(alloc);
        for index in 0..cells.count {
            noted.note(alloc, self.kept(&cells.slot.cell(index)))?;
        }
        noted.into_seq()
    }

    // Puts values into cells of a slot that are kept, the first of them first.
    fn write(&mut self, cells: &Cells, was: Seq<Was>)
        requires { KeepsCells (is_kept self.old) cells.now }
        ensures state { state_of self.new
            ≡ updated (cells_of cells.now) (were_listed was) (state_of self.old) }
        ensures kept { (q : Obj) → is_kept self.new q ≡ is_kept self.old q }
    {
        if self.lie_together(cells) {
            self.slots.put_all(cells, was);
        } else {
            self.write_each(cells, was);
        }
    }

    // The same, cell by cell.
    fn write_each(&mut self, cells: &Cells, was: Seq<Was>)
        requires { KeepsCells (is_kept self.old) cells.now }
        ensures state { state_of self.new
            ≡ updated (cells_of cells.now) (were_listed was) (state_of self.old) }
        ensures kept { (q : Obj) → is_kept self.new q ≡ is_kept self.old q }
    {
        let mut index = 0;
        for each in was.into_vec() {
            index = self.write_one(cells, index, each);
        }
    }

    // Puts values from an index on, and answers the next index.
    fn write_one(&mut self, cells: &Cells, index: u32, was: Was) -> u32
        requires kept { KeepsCells (is_kept self.old) cells.now }
        requires within { index ≤ cells.now.count }
        ensures within { result ≤ cells.now.count }
        ensures written { Leads (was_puts was) cells.now.slot cells.now.count index result
            (state_of self.old) (state_of self.new) }
        ensures kept { (q : Obj) → is_kept self.new q ≡ is_kept self.old q }
    {
        match was {
            Was::Cells(run) => self.write_run(cells, index, &run),
            Was::Value(value) => self.write_at(cells, index, value),
        }
    }

    // Puts the values of a run from an index on, and answers the next index.
    fn write_run(&mut self, cells: &Cells, from: u32, run: &Run) -> u32
        requires kept { KeepsCells (is_kept self.old) cells.now }
        requires within { from ≤ cells.now.count }
        ensures within { result ≤ cells.now.count }
        ensures written { Leads (puts_of run.now.cell run.now.count) cells.now.slot cells.now.count
            from result (state_of self.old) (state_of self.new) }
        ensures kept { (q : Obj) → is_kept self.new q ≡ is_kept self.old q }
    {
        let mut index = from;
        for _turn in 0..run.count {
            index = self.write_at(cells, index, Val::Cell(run.cell));
        }
        index
    }

    // Puts a value at an index, where the slot has such a cell, and answers the next index.
    fn write_at(&mut self, cells: &Cells, index: u32, value: Val) -> u32
        requires kept { KeepsCells (is_kept self.old) cells.now }
        requires within { index ≤ cells.now.count }
        ensures within { result ≤ cells.now.count }
        ensures written { Leads (update.Put value ∷ []) cells.now.slot cells.now.count index result
            (state_of self.old) (state_of self.new) }
        ensures kept { (q : Obj) → is_kept self.new q ≡ is_kept self.old q }
    {
        if index < cells.count {
            drop(self.put_present(&cells.slot.cell(index), value));
            index + 1
        } else {
            drop(value);
            index
        }
    }
}
