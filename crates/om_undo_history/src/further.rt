//! Updates of a store in parts: at single accesses, at the cells of slots, and at single accesses again.

ghost use Rattle.std.specs.Prelude.{◌≡◌, true, length, OnOk, OnErr, IfOk};
ghost use Rattle.om_foot.specs.declared.object.Obj.{Obj};
ghost use Rattle.om_foot.specs.Cells.{cells_listed};
ghost use Rattle.om_memory.specs.Memories.{state_of, is_kept, pasts_of};
ghost use Rattle.om_undo_history.specs.Backs.{back_in, wanted, parts_back, parts_wanted, further_of, are_along, WereAlong, GoAlong, CanGoAlong};
ghost use Rattle.om_undo_history.specs.Records.{Keeps};
ghost use Rattle.om_undo_history.specs.Shapes.{AreShaped};
ghost use Rattle.om_undo_history.specs.Effects.{PutsCells, WereCells, PutsCellsBack, FitsFurther, MakesFurther, NotesFurther, SavesFurther, MakesParts, NotesParts, SavesParts, CanTakeFurtherBack, TakesFurtherBack, PopsFurther};

use crate::kept::{BackParts, Backs};
use crate::updates::{make_all, take_back_all, take_cell_back};
use om_foot::SharedCells;
use om_memory::Memory;
use om_seq::{AllocResult, Seq};
use om_state::{Run, Was};
use om_undo_touches::Accesses;
use std::alloc::Global;
use std::mem;

// Takes what is put at the cells of slots back, the last slot first. It takes no memory.
fn take_back_cells(store: &mut Memory, all: &[SharedCells], were: &mut Vec<Seq<Was>>)
    requires kept { Keeps store.old (cells_listed all.now) }
    requires along { WereAlong all.now were.old.items }
    ensures state { PutsCellsBack all.now were.old.items store.old store.new }
    ensures pasts { pasts_of store.new ≡ pasts_of store.old }
    ensures kept { (q : Obj) → is_kept store.new q ≡ is_kept store.old q }
{
    let Some((cells, earlier)) = all.split_last() else {
        return;
    };
    let Some(was) = were.pop() else {
        return;
    };
    store.put_cells_back(cells, was);
    take_back_cells(store, earlier, were);
}

// Puts the value of a run into the cells of each of these slots, and answers what they were. When out of
// memory, no value changes.
fn make_cells(
    store: &mut Memory,
    alloc: Global,
    all: &[SharedCells],
    runs: &[Run],
) -> AllocResult<Vec<Seq<Was>>>
    requires kept { Keeps store.old (cells_listed all.now) }
    requires along { are_along all.now runs.now ≡ true }
    ensures along { IfOk result (λ were. WereAlong all.now were.items) }
    ensures were { IfOk result (λ were. WereCells all.now runs.now store.old were.items) }
    ensures state { OnOk result (PutsCells all.now runs.now store.old store.new) }
    ensures pasts { pasts_of store.new ≡ pasts_of store.old }
    ensures same_state_on_error { OnErr result (state_of store.new ≡ state_of store.old) }
    ensures kept { (q : Obj) → is_kept store.new q ≡ is_kept store.old q }
{
    let count = all.len().min(runs.len());
    let mut were = Vec::with_capacity(alloc, count)?;
    for i in 0..count {
        let Some(wanted) = runs.get(i) else {
            unreachable!()
        };
        match store.put_cells(alloc, &all[i], wanted.cell) {
            Ok(was) => were.push_reserved(was),
            Err(error) => {
                take_back_cells(store, &all[..i], &mut were);
                return Err(error);
            }
        }
    }
    Ok(were)
}

// Makes updates in parts, behind the first access, and leaves in their place what a small record holds
// of them. When out of memory, no value changes. What the updates are then is not said.
fn make_parts(
    store: &mut Memory,
    alloc: Global,
    footprint: &Accesses,
    runs: &[Run],
    back: &mut BackParts,
) -> AllocResult<()>
    requires kept { Keeps store.old (further_of footprint.now) }
    requires first { length footprint.now.first ≡ length back.old.first.items }
    requires along { are_along footprint.now.cells runs.now ≡ true }
    requires fits { FitsFurther footprint.now (parts_wanted back.old runs.now) store.old }
    requires shaped { AreShaped (further_of footprint.now) (parts_wanted back.old runs.now) }
    ensures state { OnOk result (MakesParts footprint.now back.old runs.now store.old store.new) }
    ensures small { OnOk result (SavesParts footprint.now back.old runs.now store.old back.new) }
    ensures pasts { OnOk result (NotesParts footprint.now back.old runs.now store.old store.new) }
    ensures first { OnOk result (length footprint.now.first ≡ length back.new.first.items) }
    ensures along { OnOk result (WereAlong footprint.now.cells back.new.cells.items) }
    ensures same_state_on_error { OnErr result (state_of store.new ≡ state_of store.old) }
    ensures same_pasts_on_error { OnErr result (pasts_of store.new ≡ pasts_of store.old) }
    ensures kept { (q : Obj) → is_kept store.new q ≡ is_kept store.old q }
{
    let (first, cells, last) = footprint.parts();
    make_all(store, alloc, first, &mut back.first)?;
    match make_cells(store, alloc, cells, runs) {
        Ok(were) => drop(mem::replace(&mut back.cells, were)),
        Err(error) => {
            take_back_all(store, first, &mut back.first);
            return Err(error);
        }
    }
    match make_all(store, alloc, last, &mut back.last) {
        Ok(()) => Ok(()),
        Err(error) => {
            take_back_cells(store, cells, &mut back.cells);
            take_back_all(store, first, &mut back.first);
            Err(error)
        }
    }
}

/// Makes updates behind the first access, and leaves in their place what a small record holds of them.
/// When out of memory, no value changes. What the updates are then is not said.
pub(crate) fn make_further(
    store: &mut Memory,
    alloc: Global,
    footprint: &Accesses,
    runs: &[Run],
    back: &mut Backs,
) -> AllocResult<()>
    requires kept { Keeps store.old (further_of footprint.now) }
    requires along { CanGoAlong footprint.now back.old runs.now }
    requires fits { FitsFurther footprint.now (wanted back.old runs.now) store.old }
    requires shaped { AreShaped (further_of footprint.now) (wanted back.old runs.now) }
    ensures state { OnOk result (MakesFurther footprint.now back.old runs.now store.old store.new) }
    ensures small { OnOk result (SavesFurther footprint.now back.old runs.now store.old back.new) }
    ensures pasts { OnOk result (NotesFurther footprint.now back.old runs.now store.old store.new) }
    ensures along { OnOk result (GoAlong footprint.now back.new) }
    ensures same_state_on_error { OnErr result (state_of store.new ≡ state_of store.old) }
    ensures same_pasts_on_error { OnErr result (pasts_of store.new ≡ pasts_of store.old) }
    ensures kept { (q : Obj) → is_kept store.new q ≡ is_kept store.old q }
{
    match back {
        Backs::Cell(_) => unreachable!(),
        Backs::Plain(updates) => {
            let (first, _, _) = footprint.parts();
            make_all(store, alloc, first, updates)
        }
        Backs::Parts(parts) => make_parts(store, alloc, footprint, runs, parts),
    }
}

// Takes updates in parts back, behind the first access, by what a small record holds of them. It takes
// no memory.
fn take_back_parts(store: &mut Memory, footprint: &Accesses, back: &mut BackParts)
    requires kept { Keeps store.old (further_of footprint.now) }
    requires first { length footprint.now.first ≡ length back.old.first.items }
    requires along { WereAlong footprint.now.cells back.old.cells.items }
    requires can { CanTakeFurtherBack footprint.now (parts_back back.old) store.old }
    ensures state { TakesFurtherBack footprint.now (parts_back back.old) store.old store.new }
    ensures pasts { PopsFurther footprint.now (parts_back back.old) store.old store.new }
    ensures kept { (q : Obj) → is_kept store.new q ≡ is_kept store.old q }
{
    let (first, cells, last) = footprint.parts();
    take_back_all(store, last, &mut back.last);
    take_back_cells(store, cells, &mut back.cells);
    take_back_all(store, first, &mut back.first);
}

/// Takes the updates behind the first access back, the last one first, by what a small record holds of
/// them. It takes no memory.
pub(crate) fn take_further_back(store: &mut Memory, footprint: &Accesses, back: &mut Backs)
    requires kept { Keeps store.old (further_of footprint.now) }
    requires along { GoAlong footprint.now back.old }
    requires can { CanTakeFurtherBack footprint.now (back_in back.old) store.old }
    ensures state { TakesFurtherBack footprint.now (back_in back.old) store.old store.new }
    ensures pasts { PopsFurther footprint.now (back_in back.old) store.old store.new }
    ensures kept { (q : Obj) → is_kept store.new q ≡ is_kept store.old q }
{
    match back {
        Backs::Cell(cell) => {
            let (first, _, _) = footprint.parts();
            take_cell_back(store, first, *cell);
        }
        Backs::Plain(small) => {
            let (first, _, _) = footprint.parts();
            take_back_all(store, first, small);
        }
        Backs::Parts(parts) => take_back_parts(store, footprint, parts),
    }
}
