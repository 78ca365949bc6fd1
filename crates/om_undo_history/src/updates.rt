//! Updates of a store, each exchanged for what a small record holds of it.

ghost use Rattle.std.specs.Prelude.{◌≡◌, ◌<◌, ◌≤◌, ◌++◌, true, false, OnOk, OnErr, IfOk, length};
ghost use Rattle.om_foot.specs.declared.object.Obj.{Obj};
ghost use Rattle.om_foot.specs.declared.object.Obj.TheVariants as obj;
ghost use Rattle.om_foot.specs.Cells.{cells_listed};
ghost use Rattle.om_memory.specs.Memories.{state_of, is_kept, pasts_of, is_trailed};
ghost use Rattle.om_undo_touches.specs.Accesses.{control_write};
ghost use Rattle.om_undo_history.specs.Bounds.{FitsAt, FitsAtBack, FitsAll};
ghost use Rattle.om_undo_history.specs.Shapes.{IsShapedAt, AreShaped};
ghost use Rattle.om_undo_history.specs.Fills.{popped, IfControl};
ghost use Rattle.om_undo_history.specs.Records.{Keeps};
ghost use Rattle.om_undo_history.specs.Effects.{write_at, add_at, MakesAt, NotesAt, small_in, undo_in, TakesBackAt, TakesSmallBack, FitsBackIn, MakesAll, NotesAll, SavesAll, CanTakeAllBack, TakesAllBack, PopsAll, CanTakeFirstBack, TakesFirstBack, PopsFirst, put_of};

use om_code::frame::Cell;
use om_foot::{Access, Cells, Mode, Obj, SharedAccess, SharedCells};
use om_memory::{Memory, worker_of};
use om_seq::{AllocResult, Seq};
use om_state::{Control, Update, Val};
use std::alloc::Global;
use std::mem;

// Makes an update at a `Write` of a worker's control, and answers the mark of it: the trail keeps
// the control before. When out of memory, nothing changes.
fn make_control(
    store: &mut Memory,
    alloc: Global,
    worker: u8,
    update: Update,
) -> AllocResult<Update>
    requires kept { is_kept store.old (obj.Control worker) ≡ true }
    requires shaped { IsShapedAt Mode.Write update true }
    ensures small { IfOk result (λ u. u ≡ small_in (control_write worker) update store.old) }
    ensures state { OnOk result (MakesAt (control_write worker) update store.old store.new) }
    ensures pasts { OnOk result (NotesAt (control_write worker) update store.old store.new) }
    ensures same_state_on_error { OnErr result (state_of store.new ≡ state_of store.old) }
    ensures same_pasts_on_error { OnErr result (pasts_of store.new ≡ pasts_of store.old) }
    ensures kept { (q : Obj) → is_kept store.new q ≡ is_kept store.old q }
{
    let Update::Put(Val::Control(control)) = update else {
        unreachable!()
    };
    match control.get() {
        Some(control) => store.put(alloc, worker, control)?,
        None => store.put(alloc, worker, &Control::Idle)?,
    }
    Ok(Update::Keep)
}

// Makes an update at a `Write` of another object, and answers the one that takes it back. When out
// of memory, no value changes.
fn make_write(store: &mut Memory, object: &Obj, update: Update) -> AllocResult<Update>
    requires no_control { is_trailed object.now ≡ false }
    requires kept { is_kept store.old object.now ≡ true }
    ensures undo { IfOk result (λ u. u ≡ undo_in (write_at object.now) update store.old) }
    ensures state { OnOk result (MakesAt (write_at object.now) update store.old store.new) }
    ensures pasts { pasts_of store.new ≡ pasts_of store.old }
    ensures unchanged_on_error { OnErr result (state_of store.new ≡ state_of store.old) }
    ensures kept { (q : Obj) → is_kept store.new q ≡ is_kept store.old q }
{
    match update {
        Update::Put(value) => Ok(Update::Put(store.put_present(object, value))),
        Update::Append(tail) => {
            let count = store.items(object);
            store.append(object, tail)?;
            Ok(Update::Cut(count))
        }
        Update::Cut(_) | Update::Keep => Ok(Update::Keep),
        Update::Add(number) => Ok(Update::Add(number)),
    }
}

// Makes an update, and answers what a small record holds of it. When out of memory, nothing
// changes.
fn make(
    store: &mut Memory,
    alloc: Global,
    access: &SharedAccess,
    update: Update,
) -> AllocResult<Update>
    requires kept { is_kept store.old access.now.object ≡ true }
    requires fits { FitsAt access.now.mode update (state_of store.old access.now.object) }
    requires shaped { IsShapedAt access.now.mode update (is_trailed access.now.object) }
    ensures small { IfOk result (λ u. u ≡ small_in access.now update store.old) }
    ensures state { OnOk result (MakesAt access.now update store.old store.new) }
    ensures pasts { OnOk result (NotesAt access.now update store.old store.new) }
    ensures same_state_on_error { OnErr result (state_of store.new ≡ state_of store.old) }
    ensures same_pasts_on_error { OnErr result (pasts_of store.new ≡ pasts_of store.old) }
    ensures kept { (q : Obj) → is_kept store.new q ≡ is_kept store.old q }
{
    let object = access.object().get();
    match access.mode() {
        Mode::Read => Ok(update),
        Mode::Write => match worker_of(object) {
            Some(worker) => make_control(store, alloc, worker, update),
            None => make_write(store, object, update),
        },
        Mode::Add => Ok(make_addition(store, object, update)),
    }
}

// Makes an update at an `Add` of an object that is no control, and answers it: it takes itself back.
fn make_addition(store: &mut Memory, object: &Obj, update: Update) -> Update
    requires no_control { is_trailed object.now ≡ false }
    requires kept { is_kept store.old object.now ≡ true }
    requires fits { FitsAt Mode.Add update (state_of store.old object.now) }
    ensures same { result ≡ update }
    ensures state { MakesAt (add_at object.now) update store.old store.new }
    ensures pasts { pasts_of store.new ≡ pasts_of store.old }
    ensures kept { (q : Obj) → is_kept store.new q ≡ is_kept store.old q }
{
    match update {
        Update::Add(number) => {
            store.add(object, number);
            Update::Add(number)
        }
        other => other,
    }
}

// Takes an update at an `Add` of an object that is no control back.
fn take_addition_back(store: &mut Memory, object: &Obj, update: Update)
    requires no_control { is_trailed object.now ≡ false }
    requires kept { is_kept store.old object.now ≡ true }
    requires fits { FitsAtBack Mode.Add update (state_of store.old object.now) }
    ensures state { TakesBackAt (add_at object.now) update store.old store.new }
    ensures pasts { pasts_of store.new ≡ pasts_of store.old }
    ensures kept { (q : Obj) → is_kept store.new q ≡ is_kept store.old q }
{
    match update {
        Update::Add(number) => store.subtract(object, number),
        other => drop(other),
    }
}

// Takes an update at a `Write` of an object that is no control back, by what takes it back.
fn take_write_back(store: &mut Memory, object: &Obj, update: Update)
    requires no_control { is_trailed object.now ≡ false }
    requires kept { is_kept store.old object.now ≡ true }
    ensures state { TakesBackAt (write_at object.now) update store.old store.new }
    ensures pasts { pasts_of store.new ≡ pasts_of store.old }
    ensures kept { (q : Obj) → is_kept store.new q ≡ is_kept store.old q }
{
    match update {
        Update::Put(value) => drop(store.put_present(object, value)),
        Update::Cut(count) => store.cut(object, count),
        other => drop(other),
    }
}

// Takes an update back, by what a small record holds of it. It takes no memory.
fn take_back(store: &mut Memory, access: &SharedAccess, small: Update)
    requires kept { is_kept store.old access.now.object ≡ true }
    requires marked { IfControl access.now (small ≡ Update.Keep) }
    requires past { IfControl access.now (0 < length (pasts_of store.old access.now.object)) }
    requires fits { FitsBackIn access.now small store.old }
    ensures state { TakesSmallBack access.now small store.old store.new }
    ensures pasts { pasts_of store.new ≡ popped access.now small (pasts_of store.old) }
    ensures kept { (q : Obj) → is_kept store.new q ≡ is_kept store.old q }
{
    let object = access.object().get();
    match access.mode() {
        Mode::Read => drop(small),
        Mode::Write => match worker_of(object) {
            Some(worker) => {
                drop(small);
                store.undo(worker);
            }
            None => take_write_back(store, object, small),
        },
        Mode::Add => take_addition_back(store, object, small),
    }
}

// Makes an update, and leaves in its place what a small record holds of it. When out of memory,
// nothing changes but that the update is gone.
fn exchange(
    store: &mut Memory,
    alloc: Global,
    access: &SharedAccess,
    update: &mut Update,
) -> AllocResult<()>
    requires kept { is_kept store.old access.now.object ≡ true }
    requires fits { FitsAt access.now.mode update.old (state_of store.old access.now.object) }
    requires shaped { IsShapedAt access.now.mode update.old (is_trailed access.now.object) }
    ensures small { OnOk result (update.new ≡ small_in access.now update.old store.old) }
    ensures state { OnOk result (MakesAt access.now update.old store.old store.new) }
    ensures pasts { OnOk result (NotesAt access.now update.old store.old store.new) }
    ensures same_state_on_error { OnErr result (state_of store.new ≡ state_of store.old) }
    ensures same_pasts_on_error { OnErr result (pasts_of store.new ≡ pasts_of store.old) }
    ensures kept { (q : Obj) → is_kept store.new q ≡ is_kept store.old q }
{
    let wanted = mem::replace(update, Update::Keep);
    let small = make(store, alloc, access, wanted)?;
    drop(mem::replace(update, small));
    Ok(())
}

/// Keeps each of these objects, so that its value can be put back without a request for memory, and adds the accesses
/// of them, shared. No value changes, also when out of memory.
pub(crate) fn keep_each(
    store: &mut Memory,
    alloc: Global,
    shared: &mut Vec<SharedAccess>,
    others: &[Access],
) -> AllocResult<()>
    ensures shared { OnOk result (shared.new.items ≡ shared.old.items ++ others.now) }
    ensures same { state_of store.new ≡ state_of store.old }
    ensures same_pasts { pasts_of store.new ≡ pasts_of store.old }
    ensures kept { OnOk result (Keeps store.new others.now) }
    ensures others_kept { (q : Obj) → is_kept store.old q ≡ true → is_kept store.new q ≡ true }
{
    for access in others {
        let kept = store.keep(alloc, access)?;
        shared.push(kept)?;
    }
    Ok(())
}

/// Keeps the cells of each of these slots, and answers them, shared. No value changes, also when out of
/// memory.
pub(crate) fn keep_cells(
    store: &mut Memory,
    alloc: Global,
    all: &[Cells],
) -> AllocResult<Seq<SharedCells>>
    ensures shared { IfOk result (λ shared. shared ≡ all.now) }
    ensures same { state_of store.new ≡ state_of store.old }
    ensures same_pasts { pasts_of store.new ≡ pasts_of store.old }
    ensures kept { OnOk result (Keeps store.new (cells_listed all.now)) }
    ensures others_kept { (q : Obj) → is_kept store.old q ≡ true → is_kept store.new q ≡ true }
{
    let mut shared = Seq::new(alloc);
    for cells in all {
        shared.push(store.keep_cells(alloc, cells)?)?;
    }
    Ok(shared)
}

/// Makes the updates of a footprint, and leaves in their place what a small record holds of them.
/// When out of memory, what was made is taken back: no value changes. What the updates are then is not said.
pub(crate) fn make_all(
    store: &mut Memory,
    alloc: Global,
    footprint: &[SharedAccess],
    updates: &mut Vec<Update>,
) -> AllocResult<()>
    requires kept { Keeps store.old footprint.now }
    requires fits { FitsAll footprint.now updates.old.items (state_of store.old) }
    requires shaped { AreShaped footprint.now updates.old.items }
    ensures state { OnOk result (MakesAll footprint.now updates.old.items store.old store.new) }
    ensures small { OnOk result
        (SavesAll footprint.now updates.old.items store.old updates.new.items) }
    ensures pasts { OnOk result (NotesAll footprint.now updates.old.items store.old store.new) }
    ensures same_state_on_error { OnErr result (state_of store.new ≡ state_of store.old) }
    ensures same_pasts_on_error { OnErr result (pasts_of store.new ≡ pasts_of store.old) }
    ensures kept { (q : Obj) → is_kept store.new q ≡ is_kept store.old q }
{
    let count = footprint.len().min(updates.len());
    for i in 0..count {
        match exchange(store, alloc, &footprint[i], &mut updates[i]) {
            Ok(()) => {}
            Err(error) => {
                take_back_first(store, footprint, updates, i);
                return Err(error);
            }
        }
    }
    Ok(())
}

// Takes the first updates of a footprint back, so many of them and the last one first. It takes
// no memory.
fn take_back_first(
    store: &mut Memory,
    footprint: &[SharedAccess],
    small: &mut Vec<Update>,
    count: usize,
)
    requires accesses { count ≤ length footprint.now }
    requires updates { count ≤ length small.old.items }
    requires kept { Keeps store.old footprint.now }
    requires can { CanTakeFirstBack count footprint.now small.old.items store.old }
    ensures state { TakesFirstBack count footprint.now small.old.items store.old store.new }
    ensures pasts { PopsFirst count footprint.now small.old.items store.old store.new }
    ensures kept { (q : Obj) → is_kept store.new q ≡ is_kept store.old q }
{
    for i in (0..count).rev() {
        let update = mem::replace(&mut small[i], Update::Keep);
        take_back(store, &footprint[i], update);
    }
}

/// Takes the updates of a footprint back, the last one first, by what a small record holds of them.
/// It takes no memory.
pub(crate) fn take_back_all(store: &mut Memory, footprint: &[SharedAccess], small: &mut Vec<Update>)
    requires kept { Keeps store.old footprint.now }
    requires can { CanTakeAllBack footprint.now small.old.items store.old }
    ensures state { TakesAllBack footprint.now small.old.items store.old store.new }
    ensures pasts { PopsAll footprint.now small.old.items store.old store.new }
    ensures kept { (q : Obj) → is_kept store.new q ≡ is_kept store.old q }
{
    let count = footprint.len().min(small.len());
    take_back_first(store, footprint, small, count);
}

/// Takes the put of one cell back at the first access of a footprint, by what the cell held. It takes no
/// memory.
pub(crate) fn take_cell_back(store: &mut Memory, footprint: &[SharedAccess], cell: Cell)
    requires kept { Keeps store.old footprint.now }
    requires can { CanTakeAllBack footprint.now (put_of cell) store.old }
    ensures state { TakesAllBack footprint.now (put_of cell) store.old store.new }
    ensures pasts { PopsAll footprint.now (put_of cell) store.old store.new }
    ensures kept { (q : Obj) → is_kept store.new q ≡ is_kept store.old q }
{
    let Some((access, _)) = footprint.split_first() else {
        return;
    };
    take_back(store, access, Update::Put(Val::Cell(cell)));
}
