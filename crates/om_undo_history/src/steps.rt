//! Steps over a store, each with the undo record of it, and the way back.

ghost use Rattle.std.specs.Prelude.{◌≡◌, ◌<◌, IfOk, OnOk, OnErr, true};
ghost use Rattle.om_foot.specs.declared.object.Obj.{Obj};
ghost use Rattle.om_memory.specs.Memories.{state_of, is_kept, pasts_of};
ghost use Rattle.om_undo_touches.specs.Accesses.{accesses_of};
ghost use Rattle.om_undo_history.specs.Backs.{GoAlong, CanGoAlong};
ghost use Rattle.om_undo_history.specs.Records.{Keeps, AreBelow, HasSerial, OfSerial, LosesSerial};
ghost use Rattle.om_undo_history.specs.Takes.{small_for, CanLeave};
ghost use Rattle.om_undo_history.specs.Effects.{CanMakePlanned, MakesPlanned, NotesPlanned, SavesPlanned, CanMakeChange, MakesChange, NotesChange, AddsRecord, TakesBack, PopsBack};

use crate::further::{make_further, take_further_back};
use crate::kept::{Kept, SmallEntry};
use crate::planning::{Making, planned};
use crate::records::Records;
use om_memory::Memory;
use om_seq::{AllocResult, Seq};
use om_state::{Change, Edit};
use std::alloc::{AllocError, Global};

// Takes the changes of a record back. It takes no memory.
fn take_back(store: &mut Memory, made: Kept)
    requires { CanLeave store.old made }
    ensures state { TakesBack made store.old store.new }
    ensures pasts { PopsBack made store.old store.new }
    ensures kept { (q : Obj) → is_kept store.new q ≡ is_kept store.old q }
{
    let worker = made.worker();
    let (footprint, mut back) = made.into_changes();
    take_further_back(store, &footprint, &mut back);
    store.undo(worker);
}

// Makes edits of a worker's control, and then the updates behind a step's first access, and leaves in
// the place of these what the record holds of them. When out of memory, no value changes. What the
// updates are then is not said.
fn make_changes(
    store: &mut Memory,
    alloc: Global,
    owner: u8,
    edits: Seq<Edit>,
    making: &mut Making,
) -> AllocResult<()>
    requires room { Keeps store.old (accesses_of making.old.footprint) }
    requires along { CanGoAlong making.old.footprint making.old.back making.old.runs }
    requires can { CanMakePlanned owner edits making.old store.old }
    ensures state { OnOk result (MakesPlanned owner edits making.old store.old store.new) }
    ensures pasts { OnOk result (NotesPlanned owner edits making.old store.old store.new) }
    ensures small { OnOk result (SavesPlanned owner edits making.old store.old making.new.back) }
    ensures along { OnOk result (GoAlong making.old.footprint making.new.back) }
    ensures same_footprint { making.new.footprint ≡ making.old.footprint }
    ensures kept { (q : Obj) → is_kept store.new q ≡ is_kept store.old q }
    ensures same_state_on_error { OnErr result (state_of store.new ≡ state_of store.old) }
    ensures same_pasts_on_error { OnErr result (pasts_of store.new ≡ pasts_of store.old) }
{
    store.change(alloc, owner, edits)?;
    let Making {
        footprint,
        back,
        runs,
    } = making;
    if let Err(error) = make_further(store, alloc, footprint, runs.as_slice(), back) {
        store.undo(owner);
        return Err(error);
    }
    Ok(())
}

// Makes a change of an entry's worker, and answers the record of it. When out of memory, no value
// changes, but the store may keep more objects.
fn make(store: &mut Memory, alloc: Global, entry: SmallEntry, change: Change) -> AllocResult<Kept>
    requires { CanMakeChange entry.worker change store.old }
    ensures state { OnOk result (MakesChange entry.worker change store.old store.new) }
    ensures pasts { OnOk result (NotesChange entry.worker change store.old store.new) }
    ensures made { IfOk result (λ k. k ≡ small_for entry change (state_of store.old)) }
    ensures room { OnOk result (Keeps store.new change.footprint) }
    ensures others_kept { (q : Obj) → is_kept store.old q ≡ true → is_kept store.new q ≡ true }
    ensures same_state_on_error { OnErr result (state_of store.new ≡ state_of store.old) }
    ensures same_pasts_on_error { OnErr result (pasts_of store.new ≡ pasts_of store.old) }
{
    let Change {
        footprint,
        edits,
        updates,
        line: _,
    } = change;
    let mut making = planned(store, alloc, &footprint, updates)?;
    make_changes(store, alloc, entry.worker(), edits, &mut making)?;
    let Making {
        footprint,
        back,
        runs: _,
    } = making;
    Ok(Kept::of(entry, footprint, back.in_place()))
}

/// Makes a change of an entry's worker, and adds the record of it at the end. When out of memory, no
/// value and no record changes.
pub(crate) fn append(
    store: &mut Memory,
    records: &mut Records,
    alloc: Global,
    entry: SmallEntry,
    change: Change,
) -> AllocResult<()>
    requires can { CanMakeChange entry.worker change store.old }
    requires some { 0 < entry.serial }
    requires latest { AreBelow entry.serial records.old }
    ensures state { OnOk result (MakesChange entry.worker change store.old store.new) }
    ensures pasts { OnOk result (NotesChange entry.worker change store.old store.new) }
    ensures records { OnOk result (AddsRecord entry change store.old records.old records.new) }
    ensures room { OnOk result (Keeps store.new change.footprint) }
    ensures others_kept { (q : Obj) → is_kept store.old q ≡ true → is_kept store.new q ≡ true }
    ensures same_state_on_error { OnErr result (state_of store.new ≡ state_of store.old) }
    ensures same_pasts_on_error { OnErr result (pasts_of store.new ≡ pasts_of store.old) }
    ensures same_records_on_error { OnErr result (records.new ≡ records.old) }
{
    let made = make(store, alloc, entry, change)?;
    if let Err(made) = records.enter(alloc, made) {
        take_back(store, made);
        return Err(AllocError);
    }
    Ok(())
}

/// Takes the record with a serial out, and takes its changes back. It takes no memory.
pub(crate) fn take_out(store: &mut Memory, records: &mut Records, serial: u64)
    requires can { OfSerial serial records.old (λ i k. CanLeave store.old k) }
    requires there { HasSerial serial records.old }
    ensures state { OfSerial serial records.old (λ i k. TakesBack k store.old store.new) }
    ensures pasts { OfSerial serial records.old (λ i k. PopsBack k store.old store.new) }
    ensures records { LosesSerial serial records.old records.new }
    ensures kept { (q : Obj) → is_kept store.new q ≡ is_kept store.old q }
{
    let made = records.leave(serial);
    take_back(store, made);
}
