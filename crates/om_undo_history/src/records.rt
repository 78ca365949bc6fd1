//! Undo records: the history's entries, each with its footprint and what takes it back.

ghost use Rattle.std.specs.Prelude.{◌≡◌, ◌≢◌, ◌<◌, ◌∷◌, ◌++◌, [], None, Some, IfOk, OnOk, OnErr, IfErr, IfSome, IfNone, All, false};
ghost use Rattle.std.specs.Map.{values_of};
ghost use Rattle.om_foot.specs.declared.object.Obj.{Obj};
ghost use Rattle.om_foot.specs.declared.footprint.Mode.{Mode};
ghost use Rattle.om_undo_touches.specs.Touches.{has_touch, meets, AreOnly, AreSame, AreWithout, SameOwn, WithoutOwn};
ghost use Rattle.om_foot.specs.Firsts.{IsFirst};
ghost use Rattle.om_undo_history.specs.Records.{entries_of, cone_in, roll_in, LastHasSerial, HasSerial, AreBelow, IsOfSerial, LosesSerial, RepliesToUndo, CanUndo, Refuses, record_with};
ghost use Rattle.om_undo_history.specs.Touches.{AreBySerial, AreListsOf, IsIndexed, NotesTouches, NotesOwn, TellsMeets, TellsMember, ConflictsAt, record_at};

use crate::by_serial::BySerial;
use crate::kept::Kept;
use crate::reply::{Taken, UndoReply};
use om_foot::Access;
use om_seq::{AllocResult, Seq};
use om_state::{Entry, Update};
use om_undo_touches::{OwnEntries, TouchLists, conflict};
use std::alloc::Global;
use std::marker::Model;

/// An entry, with its footprint and what takes its updates back.
#[derive(Drop)]
pub struct UndoRecord {
    /// The step that it takes back.
    pub entry: Entry,
    /// The objects that the step touched, its worker's control first.
    pub footprint: Seq<Access>,
    /// In a small record, as `Records` keeps it: for each access behind the first that was updated what
    /// takes its update back; at a `Write` of a control a `Keep`, since its trail takes that back. In
    /// the record that it stands for (`specs/Fills`, `full`): for each access, the first included,
    /// what takes its update back.
    pub back: Seq<Update>,
}

/// The undo records of the entries that stand, by serial. Beside them stand the lists that find the
/// first entry that conflicts with one, and each worker's last one.
///
/// Contracts see the records, in the order of their serials, which rise.
#[derive(Drop)]
pub struct Records {
    kept: BySerial,
    lists: TouchLists,
    own: OwnEntries,
}

impl Model for Records {
    ghost use Rattle.std.specs.Prelude.{List};
    ghost use Rattle.std.specs.Map.{values_of};
    ghost use Rattle.om_undo_history.specs.declared.records.UndoRecord.{UndoRecord};
    ghost use Rattle.om_undo_history.specs.Touches.{IsIndexed};

    ghost Value = { List UndoRecord };

    ghost view = { λ r. values_of r.kept };

    ghost invariant = { λ r. IsIndexed r.kept r.lists r.own };
}

// Adds the touches of an entry to both lists. When out of memory, no touch changes.
fn note(lists: &mut TouchLists, own: &mut OwnEntries, alloc: Global, made: &Kept) -> AllocResult<()>
    requires { (o : Obj) (m : Mode) → has_touch lists.old o m made.now.entry.serial ≡ false }
    ensures lists { OnOk result (NotesTouches made.now lists.old lists.new) }
    ensures own { OnOk result (NotesOwn made.now own.old own.new) }
    ensures same_lists_on_error { OnErr result (AreSame lists.old lists.new) }
    ensures same_own_on_error { OnErr result (SameOwn own.old own.new) }
{
    lists.add_all(alloc, made.footprint(), made.serial())?;
    if let Err(error) = own.add(alloc, made.worker(), made.serial()) {
        lists.remove_all(made.footprint(), made.serial());
        return Err(error);
    }
    Ok(())
}

// Takes the touches of an entry out of both lists. It takes no memory.
fn forget(lists: &mut TouchLists, own: &mut OwnEntries, made: &Kept)
    requires { AreOnly made.now.footprint made.now.entry.serial lists.old }
    ensures lists { AreWithout made.now.footprint made.now.entry.serial lists.old lists.new }
    ensures own { WithoutOwn made.now.entry.worker made.now.entry.serial own.old own.new }
{
    lists.remove_all(made.footprint(), made.serial());
    own.remove(made.worker(), made.serial());
}

// Adds a record whose serial is above all others, and its touches. When out of memory, nothing
// changes, and the record comes back.
fn enter(
    kept: &mut BySerial,
    lists: &mut TouchLists,
    own: &mut OwnEntries,
    alloc: Global,
    made: Kept,
) -> Result<(), Kept>
    requires indexed { IsIndexed kept.old lists.old own.old }
    requires some { 0 < made.entry.serial }
    requires latest { AreBelow made.entry.serial (values_of kept.old) }
    ensures indexed { IsIndexed kept.new lists.new own.new }
    ensures entered { OnOk result (values_of kept.new ≡ values_of kept.old ++ made ∷ []) }
    ensures unchanged_on_error { OnErr result (kept.new ≡ kept.old) }
    ensures returned { IfErr result (λ k. k ≡ made) }
{
    match note(lists, own, alloc, &made) {
        Ok(()) => {}
        Err(_) => return Err(made),
    }
    if let Err(made) = kept.push(made) {
        forget(lists, own, &made);
        return Err(made);
    }
    Ok(())
}

// Takes the record with a serial out, and its touches. It takes no memory, and moves no other
// record.
fn leave(kept: &mut BySerial, lists: &mut TouchLists, own: &mut OwnEntries, serial: u64) -> Kept
    requires indexed { IsIndexed kept.old lists.old own.old }
    requires there { HasSerial serial (values_of kept.old) }
    ensures indexed { IsIndexed kept.new lists.new own.new }
    ensures left { LosesSerial serial (values_of kept.old) (values_of kept.new) }
    ensures returned { IsOfSerial serial (values_of kept.old) result }
{
    match kept.take(serial) {
        Some(made) => {
            forget(lists, own, &made);
            made
        }
        None => unreachable!(),
    }
}

// The reply that names the record with a serial, which conflicts with the undone one, and the first object
// at which it does.
fn refusal_by(kept: &BySerial, undone: &Kept, serial: u64) -> UndoReply
    requires { ConflictsAt serial kept.now undone.now }
    ensures { IfSome (record_at serial kept.now) (Refuses undone.now result) }
{
    let Some(made) = kept.get(serial) else {
        unreachable!()
    };
    match conflict(undone.footprint(), made.footprint()) {
        Some(object) => UndoReply::Conflict {
            serial: made.serial(),
            worker: made.worker(),
            object,
        },
        None => unreachable!(),
    }
}

// The serial of the first record after one that conflicts with its footprint. No list is searched where
// none is behind it.
fn first_conflict(kept: &BySerial, lists: &TouchLists, undone: &Kept, serial: u64) -> Option<u64>
    requires by_serial { AreBySerial 0 kept.now }
    requires lists { AreListsOf (λ k. k.footprint) (values_of kept.now) lists.now }
    ensures { IsFirst (meets (has_touch lists.now) undone.now.footprint) serial result }
{
    if kept.ends_at(serial) {
        return None;
    }
    lists.first_conflict(undone.footprint(), serial)
}

// What an undo of the entry with a serial answers.
fn reply_at(kept: &BySerial, lists: &TouchLists, serial: u64) -> UndoReply
    requires by_serial { AreBySerial 0 kept.now }
    requires lists { AreListsOf (λ k. k.footprint) (values_of kept.now) lists.now }
    requires there { HasSerial serial (values_of kept.now) }
    ensures { RepliesToUndo serial (values_of kept.now) result }
{
    match kept.get(serial) {
        Some(undone) => match first_conflict(kept, lists, undone, serial) {
            Some(first) => refusal_by(kept, undone, first),
            None => UndoReply::Undone {
                serial,
                line: undone.line(),
            },
        },
        None => unreachable!(),
    }
}

// Whether a record conflicts with one of those whose touches these are.
fn meets(members: &TouchLists, made: &Kept) -> bool
    ensures { TellsMeets members.now made.now result }
{
    members.first_conflict(made.footprint(), 0).is_some()
}

// Whether a record is of the cone of the entry with a serial, by the touches of the members before
// it.
fn is_member(members: &TouchLists, made: &Kept, serial: u64) -> bool
    ensures { TellsMember serial members.now made.now result }
{
    made.serial() == serial || meets(members, made)
}

// What names the members of the cone of the entry with a serial, in their order: a later entry is
// one where it conflicts with the touches of the members so far. There is none where no entry has
// that serial.
fn members(alloc: Global, kept: &BySerial, serial: u64) -> AllocResult<Vec<Taken>>
    requires { AreBySerial 0 kept.now }
    ensures { IfOk result (λ v. v.items ≡ cone_in serial (values_of kept.now)) }
{
    let mut members = TouchLists::new(alloc);
    let mut names = Vec::new(alloc);
    for row in kept.rows() {
        let Some(candidate) = &row.kept else {
            continue;
        };
        if is_member(&members, candidate, serial) {
            let own = candidate.serial();
            members.add_each(alloc, candidate.footprint(), own)?;
            names.push(Taken {
                serial: own,
                worker: candidate.worker(),
                line: candidate.line(),
            })?;
        }
    }
    Ok(names)
}

impl Records {
    /// No records. It takes no memory.
    pub fn new(alloc: Global) -> Records
        ensures { result ≡ [] }
    {
        Records {
            kept: BySerial::new(alloc),
            lists: TouchLists::new(alloc),
            own: OwnEntries::new(alloc),
        }
    }

    /// The record with a serial, where one has it. It takes no memory.
    pub(crate) fn get(&self, serial: u64) -> Option<&Kept>
        ensures found { IfSome result (λ k. record_with serial self.now ≡ Some k.now) }
        ensures none { IfNone result (record_with serial self.now ≡ None) }
    {
        self.kept.get(serial)
    }

    /// The serial of a worker's last entry; `None` where it has none. It takes no memory.
    pub fn last(&self, worker: u8) -> Option<u64>
        ensures found { IfSome result (λ s. LastHasSerial worker self.now s) }
        ensures none { IfNone result (All (λ k. k.entry.worker ≢ worker) self.now) }
    {
        self.own.last(worker)
    }

    /// The line of the entry with a serial, where no later entry conflicts with it. Where it answers `None`
    /// nothing is said; the whole reply decides (`reply_to`).
    pub(crate) fn free_line(&self, serial: u64) -> Option<u32>
        requires { HasSerial serial self.now }
        ensures { IfSome result (CanUndo serial self.now) }
    {
        let Some(undone) = self.kept.get(serial) else {
            unreachable!()
        };
        let None = first_conflict(&self.kept, &self.lists, undone, serial) else {
            return None;
        };
        Some(undone.line())
    }

    /// What an undo of the entry with a serial answers.
    pub fn reply_to(&self, serial: u64) -> UndoReply
        requires { HasSerial serial self.now }
        ensures { RepliesToUndo serial self.now result }
    {
        reply_at(&self.kept, &self.lists, serial)
    }

    /// Adds a record whose serial is above all others. When out of memory, nothing changes, and the
    /// record comes back.
    pub(crate) fn enter(&mut self, alloc: Global, made: Kept) -> Result<(), Kept>
        requires some { 0 < made.entry.serial }
        requires latest { AreBelow made.entry.serial self.old }
        ensures entered { OnOk result (self.new ≡ self.old ++ made ∷ []) }
        ensures unchanged_on_error { OnErr result (self.new ≡ self.old) }
        ensures returned { IfErr result (λ k. k ≡ made) }
    {
        enter(&mut self.kept, &mut self.lists, &mut self.own, alloc, made)
    }

    /// Takes the record with a serial out. It takes no memory, and moves no other record.
    pub(crate) fn leave(&mut self, serial: u64) -> Kept
        requires { HasSerial serial self.old }
        ensures left { LosesSerial serial self.old self.new }
        ensures returned { IsOfSerial serial self.old result }
    {
        leave(&mut self.kept, &mut self.lists, &mut self.own, serial)
    }

    /// What a roll of the entry with a serial takes out, the latest first; nothing where no entry
    /// has it. Its only error is out of memory.
    pub fn cone(&self, alloc: Global, serial: u64) -> AllocResult<Vec<Taken>>
        ensures { IfOk result (λ v. v.items ≡ roll_in serial self.now) }
    {
        let mut names = members(alloc, &self.kept, serial)?;
        names.reverse();
        Ok(names)
    }

    /// The entries of the records, in their order. Its only error is out of memory.
    pub fn entries(&self, alloc: Global) -> AllocResult<Vec<Entry>>
        ensures { IfOk result (λ v. v.items ≡ entries_of self.now) }
    {
        let mut entries = Vec::with_capacity(alloc, self.kept.rows().len())?;
        for row in self.kept.rows() {
            let Some(made) = &row.kept else {
                continue;
            };
            let choice = made.choice();
            entries.push(Entry {
                serial: made.serial(),
                worker: made.worker(),
                choice,
                line: made.line(),
            })?;
        }
        Ok(entries)
    }
}
