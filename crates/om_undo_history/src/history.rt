//! The history of a run, with the store that its entries lead to.

ghost use Rattle.std.specs.Prelude.{◌≡◌, ◌<◌, ◌^◌, [], IfOk, OnOk, OnErr, IsNone, IfSome, ◌↔◌};
ghost use Rattle.std.specs.Option.{option_copied};
ghost use Rattle.om_state.specs.Edits.{changed};
ghost use Rattle.om_state.specs.Rules.{Rules};
ghost use Rattle.om_memory.specs.Faults.{fault_in};
ghost use Rattle.om_memory.specs.Memories.{state_of};
ghost use Rattle.om_undo_history.specs.Runs.{reply_to_undo, after_undo};
ghost use Rattle.om_undo_history.specs.Cones.{reply_to_roll, after_roll};
ghost use Rattle.om_undo_history.specs.Commands.{undone_by};
ghost use Rattle.om_undo_history.specs.Choices.{label_by, choice_of};
ghost use Rattle.om_undo_history.specs.Effects.{control_of};
ghost use Rattle.om_undo_history.specs.Records.{LastHasSerial};
ghost use Rattle.om_undo_history.specs.Standing.{accesses_in, footprint_with};
ghost use Rattle.om_undo_history.specs.Pasts.{past_in, history_in, IsHeld, IsHeldFrom, IsReplay, AreNumbered, Replies, IsPlannedChange, HasRoomFor, RepliesToChange, RepliesToWorker, Becomes, TakesChange, TakesOut, TakesItsCone, Stays, StaysIfNone, HasNoEntry, AreRolled};

use crate::kept::SmallEntry;
use crate::records::Records;
use crate::reply::{RollReply, StepReply, Taken, UndoReply};
use crate::steps::{append, take_out};
use om_code::frame::Fault;
use om_foot::Name;
use om_memory::{Control, Memory, fault_after};
use om_seq::{AllocResult, Seq};
use om_state::{Change, Choice, Edit, Entry, Label};
use om_undo_touches::Accesses;
use std::alloc::Global;

/// The history of a run: its entries, each with a small record of what takes it back, and the store
/// that they lead to, whose trails take the controls back.
///
/// Contracts see it as the past that it holds (`past_in`): the state, the undo records that the small
/// ones stand for, and how many steps were ever made. They speak of any rules under which commands
/// led to it (`IsHeld`), so that it serves every program.
pub struct History {
    store: Memory,
    records: Records,
    made: u64,
}

// By hand: other crates call this, and do not prove anew how each part is dropped.
impl Drop for History {
    fn drop(self) {
        let History {
            store,
            records,
            made: _,
        } = self;
        drop(store);
        drop(records);
    }
}

// The fault that a worker comes to by edits of its control, or met before them.
fn fault_by(store: &Memory, worker: u8, edits: &[Edit]) -> Option<Fault>
    ensures { result ≡ fault_in (changed edits.now (control_of worker store.now)) }
{
    match store.control(worker) {
        Some(control) => fault_after(control, edits),
        None => fault_after(&Control::Idle, edits),
    }
}

impl History {
    /// The history in which no step was made, over the store in which a program starts. It takes no
    /// memory.
    pub fn new(alloc: Global, store: Memory) -> History
        ensures past { past_in result ≡ record { state = state_of store; records = []; made = 0 } }
        ensures held { IsHeldFrom (state_of store) result }
    {
        History {
            store,
            records: Records::new(alloc),
            made: 0,
        }
    }

    /// What each object holds: its value at the replay of the entries.
    pub fn store(&self) -> &Memory
        ensures state { state_of result.now ≡ (past_in self.now).state }
        ensures replayed { IsReplay self.now (state_of result.now) }
    {
        &self.store
    }

    /// A copy of the entries that stand, in their order. Their serials rise, to the number of steps
    /// ever made at most. Its only error is out of memory.
    pub fn entries(&self, alloc: Global) -> AllocResult<Vec<Entry>>
        ensures entries { IfOk result (λ v. v.items ≡ (history_in self.now).entries) }
        ensures numbered { AreNumbered self.now }
    {
        self.records.entries(alloc)
    }

    /// What the step of the entry with a serial touches at its place in the replay, its worker's control
    /// first; `None` where no entry has that serial. It is what the entry's record keeps: nothing is made
    /// again, and it takes no memory.
    pub fn footprint(&self, serial: u64) -> Option<&Accesses>
        ensures { Replies (λ r h. footprint_with r h serial) self.now
            (accesses_in (option_copied result)) }
    {
        match self.records.get(serial) {
            Some(made) => Some(made.footprint()),
            None => None,
        }
    }

    // Undoes a worker's last entry, which has this serial, by the whole reply to that. A reply may hold an
    // object, which is large, so this stands apart: it is needed where a later entry conflicts.
    #[cold]
    #[inline(never)]
    fn undo_by_reply(&mut self, worker: u8, serial: u64) -> UndoReply
        requires held { (r : Rules) × IsHeld r self.old }
        requires last { LastHasSerial worker self.old.records serial }
        ensures reply { Replies (λ r h. reply_to_undo r h worker) self.old result }
        ensures after { Becomes (λ r h. after_undo r h worker) self.old self.new }
    {
        let reply = self.records.reply_to(serial);
        if matches!(reply, UndoReply::Undone { .. }) {
            take_out(&mut self.store, &mut self.records, serial);
        }
        reply
    }

    /// Takes a worker's last step out, wherever it stands, unless a later step conflicts with it:
    /// the reply of the definition of a run.
    ///
    /// Only `Undone` changes anything, and the number of steps ever made stays even then, so no
    /// serial is given again. It takes no memory.
    pub fn undo(&mut self, worker: u8) -> UndoReply
        requires { (r : Rules) × IsHeld r self.old }
        ensures reply { Replies (λ r h. reply_to_undo r h worker) self.old result }
        ensures after { Becomes (λ r h. after_undo r h worker) self.old self.new }
    {
        match self.records.last(worker) {
            Some(serial) => match self.records.free_line(serial) {
                Some(line) => {
                    take_out(&mut self.store, &mut self.records, serial);
                    UndoReply::Undone { serial, line }
                }
                None => self.undo_by_reply(worker, serial),
            },
            None => UndoReply::Nothing,
        }
    }

    /// What `take` of a change of a worker would answer now: the reply of the definition of a run, where the
    /// change is the plan of that worker's step. Nothing changes, and it takes no memory.
    pub fn reply(&self, worker: u8, change: &Change) -> StepReply
        requires { (r : Rules) × IsHeld r self.now }
        ensures { RepliesToWorker worker change.now self.now result }
    {
        StepReply::Done {
            serial: self.made + 1,
            line: change.line,
            fault: fault_by(&self.store, worker, change.edits.as_slice()),
        }
    }

    /// Takes the step of a label, of which this is the change at the state: the reply of the
    /// definition of a run. The worker's control is changed in place.
    ///
    /// An entry is added, whose serial is one above the number of steps ever made. When out of
    /// memory, nothing changes.
    pub fn take(&mut self, alloc: Global, label: &Label, change: Change) -> AllocResult<StepReply>
        requires few_made { (past_in self.old).made < 2 ^ 63 }
        requires room { HasRoomFor label.now.worker change self.old }
        requires planned { IsPlannedChange label.now change self.old }
        ensures reply { IfOk result (RepliesToChange label.now change self.old) }
        ensures after { OnOk result (TakesChange label.now change self.old self.new) }
        ensures unchanged_on_error { OnErr result (Stays self.old self.new) }
    {
        match kept_choice(alloc, &label.choice) {
            Ok(start) => self.take_by(alloc, label.worker, start, change),
            Err(error) => {
                drop(change);
                Err(error)
            }
        }
    }

    /// Takes the step of a worker by a choice that is to be kept: what `take` does, whose label holds the
    /// choice in place. When out of memory, nothing changes that contracts see.
    pub fn take_by(
        &mut self,
        alloc: Global,
        worker: u8,
        start: Option<Box<Name>>,
        change: Change,
    ) -> AllocResult<StepReply>
        requires few_made { (past_in self.old).made < 2 ^ 63 }
        requires room { HasRoomFor worker change self.old }
        requires planned { IsPlannedChange (label_by worker start) change self.old }
        ensures reply { IfOk result (RepliesToChange (label_by worker start) change self.old) }
        ensures after { OnOk result (TakesChange (label_by worker start) change self.old self.new) }
        ensures unchanged_on_error { OnErr result (Stays self.old self.new) }
    {
        let reply = self.reply(worker, &change);
        let serial = self.made + 1;
        let entry = SmallEntry::of(worker, change.line, serial, start);
        match append(&mut self.store, &mut self.records, alloc, entry, change) {
            Ok(()) => {
                self.made = serial;
                Ok(reply)
            }
            Err(error) => Err(error),
        }
    }

    /// What a roll of the entry with a serial would take out, the latest first: its cone, the least
    /// set that holds it and, with each member, every later entry that conflicts with the member.
    /// `None` where no entry has that serial. Nothing changes; the only error is out of memory.
    pub fn cone(&self, alloc: Global, serial: u64) -> AllocResult<Option<Vec<Taken>>>
        requires { (r : Rules) × IsHeld r self.now }
        ensures none { IfOk result (λ o. IsNone o ↔ HasNoEntry serial self.now) }
        ensures members { IfOk result (λ o. IfSome o (λ v. AreRolled serial self.now v.items)) }
    {
        let taken = self.records.cone(alloc, serial)?;
        if taken.is_empty() {
            Ok(None)
        } else {
            Ok(Some(taken))
        }
    }

    /// Undoes the last entry of the worker of each of these, in their order, where no later one conflicts
    /// with it. Where these are the members of a cone, as `cone` answered it, that takes the cone out and
    /// nothing else. It takes no memory.
    pub fn take_out(&mut self, taken: &[Taken])
        requires { (r : Rules) × IsHeld r self.old }
        ensures each { Becomes (λ r h. undone_by r h taken.now) self.old self.new }
        ensures cone { TakesOut taken.now self.old self.new }
    {
        for member in taken {
            let _undone = self.undo(member.worker);
        }
    }

    /// Takes the entry with a serial and the rest of its cone out: the reply of the definition of a
    /// run.
    ///
    /// Only `Rolled` changes anything, and the number of steps ever made stays even then. Where no
    /// entry has that serial the answer is `NoEntry`. When out of memory, nothing changes.
    pub fn roll(&mut self, alloc: Global, serial: u64) -> AllocResult<RollReply>
        requires { (r : Rules) × IsHeld r self.old }
        ensures reply { IfOk result (Replies (λ r h. reply_to_roll r h serial) self.old) }
        ensures after { OnOk result (Becomes (λ r h. after_roll r h serial) self.old self.new) }
        ensures takes_cone { OnOk result (TakesItsCone serial self.old self.new) }
        ensures no_entry { IfOk result (λ x. (x ≡ RollReply.NoEntry) ↔ HasNoEntry serial self.old) }
        ensures unchanged_without_entry { IfOk result (StaysIfNone self.old self.new) }
        ensures unchanged_on_error { OnErr result (Stays self.old self.new) }
    {
        let taken = self.records.cone(alloc, serial)?;
        if taken.is_empty() {
            return Ok(RollReply::NoEntry);
        }
        self.take_out(taken.as_slice());
        Ok(RollReply::Rolled(Seq::of(taken)))
    }
}

/// A choice as a planned step and an undo record of the history keep it: the name of the task that it
/// starts, if it does. Its only error is out of memory.
pub fn kept_choice(alloc: Global, choice: &Choice) -> AllocResult<Option<Box<Name>>>
    ensures { IfOk result (λ start. choice_of start ≡ choice.now) }
{
    let Choice::Start(name) = choice else {
        return Ok(None);
    };
    Ok(Some(Box::new(alloc, *name)?))
}
