//! What the machine answers to a call.

ghost use Rattle.std.specs.Prelude.{◌≡◌, IfOk};
ghost use Rattle.om_undo_history.specs.declared.reply.StepReply.{StepReply as StepReplyView};
ghost use Rattle.om_undo_history.specs.declared.reply.UndoReply.{UndoReply};
ghost use Rattle.om_book_journal.specs.Runs.{is_step_made};

use crate::entry::KeptEntry;
use crate::kept::KeptUndoReply;
use crate::name::KeptName;
use crate::same::Same;
use om_foot::Shared;
use om_seq::{AllocResult, Seq};
use om_state::Val;
use om_undo::{RollReply, StepReply};
use std::alloc::Global;

/// What is answered to a command: to each kind its own kind of reply. Its copies share names of tasks, and
/// lists of names or of entries.
pub enum Reply {
    /// Of a step.
    Step(StepReply),
    /// Of an undo.
    Undo(KeptUndoReply),
    /// Of a roll.
    Roll(RollReply),
    /// What the object holds.
    Value(Val),
    /// The names of the tasks that are ready to be begun, ascending.
    Ready(Shared<Seq<KeptName>>),
    /// The name of the first of these tasks, where there is one.
    FirstReady(Option<Shared<KeptName>>),
    /// The entries that stand in the history, in their order.
    Entries(Shared<Seq<KeptEntry>>),
}

// By hand: other crates call this, and do not prove anew how each part is dropped.
impl Drop for Reply {
    fn drop(self) {
        match self {
            Reply::Step(_) => {}
            Reply::Undo(reply) => drop(reply),
            Reply::Roll(reply) => drop(reply),
            Reply::Value(value) => drop(value),
            Reply::Ready(names) => drop(names),
            Reply::FirstReady(first) => drop(first),
            Reply::Entries(entries) => drop(entries),
        }
    }
}

impl Reply {
    /// Whether it is that of a step that was made.
    pub fn is_step_made(&self) -> bool
        ensures { result ≡ is_step_made self.now }
    {
        matches!(self, Reply::Step(StepReply::Done { .. }))
    }

    /// The step's reply that it is.
    pub(crate) fn into_step(self) -> StepReply
        requires { (x : StepReplyView) × (self ≡ Reply.Step x) }
        ensures { self ≡ Reply.Step result }
    {
        match self {
            Reply::Step(reply) => reply,
            _ => unreachable!(),
        }
    }

    /// The undo's reply that it is.
    pub(crate) fn into_undo(self) -> KeptUndoReply
        requires { (x : UndoReply) × (self ≡ Reply.Undo x) }
        ensures { self ≡ Reply.Undo result }
    {
        match self {
            Reply::Undo(reply) => reply,
            _ => unreachable!(),
        }
    }

    /// A copy; its only error is out of memory.
    pub fn copy(&self, alloc: Global) -> AllocResult<Reply>
        ensures { IfOk result (λ reply. reply ≡ self.now) }
    {
        match self {
            Reply::Step(reply) => Ok(Reply::Step(*reply)),
            Reply::Undo(reply) => Ok(Reply::Undo(KeptUndoReply::of(alloc, &reply.get())?)),
            Reply::Roll(reply) => Ok(Reply::Roll(copy_roll(alloc, reply)?)),
            Reply::Value(value) => Ok(Reply::Value(value.copy(alloc)?)),
            Reply::Ready(names) => Ok(Reply::Ready(names.copy()?)),
            Reply::FirstReady(first) => Ok(Reply::FirstReady(copy_first(first)?)),
            Reply::Entries(entries) => Ok(Reply::Entries(entries.copy()?)),
        }
    }
}

// A name for one owner more, where there is one; its only error is out of memory.
fn copy_first(first: &Option<Shared<KeptName>>) -> AllocResult<Option<Shared<KeptName>>>
    ensures { IfOk result (λ copy. copy ≡ first.now) }
{
    match first {
        Some(name) => Ok(Some(name.copy()?)),
        None => Ok(None),
    }
}

// A copy of a list; its only error is out of memory.
fn copied<T: Copy>(alloc: Global, items: &Seq<T>) -> AllocResult<Seq<T>>
    ensures { IfOk result (λ copy. copy ≡ items.now) }
{
    Ok(Seq::of(Vec::from_slice(alloc, items.as_slice())?))
}

// A copy of a roll's reply; its only error is out of memory.
fn copy_roll(alloc: Global, reply: &RollReply) -> AllocResult<RollReply>
    ensures { IfOk result (λ copy. copy ≡ reply.now) }
{
    match reply {
        RollReply::Rolled(taken) => Ok(RollReply::Rolled(copied(alloc, taken)?)),
        RollReply::NoEntry => Ok(RollReply::NoEntry),
    }
}

impl Same for Reply {
    fn is_same(&self, other: &Reply) -> bool {
        match (self, other) {
            (Reply::Step(one), Reply::Step(two)) => one.is_same(two),
            (Reply::Undo(one), Reply::Undo(two)) => one.is_same(two),
            (Reply::Roll(one), Reply::Roll(two)) => one.is_same(two),
            (Reply::Value(one), Reply::Value(two)) => one.is_same(two),
            (Reply::Ready(one), Reply::Ready(two)) => one.is_same(two),
            (Reply::FirstReady(one), Reply::FirstReady(two)) => one.is_same(two),
            (Reply::Entries(one), Reply::Entries(two)) => one.is_same(two),
            _ => false,
        }
    }
}
