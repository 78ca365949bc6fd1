//! The machine's reply to a command, once or three times: copies that take memory are made before
//! anything changes.

ghost use Rattle.std.specs.Prelude.{◌≡◌, ◌<◌, ◌^◌, IfOk, IfSome, IsNone, OnOk, OnErr, slice_get, true};
ghost use Rattle.om_book_journal.specs.Kept.{is_conflict};
ghost use Rattle.om_book_journal.specs.Runs.{IsInRange, IsReply, after, answer_to};
ghost use Rattle.om_undo.specs.ReadyNames.{ready_names};

use crate::command::{Command, Query};
use crate::entry::kept_entries;
use crate::kept::KeptUndoReply;
use crate::name::{KeptName, kept_names};
use crate::reply::Reply;
use om_foot::{Name, Shared};
use om_seq::{AllocResult, Seq};
use om_undo::laws::{one_ready_list, ready_names_are_ready};
use om_undo::{Machine, PlannedStep, RollReply, StepReply, Taken, UndoReply};
use std::alloc::Global;

/// One reply, three times.
#[derive(Drop)]
pub struct Replies {
    /// For the caller.
    pub answer: Reply,
    /// For the receipt of its seat.
    pub receipt: Reply,
    /// For the journal.
    pub kept: Reply,
}

/// Does what a command asks. Its only error is out of memory, and then nothing changes.
pub fn done(alloc: Global, machine: &mut Machine, command: &Command) -> AllocResult<Reply>
    requires in_range { IsInRange machine.old.workers command.now }
    requires few_made { machine.old.history.made < 2 ^ 63 }
    ensures reply { IfOk result (λ x. IsReply machine.old command.now x) }
    ensures after { OnOk result (machine.new ≡ after machine.old command.now) }
    ensures unchanged_on_error { OnErr result (machine.new ≡ machine.old) }
{
    match command {
        Command::Step { worker, choice } => {
            Ok(Reply::Step(machine.step(alloc, *worker, *choice)?))
        }
        Command::Undo(worker) => match undo(alloc, machine, *worker) {
            Ok(reply) => Ok(Reply::Undo(reply)),
            Err(error) => Err(error),
        },
        Command::Roll(serial) => Ok(Reply::Roll(machine.roll(alloc, *serial)?)),
        Command::Look(query) => looked(alloc, machine, query),
    }
}

/// Lets a step go that was planned, and is not taken. Crates with books call this, and do not prove anew how
/// each part of a step is dropped.
pub fn let_go(step: PlannedStep) {
    drop(step);
}

/// As `done`, and answers the reply three times.
pub fn done_thrice(alloc: Global, machine: &mut Machine, command: &Command) -> AllocResult<Replies>
    requires in_range { IsInRange machine.old.workers command.now }
    requires few_made { machine.old.history.made < 2 ^ 63 }
    ensures reply { IfOk result (λ x. IsReply machine.old command.now x.answer) }
    ensures same { IfOk result (λ x. (x.receipt ≡ x.answer) × (x.kept ≡ x.answer)) }
    ensures after { OnOk result (machine.new ≡ after machine.old command.now) }
    ensures unchanged_on_error { OnErr result (machine.new ≡ machine.old) }
{
    match command {
        Command::Step { worker, choice } => Ok(stepped(&machine.step(alloc, *worker, *choice)?)),
        Command::Undo(worker) => undo_thrice(alloc, machine, *worker),
        Command::Roll(serial) => roll_thrice(alloc, machine, *serial),
        Command::Look(query) => look_thrice(alloc, machine, query),
    }
}

// A step's reply three times.
fn stepped(reply: &StepReply) -> Replies
    ensures reply { result.answer ≡ Reply.Step reply.now }
    ensures same { (result.receipt ≡ result.answer) × (result.kept ≡ result.answer) }
{
    Replies {
        answer: Reply::Step(*reply),
        receipt: Reply::Step(*reply),
        kept: Reply::Step(*reply),
    }
}

/// Takes a worker's last step back. Only an undo that is refused, and so changes nothing, asks for memory.
pub fn undo(alloc: Global, machine: &mut Machine, worker: u8) -> AllocResult<KeptUndoReply>
    requires { worker < machine.old.workers }
    ensures reply { IfOk result (λ x. IsReply machine.old (Command.Undo worker) (Reply.Undo x)) }
    ensures after { OnOk result (machine.new ≡ after machine.old (Command.Undo worker)) }
    ensures unchanged_on_error { OnErr result (machine.new ≡ machine.old) }
{
    let reply = machine.undo(worker);
    match KeptUndoReply::of(alloc, &reply) {
        Ok(kept) => Ok(kept),
        Err(error) => Err(error),
    }
}

// Takes a worker's last step back, and answers three times. Only an undo that is refused, and so changes
// nothing, asks for memory.
fn undo_thrice(alloc: Global, machine: &mut Machine, worker: u8) -> AllocResult<Replies>
    requires { worker < machine.old.workers }
    ensures reply { IfOk result (λ x. IsReply machine.old (Command.Undo worker) x.answer) }
    ensures same { IfOk result (λ x. (x.receipt ≡ x.answer) × (x.kept ≡ x.answer)) }
    ensures after { OnOk result (machine.new ≡ after machine.old (Command.Undo worker)) }
    ensures unchanged_on_error { OnErr result (machine.new ≡ machine.old) }
{
    let reply = machine.undo(worker);
    match undone(alloc, &reply) {
        Ok(replies) => Ok(replies),
        Err(error) => Err(error),
    }
}

// An undo's reply three times. Its only error is out of memory, at an undo that was refused.
fn undone(alloc: Global, reply: &UndoReply) -> AllocResult<Replies>
    ensures reply { IfOk result (λ x. x.answer ≡ Reply.Undo reply.now) }
    ensures same { IfOk result (λ x. (x.receipt ≡ x.answer) × (x.kept ≡ x.answer)) }
    ensures only_conflicts { OnErr result (is_conflict reply.now ≡ true) }
{
    let answer = KeptUndoReply::of(alloc, reply)?;
    let receipt = KeptUndoReply::of(alloc, reply)?;
    let kept = KeptUndoReply::of(alloc, reply)?;
    Ok(Replies {
        answer: Reply::Undo(answer),
        receipt: Reply::Undo(receipt),
        kept: Reply::Undo(kept),
    })
}

// What a roll answers that takes these entries out.
fn rolled(taken: Option<Vec<Taken>>) -> Reply
    ensures some { IfSome taken (λ v. result ≡ Reply.Roll (RollReply.Rolled v.items)) }
    ensures none { IsNone taken → result ≡ Reply.Roll RollReply.NoEntry }
{
    match taken {
        Some(taken) => Reply::Roll(RollReply::Rolled(Seq::of(taken))),
        None => Reply::Roll(RollReply::NoEntry),
    }
}

// Rolls the entry with a serial, and answers three times. What it takes out is found beforehand for the
// copies.
fn roll_thrice(alloc: Global, machine: &mut Machine, serial: u64) -> AllocResult<Replies>
    ensures reply { IfOk result (λ x. IsReply machine.old (Command.Roll serial) x.answer) }
    ensures same { IfOk result (λ x. (x.receipt ≡ x.answer) × (x.kept ≡ x.answer)) }
    ensures after { OnOk result (machine.new ≡ after machine.old (Command.Roll serial)) }
    ensures unchanged_on_error { OnErr result (machine.new ≡ machine.old) }
{
    let receipt = machine.cone(alloc, serial)?;
    let kept = machine.cone(alloc, serial)?;
    let answer = machine.roll(alloc, serial)?;
    Ok(Replies {
        answer: Reply::Roll(answer),
        receipt: rolled(receipt),
        kept: rolled(kept),
    })
}

// Answers a question three times.
fn look_thrice(alloc: Global, machine: &Machine, query: &Query) -> AllocResult<Replies>
    ensures reply { IfOk result (λ x. x.answer ≡ answer_to machine.now query.now) }
    ensures same { IfOk result (λ x. (x.receipt ≡ x.answer) × (x.kept ≡ x.answer)) }
{
    let answer = looked(alloc, machine, query)?;
    match two_copies(alloc, &answer) {
        Ok((receipt, kept)) => Ok(Replies {
            answer,
            receipt,
            kept,
        }),
        Err(error) => {
            drop(answer);
            Err(error)
        }
    }
}

// A reply twice. The only error is out of memory.
fn two_copies(alloc: Global, reply: &Reply) -> AllocResult<(Reply, Reply)>
    ensures { IfOk result (λ copies. (copies.0 ≡ reply.now) × (copies.1 ≡ reply.now)) }
{
    let one = reply.copy(alloc)?;
    match reply.copy(alloc) {
        Ok(other) => Ok((one, other)),
        Err(error) => {
            drop(one);
            Err(error)
        }
    }
}

// Answers a question.
fn looked(alloc: Global, machine: &Machine, query: &Query) -> AllocResult<Reply>
    ensures { IfOk result (λ x. x ≡ answer_to machine.now query.now) }
{
    match query {
        Query::Value(object) => Ok(Reply::Value(machine.look(alloc, object)?)),
        Query::Ready => names_told(alloc, machine),
        Query::FirstReady => Ok(Reply::FirstReady(shared_name(alloc, first_ready(machine))?)),
        Query::Entries => entries_told(alloc, machine),
    }
}

// Answers which entries stand.
fn entries_told(alloc: Global, machine: &Machine) -> AllocResult<Reply>
    ensures { IfOk result (λ x. x ≡ Reply.Entries machine.now.history.entries) }
{
    let entries = machine.history(alloc)?;
    let kept = kept_entries(alloc, entries.as_slice())?;
    Ok(Reply::Entries(Shared::of(alloc, kept)?))
}

// Answers which tasks are ready.
fn names_told(alloc: Global, machine: &Machine) -> AllocResult<Reply>
    ensures { IfOk result (λ x. x ≡ Reply.Ready (ready_names machine.now)) }
{
    let names = ready_list(alloc, machine)?;
    let kept = kept_names(alloc, names.as_slice())?;
    Ok(Reply::Ready(Shared::of(alloc, kept)?))
}

// The names of the tasks that are ready. Its only error is out of memory.
fn ready_list(alloc: Global, machine: &Machine) -> AllocResult<Vec<Name>>
    ensures { IfOk result (λ names. names.items ≡ ready_names machine.now) }
{
    one_ready_list();
    ready_names_are_ready();
    machine.ready(alloc)
}

// The name of the first task that is ready, where there is one.
fn first_ready(machine: &Machine) -> Option<Name>
    ensures { result ≡ slice_get (ready_names machine.now) 0 }
{
    machine.next_ready(None)
}

// A name to be shared, where there is one. Its only error is out of memory.
fn shared_name(alloc: Global, name: Option<Name>) -> AllocResult<Option<Shared<KeptName>>>
    ensures { IfOk result (λ shared. shared ≡ name) }
{
    match name {
        Some(name) => Ok(Some(Shared::of(alloc, KeptName::of(alloc, &name)?)?)),
        None => Ok(None),
    }
}
