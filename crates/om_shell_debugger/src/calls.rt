//! Calls of the debugger's book. A debugger is the only one who calls, through one seat.

ghost use Rattle.std.specs.Prelude.{◌≡◌, ◌<◌, ℕ, IfOk, OnOk};
ghost use Rattle.om_foot.specs.declared.object.Obj.{Obj};
ghost use Rattle.om_book.specs.Books.{BookView, machine_of, records_of};
ghost use Rattle.om_book_journal.specs.Records.{reply_in};
ghost use Rattle.om_book_journal.specs.Runs.{IsInRange};
ghost use Rattle.om_book_journal.specs.declared.command.Command.{Command as Asked};
ghost use Rattle.om_book_journal.specs.declared.command.Query.TheVariants as query;
ghost use Rattle.om_task.specs.Plans.{label_at};
ghost use Rattle.om_undo.specs.Machines.{step_reply};
ghost use Rattle.om_shell_debugger.specs.Calls.{IsOther, AreEntriesTold, AreNamesTold, IsReplyTold, IsRollTold, IsUndoTold, IsValueTold, step_reply_at, with_debugger_call, with_step, with_value_look};

use om_book::{Book, CallError};
use om_book_journal::{Command, KeptEntry, KeptName, KeptUndoReply, Reply, ReplyIn};
use om_seq::{AllocResult, Seq};
use om_state::Val;
use om_task::Choice;
use om_undo::{PlannedStep, RollReply, StepReply};
use std::alloc::{AllocError, Global};

// The debugger's seat.
const SEAT: u8 = 0;

/// Does what a command asks. What it was answered is told by the book. Its only error is out of memory.
pub fn call(alloc: Global, book: &mut Book, command: &Command) -> AllocResult<()>
    requires in_range { IsInRange book.old.start.workers command.now }
    requires room { records_of book.old < 200000 }
    ensures { OnOk result (book.new ≡ with_debugger_call book.old command.now) }
{
    let Err(error) = book.call(alloc, SEAT, command) else {
        return Ok(());
    };
    match error {
        CallError::OutOfMemory => Err(AllocError),
        CallError::Full => unreachable!(),
    }
}

/// Takes a worker's last step back. What it was answered is told by the book. Its only error is out of memory.
pub fn undo(alloc: Global, book: &mut Book, worker: u8) -> AllocResult<()>
    requires in_range { worker < book.old.start.workers }
    requires room { records_of book.old < 200000 }
    ensures { OnOk result (book.new ≡ with_debugger_call book.old (Command.Undo worker)) }
{
    let Err(error) = book.undo(alloc, SEAT, worker) else {
        return Ok(());
    };
    match error {
        CallError::OutOfMemory => Err(AllocError),
        CallError::Full => unreachable!(),
    }
}

/// Takes a step that was planned where the book stands, and answers its reply. Its only error is out of memory.
pub fn take(alloc: Global, book: &mut Book, step: PlannedStep) -> AllocResult<StepReply>
    requires planned { step.machine ≡ machine_of book.old }
    requires room { records_of book.old < 200000 }
    ensures reply { IfOk result
        (λ reply. reply ≡ step_reply (machine_of book.old) step.label) }
    ensures after { OnOk result (book.new ≡ with_step book.old step.label) }
{
    match book.take(alloc, SEAT, step) {
        Ok(reply) => Ok(reply),
        Err(CallError::OutOfMemory) => Err(AllocError),
        Err(CallError::Full) => unreachable!(),
    }
}

/// Takes a worker's step by a choice, and answers its reply. Its only error is out of memory.
pub fn step(alloc: Global, book: &mut Book, worker: u8, choice: &Choice) -> AllocResult<StepReply>
    requires in_range { worker < book.old.start.workers }
    requires room { records_of book.old < 200000 }
    ensures reply { IfOk result (λ reply. reply ≡ step_reply_at book.old worker choice.now) }
    ensures after { OnOk result (book.new ≡ with_step book.old (label_at worker choice.now)) }
{
    let planned = book.machine().plan(alloc, worker, choice)?;
    take(alloc, book, planned)
}

// What the last call was answered.
fn told(book: &Book) -> ReplyIn<'_>
    requires { (b : BookView) × (c : Asked) × (book.now ≡ with_debugger_call b c) }
    ensures { IsReplyTold (reply_in result) book.now }
{
    book.last_reply()
}

// What the last call was answered, which was neither a step nor an undo.
fn other_told(book: &Book) -> &Reply
    requires { (b : BookView) × (c : Asked) × (book.now ≡ with_debugger_call b c) × IsOther c }
    ensures { IsReplyTold result.now book.now }
{
    match told(book) {
        ReplyIn::Step(_) => unreachable!(),
        ReplyIn::Undo(_) => unreachable!(),
        ReplyIn::Other(reply) => reply,
    }
}

/// What the last call was answered, which was a worker's undo.
pub fn undo_told(book: &Book) -> &KeptUndoReply
    requires { (b : BookView) × (worker : ℕ) × (book.now ≡ with_debugger_call b (Command.Undo worker)) }
    ensures { IsUndoTold result.now book.now }
{
    let reply = match told(book) {
        ReplyIn::Step(_) => unreachable!(),
        ReplyIn::Undo(reply) => return reply,
        ReplyIn::Other(reply) => reply,
    };
    let Reply::Undo(reply) = reply else {
        unreachable!()
    };
    reply
}

/// What the last call was answered, which was a roll.
pub fn roll_told(book: &Book) -> &RollReply
    requires { (b : BookView) × (serial : ℕ) × (book.now ≡ with_debugger_call b (Command.Roll serial)) }
    ensures { IsRollTold result.now book.now }
{
    let Reply::Roll(reply) = other_told(book) else {
        unreachable!()
    };
    reply
}

/// What the last call was answered, which was a look at what an object holds.
pub(crate) fn value_told(book: &Book) -> &Val
    requires { (b : BookView) × (object : Obj) × (book.now ≡ with_value_look b object) }
    ensures { IsValueTold result.now book.now }
{
    let Reply::Value(value) = other_told(book) else {
        unreachable!()
    };
    value
}

/// What the last call was answered, which was a look at the entries that stand.
pub(crate) fn entries_told(book: &Book) -> &Seq<KeptEntry>
    requires { (b : BookView) × (book.now ≡ with_debugger_call b (Command.Look query.Entries)) }
    ensures { AreEntriesTold result.now book.now }
{
    let Reply::Entries(entries) = other_told(book) else {
        unreachable!()
    };
    entries.get()
}

/// What the last call was answered, which was a look at the names of the tasks that are ready, ascending.
pub(crate) fn names_told(book: &Book) -> &Seq<KeptName>
    requires { (b : BookView) × (book.now ≡ with_debugger_call b (Command.Look query.Ready)) }
    ensures { AreNamesTold result.now book.now }
{
    let Reply::Ready(names) = other_told(book) else {
        unreachable!()
    };
    names.get()
}
