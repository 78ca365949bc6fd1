//! The commands of one worker's steps and undos, and rolls.

ghost use Rattle.std.specs.Prelude.{◌≡◌, ◌<◌, true, OnOk};
ghost use Rattle.om_state.specs.declared.step.Choice.TheVariants.{Next};
ghost use Rattle.om_shell_commands.specs.Steps.{undo_text};
ghost use Rattle.om_book_journal.specs.declared.reply.Reply.TheVariants as replies;
ghost use Rattle.om_book_journal.specs.Runs.{is_step_made};
ghost use Rattle.om_shell_debugger.specs.Moves.{goes_on, is_undone, stays, is_step_within, is_undo_within, step_said, start_said, undo_said, next_from, next_said, back_from, back_said, roll_said};
ghost use Rattle.om_shell_commands.specs.Texts.{Writes};
ghost use Rattle.om_shell_debugger.specs.Says.{Says};

use crate::calls;
use om_book::Book;
use om_book_journal::{Command, KeptUndoReply};
use om_code::Program;
use om_seq::AllocResult;
use om_shell_commands::{TaskName, push_full, push_roll, push_step, push_undo, push_undone};
use om_task::Choice;
use om_undo::{Machine, StepReply};
use std::alloc::Global;

// How many steps or undos `next` and `back` make at most, besides the last one.
const MOST_FURTHER: u32 = 9_999;

// A worker, and the line that it is to leave.
#[derive(Clone, Copy)]
struct Stay {
    worker: u8,
    line: u32,
}

// Takes a worker's step by a choice, and appends its reply.
fn step_by(
    alloc: Global,
    book: &mut Book,
    worker: u8,
    choice: &Choice,
    text: &mut Vec<u8>,
) -> AllocResult<()>
    requires { worker < book.old.start.workers }
    ensures { OnOk result (Says (step_said worker choice.now book.old) text.old text.new book.new) }
{
    if book.is_full() {
        return push_full(text);
    }
    let reply = calls::step(alloc, book, worker, choice)?;
    push_step(text, worker, reply)
}

/// Appends the answer to `step W`. The only error is out of memory.
pub fn step(alloc: Global, book: &mut Book, worker: u8, text: &mut Vec<u8>) -> AllocResult<()>
    requires { worker < book.old.start.workers }
    ensures { OnOk result (Says (step_said worker Next book.old) text.old text.new book.new) }
{
    step_by(alloc, book, worker, &Choice::Next, text)
}

/// Appends the answer to `start W NAME`. The only error is out of memory. It stands apart, as names are large.
pub fn start(
    alloc: Global,
    book: &mut Book,
    worker: u8,
    task: &TaskName,
    text: &mut Vec<u8>,
) -> AllocResult<()>
    requires { worker < book.old.start.workers }
    ensures { OnOk result (Says (start_said worker task.now book.old) text.old text.new book.new) }
{
    step_by(alloc, book, worker, &Choice::Start(task.name()), text)
}

// Appends an undo that took nothing out. It stands apart, as a reply that names an object is large.
fn push_refused(
    text: &mut Vec<u8>,
    program: &Program,
    worker: u8,
    reply: &KeptUndoReply,
) -> AllocResult<()>
    ensures { OnOk result (Writes (undo_text program.now worker reply.now) text.old text.new) }
{
    push_undo(text, program, worker, &reply.get())
}

// Appends the reply to an undo, as the journal keeps it.
fn push_kept(
    text: &mut Vec<u8>,
    program: &Program,
    worker: u8,
    reply: &KeptUndoReply,
) -> AllocResult<()>
    ensures { OnOk result (Writes (undo_text program.now worker reply.now) text.old text.new) }
{
    match reply.undone() {
        Some(step) => push_undone(text, step.serial, worker, step.line),
        None => push_refused(text, program, worker, reply),
    }
}

/// Appends the answer to `undo W`. The only error is out of memory.
pub fn undo(alloc: Global, book: &mut Book, worker: u8, text: &mut Vec<u8>) -> AllocResult<()>
    requires { worker < book.old.start.workers }
    ensures { OnOk result (Says (undo_said worker book.old) text.old text.new book.new) }
{
    if book.is_full() {
        return push_full(text);
    }
    calls::undo(alloc, book, worker)?;
    push_kept(
        text,
        book.machine().program(),
        worker,
        calls::undo_told(book),
    )
}

/// Whether a step was made.
pub(crate) fn is_step_made(reply: &StepReply) -> bool
    ensures { result ≡ is_step_made (replies.Step reply.now) }
{
    matches!(reply, StepReply::Done { .. })
}

// Whether a step was taken out.
fn is_undone(reply: &KeptUndoReply) -> bool
    ensures { result ≡ is_undone reply.now }
{
    reply.undone().is_some()
}

// Whether a worker still is at the line.
fn stays(machine: &Machine, stay: Stay) -> bool
    requires { stay.worker < machine.now.workers }
    ensures { result ≡ stays machine.now stay }
{
    machine.line(stay.worker) == stay.line
}

// Whether a step was made that left its worker at the line, and a further one may follow.
fn steps_on(machine: &Machine, reply: &StepReply, stay: Stay, further: u32) -> bool
    requires { stay.worker < machine.now.workers }
    ensures on { result ≡ goes_on further (is_step_within reply.now machine.now stay) }
    ensures further { result ≡ true → 0 < further }
{
    further > 0 && is_step_made(reply) && stays(machine, stay)
}

// Whether a step was taken out, which left its worker at the line, and a further one may be.
fn undoes_on(machine: &Machine, reply: &KeptUndoReply, stay: Stay, further: u32) -> bool
    requires { stay.worker < machine.now.workers }
    ensures on { result ≡ goes_on further (is_undo_within reply.now machine.now stay) }
    ensures further { result ≡ true → 0 < further }
{
    further > 0 && is_undone(reply) && stays(machine, stay)
}

// Steps, and so many further ones at most while they leave the worker at the line.
fn next_within(
    alloc: Global,
    book: &mut Book,
    stay: Stay,
    further: u32,
    text: &mut Vec<u8>,
) -> AllocResult<()>
    requires { stay.worker < book.old.start.workers }
    ensures { OnOk result (Says (next_from further stay book.old) text.old text.new book.new) }
{
    let mut further = further;
    'steps: loop {
        if book.is_full() {
            return push_full(text);
        }
        let reply = calls::step(alloc, book, stay.worker, &Choice::Next)?;
        if !steps_on(book.machine(), &reply, stay, further) {
            return push_step(text, stay.worker, reply);
        }
        further -= 1;
    }
}

/// Appends the answer to `next W`. The only error is out of memory.
pub fn next(alloc: Global, book: &mut Book, worker: u8, text: &mut Vec<u8>) -> AllocResult<()>
    requires { worker < book.old.start.workers }
    ensures { OnOk result (Says (next_said 9999 worker book.old) text.old text.new book.new) }
{
    let line = book.machine().line(worker);
    next_within(alloc, book, Stay { worker, line }, MOST_FURTHER, text)
}

// Undoes, and so many further times at most while that leaves the worker at the line.
fn back_within(
    alloc: Global,
    book: &mut Book,
    stay: Stay,
    further: u32,
    text: &mut Vec<u8>,
) -> AllocResult<()>
    requires { stay.worker < book.old.start.workers }
    ensures { OnOk result (Says (back_from further stay book.old) text.old text.new book.new) }
{
    let mut further = further;
    'undos: loop {
        if book.is_full() {
            return push_full(text);
        }
        calls::undo(alloc, book, stay.worker)?;
        let reply = calls::undo_told(book);
        if !undoes_on(book.machine(), reply, stay, further) {
            return push_kept(text, book.machine().program(), stay.worker, reply);
        }
        further -= 1;
    }
}

/// Appends the answer to `back W`. The only error is out of memory.
pub fn back(alloc: Global, book: &mut Book, worker: u8, text: &mut Vec<u8>) -> AllocResult<()>
    requires { worker < book.old.start.workers }
    ensures { OnOk result (Says (back_said 9999 worker book.old) text.old text.new book.new) }
{
    let line = book.machine().line(worker);
    back_within(alloc, book, Stay { worker, line }, MOST_FURTHER, text)
}

/// Appends the answer to `roll S`. The only error is out of memory.
pub fn roll(alloc: Global, book: &mut Book, serial: u64, text: &mut Vec<u8>) -> AllocResult<()>
    ensures { OnOk result (Says (roll_said serial book.old) text.old text.new book.new) }
{
    if book.is_full() {
        return push_full(text);
    }
    calls::call(alloc, book, &Command::Roll(serial))?;
    push_roll(text, serial, calls::roll_told(book))
}
