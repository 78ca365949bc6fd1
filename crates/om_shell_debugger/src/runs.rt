//! Runs: the least worker that has a move makes it, so many times at most. In a free run all workers step
//! at once, each in a thread of its own.

ghost use Rattle.std.specs.Prelude.{◌≡◌, ◌<◌, ◌≤◌, IfOk, IfSome, OnOk, Some};
ghost use Rattle.std.specs.Option.{option_copied};
ghost use Rattle.om_memory.specs.Memories.{plain_or_idle};
ghost use Rattle.om_book.specs.Books.{machine_of};
ghost use Rattle.om_shell_commands.specs.Texts.{Writes};
ghost use Rattle.om_shell_debugger.specs.Runs.{planned_by, planned_start, planned_of, planned_among, planned_move, first_move, IsOfWorkerBelow, has_ended, stop_without_move, rest_text, moved_by, behind_move, moved_of, after_move, run_said};
ghost use Rattle.om_shell_debugger.specs.Says.{Says};
ghost use Rattle.om_shell_debugger.specs.Freed.{SaysFreed};

use crate::marks::Marks;
use crate::stops::step_and_stop;
use om_book::Book;
use om_drive::{Errand, run_freely};
use om_memory::Control;
use om_seq::AllocResult;
use om_shell_commands::{Stop, push_freed, push_full, push_ran};
use om_task::Choice;
use om_task::laws::starts_at_scheduling_points;
use om_undo::laws::ready_names_are_ready;
use om_undo::{Machine, PlannedStep};
use std::alloc::Global;
use std::sync::Wait;
use std::thread::Threads;

// The step of a worker by a choice, planned, where it can be made.
fn planned(
    alloc: Global,
    machine: &Machine,
    worker: u8,
    choice: &Choice,
) -> AllocResult<Option<PlannedStep>>
    requires { worker < machine.now.workers }
    ensures { IfOk result (λ step. step ≡ planned_by machine.now worker choice.now) }
{
    let step = machine.plan(alloc, worker, choice)?;
    if step.is_possible() {
        return Ok(Some(step));
    }
    drop(step);
    Ok(None)
}

// The start of the least ready task that a worker can begin. Only at a scheduling point is it asked
// which tasks are ready, one after the other.
fn first_start(alloc: Global, machine: &Machine, worker: u8) -> AllocResult<Option<PlannedStep>>
    requires { worker < machine.now.workers }
    ensures { IfOk result (λ step. step ≡ planned_start machine.now worker) }
{
    starts_at_scheduling_points();
    ready_names_are_ready();
    if !machine.is_at_scheduling_point(worker) {
        return Ok(None);
    }
    let mut after = None;
    'names: while let Some(name) = machine.next_ready(after.as_ref()) {
        match planned(alloc, machine, worker, &Choice::Start(name))? {
            Some(step) => return Ok(Some(step)),
            None => {}
        }
        after = Some(name);
    }
    Ok(None)
}

/// A worker's move, planned and not made: its next step, else the start of the least task that it can
/// begin; `None` where it has none. The only error is out of memory.
pub fn move_of(alloc: Global, machine: &Machine, worker: u8) -> AllocResult<Option<PlannedStep>>
    requires { worker < machine.now.workers }
    ensures { IfOk result (λ step. step ≡ planned_of machine.now worker) }
{
    match planned(alloc, machine, worker, &Choice::Next)? {
        Some(step) => Ok(Some(step)),
        None => first_start(alloc, machine, worker),
    }
}

// The move of the least of the last so many workers that has one.
fn move_among(alloc: Global, machine: &Machine, last: u8) -> AllocResult<Option<PlannedStep>>
    requires { last ≤ machine.now.workers }
    ensures moved { IfOk result (λ step. step ≡ planned_among machine.now last) }
    ensures in_range { IfOk result (λ step. IfSome step (IsOfWorkerBelow machine.now.workers)) }
{
    let mut last = last;
    'workers: while last > 0 {
        let worker = machine.workers() - last;
        match move_of(alloc, machine, worker)? {
            Some(step) => return Ok(Some(step)),
            None => {}
        }
        last -= 1;
    }
    Ok(None)
}

/// The move of the least worker that has one, planned and not made; `None` where no worker has one. The
/// only error is out of memory.
pub fn first_move(alloc: Global, machine: &Machine) -> AllocResult<Option<PlannedStep>>
    ensures moved { IfOk result (λ step. step ≡ planned_move machine.now (first_move machine.now)) }
    ensures in_range { IfOk result (λ step. IfSome step (IsOfWorkerBelow machine.now.workers)) }
{
    move_among(alloc, machine, machine.workers())
}

// Whether the initial task has ended.
fn has_ended(control: Option<&Control>) -> bool
    ensures { result ≡ has_ended (plain_or_idle (option_copied control.entry)) }
{
    match control {
        Some(Control::Ended(_)) => true,
        Some(Control::Idle) | Some(Control::Running(_)) | Some(Control::Faulted(_, _)) | None => {
            false
        }
    }
}

/// Why a run stops where no worker has a move: the program has ended, or is stuck.
pub fn stop_without_move(machine: &Machine) -> Stop
    ensures { result ≡ stop_without_move machine.now }
{
    if has_ended(machine.control(0)) {
        Stop::Ended
    } else {
        Stop::Stuck
    }
}

// Tells that a run stops where no worker has a move.
fn push_without_move(book: &Book, made: u64, text: &mut Vec<u8>) -> AllocResult<()>
    ensures { OnOk result (Writes (rest_text book.now made) text.old text.new) }
{
    let stop = stop_without_move(book.machine());
    push_ran(text, book.machine().program(), made, stop)
}

// What came of the first move.
#[derive(Clone, Copy)]
enum Moved {
    // No worker has a move.
    NoMove,
    // There is no room to record it.
    Full,
    // It was made, and the run stops after it.
    Stopped(Stop),
    // It was made, and the run goes on.
    GoesOn,
}

// Makes a move, where there is room to record it.
fn make(alloc: Global, book: &mut Book, marks: &Marks, step: PlannedStep) -> AllocResult<Moved>
    requires planned { step.machine ≡ machine_of book.old }
    requires in_range { step.label.worker < book.old.start.workers }
    ensures moved { IfOk result
        (λ moved. moved ≡ moved_by marks.now book.old (Some step.label)) }
    ensures after { OnOk result (book.new ≡ behind_move book.old (Some step.label)) }
{
    if book.is_full() {
        drop(step);
        return Ok(Moved::Full);
    }
    match step_and_stop(alloc, book, marks, step)? {
        Some(stop) => Ok(Moved::Stopped(stop)),
        None => Ok(Moved::GoesOn),
    }
}

// Makes the move of the least worker that has one.
fn advance(alloc: Global, book: &mut Book, marks: &Marks) -> AllocResult<Moved>
    ensures moved { IfOk result (λ moved. moved ≡ moved_of marks.now book.old) }
    ensures after { OnOk result (book.new ≡ after_move book.old) }
{
    match first_move(alloc, book.machine())? {
        Some(step) => make(alloc, book, marks, step),
        None => Ok(Moved::NoMove),
    }
}

/// Appends the answer to `run K`. The only error is out of memory.
pub fn run(
    alloc: Global,
    book: &mut Book,
    marks: &Marks,
    steps: u32,
    text: &mut Vec<u8>,
) -> AllocResult<()>
    ensures { OnOk result (Says (run_said steps marks.now book.old) text.old text.new book.new) }
{
    let mut left = steps;
    let mut made = 0;
    'steps: while left > 0 {
        match advance(alloc, book, marks)? {
            Moved::NoMove => return push_without_move(book, made, text),
            Moved::Full => return push_full(text),
            Moved::Stopped(stop) => {
                return push_ran(text, book.machine().program(), made + 1, stop);
            }
            Moved::GoesOn => {}
        }
        made += 1;
        left -= 1;
    }
    push_ran(text, book.machine().program(), made, Stop::Limit)
}

/// Answers `free K`, by the calls that the workers made: their own steps, and questions which tasks
/// are ready.
pub(crate) fn free<R: Threads + Wait + Sync>(
    rt: &R,
    alloc: Global,
    book: &mut Book,
    rounds: u64,
    text: &mut Vec<u8>,
) -> AllocResult<()>
    ensures { OnOk result (SaysFreed book.old text.old text.new book.new) }
{
    // Each round is a record at least, so more rounds come to no more.
    let rounds = u32::try_from(rounds).unwrap_or(u32::MAX);
    let count = run_freely(book, Errand { rt, alloc, rounds })?;
    if count.full {
        return push_full(text);
    }
    push_freed(text, count.done)
}
