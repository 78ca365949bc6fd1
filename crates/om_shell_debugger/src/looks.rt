//! The commands that look and change nothing.

ghost use Rattle.std.specs.Prelude.{◌≡◌, ◌<◌, unwrap_or, OnOk};
ghost use Rattle.std.specs.Option.{option_copied};
ghost use Rattle.om_state.specs.declared.value.Task.TheVariants as tasks;
ghost use Rattle.om_task.specs.Rules.{line_in};
ghost use Rattle.om_undo.specs.Machines.{state_in};
ghost use Rattle.om_shell_debugger.specs.Looks.{local_said, print_said, control_text, where_said, history_said, events_said, output_said, directive_line, ready_line, ready_text, tasks_text, tasks_said};
ghost use Rattle.om_shell_commands.specs.Lists.{entry_line, history_text, joined};
ghost use Rattle.om_shell_commands.specs.Texts.{Writes};
ghost use Rattle.om_shell_debugger.specs.Says.{Says};

use crate::calls::{call, entries_told, names_told, value_told};
use om_book::Book;
use om_book_journal::{Command, KeptEntry, KeptName, Query};
use om_code::Program;
use om_code_places::line_of;
use om_foot::{Name, Obj};
use om_seq::AllocResult;
use om_shell_commands::{
    GlobalCell, Variable, push_events, push_full, push_history, push_local, push_no_tasks,
    push_output, push_print, push_task, push_where,
};
use om_state::{Control, Task, Val};
use om_undo::Machine;
use std::alloc::Global;

/// Answers `print VAR`.
pub(crate) fn print(
    alloc: Global,
    book: &mut Book,
    cell: GlobalCell,
    text: &mut Vec<u8>,
) -> AllocResult<()>
    ensures { OnOk result (Says (print_said cell book.old) text.old text.new book.new) }
{
    if book.is_full() {
        return push_full(text);
    }
    call(alloc, book, &Command::Look(Query::Value(cell.object())))?;
    push_print(text, book.machine().program(), cell, value_told(book))
}

/// Answers `print W VAR`, where the worker sees a cell.
pub(crate) fn print_local(
    alloc: Global,
    book: &mut Book,
    variable: &Variable,
    cell: &Obj,
    text: &mut Vec<u8>,
) -> AllocResult<()>
    ensures { OnOk result (Says (local_said variable.now cell.now book.old) text.old text.new book.new) }
{
    if book.is_full() {
        return push_full(text);
    }
    call(alloc, book, &Command::Look(Query::Value(*cell)))?;
    push_local(text, variable, value_told(book))
}

// The line of the instruction at which a worker of this control stands; 0 where it is idle or has
// ended.
fn line_in(program: &Program, control: &Control) -> u32
    ensures { result ≡ line_in program.now control.now }
{
    match control {
        Control::Running(stack) => line_of(program, stack.top.frame.body, stack.top.frame.next),
        Control::Faulted(_, stack) => line_of(program, stack.top.frame.body, stack.top.frame.next),
        Control::Idle | Control::Ended(_) => 0,
    }
}

// What a worker is doing, by the value of its control.
fn push_control(text: &mut Vec<u8>, program: &Program, worker: u8, value: &Val) -> AllocResult<()>
    ensures { OnOk result (Writes (control_text worker program.now value.now) text.old text.new) }
{
    match value.control() {
        Some(control) => push_where(text, worker, control, line_in(program, control)),
        None => push_where(text, worker, &Control::Idle, 0),
    }
}

/// Answers `where W`.
pub(crate) fn place(
    alloc: Global,
    book: &mut Book,
    worker: u8,
    text: &mut Vec<u8>,
) -> AllocResult<()>
    requires { worker < book.old.start.workers }
    ensures { OnOk result (Says (where_said worker book.old) text.old text.new book.new) }
{
    if book.is_full() {
        return push_full(text);
    }
    call(
        alloc,
        book,
        &Command::Look(Query::Value(Obj::Control(worker))),
    )?;
    push_control(text, book.machine().program(), worker, value_told(book))
}

// A step that stands, on a line.
fn push_one(text: &mut Vec<u8>, entry: &KeptEntry) -> AllocResult<()>
    ensures { OnOk result (Writes (entry_line entry.now) text.old text.new) }
{
    push_history(text, &[entry.get()])
}

// Steps that stand, each on a line.
fn push_all(text: &mut Vec<u8>, entries: &[KeptEntry]) -> AllocResult<()>
    ensures { OnOk result (Writes (joined entry_line entries.now) text.old text.new) }
{
    for entry in entries {
        push_one(text, entry)?;
    }
    Ok(())
}

// The steps that stand, or that there is none.
fn push_entries(text: &mut Vec<u8>, entries: &[KeptEntry]) -> AllocResult<()>
    ensures { OnOk result (Writes (history_text entries.now) text.old text.new) }
{
    match entries {
        [] => push_history(text, &[]),
        [_, ..] => push_all(text, entries),
    }
}

/// Answers `history`.
pub(crate) fn history(alloc: Global, book: &mut Book, text: &mut Vec<u8>) -> AllocResult<()>
    ensures { OnOk result (Says (history_said book.old) text.old text.new book.new) }
{
    if book.is_full() {
        return push_full(text);
    }
    call(alloc, book, &Command::Look(Query::Entries))?;
    push_entries(text, entries_told(book).as_slice())
}

/// Answers `events W`.
pub(crate) fn events(
    alloc: Global,
    book: &mut Book,
    worker: u8,
    text: &mut Vec<u8>,
) -> AllocResult<()>
    ensures { OnOk result (Says (events_said worker book.old) text.old text.new book.new) }
{
    if book.is_full() {
        return push_full(text);
    }
    call(
        alloc,
        book,
        &Command::Look(Query::Value(Obj::Events(worker))),
    )?;
    push_events(text, value_told(book).records())
}

/// Answers `output`.
pub(crate) fn output(alloc: Global, book: &mut Book, text: &mut Vec<u8>) -> AllocResult<()>
    ensures { OnOk result (Says (output_said book.old) text.old text.new book.new) }
{
    if book.is_full() {
        return push_full(text);
    }
    call(alloc, book, &Command::Look(Query::Value(Obj::Output)))?;
    push_output(text, value_told(book).bytes())
}

// The line of the directive of a task that is ready; 0 for another one.
fn directive_line(task: Option<&Task>) -> u32
    ensures { result ≡ directive_line (unwrap_or (option_copied task.entry) tasks.Absent) }
{
    match task {
        Some(Task::Ready(ready)) => ready.get().line,
        Some(Task::Absent) | Some(Task::Running(_)) | Some(Task::Done) | None => 0,
    }
}

// A task that is ready, on a line.
fn push_ready(alloc: Global, machine: &Machine, name: &Name, text: &mut Vec<u8>) -> AllocResult<()>
    ensures { OnOk result (Writes (ready_line (state_in machine.now) name.now) text.old text.new) }
{
    let value = machine.look(alloc, &Obj::Task(*name))?;
    let line = directive_line(value.task());
    drop(value);
    push_task(text, name, line)
}

// The same by the name that a reply keeps.
fn push_kept(
    alloc: Global,
    machine: &Machine,
    name: &KeptName,
    text: &mut Vec<u8>,
) -> AllocResult<()>
    ensures { OnOk result (Writes (ready_line (state_in machine.now) name.now) text.old text.new) }
{
    push_ready(alloc, machine, &name.get(), text)
}

// Tasks that are ready, each on a line.
fn push_all_ready(
    alloc: Global,
    machine: &Machine,
    names: &[KeptName],
    text: &mut Vec<u8>,
) -> AllocResult<()>
    ensures { OnOk result (Writes (ready_text machine.now names.now) text.old text.new) }
{
    for name in names {
        push_kept(alloc, machine, name, text)?;
    }
    Ok(())
}

// The tasks that are ready, or that there is none.
fn push_tasks(
    alloc: Global,
    machine: &Machine,
    names: &[KeptName],
    text: &mut Vec<u8>,
) -> AllocResult<()>
    ensures { OnOk result (Writes (tasks_text (state_in machine.now) names.now) text.old text.new) }
{
    match names {
        [] => push_no_tasks(text),
        [_, ..] => push_all_ready(alloc, machine, names, text),
    }
}

/// Answers `tasks`.
pub(crate) fn tasks(alloc: Global, book: &mut Book, text: &mut Vec<u8>) -> AllocResult<()>
    ensures { OnOk result (Says (tasks_said book.old) text.old text.new book.new) }
{
    if book.is_full() {
        return push_full(text);
    }
    call(alloc, book, &Command::Look(Query::Ready))?;
    push_tasks(alloc, book.machine(), names_told(book).as_slice(), text)
}
