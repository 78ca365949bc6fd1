//! The number that a step puts into a variable, and the value of a step in words.

ghost use Rattle.std.specs.Prelude.{◌≡◌, OnOk};
ghost use Rattle.om_state.specs.Runs.{run_puts, runs_listed};
ghost use Rattle.lab_replay.specs.Said.{Tells, fault_in, first_number, number_by, number_of, number_of_cell, valued};

use lab_help::fault_words;
use om_code::frame::{Cell, Fault, Operand};
use om_memory::{Control, Memory};
use om_seq::AllocResult;
use om_shell_commands::{push_number, push_numbered};
use om_state::{Run, Update, Val};
use om_task::Plan;
use om_undo_history::StepReply;

/// The first number that the step of a plan puts into a variable, if it puts one.
pub(crate) fn number_put(plan: &Plan) -> Option<i32>
    ensures { result ≡ number_by plan.now }
{
    let Plan::Updates(change) = plan else {
        return None;
    };
    let (first, runs, last) = change.updates.parts();
    number_among(first)
        .or(number_in_runs(runs))
        .or(number_among(last))
}

// The first number that one of these updates puts into a variable, if one does.
fn number_among(updates: &[Update]) -> Option<i32>
    ensures { result ≡ first_number updates.now }
{
    for update in updates {
        let number = number_of(update);
        if number.is_some() {
            return number;
        }
    }
    None
}

// The number that an update puts into a variable, if it puts one.
fn number_of(update: &Update) -> Option<i32>
    ensures { result ≡ number_of update.now }
{
    match update {
        Update::Put(Val::Cell(cell)) => number_of_cell(*cell),
        _ => None,
    }
}

fn number_of_cell(cell: Cell) -> Option<i32>
    ensures { result ≡ number_of_cell cell }
{
    match cell {
        Cell::Int(number) => Some(number),
        Cell::Unset => None,
        Cell::Dead => None,
    }
}

// The first number that one of these runs puts into a variable, if one does.
fn number_in_runs(runs: &[Run]) -> Option<i32>
    ensures { result ≡ first_number (runs_listed runs.now) }
{
    for run in runs {
        let number = number_of_run(run);
        if number.is_some() {
            return number;
        }
    }
    None
}

fn number_of_run(run: &Run) -> Option<i32>
    ensures { result ≡ first_number (run_puts run.now) }
{
    if run.count == 0 {
        return None;
    }
    number_of_cell(run.cell)
}

/// The fault that a reply tells, if it tells one.
pub(crate) fn fault_in(reply: &StepReply) -> Option<Fault>
    ensures { result ≡ fault_in reply.now }
{
    let StepReply::Done { fault, .. } = reply else {
        return None;
    };
    *fault
}

/// Appends what came of a worker's step, by the store after it: the number that it put, and the fault that
/// it met; where there is neither, the number that it left on its worker's stack.
pub(crate) fn push_value(
    value: &mut Vec<u8>,
    store: &Memory,
    worker: u8,
    number: Option<i32>,
    fault: Option<Fault>,
) -> AllocResult<()>
    ensures { OnOk result (Tells number fault value.new) }
{
    let Some(number) = number else {
        return push_fault_or_top(value, store, worker, fault);
    };
    push_number_after(value, number)?;
    match fault {
        Some(fault) => push_fault(value, fault),
        None => Ok(()),
    }
}

// Appends a fault, or else the number on top of a worker's stack.
fn push_fault_or_top(
    value: &mut Vec<u8>,
    store: &Memory,
    worker: u8,
    fault: Option<Fault>,
) -> AllocResult<()> {
    match fault {
        Some(fault) => push_fault(value, fault),
        None => push_top(value, store, worker),
    }
}

// Appends a fault in words, after a name with `: ` between them.
fn push_fault(text: &mut Vec<u8>, fault: Fault) -> AllocResult<()> {
    if !text.is_empty() {
        text.extend_from_slice(b": ")?;
    }
    push_numbered(text, b"F", fault.number())?;
    text.extend_from_slice(b" ")?;
    text.extend_from_slice(fault_words(fault).as_bytes())
}

// Appends a number, after a name with ` = ` between them.
fn push_number_after(text: &mut Vec<u8>, number: i32) -> AllocResult<()>
    ensures { OnOk result (text.new.items ≡ valued text.old.items number) }
{
    if text.is_empty() {
        push_number(text, number)
    } else {
        push_numbered(text, b" = ", number)
    }
}

// Appends the number on top of the stack of a worker's running frame, if there is one.
fn push_top(text: &mut Vec<u8>, store: &Memory, worker: u8) -> AllocResult<()> {
    let Some(Control::Running(stack)) = store.control(worker) else {
        return Ok(());
    };
    if let Some(Operand::Int(number)) = stack.top.frame.operands.get(0) {
        push_number_after(text, *number)?;
    }
    Ok(())
}
