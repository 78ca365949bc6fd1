//! Why a run stops after a step.

ghost use Rattle.std.specs.Prelude.{◌≡◌, ◌<◌, ◌≤◌, nat_le, map, IfOk, OnOk};
ghost use Rattle.om_undo.specs.Machines.{state_in};
ghost use Rattle.om_shell_debugger.specs.Looks.{line_at};
ghost use Rattle.om_book.specs.Books.{machine_of, records_of};
ghost use Rattle.om_shell_debugger.specs.Calls.{with_step};
ghost use Rattle.om_shell_debugger.specs.Stops.{or_else, fault_stop, break_stop, cell_eq, value_of, watched, watch_stop, stop_after};

use crate::calls::take;
use crate::marks::{Marks, has_line};
use om_book::Book;
use om_code::frame::Cell;
use om_seq::AllocResult;
use om_shell_commands::{GlobalCell, Stop};
use om_undo::{Machine, PlannedStep, StepReply};
use std::alloc::Global;

// A step that ended with a fault.
fn fault_stop(reply: &StepReply, worker: u8) -> Option<Stop>
    ensures { result ≡ fault_stop reply.now worker }
{
    let StepReply::Done {
        fault: Some(fault),
        ..
    } = reply
    else {
        return None;
    };
    Some(Stop::Fault {
        fault: *fault,
        worker,
    })
}

// A worker that came from another line to one at which there is a break.
fn break_stop(breaks: &[u64], before: u32, after: u32, worker: u8) -> Option<Stop>
    ensures { result ≡ break_stop breaks.now before after worker }
{
    if before == after {
        return None;
    }
    if has_line(breaks, u64::from(after)) {
        Some(Stop::Break {
            line: after,
            worker,
        })
    } else {
        None
    }
}

// Whether two cells hold the same.
fn is_same_cell(a: Cell, b: Cell) -> bool
    ensures { result ≡ cell_eq a b }
{
    if let (Cell::Int(a), Cell::Int(b)) = (a, b) {
        return a == b;
    }
    matches!(
        (a, b),
        (Cell::Unset, Cell::Unset) | (Cell::Dead, Cell::Dead)
    )
}

// What a cell of a global holds.
fn value_of(alloc: Global, machine: &Machine, cell: GlobalCell) -> AllocResult<Cell>
    ensures { IfOk result (λ value. value ≡ value_of (state_in machine.now) cell) }
{
    let value = machine.look(alloc, &cell.object())?;
    let held = value.cell();
    drop(value);
    Ok(held)
}

/// A watched cell, and what it held before a step.
#[derive(Clone, Copy)]
pub struct Watched {
    pub cell: GlobalCell,
    pub held: Cell,
}

/// Cells, each with what it holds. The only error is out of memory.
pub fn held_by(alloc: Global, machine: &Machine, cells: &[GlobalCell]) -> AllocResult<Vec<Watched>>
    ensures { IfOk result (λ all. all.items ≡ map (watched (state_in machine.now)) cells.now) }
{
    let mut all = Vec::new(alloc);
    for cell in cells {
        let held = value_of(alloc, machine, *cell)?;
        all.push(Watched { cell: *cell, held })?;
    }
    Ok(all)
}

/// The stop of a worker at the first cell that no longer holds what it held, if there is one. The only error is
/// out of memory.
pub fn watch_stop(
    alloc: Global,
    machine: &Machine,
    all: &[Watched],
    worker: u8,
) -> AllocResult<Option<Stop>>
    ensures { IfOk result (λ stop. stop ≡ watch_stop all.now (state_in machine.now) worker) }
{
    for one in all {
        if !is_same_cell(one.held, value_of(alloc, machine, one.cell)?) {
            return Ok(Some(Stop::Watch {
                cell: one.cell,
                worker,
            }));
        }
    }
    Ok(None)
}

// The first of two that is there.
fn or_else(first: Option<Stop>, second: Option<Stop>) -> Option<Stop>
    ensures { result ≡ or_else first second }
{
    match first {
        Some(stop) => Some(stop),
        None => second,
    }
}

/// Takes a step that was planned where the book stands, and answers why a run stops after it, if it does. The
/// only error is out of memory.
pub fn step_and_stop(
    alloc: Global,
    book: &mut Book,
    marks: &Marks,
    step: PlannedStep,
) -> AllocResult<Option<Stop>>
    requires planned { step.machine ≡ machine_of book.old }
    requires in_range { step.label.worker < book.old.start.workers }
    requires room { records_of book.old < 200000 }
    ensures stop { IfOk result (λ stop. stop ≡ stop_after marks.now book.old step.label) }
    ensures after { OnOk result (book.new ≡ with_step book.old step.label) }
{
    let worker = step.worker();
    let line = book.machine().line(worker);
    let all = match held_by(alloc, book.machine(), marks.watches.as_slice()) {
        Ok(all) => all,
        Err(error) => {
            drop(step);
            return Err(error);
        }
    };
    let reply = take(alloc, book, step)?;
    let machine = book.machine();
    let breaks = break_stop(marks.breaks.as_slice(), line, machine.line(worker), worker);
    let watches = watch_stop(alloc, machine, &all, worker)?;
    Ok(or_else(fault_stop(&reply, worker), or_else(breaks, watches)))
}
