//! The words of what an object holds.

ghost use Rattle.std.specs.Prelude.{◌≡◌, ◌++◌, OnOk};
ghost use Rattle.lab_explore_words.specs.Lists.{list_words, option_words, number_words};
ghost use Rattle.lab_explore_words.specs.Words.{control_words};
ghost use Rattle.lab_explore_words.specs.Values.{cell_words, ready_words, task_words, value_words};

use crate::control::{push_control, push_homes};
use crate::plain::{push_bytes, push_int, push_long, push_name, push_number, push_some_name};
use crate::record::push_records;
use om_code::frame::Cell;
use om_seq::AllocResult;
use om_state::{Control, Ready, SharedControl, Task, Val};

/// Appends the words of a value. Its only error is out of memory; then some of them may stand there.
pub fn push_value(value: &Val, out: &mut Vec<u32>) -> AllocResult<()>
    ensures { OnOk result (out.new.items ≡ out.old.items ++ value_words value.now) }
{
    match value {
        Val::Control(control) => {
            out.push(0)?;
            push_shared_control(control, out)
        }
        Val::Cell(cell) => {
            out.push(1)?;
            push_cell(*cell, out)
        }
        Val::Task(task) => {
            out.push(2)?;
            push_task(task, out)
        }
        Val::Count(count) => {
            out.push(3)?;
            push_long(*count, out)
        }
        Val::Number(number) => {
            out.push(4)?;
            push_number(*number, out)
        }
        Val::Lock(holder) => {
            out.push(5)?;
            push_holder(*holder, out)
        }
        Val::Output(bytes) => {
            out.push(6)?;
            push_bytes(bytes.as_slice(), out)
        }
        Val::Events(records) => {
            out.push(7)?;
            push_records(records.as_slice(), out)
        }
    }
}

fn push_shared_control(control: &SharedControl, out: &mut Vec<u32>) -> AllocResult<()>
    ensures { OnOk result (out.new.items ≡ out.old.items ++ control_words control.now) }
{
    match control.get() {
        Some(control) => push_control(control, out),
        None => push_control(&Control::Idle, out),
    }
}

fn push_holder(holder: Option<u8>, out: &mut Vec<u32>) -> AllocResult<()>
    ensures { OnOk result (out.new.items ≡ out.old.items ++ option_words number_words holder) }
{
    match holder {
        None => {
            out.push(0)?;
            Ok(())
        }
        Some(worker) => {
            out.push(1)?;
            push_number(u64::from(worker), out)
        }
    }
}

fn push_cell(cell: Cell, out: &mut Vec<u32>) -> AllocResult<()>
    ensures { OnOk result (out.new.items ≡ out.old.items ++ cell_words cell) }
{
    match cell {
        Cell::Unset => {
            out.push(0)?;
            Ok(())
        }
        Cell::Int(value) => {
            out.push(1)?;
            push_int(value, out)
        }
        Cell::Dead => {
            out.push(2)?;
            Ok(())
        }
    }
}

fn push_task(task: &Task, out: &mut Vec<u32>) -> AllocResult<()>
    ensures { OnOk result (out.new.items ≡ out.old.items ++ task_words task.now) }
{
    match task {
        Task::Absent => {
            out.push(0)?;
            Ok(())
        }
        Task::Ready(ready) => {
            out.push(1)?;
            push_ready(ready.get(), out)
        }
        Task::Running(worker) => {
            out.push(2)?;
            push_number(u64::from(*worker), out)
        }
        Task::Done => {
            out.push(3)?;
            Ok(())
        }
    }
}

fn push_ready(ready: &Ready, out: &mut Vec<u32>) -> AllocResult<()>
    ensures { OnOk result (out.new.items ≡ out.old.items ++ ready_words ready.now) }
{
    push_number(u64::from(ready.body), out)?;
    push_number(u64::from(ready.line), out)?;
    push_homes(ready.homes.get().as_slice(), out)?;
    push_name(ready.team.get(), out)?;
    push_number(ready.phase, out)?;
    push_some_name(ready.group.get(), out)
}
