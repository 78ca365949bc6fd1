//! Replies of many lines, and what a worker is doing, and where.

ghost use Rattle.std.specs.Prelude.{◌≡◌, ◌++◌, OnOk, codes};
ghost use Rattle.om_shell_commands.specs.Lists.{joined, entry_line, history_text, event_line, events_text, output_text, task_text, no_tasks_text, taken_line, roll_text};
ghost use Rattle.om_shell_commands.specs.Places.{context_text, control_text, where_text};

use crate::object::push_named;
use crate::step::{push_entry, push_undone};
use crate::value::push_numbered;
use om_events::{Record, text_of};
use om_foot::Name;
use om_seq::AllocResult;
use om_state::{Context, Control, Entry};
use om_undo_history::{RollReply, Taken};

fn push_entry_line(text: &mut Vec<u8>, entry: &Entry) -> AllocResult<()>
    ensures { OnOk result (text.new.items ≡ text.old.items ++ entry_line entry.now) }
{
    push_entry(text, entry.serial, entry.worker, entry.line, None)
}

fn push_entries(text: &mut Vec<u8>, entries: &[Entry]) -> AllocResult<()>
    ensures { OnOk result (text.new.items ≡ text.old.items ++ joined entry_line entries.now) }
{
    for entry in entries {
        push_entry_line(text, entry)?;
    }
    Ok(())
}

/// Appends the steps that stand, each on a line, in their order.
pub fn push_history(text: &mut Vec<u8>, entries: &[Entry]) -> AllocResult<()>
    ensures { OnOk result (text.new.items ≡ text.old.items ++ history_text entries.now) }
{
    match entries {
        [] => text.extend_from_slice(b"no steps\n"),
        [_, ..] => push_entries(text, entries),
    }
}

fn push_event_line(text: &mut Vec<u8>, event: &Record) -> AllocResult<()>
    ensures { OnOk result (text.new.items ≡ text.old.items ++ event_line event.now) }
{
    text_of(event, text)?;
    text.extend_from_slice(b"\n")
}

/// Appends event records, each on a line, in their order.
pub fn push_events(text: &mut Vec<u8>, events: &[Record]) -> AllocResult<()>
    ensures { OnOk result (text.new.items ≡ text.old.items ++ events_text events.now) }
{
    for event in events {
        push_event_line(text, event)?;
    }
    Ok(())
}

/// Appends how many bytes the program printed, and these.
pub fn push_output(text: &mut Vec<u8>, bytes: &[u8]) -> AllocResult<()>
    ensures { OnOk result (text.new.items ≡ text.old.items ++ output_text bytes.now) }
{
    push_numbered(text, b"output ", bytes.len())?;
    text.extend_from_slice(b" bytes\n")?;
    text.extend_from_slice(bytes)?;
    text.extend_from_slice(b"\n")
}

/// Appends a task that is ready, and the line of its directive.
pub fn push_task(text: &mut Vec<u8>, name: &Name, line: u32) -> AllocResult<()>
    ensures { OnOk result (text.new.items ≡ text.old.items ++ task_text name.now line) }
{
    push_named(text, b"ready ", name)?;
    push_numbered(text, b" line ", line)?;
    text.extend_from_slice(b"\n")
}

/// Appends that no task is ready.
pub fn push_no_tasks(text: &mut Vec<u8>) -> AllocResult<()>
    ensures { OnOk result (text.new.items ≡ text.old.items ++ no_tasks_text) }
{
    text.extend_from_slice(b"no tasks\n")
}

fn push_members(text: &mut Vec<u8>, members: &[Taken]) -> AllocResult<()>
    ensures { OnOk result (text.new.items ≡ text.old.items ++ joined taken_line members.now) }
{
    for taken in members {
        push_undone(text, taken.serial, taken.worker, taken.line)?;
    }
    Ok(())
}

/// Appends the reply to a roll: the steps that it took out, the latest first.
pub fn push_roll(text: &mut Vec<u8>, serial: u64, reply: &RollReply) -> AllocResult<()>
    ensures { OnOk result (text.new.items ≡ text.old.items ++ roll_text serial reply.now) }
{
    match reply {
        RollReply::Rolled(members) => push_members(text, members.as_slice()),
        RollReply::NoEntry => {
            push_numbered(text, b"no step #", serial)?;
            text.extend_from_slice(b"\n")
        }
    }
}

// The task that a worker runs, and its place in its team.
fn push_context(text: &mut Vec<u8>, context: &Context, line: u32) -> AllocResult<()>
    ensures { OnOk result (text.new.items ≡ text.old.items ++ context_text context.now line) }
{
    push_named(text, b"task ", context.task.get())?;
    push_named(text, b" team ", context.team.get().name.get())?;
    push_numbered(text, b" number ", context.team.get().number)?;
    push_numbered(text, b" of ", context.team.get().size)?;
    push_numbered(text, b" line ", line)
}

fn push_control(text: &mut Vec<u8>, control: &Control, line: u32) -> AllocResult<()>
    ensures { OnOk result (text.new.items ≡ text.old.items ++ control_text control.now line) }
{
    match control {
        Control::Idle => text.extend_from_slice(b"idle"),
        Control::Running(stack) => push_context(text, &stack.top, line),
        Control::Faulted(fault, _) => {
            push_numbered(text, b"fault F", fault.number())?;
            push_numbered(text, b" line ", line)
        }
        Control::Ended(value) => { push_numbered(text, b"ended ", *value) }
    }
}

/// Appends what a worker is doing, by its control and the line that it is at.
pub fn push_where(text: &mut Vec<u8>, worker: u8, control: &Control, line: u32) -> AllocResult<()>
    ensures { OnOk result (text.new.items ≡ text.old.items ++ where_text worker control.now line) }
{
    push_numbered(text, b"worker ", worker)?;
    text.extend_from_slice(b" ")?;
    push_control(text, control, line)?;
    text.extend_from_slice(b"\n")
}
