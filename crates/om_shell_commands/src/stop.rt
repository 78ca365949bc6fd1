//! Breaks, watches, why a run stopped, and what a free run did.

ghost use Rattle.std.specs.Prelude.{◌≡◌, ◌++◌, OnOk};
ghost use Rattle.om_shell_commands.specs.Stops.{break_text, watch_text, deleted_text, stop_text, ran_text, freed_text};

use crate::object::push_variable;
use crate::value::{GlobalCell, push_numbered};
use om_code::Program;
use om_code::frame::Fault;
use om_seq::AllocResult;

/// Why a run stopped.
#[derive(Clone, Copy)]
pub enum Stop {
    /// The worker of the last step came to this fault.
    Fault { fault: Fault, worker: u8 },
    /// The worker of the last step came to this line, at which there is a break.
    Break { line: u32, worker: u8 },
    /// The last step changed the value of this cell, which is watched.
    Watch { cell: GlobalCell, worker: u8 },
    /// As many steps were made as were asked for.
    Limit,
    /// No worker has a move, and the initial task has ended.
    Ended,
    /// No worker has a move.
    Stuck,
}

/// Appends the reply to `break L`.
pub fn push_break(text: &mut Vec<u8>, line: u64) -> AllocResult<()>
    ensures { OnOk result (text.new.items ≡ text.old.items ++ break_text line) }
{
    push_numbered(text, b"break ", line)?;
    text.extend_from_slice(b"\n")
}

/// Appends the reply to `watch VAR`.
pub fn push_watch(text: &mut Vec<u8>, program: &Program, cell: GlobalCell) -> AllocResult<()>
    ensures { OnOk result (text.new.items ≡ text.old.items ++ watch_text program.now cell) }
{
    text.extend_from_slice(b"watch ")?;
    push_variable(text, program, cell)?;
    text.extend_from_slice(b"\n")
}

/// Appends the reply to `delete L`, by whether there was such a break.
pub fn push_deleted(text: &mut Vec<u8>, line: u64, was_there: bool) -> AllocResult<()>
    ensures { OnOk result (text.new.items ≡ text.old.items ++ deleted_text line was_there) }
{
    let before: &[u8] = if was_there { b"deleted " } else { b"no break " };
    push_numbered(text, before, line)?;
    text.extend_from_slice(b"\n")
}

fn push_stop(text: &mut Vec<u8>, program: &Program, stop: Stop) -> AllocResult<()>
    ensures { OnOk result (text.new.items ≡ text.old.items ++ stop_text program.now stop) }
{
    match stop {
        Stop::Fault { fault, worker } => {
            push_numbered(text, b"fault F", fault.number())?;
            push_numbered(text, b" worker ", worker)
        }
        Stop::Break { line, worker } => {
            push_numbered(text, b"break ", line)?;
            push_numbered(text, b" worker ", worker)
        }
        Stop::Watch { cell, worker } => {
            text.extend_from_slice(b"watch ")?;
            push_variable(text, program, cell)?;
            push_numbered(text, b" worker ", worker)
        }
        Stop::Limit => text.extend_from_slice(b"limit"),
        Stop::Ended => text.extend_from_slice(b"ended"),
        Stop::Stuck => text.extend_from_slice(b"stuck"),
    }
}

/// Appends the reply to `run K`: how many steps were made, and why no more.
pub fn push_ran(text: &mut Vec<u8>, program: &Program, steps: u64, stop: Stop) -> AllocResult<()>
    ensures { OnOk result (text.new.items ≡ text.old.items ++ ran_text program.now steps stop) }
{
    push_numbered(text, b"ran ", steps)?;
    text.extend_from_slice(b" ")?;
    push_stop(text, program, stop)?;
    text.extend_from_slice(b"\n")
}

/// Appends the reply to `free K`: how many steps were made.
pub fn push_freed(text: &mut Vec<u8>, steps: u64) -> AllocResult<()>
    ensures { OnOk result (text.new.items ≡ text.old.items ++ freed_text steps) }
{
    push_numbered(text, b"freed ", steps)?;
    text.extend_from_slice(b"\n")
}
