//! The sections of the input, and what is told of each.
//!
//! A section begins with a line `== HEAD`. Below it stands a C source, and after a line `%%` the
//! commands, each on a line. What is told is the head, and for each command the answer of a session
//! with what was compared.

ghost use Rattle.om_shell_commands.specs.Commands.{HasWorkerBelow};

use crate::pair::Pair;
use crate::removal::is_removed_alone;
use om_seq::AllocResult;
use om_shell_commands::{Command, Request, request_of};
use om_state::{Choice, Label};
use std::alloc::Global;

/// What is told of all sections of a text, and of the one check that is no session. Its only error is out of memory.
pub fn told(alloc: Global, input: &str) -> AllocResult<Vec<u8>> {
    let mut text = Vec::new(alloc);
    for section in input.split("\n== ").skip(1) {
        add_section(alloc, &mut text, section)?;
    }
    text.extend_from_slice(if is_removed_alone(alloc)? {
        b"== an object is removed alone\n"
    } else {
        b"== an object is removed WRONG\n"
    })?;
    Ok(text)
}

// Adds what is told of a section.
fn add_section(alloc: Global, text: &mut Vec<u8>, section: &str) -> AllocResult<()> {
    let (head, body) = section.split_once('\n').unwrap_or((section, ""));
    let (source, commands) = body.split_once("%%\n").unwrap_or((body, ""));
    text.extend_from_slice(b"== ")?;
    text.extend_from_slice(head.as_bytes())?;
    text.extend_from_slice(b"\n")?;
    let Some(mut pair) = Pair::of(alloc, source.as_bytes()) else {
        return text.extend_from_slice(b"WRONG source\n");
    };
    for line in commands.split('\n') {
        add_answer(alloc, text, &mut pair, line)?;
    }
    Ok(())
}

// Adds the answer to a line.
fn add_answer(alloc: Global, text: &mut Vec<u8>, pair: &mut Pair, line: &str) -> AllocResult<()> {
    match request_of(alloc, 2, line.as_bytes())? {
        Request::Command(command) => add_obeyed(alloc, text, pair, command),
        Request::Nothing => Ok(()),
        Request::Fault(_) => text.extend_from_slice(b"WRONG line\n"),
    }
}

// Adds the answer to a command.
fn add_obeyed(
    alloc: Global,
    text: &mut Vec<u8>,
    pair: &mut Pair,
    command: Command,
) -> AllocResult<()>
    requires { HasWorkerBelow 2 command }
{
    match command {
        Command::Step(worker) => {
            let choice = Choice::Next;
            pair.step(alloc, &Label { worker, choice }, text)
        }
        Command::Start { worker, task } => {
            let choice = Choice::Start(task.name());
            pair.step(alloc, &Label { worker, choice }, text)
        }
        Command::Undo(worker) => pair.undo(worker, text),
        Command::Roll(serial) => pair.roll(alloc, serial, text),
        _ => text.extend_from_slice(b"WRONG command\n"),
    }
}
