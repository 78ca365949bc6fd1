//! Scripts: a schedule as ompback's commands.

ghost use Rattle.std.specs.Prelude.{◌≡◌, ◌++◌, IfOk, OnOk};
ghost use Rattle.om_shell_commands.specs.Lists.{joined};
ghost use Rattle.lab_schedules.specs.Schedules.{step_text, start_text, times, block_text, schedule_text};

use crate::block::Block;
use om_foot::Name;
use om_seq::AllocResult;
use om_shell_commands::push_numbered;
use std::alloc::Global;

/// How many steps `run` finishes a schedule with, at most.
pub const MOST_STEPS: u32 = 100_000;

/// What lets `run` finish, and shows what was printed.
pub const FINISH: &[u8] = b"run 100000\noutput\n";

/// The commands that make the steps of a schedule, let `run` finish it, and show what was printed.
pub fn script(alloc: Global, blocks: &[Block]) -> AllocResult<Vec<u8>>
    ensures { IfOk result (λ text. text.items ≡ schedule_text blocks.now) }
{
    let mut text = Vec::new(alloc);
    push_blocks(&mut text, blocks)?;
    text.extend_from_slice(FINISH)?;
    Ok(text)
}

// Appends a command for each step of blocks.
fn push_blocks(text: &mut Vec<u8>, blocks: &[Block]) -> AllocResult<()>
    ensures { OnOk result (text.new.items ≡ text.old.items ++ joined block_text blocks.now) }
{
    for block in blocks {
        push_commands(text, block)?;
    }
    Ok(())
}

// Appends a command for each step of a block.
fn push_commands(text: &mut Vec<u8>, block: &Block) -> AllocResult<()>
    ensures { OnOk result (text.new.items ≡ text.old.items ++ block_text block.now) }
{
    match block {
        Block::Steps { worker, count } => push_steps(text, *worker, *count),
        Block::Start { worker, task } => push_start(text, *worker, task),
    }
}

// Appends so many commands `step W`.
fn push_steps(text: &mut Vec<u8>, worker: u8, count: u32) -> AllocResult<()>
    ensures { OnOk result (text.new.items ≡ text.old.items ++ times count (step_text worker)) }
{
    let mut left = count;
    while left > 0 {
        push_step(text, worker)?;
        left -= 1;
    }
    Ok(())
}

// Appends a command `step W`.
fn push_step(text: &mut Vec<u8>, worker: u8) -> AllocResult<()>
    ensures { OnOk result (text.new.items ≡ text.old.items ++ step_text worker) }
{
    push_numbered(text, b"step ", worker)?;
    text.extend_from_slice(b"\n")
}

// Appends a command `start W NAME`.
fn push_start(text: &mut Vec<u8>, worker: u8, task: &Name) -> AllocResult<()>
    ensures { OnOk result (text.new.items ≡ text.old.items ++ start_text worker task.now) }
{
    push_numbered(text, b"start ", worker)?;
    text.extend_from_slice(b" ")?;
    task.text(text)?;
    text.extend_from_slice(b"\n")
}
