//! Schedules that are tried.

use crate::blocks::push_step;
use crate::player::{Attempt, Player};
use crate::sought::{Finish, Sought};
use lab_judge::{Badness, Wanted};
use lab_schedules::Block;
use om_seq::AllocResult;
use om_state::{Choice, Label};
use std::alloc::Global;

/// What a schedule came to.
#[derive(Drop)]
pub(crate) struct Played {
    /// The steps of the schedule that were made.
    pub(crate) blocks: Vec<Block>,
    /// Whether it led to what is sought.
    pub(crate) is_sought: bool,
}

/// Plays a schedule from the start, and finishes it by so many steps at most. A step that can't be made is left out.
/// So is all that stands after a fault, unless what is sought goes past faults.
pub(crate) fn play<S: Sought>(
    alloc: Global,
    player: &mut Player,
    sought: &S,
    blocks: &[Block],
    more: u32,
) -> AllocResult<Played> {
    player.rewind();
    let mut made = Vec::new(alloc);
    let ends = ends_at_fault(sought.finish());
    for block in blocks {
        if !play_block(alloc, player, block, &mut made)? && ends {
            let is_sought = sought.is_at(alloc, &player.machine)?;
            return Ok(Played {
                blocks: made,
                is_sought,
            });
        }
    }
    player.finish(alloc, sought.finish(), more)?;
    let is_sought = sought.is_at(alloc, &player.machine)?;
    Ok(Played {
        blocks: made,
        is_sought,
    })
}

// Whether a schedule ends where a fault is met.
fn ends_at_fault(finish: Finish) -> bool {
    match finish {
        Finish::UpToFault => true,
        Finish::Nowhere | Finish::PastFaults => false,
    }
}

/// Lets `run` make so many steps, and judges what came of it.
pub(crate) fn finish(
    alloc: Global,
    player: &mut Player,
    wanted: &Wanted,
    more: u32,
) -> AllocResult<Option<Badness>> {
    player.run(alloc, more)?;
    wanted.judge(alloc, &player.machine)
}

// Plays a block, and notes the steps that were made. Says whether it met no fault.
fn play_block(
    alloc: Global,
    player: &mut Player,
    block: &Block,
    made: &mut Vec<Block>,
) -> AllocResult<bool> {
    let label = label_of(block);
    'steps: for _ in 0..block.steps() {
        let attempt = player.attempt(alloc, &label)?;
        if attempt == Attempt::Not {
            return Ok(true);
        }
        push_step(made, &label)?;
        if attempt == Attempt::Faulted {
            return Ok(false);
        }
    }
    Ok(true)
}

// The label of each step of a block.
fn label_of(block: &Block) -> Label {
    match block {
        Block::Steps { worker, .. } => Label {
            worker: *worker,
            choice: Choice::Next,
        },
        Block::Start { worker, task } => Label {
            worker: *worker,
            choice: Choice::Start(*task),
        },
    }
}
