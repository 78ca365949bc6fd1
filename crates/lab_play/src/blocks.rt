//! Lists of blocks, as they grow.

ghost use Rattle.std.specs.Prelude.{◌≡◌, ◌++◌, ◌∷◌, [], map, IfOk, IfSome, OnOk};
ghost use Rattle.om_undo_history.specs.Runs.{label_of};
ghost use Rattle.lab_schedules.specs.Schedules.{labels_in, labels_of};

use lab_schedules::Block;
use om_seq::AllocResult;
use om_state::{Choice, Entry, Label};
use std::alloc::Global;

/// The worker whose next steps a block is, if it is such a block.
pub(crate) fn stepper_of(block: &Block) -> Option<u8> {
    let Block::Steps { worker, .. } = block else {
        return None;
    };
    Some(*worker)
}

/// Appends a block, in one with the last where both are steps of one worker. A block of no step is left out. When out of
/// memory, nothing is said of the blocks.
pub(crate) fn push_block(blocks: &mut Vec<Block>, block: &Block) -> AllocResult<()>
    ensures { OnOk result
        (labels_of blocks.new.items ≡ labels_of blocks.old.items ++ labels_in block.now) }
{
    let Some(last) = blocks.pop() else {
        return push_some(blocks, block);
    };
    match joined(&last, block) {
        Some(one) => blocks.push(one)?,
        None => {
            blocks.push(last)?;
            push_some(blocks, block)?;
        }
    }
    Ok(())
}

// Appends a block, unless it is of no step.
fn push_some(blocks: &mut Vec<Block>, block: &Block) -> AllocResult<()>
    ensures { OnOk result
        (labels_of blocks.new.items ≡ labels_of blocks.old.items ++ labels_in block.now) }
{
    if block.steps() > 0 {
        blocks.push(*block)?;
    }
    Ok(())
}

// Two blocks as one, where both are steps of one worker, and one has room for them.
fn joined(first: &Block, second: &Block) -> Option<Block>
    ensures { IfSome result (λ one. labels_in one ≡ labels_in first.now ++ labels_in second.now) }
{
    let (
        Block::Steps { worker, count },
        Block::Steps {
            worker: next,
            count: more,
        },
    ) = (first, second)
    else {
        return None;
    };
    if *worker != *next {
        return None;
    }
    Some(Block::Steps {
        worker: *worker,
        count: count.checked_add(*more)?,
    })
}

/// Appends a step. When out of memory, nothing is said of the blocks.
pub(crate) fn push_step(blocks: &mut Vec<Block>, label: &Label) -> AllocResult<()>
    ensures { OnOk result (labels_of blocks.new.items ≡ labels_of blocks.old.items ++ label.now ∷ []) }
{
    let worker = label.worker;
    let block = match label.choice {
        Choice::Next => Block::Steps { worker, count: 1 },
        Choice::Start(task) => Block::Start { worker, task },
    };
    push_block(blocks, &block)
}

/// Steps as blocks: those of one worker in a row are one. The only error is out of memory.
pub fn blocks_of(alloc: Global, path: &[Entry]) -> AllocResult<Vec<Block>>
    ensures { IfOk result (λ blocks. labels_of blocks.items ≡ map label_of path.now) }
{
    let mut blocks = Vec::new(alloc);
    for entry in path {
        let label = Label {
            worker: entry.worker,
            choice: entry.choice,
        };
        push_step(&mut blocks, &label)?;
    }
    Ok(blocks)
}

/// How many steps blocks are.
pub(crate) fn steps_in(blocks: &[Block]) -> u64 {
    let mut sum: u64 = 0;
    for block in blocks {
        sum = sum.saturating_add(u64::from(block.steps()));
    }
    sum
}

/// Whether blocks are shorter than others: fewer, or as many of fewer steps.
pub(crate) fn is_shorter(blocks: &[Block], than: &[Block]) -> bool {
    if blocks.len() != than.len() {
        return blocks.len() < than.len();
    }
    steps_in(blocks) < steps_in(than)
}
