//! Changes of a schedule, each a new one.

use crate::blocks::push_block;
use lab_schedules::Block;
use om_seq::AllocResult;
use std::alloc::Global;

/// The blocks without those from one place up to another.
pub(crate) fn without(
    alloc: Global,
    blocks: &[Block],
    from: usize,
    to: usize,
) -> AllocResult<Vec<Block>> {
    let mut rest = Vec::new(alloc);
    for (i, block) in blocks.iter().enumerate() {
        if i < from || i >= to {
            push_block(&mut rest, block)?;
        }
    }
    Ok(rest)
}

/// The blocks with one of them moved to after another.
pub(crate) fn moved(
    alloc: Global,
    blocks: &[Block],
    one: usize,
    after: usize,
) -> AllocResult<Vec<Block>> {
    let mut others = Vec::new(alloc);
    for (i, block) in blocks.iter().enumerate() {
        if i != one {
            push_block(&mut others, block)?;
        }
        if i == after {
            push_nth(&mut others, blocks, one)?;
        }
    }
    Ok(others)
}

// Appends the block at a place, where there is one.
fn push_nth(others: &mut Vec<Block>, blocks: &[Block], at: usize) -> AllocResult<()> {
    if let Some(block) = blocks.get(at) {
        push_block(others, block)?;
    }
    Ok(())
}

/// The blocks with so many steps fewer at a place.
pub(crate) fn shrunk(
    alloc: Global,
    blocks: &[Block],
    at: usize,
    fewer: u32,
) -> AllocResult<Vec<Block>> {
    let mut others = Vec::new(alloc);
    for (i, block) in blocks.iter().enumerate() {
        if i == at {
            push_block(&mut others, &shrunk_block(block, fewer))?;
        } else {
            push_block(&mut others, block)?;
        }
    }
    Ok(others)
}

// A block of so many steps fewer.
fn shrunk_block(block: &Block, fewer: u32) -> Block {
    match block {
        Block::Steps { worker, count } => Block::Steps {
            worker: *worker,
            count: count.saturating_sub(fewer),
        },
        Block::Start { .. } => *block,
    }
}
