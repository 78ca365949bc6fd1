//! A schedule made short.

use crate::blocks::{is_shorter, stepper_of, steps_in};
use crate::edits::{moved, shrunk, without};
use crate::player::Player;
use crate::sought::Sought;
use crate::trial::play;
use lab_schedules::{Block, Progress};
use om_seq::AllocResult;
use std::alloc::Global;

// How often all changes are tried at most.
const MOST_ROUNDS: u32 = 100;

// From so many steps on a schedule counts as one of so many. After it `run` makes 100,000 steps then, as the
// script does.
const FAR: u64 = 24_750;

/// A schedule that is made short.
#[derive(Drop)]
pub(crate) struct Search<'a, S, P> {
    sought: &'a S,
    blocks: Vec<Block>,
    // How many further steps may be made.
    left: u64,
    // How many steps finish a schedule, at most.
    more: u32,
    // Who is told of each schedule that is tried.
    progress: &'a mut P,
}

impl<'a, S: Sought, P: Progress> Search<'a, S, P> {
    /// A schedule that leads to what is sought, and an end. What does not lead to an end within a few times as many steps
    /// is taken for one that goes on for ever. All schedules that are played make `work` steps together, or a few more.
    pub(crate) fn new(
        sought: &'a S,
        blocks: Vec<Block>,
        work: u64,
        progress: &'a mut P,
    ) -> Search<'a, S, P> {
        let steps = steps_in(&blocks).min(FAR);
        Search {
            sought,
            blocks,
            left: work,
            more: steps as u32 * 4 + 1000,
            progress,
        }
    }

    /// How many further steps may be made.
    pub(crate) fn left(&self) -> u64 {
        self.left
    }

    /// How many steps finish a schedule, at most.
    pub(crate) fn more(&self) -> u32 {
        self.more
    }

    /// The schedule.
    pub(crate) fn into_blocks(self) -> Vec<Block> {
        self.blocks
    }

    /// Makes the schedule short: drops, joins and shrinks blocks while it leads to what is sought, until no such
    /// change does.
    pub(crate) fn shorten(&mut self, alloc: Global, player: &mut Player) -> AllocResult<()> {
        'rounds: for _ in 0..MOST_ROUNDS {
            let (blocks, steps) = (self.blocks.len(), steps_in(&self.blocks));
            self.cut(alloc, player)?;
            self.join(alloc, player)?;
            self.shrink(alloc, player)?;
            if self.blocks.len() == blocks && steps_in(&self.blocks) == steps {
                break;
            }
        }
        Ok(())
    }

    // Takes another schedule in place of its own, where that is shorter and leads to what is sought too.
    fn accept(
        &mut self,
        alloc: Global,
        player: &mut Player,
        blocks: Vec<Block>,
    ) -> AllocResult<bool> {
        if self.left == 0 {
            return Ok(false);
        }
        let played = play(alloc, player, self.sought, &blocks, self.more)?;
        let made = player.steps() as u64;
        self.left = self.left.saturating_sub(made).saturating_sub(1);
        let is_better = played.is_sought && is_shorter(&played.blocks, &self.blocks);
        if is_better {
            self.blocks = played.blocks;
        }
        self.progress.shortens(self.blocks.len());
        Ok(is_better)
    }

    // Drops pieces of so many blocks, from the end to the front.
    fn cut_pieces(&mut self, alloc: Global, player: &mut Player, size: usize) -> AllocResult<()> {
        let mut end = self.blocks.len();
        'pieces: for _ in 0..self.left {
            if end == 0 || self.left == 0 {
                return Ok(());
            }
            let start = end.saturating_sub(size);
            let rest = without(alloc, &self.blocks, start, end)?;
            self.accept(alloc, player, rest)?;
            end = start.min(self.blocks.len());
        }
        Ok(())
    }

    // Drops blocks: first half of them at once, then ever fewer.
    fn cut(&mut self, alloc: Global, player: &mut Player) -> AllocResult<()> {
        let mut size = self.blocks.len();
        'sizes: for _ in 0..usize::BITS {
            size /= 2;
            if size == 0 {
                break;
            }
            self.cut_pieces(alloc, player, size)?;
        }
        self.cut_pieces(alloc, player, 1)
    }

    // Moves a block to after another, or the other one to after it, where both are steps of one worker.
    fn join_two(
        &mut self,
        alloc: Global,
        player: &mut Player,
        one: usize,
        two: usize,
    ) -> AllocResult<bool> {
        if !are_of_one(&self.blocks, one, two) {
            return Ok(false);
        }
        let earlier = moved(alloc, &self.blocks, two, one)?;
        if self.accept(alloc, player, earlier)? {
            return Ok(true);
        }
        let later = moved(alloc, &self.blocks, one, two)?;
        self.accept(alloc, player, later)
    }

    // Joins a block with each later one of its worker.
    fn join_from(&mut self, alloc: Global, player: &mut Player, one: usize) -> AllocResult<()> {
        'others: for two in one..self.blocks.len() {
            if self.left == 0 {
                return Ok(());
            }
            self.join_two(alloc, player, one, two)?;
        }
        Ok(())
    }

    // Joins blocks of one worker.
    fn join(&mut self, alloc: Global, player: &mut Player) -> AllocResult<()> {
        'blocks: for one in 0..self.blocks.len() {
            self.join_from(alloc, player, one)?;
        }
        Ok(())
    }

    // Takes steps off a block: first half of them at once, then ever fewer.
    fn shrink_one(&mut self, alloc: Global, player: &mut Player, at: usize) -> AllocResult<()> {
        let mut fewer = match self.blocks.get(at) {
            Some(block) => block.steps(),
            None => return Ok(()),
        };
        'sizes: for _ in 0..u32::BITS {
            fewer /= 2;
            if fewer == 0 {
                break;
            }
            self.shrink_by(alloc, player, at, fewer)?;
        }
        self.shrink_by(alloc, player, at, 1)
    }

    // Takes so many steps off a block as often as that goes.
    fn shrink_by(
        &mut self,
        alloc: Global,
        player: &mut Player,
        at: usize,
        fewer: u32,
    ) -> AllocResult<()> {
        'tries: for _ in 0..self.left {
            let shorter = shrunk(alloc, &self.blocks, at, fewer)?;
            if !self.accept(alloc, player, shorter)? {
                return Ok(());
            }
        }
        Ok(())
    }

    // Takes steps off each block.
    fn shrink(&mut self, alloc: Global, player: &mut Player) -> AllocResult<()> {
        'blocks: for at in 0..self.blocks.len() {
            if self.left == 0 {
                return Ok(());
            }
            self.shrink_one(alloc, player, at)?;
        }
        Ok(())
    }
}

// Whether two blocks are steps of one worker.
fn are_of_one(blocks: &[Block], one: usize, two: usize) -> bool {
    if one == two {
        return false;
    }
    let (Some(first), Some(second)) = (blocks.get(one), blocks.get(two)) else {
        return false;
    };
    stepper_of(first).is_some() && stepper_of(first) == stepper_of(second)
}
