//! Schedules by chance: turns of workers, each of some steps. Chance is numbers that a seed gives.

ghost use Rattle.std.specs.Prelude.{◌<◌};

use crate::blocks::push_step;
use crate::player::{Attempt, Player};
use lab_schedules::Block;
use om_foot::Name;
use om_seq::AllocResult;
use om_state::{Choice, Label};
use rand_core::utils::NextWord;
use rand_pcg::Pcg32;
use std::alloc::Global;

// What is to come of chance, and the schedule that came of it so far.
#[derive(Drop)]
struct Stroll {
    chance: Chance,
    blocks: Vec<Block>,
}

/// Makes steps by chance from the start, up to a fault or where no worker has a move, and so many at most.
/// Answers their schedule.
pub(crate) fn wander(
    alloc: Global,
    player: &mut Player,
    seed: u64,
    most: u64,
) -> AllocResult<Vec<Block>> {
    player.rewind();
    let mut stroll = Stroll {
        chance: Chance::new(seed),
        blocks: Vec::new(alloc),
    };
    'turns: for _ in 0..most {
        let left = most.saturating_sub(player.steps() as u64);
        if left == 0 || !take_turn(alloc, player, &mut stroll, left)? {
            break;
        }
    }
    Ok(stroll.blocks)
}

// Makes a turn of some worker that can move. Says whether the schedule goes on.
fn take_turn(
    alloc: Global,
    player: &mut Player,
    stroll: &mut Stroll,
    most: u64,
) -> AllocResult<bool> {
    let (worker, attempt) = begin_turn(alloc, player, stroll)?;
    if attempt != Attempt::Made {
        return Ok(false);
    }
    let steps = u64::from(stroll.chance.turn());
    'steps: for _ in 1..steps.min(most) {
        match stray(alloc, player, stroll, worker)? {
            Attempt::Made => {}
            Attempt::Not => return Ok(true),
            Attempt::Faulted => return Ok(false),
        }
    }
    Ok(true)
}

// Makes a step of some worker that can move, if one can. Answers which worker came last, and what came of it.
fn begin_turn(
    alloc: Global,
    player: &mut Player,
    stroll: &mut Stroll,
) -> AllocResult<(u8, Attempt)> {
    let workers = player.workers();
    let first = stroll.chance.below(workers as usize) as u8;
    'workers: for offset in 0..workers {
        let worker = (first + offset) % workers;
        let attempt = stray(alloc, player, stroll, worker)?;
        if attempt != Attempt::Not {
            return Ok((worker, attempt));
        }
    }
    Ok((first, Attempt::Not))
}

// Makes a step of a worker: its next, or the start of a task where it may start one.
fn stray(
    alloc: Global,
    player: &mut Player,
    stroll: &mut Stroll,
    worker: u8,
) -> AllocResult<Attempt> {
    if stroll.chance.below(2) == 0 {
        let attempt = start(alloc, player, stroll, worker)?;
        if attempt != Attempt::Not {
            return Ok(attempt);
        }
    }
    let choice = Choice::Next;
    let attempt = step(alloc, player, stroll, &Label { worker, choice })?;
    if attempt != Attempt::Not {
        return Ok(attempt);
    }
    start(alloc, player, stroll, worker)
}

// Starts a task that a worker can begin, where there is one.
fn start(
    alloc: Global,
    player: &mut Player,
    stroll: &mut Stroll,
    worker: u8,
) -> AllocResult<Attempt> {
    let names = player.ready(alloc, worker)?;
    if names.is_empty() {
        return Ok(Attempt::Not);
    }
    let first = stroll.chance.below(names.len());
    let attempt = start_among(alloc, player, stroll, worker, &names[first..])?;
    if attempt != Attempt::Not {
        return Ok(attempt);
    }
    start_among(alloc, player, stroll, worker, &names[..first])
}

// Starts the first of these tasks that a worker can begin.
fn start_among(
    alloc: Global,
    player: &mut Player,
    stroll: &mut Stroll,
    worker: u8,
    names: &[Name],
) -> AllocResult<Attempt> {
    for name in names {
        let choice = Choice::Start(*name);
        let attempt = step(alloc, player, stroll, &Label { worker, choice })?;
        if attempt != Attempt::Not {
            return Ok(attempt);
        }
    }
    Ok(Attempt::Not)
}

// Makes a step, where it can be made, and notes it.
fn step(
    alloc: Global,
    player: &mut Player,
    stroll: &mut Stroll,
    label: &Label,
) -> AllocResult<Attempt> {
    let attempt = player.attempt(alloc, label)?;
    if attempt != Attempt::Not {
        push_step(&mut stroll.blocks, label)?;
    }
    Ok(attempt)
}

// The generator's stream; its seeds are states.
const STREAM: u64 = 54;

// How many steps a turn has at most.
const MOST_STEPS: u32 = 64;

/// Numbers that a seed gives. The same seed gives the same numbers.
#[derive(Drop)]
pub(crate) struct Chance {
    words: Pcg32,
    // A turn goes on to no further step by a chance of one in so many.
    odds: usize,
    ghost some: { 0 < odds },
}

impl Chance {
    /// The numbers of a seed.
    pub(crate) fn new(seed: u64) -> Chance {
        let odds = match seed % 3 {
            0 => 20,
            1 => 3,
            _ => 8,
        };
        Chance {
            words: Pcg32::new(seed, STREAM),
            odds,
        }
    }

    /// The next number, below a limit.
    pub(crate) fn below(&mut self, limit: usize) -> usize
        requires { 0 < limit }
        ensures { result < limit }
    {
        self.words.next_word() as usize % limit
    }

    /// How many steps a turn has: most turns have few, and none has more than 64.
    pub(crate) fn turn(&mut self) -> u32 {
        for steps in 1..MOST_STEPS {
            if self.below(self.odds) == 0 {
                return steps;
            }
        }
        MOST_STEPS
    }
}
