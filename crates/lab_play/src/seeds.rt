//! The schedules of seeds, up to the first that is bad.

ghost use Rattle.std.specs.Prelude.{◌≡◌, ◌≤◌, IfOk, IfSome};
ghost use Rattle.lab_play.specs.Seeds.{LiesAfter, LiesWithin};
ghost use Rattle.om_undo.specs.Machines.{at_start};

use crate::player::Player;
use crate::shorten::Search;
use crate::trial::finish;
use crate::wander::wander;
use lab_judge::{Badness, Wanted, ended, has_ended};
use lab_schedules::{Block, MOST_STEPS, Progress, Seeds, first_line};
use om_code::Program;
use om_seq::AllocResult;
use std::alloc::Global;

// How many steps the schedules that are played make at most while one is made short, all together.
const MOST_WORK: u64 = 20_000_000;

/// What schedules are tried over.
#[derive(Clone, Copy)]
pub struct Ground<'a> {
    /// How many workers there are, 1 to 32.
    pub workers: u8,
    /// How many steps chance makes at most.
    pub steps: u64,
    /// Which seeds there are.
    pub seeds: Seeds,
    /// What the program has to print.
    pub wanted: &'a Wanted,
}

/// A schedule, and the seed that led to it.
#[derive(Drop)]
pub struct Schedule {
    /// The seed, from 1.
    pub seed: u64,
    /// The steps before those that `run` makes.
    pub blocks: Vec<Block>,
    /// Whether it was found bad; else it comes to an end.
    pub is_bad: bool,
}

/// What tries schedules over a program. Each play first takes back all steps that stand.
pub struct Chances {
    player: Player,
}

// By hand: other crates call this, and do not prove anew how each part is dropped.
impl Drop for Chances {
    fn drop(self) {
        let Chances { player } = self;
        drop(player);
    }
}

impl Chances {
    /// What tries schedules over a program, with 1 to 32 workers; no step was made. Its only error is out
    /// of memory.
    pub fn new(alloc: Global, program: Program, workers: u8) -> AllocResult<Chances>
        requires at_least_one { 1 ≤ workers }
        requires at_most_32 { workers ≤ 32 }
        ensures { IfOk result (λ chances. chances.player.machine ≡ at_start program workers) }
    {
        let player = Player::new(alloc, program, workers)?;
        Ok(Chances { player })
    }

    /// Tries the schedule of each seed after this one, and answers the first that is bad, made short. Where it is
    /// not known what is wanted, a schedule that comes to an end is answered too, as it is.
    ///
    /// `progress` is told before each, of the history of each that is not bad, and how a bad one is made short. Its only error is out of memory.
    pub fn next<P: Progress>(
        &mut self,
        alloc: Global,
        ground: &Ground<'_>,
        after: u64,
        progress: &mut P,
    ) -> AllocResult<Option<Schedule>>
        ensures lies_after { IfOk result (λ found. IfSome found (LiesAfter after)) }
        ensures lies_within { IfOk result (λ found. IfSome found (LiesWithin ground.now.seeds.last)) }
    {
        'seeds: for before in after..ground.seeds.last {
            let seed = before + 1;
            progress.tell(seed, ground.seeds.last);
            match blocks_of(alloc, &mut self.player, ground, seed, progress)? {
                Some((blocks, is_bad)) => {
                    return Ok(Some(Schedule {
                        seed,
                        blocks,
                        is_bad,
                    }));
                }
                None => {}
            }
        }
        Ok(None)
    }
}

// The schedule that a seed leads to, and whether it is bad: made short, where it is; as it is, where it comes to
// an end and it is not known what is wanted.
fn blocks_of<P: Progress>(
    alloc: Global,
    player: &mut Player,
    ground: &Ground<'_>,
    seed: u64,
    progress: &mut P,
) -> AllocResult<Option<(Vec<Block>, bool)>> {
    let blocks = wander(alloc, player, seed, ground.steps)?;
    match finish(alloc, player, ground.wanted, MOST_STEPS)? {
        Some(why) => {
            let words = words_of(alloc, player, ground, seed, why)?;
            progress.found(&words);
            let blocks = shortened(alloc, player, ground.wanted, blocks, progress)?;
            Ok(Some((blocks, true)))
        }
        None => {
            progress.played(alloc, seed, &player.machine)?;
            let settles = ground.wanted.text.is_none() && has_ended(player.machine.control(0));
            // What the debugger makes of the schedule takes memory, too.
            player.rewind();
            Ok(settles.then_some((blocks, false)))
        }
    }
}

// What is bad about where a player stands, to which a seed led, in words.
fn words_of(
    alloc: Global,
    player: &Player,
    ground: &Ground<'_>,
    seed: u64,
    why: Badness,
) -> AllocResult<Vec<u8>> {
    let end = ended(alloc, &player.machine, why)?;
    first_line(alloc, seed, &end, ground.wanted)
}

// A bad schedule, made short.
fn shortened<P: Progress>(
    alloc: Global,
    player: &mut Player,
    wanted: &Wanted,
    blocks: Vec<Block>,
    progress: &mut P,
) -> AllocResult<Vec<Block>> {
    let mut search = Search::new(wanted, blocks, MOST_WORK, progress);
    search.shorten(alloc, player)?;
    player.rewind();
    Ok(search.into_blocks())
}
