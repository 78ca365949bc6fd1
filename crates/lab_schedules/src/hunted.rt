//! What a hunt looks for, and what comes of it.

ghost use Rattle.std.specs.Prelude.{◌≡◌, ◌-◌};
ghost use Rattle.lab_schedules.specs.Seeds.{last_seed};

use crate::block::Block;
use lab_judge::{End, Standard, Wanted};
use om_seq::AllocResult;
use om_undo::Machine;
use std::alloc::Global;

/// The seeds of a hunt: those after one, up to another. So hunts of other seeds go on other machines.
#[derive(Clone, Copy)]
pub struct Seeds {
    /// The seed before the first one; 0 where that is seed 1.
    pub after: u64,
    /// The last seed.
    pub last: u64,
}

impl Seeds {
    /// So many seeds, from this one on. No seed is above 2^64 - 1, and none is 0.
    pub fn from(first: u64, count: u64) -> Seeds
        ensures after { result.after ≡ first - 1 }
        ensures last { result.last ≡ last_seed first count }
    {
        let after = first.saturating_sub(1);
        Seeds {
            after,
            last: after.saturating_add(count),
        }
    }
}

/// What a hunt looks for, and how long.
#[derive(Clone, Copy)]
pub struct Aims<'a> {
    /// How many workers there are, 1 to 32.
    pub workers: u8,
    /// The seeds whose schedules are tried, beside that of `run`.
    pub seeds: Seeds,
    /// How many steps chance makes at most, before `run` makes the others.
    pub steps: u64,
    /// What the program has to print; where there is none, what it prints where `run` makes all steps, if
    /// it ends there.
    pub expected: Option<&'a [u8]>,
}

/// Who is told how far a hunt is.
pub trait Progress {
    /// The schedule of this seed is tried next. The last seed of the hunt is `last`.
    fn tell(&mut self, seed: u64, last: u64);

    /// The schedule of a seed was played and is not bad; this machine holds its history. The seed is 0 for `run` alone. The
    /// only error is out of memory.
    fn played(&mut self, alloc: Global, seed: u64, machine: &Machine) -> AllocResult<()>;

    /// The schedule of a seed is bad, as these words say: the first line of the report, without its end. The
    /// schedule is made short next.
    fn found(&mut self, words: &[u8]);

    /// A shorter schedule was tried in place of the bad one, which has so many blocks now.
    fn shortens(&mut self, blocks: usize);
}

/// A bad schedule.
#[derive(Drop)]
pub struct Found {
    /// The seed that led to it, from 1; 0 where `run` alone is bad.
    pub seed: u64,
    /// How many workers there were, 1 to 32.
    pub workers: u8,
    /// The schedule, made short. After it `run` makes the steps.
    pub blocks: Vec<Block>,
    /// It as commands of ompback, of which the last two let `run` finish and show what was printed.
    pub script: Vec<u8>,
    /// All that ompback answers to the script.
    pub printed: Vec<u8>,
    /// What it comes to.
    pub end: End,
    /// What the program had to print.
    pub wanted: Wanted,
    /// How many bad schedules were tried before it that the debugger did not find bad.
    pub unconfirmed: u64,
}

/// What came of a hunt.
#[derive(Drop)]
pub enum Hunted {
    /// The source is refused, by this line.
    Refused(Vec<u8>),
    /// No bad schedule was found.
    Nothing {
        /// Which seeds there were. That `run` alone is not bad is proved, and nothing of the seeds.
        seeds: Seeds,
        /// What outputs were compared with; `None` where no output was, as no schedule came to an end.
        compared: Option<Standard>,
        /// How many bad schedules were tried that the debugger did not find bad.
        unconfirmed: u64,
        /// What ompback answers where `run` makes all steps.
        printed: Vec<u8>,
    },
    /// This schedule is bad.
    Found(Found),
}
