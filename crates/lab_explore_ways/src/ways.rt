//! What was found, by short ways.

ghost use Rattle.std.specs.Prelude.{◌≡◌, ◌≤◌, IfOk};
ghost use Rattle.lab_explore_ways.specs.Ways.{IsByShortWays, IsOfSame, IsStillExplored, told_of};

use crate::ends::{ToldEnds, shortened_ends};
use crate::races::shortened_races;
use crate::retracer::Retracer;
use lab_explore_closed::{Explored, Verdict};
use lab_play::Shortener;
use om_code::Program;
use om_seq::{AllocResult, Seq};
use std::alloc::Global;

// How many steps are made at most to find short ways, or a few more.
const MOST_WORK: u64 = 1_000_000;

/// What was found, by short ways.
#[derive(Drop)]
pub struct ShortWays {
    pub explored: Explored,
    /// Of each end, by its place: how many steps of its path are told. `run` makes the others.
    pub told: Seq<u64>,
}

impl ShortWays {
    /// How many steps are told of the path of the end at a place; all where there is no end.
    pub fn told_of(&self, index: usize) -> u64
        ensures { result ≡ told_of self.now.told index }
    {
        match self.told.as_slice().get(index) {
            Some(told) => *told,
            None => u64::MAX,
        }
    }
}

/// What was found, with a short way to each end and race where one is found: the same things in the same order, and each
/// is where its path leads. `program` is what ways are looked for over: another one finds none, or longer ones.
/// Where there was no memory to explore, each way stays as it is. The only error is out of memory.
pub fn with_short_ways(
    alloc: Global,
    program: Program,
    retracer: &mut Retracer,
    explored: Explored,
) -> AllocResult<ShortWays>
    ensures same { IsOfSame retracer.old.machine retracer.new.machine }
    ensures by_short_ways { IfOk result (λ short. IsByShortWays
        retracer.old.machine.program retracer.old.machine.workers explored short.explored) }
    ensures still { IfOk result (λ short. IsStillExplored
        retracer.old.machine.program retracer.old.machine.workers explored short.explored) }
{
    let work = match explored.verdict {
        Verdict::OutOfMemory => 0,
        Verdict::Complete | Verdict::NotComplete | Verdict::Stopped => MOST_WORK,
    };
    let workers = retracer.machine().workers();
    let mut shortener = Shortener::new(alloc, program, workers, work)?;
    let Explored {
        ends,
        faults,
        races,
        verdict,
        states,
        steps,
        goes_round,
    } = explored;
    let ToldEnds { ends, told } = shortened_ends(alloc, &mut shortener, retracer, ends)?;
    let races = shortened_races(alloc, &mut shortener, retracer, races)?;
    drop(shortener);
    Ok(ShortWays {
        explored: Explored {
            ends,
            faults,
            races,
            verdict,
            states,
            steps,
            goes_round,
        },
        told,
    })
}
