//! The search from its beginning to its answer.

ghost use Rattle.std.specs.Prelude.{◌≡◌, ◌≤◌, IfOk};
ghost use Rattle.lab_explore_closed.specs.Explored.{IsExplored};
ghost use Rattle.lab_explore.specs.Searches.{acts_of, IsSearch, Answers};

use crate::search::Search;
use crate::watch::Watch;
use lab_explore_closed::{Explored, Limits, Verdict};
use lab_explore_notes::Notes;
use om_code::Program;
use om_seq::AllocResult;
use std::alloc::Global;

// How many things a search does at most: there are more serials of steps.
const MOST_TURNS: u64 = 1 << 62;

// So many turns of a search after each other are told once.
const TOLD: u64 = 1 << 15;

/// Explores all schedules of a program with 1 to 32 workers: every end, every fault that is met and every race.
///
/// Where the answer is complete, no schedule of this machine comes to another end, fault or race. Of schedules that go
/// on for ever it says that some go round, where that was seen, and nothing else. It is not complete where more states
/// were met than may be stored. It stops behind so many steps, where they are limited. Where there is no memory to go on,
/// or behind 2^62 turns of the search, what was found so far is answered. `watch` is told how far it is, now
/// and then. The only error is that there is no memory to begin.
pub fn explore<W: Watch>(
    alloc: Global,
    program: Program,
    workers: u8,
    limits: &Limits,
    watch: &mut W,
) -> AllocResult<Explored>
    requires at_least_one { 1 ≤ workers }
    requires at_most_32 { workers ≤ 32 }
    ensures { IfOk result (IsExplored program workers limits.now) }
{
    let mut search = Search::begun(alloc, program, workers)?;
    let verdict = run(alloc, &mut search, limits, watch);
    Ok(told(search, verdict))
}

// Goes on until nothing is left to be done, or a limit is met, or there is no memory.
fn run<W: Watch>(alloc: Global, search: &mut Search, limits: &Limits, watch: &mut W) -> Verdict
    requires search { IsSearch search.old.machine.program search.old.machine.workers
        (acts_of search.old) search.old }
    requires unmoved { search.old.machine.history.made ≡ 0 }
    ensures { Answers search.old.machine.program search.old.machine.workers limits.now result
        search.new }
{
    for turn in 0..MOST_TURNS {
        if turn % TOLD == 0 {
            watch.tell(search.stored.len() as u64, search.steps);
        }
        match search.turn(alloc, limits) {
            Ok(Some(verdict)) => return verdict,
            Ok(None) => {}
            Err(_) => return Verdict::OutOfMemory,
        }
    }
    Verdict::OutOfMemory
}

// What a search tells that has stopped so.
fn told(search: Search, verdict: Verdict) -> Explored
    ensures { (program : _) (workers : _) (limits : _)
        → Answers program workers limits verdict search → IsExplored program workers limits result }
{
    let Search {
        machine,
        stored,
        todos,
        notes,
        goes_round,
        steps,
    } = search;
    let states = stored.len() as u64;
    drop(machine);
    drop(stored);
    drop(todos);
    let Notes {
        ends,
        faults,
        races,
    } = notes;
    Explored {
        ends,
        faults,
        races,
        verdict,
        goes_round,
        states,
        steps,
    }
}
