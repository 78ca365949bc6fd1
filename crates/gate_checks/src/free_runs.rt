//! Free runs of programs of tasks, one after the other, until the programs have ended.

use crate::driven::two_gates;
use crate::machine_of_two::{BookOfTwo, Lengths};
use crate::table::{Ran, Table};
use crate::undos::TASKS;
use gate_sources::FIBONACCI_OF_4;
use om_drive::Errand;
use om_seq::AllocResult;
use std::alloc::Global;
use std::sync::Wait;
use std::thread::Threads;

// How many steps `FIBONACCI_OF_4` makes, whoever makes them.
const FIBONACCI_STEPS: u64 = 188;

// How many steps `TASKS` makes: FORK and FIN, BEGIN, SPAWN, ARRIVE and LEAVE of each thread, and of each task its
// start and TEND.
const TASKS_STEPS: u64 = 14;

// How many free runs there are. After each at least one more of a program's waits has ended: so they suffice, in
// whatever order the workers come.
const RUNS: u32 = 10;

/// Whether free runs end two programs of tasks, and tell how many steps and calls were made.
pub(crate) fn free_runs_are_recorded<R: Threads + Wait + Sync>(
    rt: &R,
    alloc: Global,
) -> AllocResult<bool> {
    Ok(
        runs_end(rt, alloc, TASKS, TASKS_STEPS)?
            && runs_end(rt, alloc, FIBONACCI_OF_4, FIBONACCI_STEPS)?,
    )
}

// Whether free runs make so many steps of a program, and each tells them rightly.
fn runs_end<R: Threads + Wait + Sync>(
    rt: &R,
    alloc: Global,
    source: &str,
    steps: u64,
) -> AllocResult<bool> {
    let Some(mut book) = BookOfTwo::of(alloc, source) else {
        return Ok(false);
    };
    let mut made = 0u64;
    for _ in 0..RUNS {
        let Some((next, done)) = run_once(rt, alloc, book)? else {
            return Ok(false);
        };
        book = next;
        made = made.saturating_add(done);
    }
    Ok(made == steps)
}

// Lets both workers of a book run freely. The book after it, and how many steps were made; `None` where these are
// told wrongly.
fn run_once<R: Threads + Wait + Sync>(
    rt: &R,
    alloc: Global,
    book: BookOfTwo,
) -> AllocResult<Option<(BookOfTwo, u64)>> {
    let before = book.lengths(alloc)?;
    let gates = two_gates(alloc)?;
    let errand = Errand {
        rt,
        alloc,
        rounds: 1000,
    };
    let Some(ran) = (Table { book, gates }).free(errand) else {
        return Ok(None);
    };
    let is_recorded = is_recorded(alloc, &ran, before)?;
    let Ran { book, done, .. } = ran;
    Ok(is_recorded.then_some((book, done)))
}

// Whether the journal grew by the calls that its session counted, and the history by the steps that the run counted.
fn is_recorded(alloc: Global, ran: &Ran, before: Lengths) -> AllocResult<bool> {
    let lengths = ran.book.lengths(alloc)?;
    let calls = lengths.records.saturating_sub(before.records);
    let steps = lengths.entries.saturating_sub(before.entries) as u64;
    Ok(ran.fault.is_none() && !ran.full && calls == ran.calls && steps == ran.done)
}
