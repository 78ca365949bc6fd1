//! Free runs of a program of tasks, until it has ended.

use crate::sessions::told_of;
use gate_sources::FREE_RUNS;
use om_seq::AllocResult;
use std::alloc::Global;
use std::sync::Wait;
use std::thread::Threads;

// How many steps the program makes.
const STEPS: u64 = 188;

// What is written in the end.
const END: &str = "worker 0 ended 0\noutput 2 bytes\n3\n\n";

/// Whether free runs end the program, and say how many steps they made.
pub(crate) fn free_runs_end_tasks<R: Threads + Wait + Sync>(
    rt: &R,
    alloc: Global,
) -> AllocResult<bool> {
    let told = told_of(rt, alloc, 2, FREE_RUNS.as_bytes())?;
    let text = str::from_utf8(told.text.as_slice()).unwrap_or("no text");
    Ok(steps_freed(text) == STEPS && steps_shown(text) == STEPS && text.ends_with(END))
}

// How many steps the answers of free runs say, in all.
fn steps_freed(text: &str) -> u64 {
    let mut steps = 0u64;
    for line in text.lines() {
        if let Some(number) = line.strip_prefix("freed ") {
            steps = steps.saturating_add(number.parse().unwrap_or(0));
        }
    }
    steps
}

// How many steps the history shows.
fn steps_shown(text: &str) -> u64 {
    let mut steps = 0u64;
    for line in text.lines() {
        if line.starts_with("#") {
            steps = steps.saturating_add(1);
        }
    }
    steps
}
