//! Hunts, and what they tell of how far they are.

use crate::sections::{Given, cut};
use crate::subcommands::{WORKERS, Written, number_in, output_of, refused};
use lab_hunt::{Aims, Hunted, Progress, Seeds, hunt, push_report};
use lab_races_answer::Watch;
use lab_script::ScriptFault;
use lab_text::status::{BAD, DONE};
use om_seq::AllocResult;
use om_undo::Machine;
use std::alloc::Global;
use std::sync::Wait;
use std::thread::Threads;

// Counts the seeds that a hunt tells, and keeps what it says of a bad schedule.
#[derive(Drop)]
struct Count {
    alloc: Global,
    // Which seeds the hunt has to try.
    seeds: Seeds,
    // The last seed that was told; the one before the first where none was.
    last: u64,
    // Whether each was the one after the last, and the hunt told which is the last of all.
    is_in_turn: bool,
    // What was told of the last bad schedule, before it was made short.
    found: Vec<u8>,
    // Whether a shorter schedule was told of since.
    shortens: bool,
}

impl Progress for Count {
    fn tell(&mut self, seed: u64, last: u64) {
        let is_next = self.last.checked_add(1) == Some(seed);
        self.is_in_turn = self.is_in_turn && is_next && last == self.seeds.last;
        self.last = seed;
    }

    fn played(&mut self, _alloc: Global, _seed: u64, _machine: &Machine) -> AllocResult<()> {
        Ok(())
    }

    fn found(&mut self, words: &[u8]) {
        if let Ok(words) = Vec::from_slice(self.alloc, words) {
            self.found = words;
        }
        self.shortens = false;
    }

    fn shortens(&mut self, _blocks: usize) {
        self.shortens = true;
    }
}

impl Count {
    // Appends the last seed that was told: all from the first on were told in turn, unless the line says otherwise. On the
    // next line there is what was told of a bad schedule, and whether it was told that it is made short.
    fn push(&self, text: &mut Vec<u8>) -> AllocResult<()> {
        let last = self.last;
        let order = if self.is_in_turn { "" } else { ", out of turn" };
        let line = format!(in self.alloc; "seeds told: {last}{order}\n")?;
        text.extend_from_slice(line.as_bytes())?;
        if self.found.is_empty() {
            return Ok(());
        }
        text.extend_from_slice(b"bad told: ")?;
        text.extend_from_slice(self.found.as_slice())?;
        text.extend_from_slice(self.end())
    }

    // The end of the line of a bad schedule.
    fn end(&self) -> &'static [u8] {
        if self.shortens {
            b"; it is made short\n"
        } else {
            b"\n"
        }
    }
}

/// What a hunt writes: what it told on its way, and its report. Where it finds nothing, there follows what ompback
/// answers to `run` and `output` alone.
///
/// The numbers are how many seeds there are, how many steps chance makes at most, and the first seed where that is not
/// 1. What the program is to print is the input of the section, if it has one.
pub(crate) fn hunted<R: Threads + Wait + Sync>(
    rt: &R,
    alloc: Global,
    numbers: &str,
    given: Given<'_>,
) -> Result<Written, ScriptFault> {
    let (count, others) = cut(numbers, ' ');
    let (steps, first) = cut(others, ' ');
    let first = if first.is_empty() {
        1
    } else {
        number_in(first)
    };
    let aims = Aims {
        workers: WORKERS,
        seeds: Seeds::from(first, number_in(count)),
        steps: number_in(steps),
        expected: given.input,
    };
    let mut count = Count {
        alloc,
        seeds: aims.seeds,
        last: aims.seeds.after,
        is_in_turn: true,
        found: Vec::new(alloc),
        shortens: false,
    };
    let mut watch = Watch::over(&mut count);
    let hunted = hunt(rt, alloc, given.source, &aims, &mut watch)?;
    let raced = watch.into_raced();
    Ok(told_of(alloc, given, &count, &hunted, raced)?)
}

// What is written of a hunt.
fn told_of(
    alloc: Global,
    given: Given<'_>,
    count: &Count,
    hunted: &Hunted,
    raced: Option<Vec<u8>>,
) -> AllocResult<Written> {
    let mut text = Vec::new(alloc);
    count.push(&mut text)?;
    match hunted {
        Hunted::Refused(_) => refused(alloc, given, text),
        Hunted::Nothing { printed, .. } => {
            push_report(&mut text, hunted)?;
            let status = push_raced(&mut text, raced)?;
            text.extend_from_slice(printed.as_slice())?;
            Ok(output_of(alloc, status, text))
        }
        Hunted::Found(_) => {
            push_report(&mut text, hunted)?;
            Ok(output_of(alloc, BAD, text))
        }
    }
}

// Appends the races of a history, if there are some, and answers the exit status.
fn push_raced(text: &mut Vec<u8>, raced: Option<Vec<u8>>) -> AllocResult<u8> {
    match raced {
        Some(raced) => {
            text.extend_from_slice(&raced)?;
            Ok(BAD)
        }
        None => Ok(DONE),
    }
}
