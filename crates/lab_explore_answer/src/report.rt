//! The report: the first line says whether all was looked at.

use crate::asked::{Question, Subject};
use crate::racing::{word_for, worded_races};
use crate::ways::{push_way, push_way_to_race};
use crate::words::{push_counted, push_faults_beside, push_place, worded_ends};
use lab_explore_closed::{Explored, FoundRace, Verdict};
use lab_explore_ways::{Retracer, ShortWays};
use om_seq::AllocResult;
use om_shell_commands::push_numbered;
use std::alloc::Global;

/// The report on an exploration of a program, which a retracer makes steps of. Its only error is out of memory.
pub(crate) fn report(
    alloc: Global,
    retracer: &mut Retracer,
    question: &Question,
    short: &ShortWays,
) -> AllocResult<Vec<u8>> {
    let explored = &short.explored;
    let races = explored.races.as_slice();
    let mut text = Vec::new(alloc);
    push_first(&mut text, question, explored)?;
    match question.subject {
        Subject::Ends => {
            push_ends(alloc, &mut text, retracer, short)?;
            push_faults_beside(&mut text, explored)?;
            push_races(alloc, &mut text, retracer, races)?;
        }
        Subject::Races => {
            push_numbered_races(alloc, &mut text, retracer, races)?;
            push_stopped_workers(&mut text, explored)?;
        }
    }
    push_round(&mut text, explored.goes_round)?;
    push_sizes(&mut text, explored)?;
    Ok(text)
}

// Appends the ends, each with its number and the way that leads there.
fn push_ends(
    alloc: Global,
    text: &mut Vec<u8>,
    retracer: &mut Retracer,
    short: &ShortWays,
) -> AllocResult<()> {
    let ends = short.explored.ends.as_slice();
    let mut number: u64 = 0;
    for worded in worded_ends(alloc, retracer, ends)?.as_slice() {
        number = number.saturating_add(1);
        push_place(text, number)?;
        text.extend_from_slice(worded.words.as_slice())?;
        if let Some(end) = ends.get(worded.index) {
            push_way(alloc, text, end, short.told_of(worded.index))?;
        }
    }
    Ok(())
}

// Appends the races, each with its number and the way that leads there.
fn push_numbered_races(
    alloc: Global,
    text: &mut Vec<u8>,
    retracer: &mut Retracer,
    races: &[FoundRace],
) -> AllocResult<()> {
    let mut number: u64 = 0;
    for worded in worded_races(alloc, retracer, races)?.as_slice() {
        number = number.saturating_add(1);
        push_place(text, number)?;
        text.extend_from_slice(worded.words.as_slice())?;
        if let Some(race) = races.get(worded.index) {
            push_way_to_race(alloc, text, race)?;
        }
    }
    Ok(())
}

// Appends the races, each behind a word.
fn push_races(
    alloc: Global,
    text: &mut Vec<u8>,
    retracer: &mut Retracer,
    races: &[FoundRace],
) -> AllocResult<()> {
    for worded in worded_races(alloc, retracer, races)?.as_slice() {
        if let Some(race) = races.get(worded.index) {
            text.extend_from_slice(word_for(race))?;
        }
        text.extend_from_slice(worded.words.as_slice())?;
    }
    Ok(())
}

// Appends whether all was looked at, and how much was found.
fn push_first(text: &mut Vec<u8>, question: &Question, explored: &Explored) -> AllocResult<()> {
    match explored.verdict {
        Verdict::Complete => {
            text.extend_from_slice(b"complete: ")?;
            push_found(text, question.subject, explored)?;
            text.extend_from_slice(b", in all schedules of ")?;
            push_counted(text, u64::from(question.workers), b"worker")?;
        }
        Verdict::NotComplete => {
            text.extend_from_slice(b"not complete: more than ")?;
            push_counted(text, question.limits.states, b"state")?;
            text.extend_from_slice(b"; so far ")?;
            push_found(text, question.subject, explored)?;
        }
        Verdict::Stopped => {
            text.extend_from_slice(b"stopped: behind ")?;
            push_counted(text, explored.steps, b"step")?;
            text.extend_from_slice(b", as --steps asks; so far ")?;
            push_found(text, question.subject, explored)?;
        }
        Verdict::OutOfMemory => {
            text.extend_from_slice(b"out of memory: behind ")?;
            push_counted(text, explored.states, b"state")?;
            text.extend_from_slice(b"; so far ")?;
            push_found(text, question.subject, explored)?;
        }
    }
    text.extend_from_slice(b"\n")
}

// Appends how much was found of what is asked for.
fn push_found(text: &mut Vec<u8>, subject: Subject, explored: &Explored) -> AllocResult<()> {
    match subject {
        Subject::Ends => push_counted(text, explored.ends.len() as u64, b"end"),
        Subject::Races => push_pairs(text, explored.races.len() as u64),
    }
}

fn push_pairs(text: &mut Vec<u8>, count: u64) -> AllocResult<()> {
    match count {
        0 => text.extend_from_slice(b"no two accesses meet"),
        1 => text.extend_from_slice(b"1 pair of accesses meets"),
        _ => {
            push_numbered(text, b"", count)?;
            text.extend_from_slice(b" pairs of accesses meet")
        }
    }
}

// Appends that workers stop at faults, where they do.
fn push_stopped_workers(text: &mut Vec<u8>, explored: &Explored) -> AllocResult<()> {
    if explored.faults.is_empty() {
        return Ok(());
    }
    text.extend_from_slice(b"workers stop at ")?;
    push_counted(text, explored.faults.len() as u64, b"fault")?;
    text.extend_from_slice(b": what lies behind them was not looked at\n")
}

// Appends that schedules go round, where that was seen.
fn push_round(text: &mut Vec<u8>, goes_round: bool) -> AllocResult<()> {
    if !goes_round {
        return Ok(());
    }
    text.extend_from_slice(
        b"some schedules go round for ever (perhaps one in which a worker never gets its turn)\n",
    )
}

// Appends how much was looked at.
fn push_sizes(text: &mut Vec<u8>, explored: &Explored) -> AllocResult<()> {
    push_counted(text, explored.states, b"state")?;
    text.extend_from_slice(b", ")?;
    push_counted(text, explored.steps, b"step")?;
    text.extend_from_slice(b"\n")
}
