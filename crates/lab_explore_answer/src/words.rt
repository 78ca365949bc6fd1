//! Ends and faults in words.

use crate::order::{Worded, insert};
use crate::regions::{lock_before, push_region};
use lab_explore_closed::{Ending, Explored, FoundEnd, Met, Verdict, Wait};
use lab_explore_ways::Retracer;
use om_seq::AllocResult;
use om_shell_commands::{push_number, push_numbered};
use om_state::Blocked;
use om_undo::Machine;
use std::alloc::Global;

/// Appends a number and a word, which is in the plural unless there is one.
pub fn push_counted(text: &mut Vec<u8>, count: u64, word: &[u8]) -> AllocResult<()> {
    push_number(text, count)?;
    text.extend_from_slice(b" ")?;
    text.extend_from_slice(word)?;
    if count != 1 {
        text.extend_from_slice(b"s")?;
    }
    Ok(())
}

/// Appends a number from 1, before what it counts.
pub(crate) fn push_place(text: &mut Vec<u8>, number: u64) -> AllocResult<()> {
    push_number(text, number)?;
    text.extend_from_slice(b": ")
}

/// Ends in words, by kind: with faults, stuck, ended. The only error is out of memory.
pub(crate) fn worded_ends(
    alloc: Global,
    retracer: &mut Retracer,
    ends: &[FoundEnd],
) -> AllocResult<Vec<Worded>> {
    let mut all = Vec::new(alloc);
    for (index, end) in ends.iter().enumerate() {
        let words = words_of(alloc, retracer, end)?;
        let rank = (kind_of(&end.ending), 0);
        insert(&mut all, Worded { rank, words, index })?;
    }
    Ok(all)
}

// The number of the kind of an ending, in the order in which they are told.
fn kind_of(ending: &Ending) -> u32 {
    match ending {
        Ending::Faults(_, _) => 0,
        Ending::Sticks(_, _) => 1,
        Ending::Ends(_, _) => 2,
    }
}

// The line of an ending.
fn words_of(alloc: Global, retracer: &mut Retracer, end: &FoundEnd) -> AllocResult<Vec<u8>> {
    let mut text = Vec::new(alloc);
    match &end.ending {
        Ending::Faults(mets, output) => {
            push_mets(&mut text, mets.as_slice())?;
            push_printed(&mut text, output.as_slice())?;
        }
        Ending::Ends(value, output) => {
            push_numbered(&mut text, b"ended ", *value)?;
            push_printed(&mut text, output.as_slice())?;
        }
        Ending::Sticks(output, waits) => {
            text.extend_from_slice(b"stuck")?;
            push_printed(&mut text, output.as_slice())?;
            retracer.follow(alloc, end.path.as_slice())?;
            push_waits(&mut text, retracer.machine(), waits.as_slice())?;
        }
    }
    text.extend_from_slice(b"\n")?;
    Ok(text)
}

fn push_mets(text: &mut Vec<u8>, mets: &[Met]) -> AllocResult<()> {
    let mut before: &[u8] = b"fault F";
    for met in mets {
        push_met(text, before, met)?;
        before = b", fault F";
    }
    Ok(())
}

fn push_met(text: &mut Vec<u8>, before: &[u8], met: &Met) -> AllocResult<()> {
    push_numbered(text, before, met.fault.number())?;
    push_numbered(text, b" of worker ", met.worker)?;
    push_numbered(text, b" in line ", met.line)
}

fn push_printed(text: &mut Vec<u8>, output: &[u8]) -> AllocResult<()> {
    text.extend_from_slice(b", printed \"")?;
    for byte in output {
        push_byte(text, *byte)?;
    }
    text.extend_from_slice(b"\"")
}

// Appends a byte in quotes: line ends, quotes and backslashes stand behind a backslash.
fn push_byte(text: &mut Vec<u8>, byte: u8) -> AllocResult<()> {
    match byte {
        b'\n' => text.extend_from_slice(b"\\n"),
        b'\r' => text.extend_from_slice(b"\\r"),
        b'"' => text.extend_from_slice(b"\\\""),
        b'\\' => text.extend_from_slice(b"\\\\"),
        _ => text.extend_from_slice(&[byte]),
    }
}

// Appends who waits in which line for what, where a machine stands.
fn push_waits(text: &mut Vec<u8>, machine: &Machine, waits: &[Wait]) -> AllocResult<()> {
    for wait in waits {
        push_numbered(text, b"; worker ", wait.worker)?;
        push_numbered(text, b" waits in line ", wait.line)?;
        if let Some(why) = wait.blocked {
            push_awaited(text, machine, wait.worker, why)?;
        }
    }
    Ok(())
}

// Appends what a worker waits for.
fn push_awaited(
    text: &mut Vec<u8>,
    machine: &Machine,
    worker: u8,
    why: Blocked,
) -> AllocResult<()> {
    match why {
        Blocked::Barrier => text.extend_from_slice(b" at a barrier"),
        Blocked::Critical(holder) => {
            text.extend_from_slice(b" for ")?;
            match lock_before(machine, worker) {
                Some(lock) => push_region(text, machine.program(), lock)?,
                None => text.extend_from_slice(b"critical")?,
            }
            push_numbered(text, b", held by worker ", holder)
        }
        Blocked::Children => text.extend_from_slice(b" for tasks that it made"),
        Blocked::Busy(other) => push_numbered(text, b" for worker ", other),
        Blocked::Group => text.extend_from_slice(b" for tasks of its taskgroup"),
        Blocked::Idle | Blocked::Task | Blocked::Place => Ok(()),
    }
}

/// Appends the faults that are in no end that was found. Where all was looked at, these workers stopped while another
/// one goes on for ever.
pub(crate) fn push_faults_beside(text: &mut Vec<u8>, explored: &Explored) -> AllocResult<()> {
    for found in explored.faults.as_slice() {
        if !is_in_some(&found.met, explored.ends.as_slice()) {
            push_met(text, b"fault: F", &found.met)?;
            text.extend_from_slice(beside(explored.verdict))?;
        }
    }
    Ok(())
}

// How the line of such a fault ends.
fn beside(verdict: Verdict) -> &'static [u8] {
    match verdict {
        Verdict::Complete => b", in no end\n",
        Verdict::NotComplete | Verdict::Stopped | Verdict::OutOfMemory => b", in no end so far\n",
    }
}

// Whether a fault is one of an end's.
fn is_in_some(met: &Met, ends: &[FoundEnd]) -> bool {
    for end in ends {
        if let Ending::Faults(mets, _) = &end.ending {
            if is_among(met, mets.as_slice()) {
                return true;
            }
        }
    }
    false
}

fn is_among(met: &Met, mets: &[Met]) -> bool {
    for other in mets {
        if other.fault.number() == met.fault.number()
            && other.worker == met.worker
            && other.line == met.line
        {
            return true;
        }
    }
    false
}
