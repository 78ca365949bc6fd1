//! Races in words.

use crate::names::local_of;
use crate::order::{Worded, insert};
use crate::regions::push_region;
use lab_explore_closed::{AccessKind, FoundRace, Pair, Place, Racer};
use lab_explore_ways::Retracer;
use om_code::Program;
use om_foot::{Name, Obj};
use om_seq::AllocResult;
use om_shell_commands::push_numbered;
use std::alloc::Global;

/// Races in words, by their lines. The only error is out of memory.
pub(crate) fn worded_races(
    alloc: Global,
    retracer: &mut Retracer,
    races: &[FoundRace],
) -> AllocResult<Vec<Worded>> {
    let mut all = Vec::new(alloc);
    for (index, race) in races.iter().enumerate() {
        let words = words_of(alloc, retracer, race)?;
        let rank = (race.pair.first.line, race.pair.second.line);
        insert(&mut all, Worded { rank, words, index })?;
    }
    Ok(all)
}

/// A word before a race. A conflict with the end of a variable's life is told apart from a data race.
pub(crate) fn word_for(race: &FoundRace) -> &'static [u8] {
    if is_end(race.pair.first.kind) || is_end(race.pair.second.kind) {
        b"lifetime: "
    } else {
        b"race: "
    }
}

fn is_end(kind: AccessKind) -> bool {
    match kind {
        AccessKind::Ends => true,
        AccessKind::Reads | AccessKind::Writes => false,
    }
}

/// Two accesses of a variable that race, and who makes them.
#[derive(Clone, Copy)]
pub struct Meeting<'a> {
    pub pair: &'a Pair,
    /// The name of the variable, with its index, where it is a local one; no bytes where it is not known.
    pub name: &'a [u8],
    /// Who makes the first access of the pair.
    pub first: &'a Racer,
    /// Who makes the second one.
    pub second: &'a Racer,
}

// The line of a race.
fn words_of(alloc: Global, retracer: &mut Retracer, race: &FoundRace) -> AllocResult<Vec<u8>> {
    let name = local_of(alloc, retracer, race)?;
    let meeting = Meeting {
        pair: &race.pair,
        name: &name,
        first: &race.first,
        second: &race.second,
    };
    let mut text = Vec::new(alloc);
    push_meeting(&mut text, retracer.machine().program(), &meeting)?;
    Ok(text)
}

/// Appends a line: two accesses that race, the variable, and who makes them in which critical regions. The only error is
/// out of memory.
pub fn push_meeting(
    text: &mut Vec<u8>,
    program: &Program,
    meeting: &Meeting<'_>,
) -> AllocResult<()> {
    push_access(text, b"line ", &meeting.pair.first)?;
    text.extend_from_slice(b" ")?;
    push_variable(text, program, &meeting.pair.object, meeting.name)?;
    push_access(text, b", line ", &meeting.pair.second)?;
    text.extend_from_slice(b" it; ")?;
    push_racer(text, program, meeting.first)?;
    text.extend_from_slice(b", ")?;
    push_racer(text, program, meeting.second)?;
    text.extend_from_slice(b"\n")
}

fn push_access(text: &mut Vec<u8>, before: &[u8], place: &Place) -> AllocResult<()> {
    push_numbered(text, before, place.line)?;
    match place.kind {
        AccessKind::Reads => text.extend_from_slice(b" reads"),
        AccessKind::Writes => text.extend_from_slice(b" writes"),
        AccessKind::Ends => text.extend_from_slice(b" ends"),
    }
}

// Appends a variable, with the index in an array: a global and a local one by its name. A local one has its task after
// it, unless that is the initial one. Where its name is not known, it stands as a cell: its task, the ordinal of its frame,
// its slot and its index.
fn push_variable(
    text: &mut Vec<u8>,
    program: &Program,
    object: &Obj,
    name: &[u8],
) -> AllocResult<()> {
    match object {
        Obj::Global { variable, index } => push_global(text, program, *variable, *index),
        Obj::Cell {
            task,
            frame,
            slot,
            index,
        } => {
            if name.is_empty() {
                return push_cell(text, task, (*frame, *slot, *index));
            }
            text.extend_from_slice(name)?;
            push_owner(text, task)
        }
        _ => Ok(()),
    }
}

// Appends whose variable it is, where that is not the initial task.
fn push_owner(text: &mut Vec<u8>, task: &Name) -> AllocResult<()> {
    if let [0] = task.as_slice() {
        return Ok(());
    }
    text.extend_from_slice(b" of task ")?;
    task.text(text)
}

fn push_cell(text: &mut Vec<u8>, task: &Name, place: (u64, u32, u32)) -> AllocResult<()> {
    let (frame, slot, index) = place;
    text.extend_from_slice(b"cell ")?;
    task.text(text)?;
    push_numbered(text, b"/", frame)?;
    push_numbered(text, b"/", slot)?;
    push_numbered(text, b"/", index)
}

fn push_global(
    text: &mut Vec<u8>,
    program: &Program,
    variable: u32,
    index: u32,
) -> AllocResult<()> {
    let Some(global) = program.globals().get(variable as usize) else {
        return Ok(());
    };
    text.extend_from_slice(global.name.as_slice())?;
    if global.length.is_some() {
        push_numbered(text, b"[", index)?;
        text.extend_from_slice(b"]")?;
    }
    Ok(())
}

// Appends a worker, and the critical regions that it is in.
fn push_racer(text: &mut Vec<u8>, program: &Program, racer: &Racer) -> AllocResult<()> {
    push_numbered(text, b"worker ", racer.worker)?;
    for lock in racer.locks.as_slice() {
        text.extend_from_slice(b" in ")?;
        push_region(text, program, *lock)?;
    }
    Ok(())
}
