//! Which variable of a function a cell may be.

use crate::function::function_at;
use crate::names::Accepted;
use crate::words::number;
use om_code::raw::{Scope, Source};
use om_code::{Body, Instr, Program, Task, Team};
use om_seq::AllocResult;
use om_shell_commands::push_numbered;
use std::alloc::Global;

// A cell, by the words that an answer has for it.
#[derive(Clone, Copy)]
struct Place {
    // Whether its frame is the first of the initial task, of which the body is `main`.
    is_main: bool,
    frame: u64,
    slot: u32,
    index: u32,
}

// The place that TASK/FRAME/SLOT/INDEX is.
fn place_of(parts: &[&[u8]]) -> Option<Place> {
    let [task, frame, slot, index] = parts else {
        return None;
    };
    let frame = number(frame)?;
    Some(Place {
        is_main: frame == 0 && *task == b"0".as_slice(),
        frame,
        slot: u32::try_from(number(slot)?).ok()?,
        index: u32::try_from(number(index)?).ok()?,
    })
}

// Whether an instruction starts the body of this number.
fn starts(number: usize, instruction: Instr) -> bool {
    matches!(
        instruction,
        Instr::Team(Team::Fork { body, .. }) | Instr::Task(Task::Spawn { body, .. }) if body as usize == number
    )
}

// Whether the body of this number is that of a `parallel` or a `task`.
fn is_region(program: &Program, number: usize) -> bool {
    for body in program.bodies() {
        for line in body.code.as_slice() {
            if starts(number, line.instruction) {
                return true;
            }
        }
    }
    false
}

// Whether a body has such a cell of its own.
fn has_cell(body: &Body, place: Place) -> bool {
    let slot = body.slots.as_slice().get(place.slot as usize);
    slot.is_some_and(|slot| slot.source == Source::Own && place.index < slot.cells)
}

// Whether the cell may be one of the body of this number.
fn may_be_of(program: &Program, number: usize, place: Place) -> bool {
    let is_main = number == program.main() as usize;
    if place.is_main || is_main {
        return place.is_main && is_main;
    }
    let is_region = is_region(program, number);
    if place.frame == 0 {
        is_region
    } else {
        !is_region
    }
}

// The first scope of a slot.
fn scope_of(body: &Body, slot: u32) -> Option<&Scope> {
    for scope in body.names.scopes.as_slice() {
        if scope.slot == Some(slot) {
            return Some(scope);
        }
    }
    None
}

// The line of a body's first instruction; 0 where it has none.
fn line_of(body: &Body) -> u32 {
    match body.code.as_slice() {
        [first, ..] => first.line,
        [] => 0,
    }
}

// `sum of dot`, or `last[1] of count`; no bytes where no name stands for the slot.
fn variable_text(
    alloc: Global,
    source: &Accepted,
    body: &Body,
    place: Place,
) -> AllocResult<Vec<u8>> {
    let mut text = Vec::new(alloc);
    let Some(scope) = scope_of(body, place.slot) else {
        return Ok(text);
    };
    text.extend_from_slice(scope.name.as_slice())?;
    if scope.length.is_some() {
        push_numbered(&mut text, b"[", place.index)?;
        text.extend_from_slice(b"]")?;
    }
    if let Some(name) = function_at(&source.functions, line_of(body)) {
        text.extend_from_slice(b" of ")?;
        text.extend_from_slice(name)?;
    }
    Ok(text)
}

// The parts of a word, with slashes between them.
fn parts_of(alloc: Global, word: &[u8]) -> AllocResult<Vec<&[u8]>> {
    word.split(|byte| *byte == b'/').collect(alloc)
}

// Whether one of these texts is this one.
fn is_among(texts: &[Vec<u8>], wanted: &[u8]) -> bool {
    for text in texts {
        if text.as_slice() == wanted {
            return true;
        }
    }
    false
}

// Each variable that the cell may be, once.
fn candidates(alloc: Global, source: &Accepted, place: Place) -> AllocResult<Vec<Vec<u8>>> {
    let mut texts = Vec::new(alloc);
    let bodies = source.program.bodies();
    for number in 0..bodies.len() {
        let body = &bodies[number];
        if has_cell(body, place) && may_be_of(&source.program, number, place) {
            let text = variable_text(alloc, source, body, place)?;
            if !text.is_empty() && !is_among(texts.as_slice(), text.as_slice()) {
                texts.push(text)?;
            }
        }
    }
    Ok(texts)
}

/// The variables that a cell may be, joined by ` or `; no bytes where none is known.
///
/// The cell is written TASK/FRAME/SLOT/INDEX, and a name does not tell which function a frame runs. So there
/// is one for each function, or for each `parallel` and `task`, that has a variable in this slot.
pub(crate) fn push_cell(
    text: &mut Vec<u8>,
    alloc: Global,
    source: &Accepted,
    cell: &[u8],
) -> AllocResult<()> {
    let parts = parts_of(alloc, cell)?;
    let Some(place) = place_of(&parts) else {
        return Ok(());
    };
    let mut is_first = true;
    let candidates = candidates(alloc, source, place)?;
    for candidate in &candidates {
        if !is_first {
            text.extend_from_slice(b" or ")?;
        }
        text.extend_from_slice(candidate.as_slice())?;
        is_first = false;
    }
    Ok(())
}
