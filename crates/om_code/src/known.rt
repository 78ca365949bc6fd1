//! Whether what a program names exists: a part of the validator, which gate_checks alone calls.

ghost use Rattle.std.specs.Prelude.{◌≡◌, ◌↔◌, ◌≤◌, ◌<◌, [], IsTrue, All, length};
ghost use Rattle.om_code.specs.Validity.{HasTables, HasLength, IsKnown, IsGiven, NamesKnown, IsKnownPlace, IsKnownText, IsKnownBody, CanBegin, FitsOuter, HasNames, IsScopeOf, value_count};

use crate::instruction::{Function, Instr, Place, Region, Serial, Sharing, Task, Team};
use crate::program::NUMBERS;
use crate::raw::{Body, GlobalVariable, Line, Names, Piece, Raw, Scope, Slot, Source};
use om_seq::Seq;

/// Whether each global has a number and a length, and the main body begins from nothing.
pub(crate) fn has_tables(raw: &Raw) -> bool
    ensures { IsTrue result ↔ HasTables raw.now }
{
    raw.globals.len() <= NUMBERS
        && have_lengths(raw.globals.as_slice())
        && is_known_body(raw.bodies.as_slice(), &[], raw.main, 0)
}

// Whether each global is a scalar or an array that isn't too long.
fn have_lengths(globals: &[GlobalVariable]) -> bool
    ensures { IsTrue result ↔ All (λ global. HasLength global.length) globals.now }
{
    globals.iter().all(|global| has_length(global.length))
}

// Whether this is the length of a scalar, or of an array of 1 to 65,536 cells.
fn has_length(length: Option<u32>) -> bool
    ensures { IsTrue result ↔ HasLength length }
{
    match length {
        None => true,
        Some(cells) => 1 <= cells && cells <= 65_536,
    }
}

/// Whether each slot of a body has a number and a cell, and what the body names exists.
pub(crate) fn is_known(raw: &Raw, body: &Body) -> bool
    ensures { IsTrue result ↔ IsKnown raw.now body.now }
{
    let slots = body.slots.as_slice();
    slots.len() <= NUMBERS
        && have_cells(slots)
        && are_given(slots, body.given.as_slice())
        && name_known(raw, slots, body.code.as_slice())
        && has_names(slots, &body.names)
}

// Whether the variables that names mean in a body, and those that it has from the body round it, are
// slots of it.
fn has_names(slots: &[Slot], names: &Names) -> bool
    ensures { IsTrue result ↔ HasNames slots.now names.now }
{
    are_scopes(slots, names.scopes.as_slice()) && names.outer.len() <= slots.len()
}

// Whether the variable of each scope is a slot of its body, where it has one.
fn are_scopes(slots: &[Slot], scopes: &[Scope]) -> bool
    ensures { IsTrue result ↔ All (λ scope. IsScopeOf slots.now scope) scopes.now }
{
    scopes.iter().all(|scope| is_scope(slots, scope))
}

// Whether the variable of a scope is a slot of its body, where it has one.
fn is_scope(slots: &[Slot], scope: &Scope) -> bool
    ensures { IsTrue result ↔ IsScopeOf slots.now scope.now }
{
    match scope.slot {
        None => true,
        Some(slot) => (slot as usize) < slots.len(),
    }
}

// Whether each slot has a cell.
fn have_cells(slots: &[Slot]) -> bool
    ensures { IsTrue result ↔ All (λ slot. 1 ≤ slot.cells) slots.now }
{
    slots.iter().all(|slot| 1 <= slot.cells)
}

// Whether a value can be given to each of these slots.
fn are_given(slots: &[Slot], given: &[u32]) -> bool
    ensures { IsTrue result ↔ All (λ number. IsGiven slots.now number) given.now }
{
    given.iter().all(|number| is_given(slots, *number))
}

// Whether a value can be given to a slot: it exists, and its cells are in its own frame.
fn is_given(slots: &[Slot], number: u32) -> bool
    ensures { IsTrue result ↔ IsGiven slots.now number }
{
    let Some(slot) = slots.get(number as usize) else {
        return false;
    };
    slot.source == Source::Own
}

// Whether what each instruction names exists.
fn name_known(raw: &Raw, slots: &[Slot], code: &[Line]) -> bool
    ensures { IsTrue result ↔ All (λ line. NamesKnown raw.now slots.now line.instruction) code.now }
{
    code.iter()
        .all(|line| names_known(raw, slots, line.instruction))
}

// Whether what an instruction names exists, in a body with these slots.
fn names_known(raw: &Raw, slots: &[Slot], instr: Instr) -> bool
    ensures { IsTrue result ↔ NamesKnown raw.now slots.now instr }
{
    match instr {
        Instr::Serial(
            Serial::Load(place)
            | Serial::LoadElement(place)
            | Serial::Store { place, .. }
            | Serial::StoreElement { place, .. }
            | Serial::Atomic { place, .. }
            | Serial::AtomicElement { place, .. },
        ) => is_known_place(raw, slots, place),
        Instr::Sharing(Sharing::Reduce { copy, place, .. }) => {
            (copy as usize) < slots.len() && is_known_place(raw, slots, place)
        }
        Instr::Serial(Serial::Clear(slot)) | Instr::Sharing(Sharing::Iterate { slot, .. }) => {
            (slot as usize) < slots.len()
        }
        Instr::Function(Function::Call { body, values }) => {
            is_known_body(raw.bodies.as_slice(), &[], body, usize::from(values))
        }
        Instr::Team(Team::Fork { body, values, .. }) | Instr::Task(Task::Spawn { body, values }) =>
            { is_known_body(raw.bodies.as_slice(), slots, body, usize::from(values)) }
        Instr::Serial(Serial::Print { text, values }) => {
            is_known_text(raw.texts.as_slice(), text, usize::from(values))
        }
        Instr::Sharing(Sharing::Pick(list)) => (list as usize) < raw.picks.len(),
        Instr::Region(
            Region::AskCritical(lock) | Region::EnterCritical(lock) | Region::LeaveCritical(lock),
        ) => (lock as usize) < raw.locks.len(),
        _ => true,
    }
}

// Whether a text exists, and takes so many values.
fn is_known_text(texts: &[Seq<Piece>], text: u32, values: usize) -> bool
    ensures { IsTrue result ↔ IsKnownText texts.now text values }
{
    let Some(pieces) = texts.get(text as usize) else {
        return false;
    };
    value_count(pieces.as_slice()) == values
}

// Whether a variable exists.
fn is_known_place(raw: &Raw, slots: &[Slot], place: Place) -> bool
    ensures { IsTrue result ↔ IsKnownPlace raw.now.globals slots.now place }
{
    match place {
        Place::Global(number) => (number as usize) < raw.globals.len(),
        Place::Slot(number) => (number as usize) < slots.len(),
    }
}

// Whether a body exists, and a frame of it can begin with so many values beside an outer frame with these slots.
fn is_known_body(bodies: &[Body], outer: &[Slot], body: u32, values: usize) -> bool
    ensures { IsTrue result ↔ IsKnownBody bodies.now outer.now body values }
{
    let Some(body) = bodies.get(body as usize) else {
        return false;
    };
    can_begin(outer, values, body)
}

// Whether a frame of a body can begin with so many values beside an outer frame with these slots.
fn can_begin(outer: &[Slot], values: usize, body: &Body) -> bool
    ensures { IsTrue result ↔ CanBegin outer.now values body.now }
{
    body.given.len() == values && fit_outer(outer, body.slots.as_slice())
}

// Whether each slot has its own cells, or those of an outer slot that has as many.
fn fit_outer(outer: &[Slot], slots: &[Slot]) -> bool
    ensures { IsTrue result ↔ All (λ slot. FitsOuter outer.now slot.cells slot.source) slots.now }
{
    slots
        .iter()
        .all(|slot| fits_outer(outer, slot.cells, slot.source))
}

// Whether a slot has its own cells, or those of an outer slot that has as many.
fn fits_outer(outer: &[Slot], cells: u32, source: Source) -> bool
    ensures { IsTrue result ↔ FitsOuter outer.now cells source }
{
    match source {
        Source::Own => true,
        Source::Outer(number) => {
            let Some(slot) = outer.get(number as usize) else {
                return false;
            };
            slot.cells == cells
        }
    }
}

// How many values a text takes.
fn value_count(pieces: &[Piece]) -> usize
    ensures { result ≡ value_count pieces.now }
{
    let mut count = 0;
    for piece in pieces {
        match piece {
            Piece::Bytes(_) => {}
            Piece::Value => count += 1,
        }
    }
    count
}
