//! The variable that an instruction names, as the source has it.

use om_code::instruction::Place;
use om_code::{Instr, Program, Serial, Sharing};
use om_code_places::{Var, variable_at};
use om_foot::{Access, Obj};
use om_memory::Frame;
use om_seq::AllocResult;
use om_shell_commands::push_numbered;
use om_task::Plan;

/// A local variable, as its function has it.
#[derive(Clone, Copy)]
pub(crate) struct Local<'a> {
    pub(crate) name: &'a [u8],
    pub(crate) is_array: bool,
}

/// The place of the variable that an instruction names, if it names one. A reduction into a local
/// variable names its copy, which has the variable's name where the two are combined.
pub(crate) fn place_of(instruction: Instr) -> Option<Place> {
    match instruction {
        Instr::Sharing(
            Sharing::Reduce {
                copy,
                place: Place::Slot(_),
                ..
            },
        ) => Some(Place::Slot(copy)),
        Instr::Serial(
            Serial::Load(place)
            | Serial::Store { place, .. }
            | Serial::LoadElement(place)
            | Serial::StoreElement { place, .. }
            | Serial::Atomic { place, .. }
            | Serial::AtomicElement { place, .. },
        )
        | Instr::Sharing(Sharing::Reduce { place, .. }) => Some(place),
        _ => None,
    }
}

// The local variable of this name where a frame is, if it is in this slot.
fn local_named<'a>(
    program: &Program,
    frame: &Frame,
    name: &'a [u8],
    slot: u32,
) -> Option<Local<'a>> {
    let Some(
        Var::Slot {
            slot: found,
            length,
        },
    ) = variable_at(program, frame.body, frame.next, name)
    else {
        return None;
    };
    if found != slot {
        return None;
    }
    Some(Local {
        name,
        is_array: length.is_some(),
    })
}

/// The local variable that means this slot where a frame is.
pub(crate) fn local_at<'a>(program: &'a Program, frame: &Frame, slot: u32) -> Option<Local<'a>> {
    for body in program.bodies() {
        for scope in body.names.scopes.as_slice() {
            let local = local_named(program, frame, scope.name.as_slice(), slot);
            if local.is_some() {
                return local;
            }
        }
    }
    None
}

// The index of the first cell of a variable among these accesses, if there is one.
fn index_among(accesses: &[Access]) -> Option<u32> {
    for access in accesses {
        match &access.object {
            Obj::Cell { index, .. } | Obj::Global { index, .. } => return Some(*index),
            _ => {}
        }
    }
    None
}

// The index of the first cell of a variable that the step of a plan touches, if it touches one. A step
// that meets a fault at an index outside of its array touches none.
fn index_touched(plan: &Plan) -> Option<u32> {
    let Plan::Updates(change) = plan else {
        return None;
    };
    let (_, others) = change.footprint.parts();
    let (first, cells, last) = others.parts();
    match index_among(first) {
        Some(index) => Some(index),
        // Cells that are named at once begin with the first of their slot.
        None if !cells.is_empty() => Some(0),
        None => index_among(last),
    }
}

/// Appends the index of the element that the step of a plan touches, behind the name of an array.
pub(crate) fn push_index(text: &mut Vec<u8>, is_array: bool, plan: &Plan) -> AllocResult<()> {
    if !is_array {
        return Ok(());
    }
    let Some(index) = index_touched(plan) else {
        return Ok(());
    };
    push_numbered(text, b"[", index)?;
    text.extend_from_slice(b"]")
}

/// Appends the cell of a local variable that the instruction of a frame names, as `x` or `a[2]`, by the
/// plan of its step; nothing where it names none.
pub(crate) fn push_variable(
    text: &mut Vec<u8>,
    program: &Program,
    frame: &Frame,
    plan: &Plan,
) -> AllocResult<()> {
    let Some(instruction) = program.instruction(frame.body, frame.next) else {
        return Ok(());
    };
    let Some(Place::Slot(slot)) = place_of(instruction) else {
        return Ok(());
    };
    let Some(local) = local_at(program, frame, slot) else {
        return Ok(());
    };
    text.extend_from_slice(local.name)?;
    push_index(text, local.is_array, plan)
}
