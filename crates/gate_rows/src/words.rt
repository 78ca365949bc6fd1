//! The words for what a step touches, as the tables of rows have them.

use om_foot::{Access, Mode, Name, Obj};
use om_seq::AllocResult;
use om_shell_commands::push_numbered;

/// The letter of a mode: it is read, written, or added to.
pub(crate) fn letter(mode: Mode) -> u8 {
    match mode {
        Mode::Read => b'R',
        Mode::Write => b'W',
        Mode::Add => b'A',
    }
}

// Appends bytes, and a name after them.
fn push_named(text: &mut Vec<u8>, kind: &[u8], name: &Name) -> AllocResult<()> {
    text.extend_from_slice(kind)?;
    name.text(text)
}

// Appends what has a number in a team.
fn push_in_team(text: &mut Vec<u8>, kind: &[u8], team: &Name, number: u64) -> AllocResult<()> {
    push_named(text, kind, team)?;
    push_numbered(text, b" ", number)
}

// Appends the cell of a local variable.
fn push_cell(
    text: &mut Vec<u8>,
    task: &Name,
    frame: u64,
    slot: u32,
    index: u32,
) -> AllocResult<()> {
    push_named(text, b"cell ", task)?;
    push_numbered(text, b"/", frame)?;
    push_numbered(text, b"/", slot)?;
    push_numbered(text, b"/", index)
}

// Appends an object. A global variable and a lock have their numbers.
fn push_object(text: &mut Vec<u8>, object: &Obj) -> AllocResult<()> {
    match object {
        Obj::Control(worker) => push_numbered(text, b"control ", *worker),
        Obj::Cell {
            task,
            frame,
            slot,
            index,
        } => push_cell(text, task, *frame, *slot, *index),
        Obj::Global { variable, index } => {
            push_numbered(text, b"global ", *variable)?;
            push_numbered(text, b"/", *index)
        }
        Obj::Task(task) => push_named(text, b"task ", task),
        Obj::Kids(task) => push_named(text, b"children ", task),
        Obj::Pending { team, phase } => push_in_team(text, b"pending ", team, *phase),
        Obj::Arrived { team, number } => push_in_team(text, b"arrived ", team, u64::from(*number)),
        Obj::Work { team, region } => push_in_team(text, b"work ", team, *region),
        Obj::Lock(lock) => push_numbered(text, b"lock ", *lock),
        Obj::Group(group) => push_named(text, b"group ", group),
        Obj::Output => text.extend_from_slice(b"output"),
        Obj::Events(worker) => push_numbered(text, b"events ", *worker),
    }
}

/// Appends accesses, each as `global 0/0 R`.
pub(crate) fn push_accesses(text: &mut Vec<u8>, accesses: &[Access]) -> AllocResult<()> {
    for (at, access) in accesses.iter().enumerate() {
        text.extend_from_slice(if at == 0 { b"  " } else { b", " })?;
        push_object(text, &access.object)?;
        text.extend_from_slice(&[b' ', letter(access.mode)])?;
    }
    Ok(())
}
