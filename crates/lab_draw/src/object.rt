//! The words for the objects at which steps conflict.

ghost use Rattle.std.specs.Prelude.{◌≡◌, ◌++◌, OnOk};
ghost use Rattle.om_shell_commands.specs.Texts.{Writes};
ghost use Rattle.om_foot.specs.Names.{name_text};
ghost use Rattle.lab_draw.specs.Objects.{named_text, numbered_text, before_cell, behind_cell, cell_words, index_words, variable_words, name_of_lock, lock_words, object_words};

use crate::escape::{push_after, push_escaped};
use om_code::Program;
use om_foot::{Name, Obj};
use om_seq::AllocResult;
use om_shell_commands::push_numbered;

/// Appends the words for an object: a global variable has its name in the source. `name` is the name
/// of the local variable if the object is a cell of one; it is empty where that is not known.
pub(crate) fn push_object(
    text: &mut Vec<u8>,
    program: &Program,
    name: &[u8],
    object: &Obj,
) -> AllocResult<()>
    ensures { OnOk result (Writes (object_words program.now name.now object.now) text.old text.new) }
{
    match object {
        Obj::Control(worker) => push_numbered(text, b"control of worker ", *worker),
        Obj::Cell {
            task,
            frame,
            slot,
            index,
        } => {
            push_before_cell(text, name)?;
            push_cell(text, task, *frame, *slot, *index)?;
            push_behind_cell(text, name)
        }
        Obj::Global { variable, index } => push_variable(text, program, *variable, *index),
        Obj::Task(task) => push_named(text, b"task ", task),
        Obj::Kids(task) => push_named(text, b"children of task ", task),
        Obj::Pending { team, phase } => push_in_team(text, b"tasks of team ", team, *phase),
        Obj::Arrived { team, number } => {
            push_in_team(text, b"barriers of team ", team, u64::from(*number))
        }
        Obj::Work { team, region } => push_in_team(text, b"shares of team ", team, *region),
        Obj::Lock(lock) => push_lock(text, program, *lock),
        Obj::Group(group) => push_named(text, b"task group ", group),
        Obj::Output => text.extend_from_slice(b"output"),
        Obj::Events(worker) => push_numbered(text, b"events of worker ", *worker),
    }
}

// Appends bytes, and behind them a name.
fn push_named(text: &mut Vec<u8>, before: &[u8], name: &Name) -> AllocResult<()>
    ensures { OnOk result (text.new.items ≡ text.old.items ++ named_text before.now name.now) }
{
    text.extend_from_slice(before)?;
    name.text(text)
}

// Appends bytes, a name and a number.
fn push_in_team(text: &mut Vec<u8>, before: &[u8], team: &Name, number: u64) -> AllocResult<()>
    ensures { OnOk result (Writes (numbered_text before.now team.now number) text.old text.new) }
{
    push_named(text, before, team)?;
    push_numbered(text, b" number ", number)
}

// Appends what stands before a cell: the name of its variable, if it is known.
fn push_before_cell(text: &mut Vec<u8>, name: &[u8]) -> AllocResult<()>
    ensures { OnOk result (text.new.items ≡ text.old.items ++ before_cell name.now) }
{
    let [_, ..] = name else {
        return Ok(());
    };
    push_escaped(text, name)?;
    text.extend_from_slice(b" (")
}

// Appends what stands behind it.
fn push_behind_cell(text: &mut Vec<u8>, name: &[u8]) -> AllocResult<()>
    ensures { OnOk result (text.new.items ≡ text.old.items ++ behind_cell name.now) }
{
    let [_, ..] = name else {
        return Ok(());
    };
    text.extend_from_slice(b")")
}

// Appends the words for a cell of a local variable.
fn push_cell(text: &mut Vec<u8>, task: &Name, frame: u64, slot: u32, index: u32) -> AllocResult<()>
    ensures { OnOk result (Writes (cell_words task.now frame slot index) text.old text.new) }
{
    push_named(text, b"cell ", task)?;
    push_numbered(text, b"/", frame)?;
    push_numbered(text, b"/", slot)?;
    push_numbered(text, b"/", index)
}

// Appends a cell of a global as the source writes it: `x`, or `a[2]`. Nothing is written where the
// program has no such global.
fn push_variable(
    text: &mut Vec<u8>,
    program: &Program,
    variable: u32,
    index: u32,
) -> AllocResult<()>
    ensures { OnOk result (Writes (variable_words program.now variable index) text.old text.new) }
{
    let Some(global) = program.globals().get(variable as usize) else {
        return Ok(());
    };
    push_escaped(text, global.name.as_slice())?;
    push_index(text, global.length, index)
}

// Appends the index of an array's cell; a scalar has none.
fn push_index(text: &mut Vec<u8>, length: Option<u32>, index: u32) -> AllocResult<()>
    ensures { OnOk result (text.new.items ≡ text.old.items ++ index_words length index) }
{
    let Some(_) = length else {
        return Ok(());
    };
    push_numbered(text, b"[", index)?;
    text.extend_from_slice(b"]")
}

// Appends the words for a critical region's lock, with its name where it has one.
fn push_lock(text: &mut Vec<u8>, program: &Program, lock: u32) -> AllocResult<()>
    ensures { OnOk result (text.new.items ≡ text.old.items ++ lock_words program.now lock) }
{
    push_after(text, b"lock of critical ", name_of_lock(program, lock))
}

// The name of a critical region; it is empty where it has none.
fn name_of_lock(program: &Program, lock: u32) -> &[u8]
    ensures { result.now ≡ name_of_lock program.now lock }
{
    match program.raw().locks.as_slice().get(lock as usize) {
        Some(name) => name.as_slice(),
        None => &[],
    }
}
