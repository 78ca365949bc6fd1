//! The texts of objects, as a reply names them.
ghost use Rattle.std.specs.Prelude.{◌≡◌, ◌++◌, OnOk};
ghost use Rattle.om_foot.specs.Names.{name_text};
ghost use Rattle.om_shell_commands.specs.Objects.{global_text, index_text, lock_text, object_text, region_text, slot_text, team_text, variable_text};

use crate::value::{GlobalCell, push_numbered};
use om_code::Program;
use om_foot::{Name, Obj};
use om_seq::AllocResult;

/// Appends the text of an object, which names a global or a critical region by its name.
pub(crate) fn push_object(text: &mut Vec<u8>, program: &Program, object: &Obj) -> AllocResult<()>
    ensures { OnOk result (text.new.items ≡ text.old.items ++ object_text program.now object.now) }
{
    match object {
        Obj::Control(worker) => push_numbered(text, b"control ", *worker),
        Obj::Cell {
            task,
            frame,
            slot,
            index,
        } => push_cell_place(text, task, *frame, *slot, *index),
        Obj::Global { variable, index } => push_global(
            text,
            program,
            GlobalCell {
                variable: *variable,
                index: *index,
            },
        ),
        Obj::Task(task) => push_named(text, b"task ", task),
        Obj::Kids(task) => push_named(text, b"children ", task),
        Obj::Pending { team, phase } => push_place(text, b"pending ", team, *phase),
        Obj::Arrived { team, number } => push_place(text, b"arrived ", team, u64::from(*number)),
        Obj::Work { team, region } => push_place(text, b"work ", team, *region),
        Obj::Lock(lock) => push_lock(text, program, *lock),
        Obj::Group(group) => push_named(text, b"group ", group),
        Obj::Output => text.extend_from_slice(b"output"),
        Obj::Events(worker) => push_numbered(text, b"events ", *worker),
    }
}

/// Appends bytes, and after them a name.
pub(crate) fn push_named(text: &mut Vec<u8>, kind: &[u8], name: &Name) -> AllocResult<()>
    ensures { OnOk result (text.new.items ≡ text.old.items ++ (kind.now ++ name_text name.now)) }
{
    text.extend_from_slice(kind)?;
    name.text(text)
}

// What has a number in a team.
fn push_place(text: &mut Vec<u8>, kind: &[u8], team: &Name, number: u64) -> AllocResult<()>
    ensures { OnOk result (text.new.items ≡ text.old.items ++ team_text kind.now team.now number) }
{
    push_named(text, kind, team)?;
    push_numbered(text, b" ", number)
}

// A cell of a local variable.
fn push_cell_place(
    text: &mut Vec<u8>,
    task: &Name,
    frame: u64,
    slot: u32,
    index: u32,
) -> AllocResult<()>
    ensures { OnOk result (text.new.items ≡ text.old.items ++ slot_text task.now frame slot index) }
{
    push_named(text, b"cell ", task)?;
    push_numbered(text, b"/", frame)?;
    push_numbered(text, b"/", slot)?;
    push_numbered(text, b"/", index)
}

/// Appends a cell of a global as the source writes it: `x`, or `a[2]`. Nothing is written where the
/// program has no such global.
pub(crate) fn push_variable(
    text: &mut Vec<u8>,
    program: &Program,
    cell: GlobalCell,
) -> AllocResult<()>
    ensures { OnOk result (text.new.items ≡ text.old.items ++ variable_text program.now cell) }
{
    let Some(variable) = program.globals().get(cell.variable as usize) else {
        return Ok(());
    };
    text.extend_from_slice(variable.name.as_slice())?;
    push_index(text, variable.length, cell.index)
}

// A cell of a global.
fn push_global(text: &mut Vec<u8>, program: &Program, cell: GlobalCell) -> AllocResult<()>
    ensures { OnOk result (text.new.items ≡ text.old.items ++ global_text program.now cell) }
{
    text.extend_from_slice(b"global ")?;
    push_variable(text, program, cell)
}

// The index of an array's cell; a scalar has none.
fn push_index(text: &mut Vec<u8>, length: Option<u32>, index: u32) -> AllocResult<()>
    ensures { OnOk result (text.new.items ≡ text.old.items ++ index_text length index) }
{
    let Some(_) = length else {
        return Ok(());
    };
    push_numbered(text, b"[", index)?;
    text.extend_from_slice(b"]")
}

// A critical region, `-` where it is the unnamed one.
fn push_lock(text: &mut Vec<u8>, program: &Program, lock: u32) -> AllocResult<()>
    ensures { OnOk result (text.new.items ≡ text.old.items ++ region_text program.now lock) }
{
    text.extend_from_slice(b"lock ")?;
    let Some(name) = program.raw().locks.as_slice().get(lock as usize) else {
        return Ok(());
    };
    push_lock_name(text, name.as_slice())
}

// The name of a critical region.
fn push_lock_name(text: &mut Vec<u8>, name: &[u8]) -> AllocResult<()>
    ensures { OnOk result (text.new.items ≡ text.old.items ++ lock_text (Some name.now)) }
{
    if name.is_empty() {
        text.extend_from_slice(b"-")
    } else {
        text.extend_from_slice(name)
    }
}
