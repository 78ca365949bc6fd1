//! The cell of a variable that a command names: a global, or what a worker sees by the name.

ghost use Rattle.std.specs.Prelude.{◌≡◌};
ghost use Rattle.om_memory.specs.Plain.{plain_context, plain_control};
ghost use Rattle.om_shell_commands.specs.Objects.{length_of};
ghost use Rattle.om_shell_debugger.specs.Locals.{cell_seen, global_seen, seen_by, seen_in, var_seen, worker_sees};
ghost use Rattle.om_shell_debugger.specs.Variables.{cell_at, cell_of, element_at};

use om_code::Program;
use om_code::instruction::Place;
use om_code_places::{Var, global_named, variable_at};
use om_foot::Obj;
use om_memory::{Context, Control};
use om_shell_commands::{GlobalCell, Variable};
use om_team_serial::names::object_of;
use om_undo::Machine;

/// How many cells a global variable has, where it is an array.
pub(crate) fn length_of(program: &Program, variable: u32) -> Option<u32>
    ensures { result ≡ length_of program.now variable }
{
    program.globals().get(variable as usize)?.length
}

/// The element of a variable at an index: an array has one below its length, a scalar none.
pub(crate) fn element_at(length: Option<u32>, index: Option<u64>) -> Option<u32>
    ensures { result ≡ element_at length index }
{
    match (length, index) {
        (None, None) => Some(0),
        (Some(length), Some(index)) => {
            if index < u64::from(length) {
                Some(index as u32)
            } else {
                None
            }
        }
        (None, Some(_)) | (Some(_), None) => None,
    }
}

/// The cell of a global variable at an index.
pub(crate) fn cell_at(variable: u32, length: Option<u32>, index: Option<u64>) -> Option<GlobalCell>
    ensures { result ≡ cell_at variable length index }
{
    let index = element_at(length, index)?;
    Some(GlobalCell { variable, index })
}

/// The cell that a variable names; `None` exactly where the program has no such global, or where
/// an index is missing, one too many or out of range.
pub fn cell_of(program: &Program, variable: &Variable) -> Option<GlobalCell>
    ensures { result ≡ cell_of program.now variable.now }
{
    let number = global_named(program, variable.name.as_slice())?;
    cell_at(number, length_of(program, number), variable.index)
}

/// What a worker sees by the name of a variable, at its next instruction.
#[derive(Clone, Copy)]
pub enum Seen {
    /// This cell of a global variable.
    Global(GlobalCell),
    /// This cell of a variable of a function.
    Cell(Obj),
    /// There is no such variable, the body does not have it, or an index is missing, one too many or out of
    /// range.
    Nothing,
}

// The cell of a global variable, where there is one.
fn global_seen(cell: Option<GlobalCell>) -> Seen
    ensures { result ≡ global_seen cell }
{
    match cell {
        None => Seen::Nothing,
        Some(cell) => Seen::Global(cell),
    }
}

// An element of the variable in a slot of the running frame.
fn cell_seen(context: &Context, slot: u32, element: Option<u32>) -> Seen
    ensures { result ≡ cell_seen (plain_context context.now) slot element }
{
    match element {
        None => Seen::Nothing,
        Some(element) => Seen::Cell(object_of(context, Place::Slot(slot), element)),
    }
}

// What a variable is at an index, in the running frame.
fn var_seen(program: &Program, context: &Context, index: Option<u64>, variable: Option<Var>) -> Seen
    ensures { result ≡ var_seen program.now (plain_context context.now) index variable }
{
    match variable {
        None => Seen::Nothing,
        Some(Var::Global(number)) => {
            global_seen(cell_at(number, length_of(program, number), index))
        }
        Some(Var::Slot { slot, length }) => cell_seen(context, slot, element_at(length, index)),
    }
}

// What a variable is in a context.
fn seen_in(program: &Program, variable: &Variable, context: &Context) -> Seen
    ensures { result ≡ seen_in program.now variable.now (plain_context context.now) }
{
    let frame = &context.frame;
    let meant = variable_at(program, frame.body, frame.next, variable.name.as_slice());
    var_seen(program, context, variable.index, meant)
}

// What a variable is for a worker of this control.
fn seen_by(program: &Program, variable: &Variable, control: &Control) -> Seen
    ensures { result ≡ seen_by program.now variable.now (plain_control control.now) }
{
    match control {
        Control::Running(stack) => seen_in(program, variable, &stack.top),
        Control::Faulted(_, stack) => seen_in(program, variable, &stack.top),
        Control::Idle | Control::Ended(_) => global_seen(cell_of(program, variable)),
    }
}

/// What a worker sees by the name of a variable, at its next instruction. It takes no memory.
pub fn worker_sees(machine: &Machine, worker: u8, variable: &Variable) -> Seen
    ensures { result ≡ worker_sees machine.now worker variable.now }
{
    match machine.control(worker) {
        Some(control) => seen_by(machine.program(), variable, control),
        None => global_seen(cell_of(machine.program(), variable)),
    }
}
