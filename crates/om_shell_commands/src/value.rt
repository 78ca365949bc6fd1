//! Numbers in decimal, and the values of variables.

ghost use Rattle.std.specs.Prelude.{◌≡◌, ◌++◌, OnOk};
ghost use Rattle.om_shell_commands.specs.Objects.{variable_text};
ghost use Rattle.om_shell_commands.specs.Texts.{Writes};
ghost use Rattle.om_shell_commands.specs.Values.{cell_text, local_text, print_text, written_index};

use crate::command::Variable;
use crate::object::push_variable;
use itoa::{Buffer, Integer};
use om_code::Program;
use om_code::frame::Cell;
use om_foot::Obj;
use om_seq::AllocResult;
use om_state::Val;

/// Appends a number in decimal, with a `-` before it where it is below 0.
pub fn push_number<I: Integer>(text: &mut Vec<u8>, number: I) -> AllocResult<()>
    ensures { OnOk result (text.new.items ≡ text.old.items ++ I.text number) }
{
    let mut buffer = Buffer::new();
    text.extend_from_slice(buffer.format(number).as_bytes())
}

/// Appends bytes, and after them a number in decimal.
pub fn push_numbered<I: Integer>(text: &mut Vec<u8>, before: &[u8], number: I) -> AllocResult<()>
    ensures { OnOk result (text.new.items ≡ text.old.items ++ (before.now ++ I.text number)) }
{
    text.extend_from_slice(before)?;
    push_number(text, number)
}

/// A cell of a global variable.
#[derive(Clone, Copy)]
pub struct GlobalCell {
    /// The variable's number in its program.
    pub variable: u32,
    /// The index in it, 0 for a scalar.
    pub index: u32,
}

impl GlobalCell {
    /// The object that it is.
    pub fn object(self) -> Obj
        ensures { result ≡ Obj.Global self.variable self.index }
    {
        Obj::Global {
            variable: self.variable,
            index: self.index,
        }
    }
}

fn push_cell(text: &mut Vec<u8>, cell: Cell) -> AllocResult<()>
    ensures { OnOk result (text.new.items ≡ text.old.items ++ cell_text cell) }
{
    match cell {
        Cell::Int(number) => push_number(text, number),
        Cell::Unset => text.extend_from_slice(b"unset"),
        Cell::Dead => text.extend_from_slice(b"dead"),
    }
}

/// Appends the value of a cell of a global variable: `x = 3`, `a[2] = 0`.
pub fn push_print(
    text: &mut Vec<u8>,
    program: &Program,
    cell: GlobalCell,
    value: &Val,
) -> AllocResult<()>
    ensures { OnOk result (Writes (print_text program.now cell value.now) text.old text.new) }
{
    push_variable(text, program, cell)?;
    text.extend_from_slice(b" = ")?;
    push_cell(text, value.cell())?;
    text.extend_from_slice(b"\n")
}

// The index that a command writes, if it writes one.
fn push_written_index(text: &mut Vec<u8>, index: Option<u64>) -> AllocResult<()>
    ensures { OnOk result (text.new.items ≡ text.old.items ++ written_index index) }
{
    let Some(index) = index else {
        return Ok(());
    };
    push_numbered(text, b"[", index)?;
    text.extend_from_slice(b"]")
}

/// Appends the value of the variable that a worker sees by a name: `i = 3`, `a[2] = unset`.
pub fn push_local(text: &mut Vec<u8>, variable: &Variable, value: &Val) -> AllocResult<()>
    ensures { OnOk result (text.new.items ≡ text.old.items ++ local_text variable.now value.now) }
{
    text.extend_from_slice(variable.name.as_slice())?;
    push_written_index(text, variable.index)?;
    text.extend_from_slice(b" = ")?;
    push_cell(text, value.cell())?;
    text.extend_from_slice(b"\n")
}
