//! What a serial instruction does in its frame.

ghost use Rattle.std.specs.Prelude.{◌≡◌, None};
ghost use Rattle.om_code.specs.Frames.{meaning, goes, loaded, stored, put, updated};

use crate::arithmetic::update;
use crate::frame::{Cell, Fault, Operand};
use crate::instruction::{AtomicOperator, Place, Side};

/// What an instruction makes of its frame.
#[derive(Clone, Copy)]
pub enum Turn {
    /// The frame goes on.
    Goes {
        /// Where it jumps; `None`: it goes to the next instruction.
        jump: Option<u32>,
        /// How many operands are taken off the stack.
        takes: u32,
        /// What is pushed then.
        pushed: Option<Operand>,
        /// What is put into the cell that the instruction writes.
        puts: Option<i32>,
    },
    /// The frame ends, with this as the value of its call.
    Returns(Operand),
    /// The program ends with this value.
    Finishes(i32),
    Faults(Fault),
    /// An operand is missing or is no int, or the instruction has no row here.
    Lacks,
}

/// What an instruction does: what it touches beside its frame's place and operands, and what comes of what
/// stands there. A scalar is an array of one cell.
#[derive(Clone, Copy)]
pub enum Act {
    /// It touches nothing.
    Turns(Turn),
    /// The cell of a variable at this index is read, and pushed in place of so many operands.
    Loads {
        place: Place,
        index: u32,
        takes: u32,
    },
    /// A value is put into the cell of a variable at this index, so many operands are taken, and then one is
    /// pushed.
    Stores {
        place: Place,
        index: u32,
        takes: u32,
        pushed: Option<Operand>,
        value: i32,
    },
    /// What the cell of a variable at this index holds is combined with an operand and put there, and so many
    /// operands are taken.
    Updates {
        place: Place,
        index: u32,
        takes: u32,
        operator: AtomicOperator,
        /// On which side of the operator the cell's value stands.
        side: Side,
        operand: i32,
    },
    /// Each cell of the slot of this number becomes unset.
    Clears(u32),
    /// The text of this number is appended to the output, with so many values from the top, which are taken.
    Prints {
        text: u32,
        values: u16,
    },
}

impl Act {
    /// What comes of it, where this stands in the cell that it touches.
    ///
    /// Where it reads and writes no cell, any one may be given.
    pub fn turn(self, cell: Cell) -> Turn
        ensures { result ≡ (meaning self).turn cell }
    {
        match self {
            Act::Turns(turn) => turn,
            Act::Loads { takes, .. } => loaded(takes, cell),
            Act::Stores {
                takes,
                pushed,
                value,
                ..
            } => stored(takes, pushed, value, cell),
            Act::Updates {
                takes,
                operator,
                side,
                operand,
                ..
            } => updated(takes, operator, side, operand, cell),
            Act::Clears(_) => goes(0, None),
            Act::Prints { values, .. } => goes(u32::from(values), None),
        }
    }
}

/// To the next instruction, with so many operands taken and then one pushed.
pub(crate) fn goes(takes: u32, pushed: Option<Operand>) -> Turn
    ensures { result ≡ goes takes pushed }
{
    Turn::Goes {
        jump: None,
        takes,
        pushed,
        puts: None,
    }
}

// What comes of the cell that is read.
fn loaded(takes: u32, cell: Cell) -> Turn
    ensures { result ≡ loaded takes cell }
{
    match cell {
        Cell::Int(value) => goes(takes, Some(Operand::Int(value))),
        Cell::Unset => Turn::Faults(Fault::Unset),
        Cell::Dead => Turn::Faults(Fault::Dead),
    }
}

// What comes of the cell that a value is put into.
fn stored(takes: u32, pushed: Option<Operand>, value: i32, cell: Cell) -> Turn
    ensures { result ≡ stored takes pushed value cell }
{
    match cell {
        Cell::Dead => Turn::Faults(Fault::Dead),
        Cell::Unset | Cell::Int(_) => Turn::Goes {
            jump: None,
            takes,
            pushed,
            puts: Some(value),
        },
    }
}

// What comes of the cell that is updated.
fn updated(takes: u32, operator: AtomicOperator, side: Side, operand: i32, cell: Cell) -> Turn
    ensures { result ≡ updated takes operator side operand cell }
{
    match cell {
        Cell::Int(old) => put(takes, update(operator, side, old, operand)),
        Cell::Unset => Turn::Faults(Fault::Unset),
        Cell::Dead => Turn::Faults(Fault::Dead),
    }
}

// The operator's value is put, or its fault is met.
fn put(takes: u32, value: Result<i32, Fault>) -> Turn
    ensures { result ≡ put takes value }
{
    match value {
        Ok(value) => Turn::Goes {
            jump: None,
            takes,
            pushed: None,
            puts: Some(value),
        },
        Err(fault) => Turn::Faults(fault),
    }
}
