//! Programs of ints: that the premise of the laws of ints holds of every program.

ghost use Rattle.std.specs.Prelude.{All};
ghost use Rattle.om_soundness.specs.Ints.{IsInt, HasIntConstant, HasIntConstants, IsOfInts};

use om_code::raw::{GlobalVariable, Line};
use om_code::{Body, Instr, Raw, Serial};

/// Each constant and each initial value of a program is an int, whatever the program: their types have
/// no other values. It only reads.
pub fn programs_are_of_ints(program: &Raw)
    ensures { IsOfInts program.now }
{
    bodies_are_of_ints(program.bodies.as_slice());
    globals_are_of_ints(program.globals.as_slice());
}

// The same of the constants in bodies.
fn bodies_are_of_ints(bodies: &[Body])
    ensures { All (λ body. HasIntConstants body) bodies.now }
{
    for body in bodies {
        lines_are_of_ints(body.code.as_slice());
    }
}

// The same of the constants in the code of a body.
fn lines_are_of_ints(lines: &[Line])
    ensures { All (λ line. HasIntConstant line.instruction) lines.now }
{
    for line in lines {
        is_of_ints(line);
    }
}

// The same of the constant of an instruction.
fn is_of_ints(line: &Line)
    ensures { HasIntConstant line.now.instruction }
{
    if let Instr::Serial(Serial::Constant(value)) = line.instruction {
        is_int(value);
    }
}

// The same of initial values.
fn globals_are_of_ints(globals: &[GlobalVariable])
    ensures { All (λ global. IsInt global.initial) globals.now }
{
    for global in globals {
        is_int(global.initial);
    }
}

// The same of one value.
fn is_int(value: i32)
    ensures { IsInt value }
{
    let _value = value;
}
