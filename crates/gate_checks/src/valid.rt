//! What the validator says of code.

use om_code::instruction::Place;
use om_code::raw::{Line, Names, Scope, Slot, Source};
use om_code::{Body, CodeFault, Function, Instr, Program, Raw, Serial, validate};
use om_seq::{AllocResult, Seq};
use std::alloc::Global;

/// Whether the validator refuses code by the rule that it breaks, and leaves valid code as it is.
pub(crate) fn code_is_judged(alloc: Global) -> AllocResult<bool> {
    Ok(
        refuses_jumps_out(alloc)?
            && refuses_missing_operands(alloc)?
            && refuses_high_stacks(alloc)?
            && refuses_unknown_slots(alloc)?
            && refuses_names_of_unknown_slots(alloc)?
            && accepts_valid_code(alloc)?,
    )
}

// Ends the program without a value.
const END: Instr = Instr::Function(Function::Finish { has_value: false });

// Ends the program with the top operand.
const END_WITH: Instr = Instr::Function(Function::Finish { has_value: true });

fn refuses_jumps_out(alloc: Global) -> AllocResult<bool> {
    let judged = judged(alloc, &[Instr::Serial(Serial::Jump(7)), END], 0)?;
    Ok(matches!(judged, Err(CodeFault::JumpOut)))
}

fn refuses_missing_operands(alloc: Global) -> AllocResult<bool> {
    let judged = judged(alloc, &[Instr::Serial(Serial::Pop), END], 0)?;
    Ok(matches!(judged, Err(CodeFault::Heights)))
}

fn refuses_high_stacks(alloc: Global) -> AllocResult<bool> {
    let mut code = Vec::new(alloc);
    for _ in 0..257 {
        code.push(Instr::Serial(Serial::Constant(1)))?;
    }
    code.push(END_WITH)?;
    let judged = judged(alloc, code.as_slice(), 0)?;
    Ok(matches!(judged, Err(CodeFault::TooHigh)))
}

fn refuses_unknown_slots(alloc: Global) -> AllocResult<bool> {
    let load = Instr::Serial(Serial::Load(Place::Slot(3)));
    let judged = judged(alloc, &[load, END_WITH], 2)?;
    Ok(matches!(judged, Err(CodeFault::Unknown)))
}

// A scope names slot 2 of two.
fn refuses_names_of_unknown_slots(alloc: Global) -> AllocResult<bool> {
    let mut body = body_of(alloc, &[END], 2)?;
    body.names.scopes.push(scope_of(alloc, 1)?)?;
    let known = judged_body(alloc, body)?;
    let mut body = body_of(alloc, &[END], 2)?;
    body.names.scopes.push(scope_of(alloc, 2)?)?;
    let unknown = judged_body(alloc, body)?;
    Ok(known.is_ok() && matches!(unknown, Err(CodeFault::Unknown)))
}

// A scope of the name `x`, over the first instruction.
fn scope_of(alloc: Global, slot: u32) -> AllocResult<Scope> {
    Ok(Scope {
        name: Seq::one(alloc, b'x')?,
        slot: Some(slot),
        length: None,
        from: 0,
        to: 1,
    })
}

fn accepts_valid_code(alloc: Global) -> AllocResult<bool> {
    let load = Instr::Serial(Serial::Load(Place::Slot(1)));
    match judged(
        alloc,
        &[
            Instr::Serial(Serial::Constant(5)),
            Instr::Serial(Serial::Pop),
            load,
            END_WITH,
        ],
        2,
    )? {
        Ok(program) => Ok(is_as_given(&program)),
        Err(_) => Ok(false),
    }
}

// Whether a program has the valid code, and nothing else.
fn is_as_given(program: &Program) -> bool {
    program.bodies().len() == 1
        && matches!(
            program.instruction(0, 0),
            Some(Instr::Serial(Serial::Constant(5)))
        )
        && matches!(program.instruction(0, 1), Some(Instr::Serial(Serial::Pop)))
        && matches!(
            program.instruction(0, 2),
            Some(Instr::Serial(Serial::Load(Place::Slot(1))))
        )
        && matches!(
            program.instruction(0, 3),
            Some(Instr::Function(Function::Finish { has_value: true }))
        )
        && program.instruction(0, 4).is_none()
}

// What the validator says of a program of one body, with so many slots of one cell.
fn judged(alloc: Global, code: &[Instr], slots: u32) -> AllocResult<Result<Program, CodeFault>> {
    judged_body(alloc, body_of(alloc, code, slots)?)
}

// What the validator says of a program of this body.
fn judged_body(alloc: Global, body: Body) -> AllocResult<Result<Program, CodeFault>> {
    let raw = Raw {
        globals: Seq::new(alloc),
        bodies: Seq::one(alloc, body)?,
        main: 0,
        texts: Seq::new(alloc),
        picks: Seq::new(alloc),
        locks: Seq::new(alloc),
    };
    Ok(validate(alloc, raw))
}

// A body of this code, all on line 1, with so many slots of one cell.
fn body_of(alloc: Global, code: &[Instr], slots: u32) -> AllocResult<Body> {
    let lines: Vec<Line> = code
        .iter()
        .map(|instruction| Line {
            instruction: *instruction,
            line: 1,
        })
        .collect(alloc)?;
    let slots: Vec<Slot> = (0..slots)
        .map(|_| Slot {
            cells: 1,
            source: Source::Own,
        })
        .collect(alloc)?;
    Ok(Body {
        code: Seq::of(lines),
        slots: Seq::of(slots),
        given: Seq::new(alloc),
        names: Names {
            function: Seq::new(alloc),
            scopes: Seq::new(alloc),
            outer: Seq::new(alloc),
        },
        atomic: Seq::new(alloc),
    })
}
