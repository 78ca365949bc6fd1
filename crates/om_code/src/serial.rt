//! The frame machine: what each serial instruction does, by its operands.

ghost use Rattle.std.specs.Prelude.{◌≡◌, Some, None};
ghost use Rattle.om_code.specs.Printing.{ints_on};
ghost use Rattle.om_code.specs.Validity.{NamesKnown, IsKnownPlace};
ghost use Rattle.om_code.specs.Frames.{act, meaning, decided, IsThere, IsRight, int_at, goes, gives, cells_in, index_in, duplicate, pop, unary, binary, jump_if_zero, use_value, store, load_element, store_element, update_scalar, update_element, print};
ghost use Rattle.om_code.specs.declared.frame.Cell.{Cell};
ghost use Rattle.om_code.specs.declared.instruction.Instr.TheVariants as instructions;

use crate::act::{Act, Turn, goes};
use crate::arithmetic::{operate, operate_on_one};
use crate::frame::{Fault, Operand, Operands};
use crate::instruction::{AtomicOperator, BinaryOperator, Place, Serial, Side, UnaryOperator};
use crate::print::has_ints;
use crate::raw::{Raw, Slot};

/// What an instruction does in a frame with these slots and operands.
///
/// A fault or a lack that the instruction and its operands alone decide touches nothing.
pub fn act_of(raw: &Raw, slots: &[Slot], instr: Serial, operands: &Operands<'_>) -> Act
    requires { NamesKnown raw.now slots.now (instructions.Serial instr) }
    ensures same { meaning result ≡ act raw.now slots.now instr operands.now }
    ensures there { IsThere raw.now slots.now operands.now (meaning result).touch }
    ensures right { (cell : Cell) → IsRight (instructions.Serial instr) ((meaning result).turn cell) }
{
    row(raw, slots, instr, operands)
}

// The rows of the serial instructions.
fn row(raw: &Raw, slots: &[Slot], instr: Serial, operands: &Operands<'_>) -> Act
    requires { NamesKnown raw.now slots.now (instructions.Serial instr) }
    ensures { meaning result ≡ act raw.now slots.now instr operands.now }
{
    match instr {
        Serial::Constant(value) => going(0, Some(Operand::Int(value))),
        Serial::Duplicate => duplicate(operands),
        Serial::Pop => pop(operands),
        Serial::Nop => going(0, None),
        Serial::Unary(operator) => unary(operator, operands),
        Serial::Binary(operator) => binary(operator, operands),
        Serial::Jump(target) => jump(target, 0),
        Serial::JumpIfZero(target) => jump_if_zero(target, operands),
        Serial::Use => use_value(operands),
        Serial::Load(place) => Act::Loads {
            place,
            index: 0,
            takes: 0,
        },
        Serial::Store { place, keeps } => store(place, keeps, operands),
        Serial::LoadElement(place) => load_element(place, cells_in(raw, slots, place), operands),
        Serial::StoreElement { place, keeps } => {
            store_element(place, cells_in(raw, slots, place), keeps, operands)
        }
        Serial::Clear(slot) => Act::Clears(slot),
        Serial::Print { text, values } => print(text, values, operands),
        Serial::Atomic {
            operator,
            side,
            place,
        } => update_scalar(place, operator, side, operands),
        Serial::AtomicElement {
            operator,
            side,
            place,
        } => update_element(place, cells_in(raw, slots, place), operator, side, operands),
    }
}

// To the next instruction, with so many operands taken and then one pushed.
fn going(takes: u32, pushed: Option<Operand>) -> Act
    ensures { meaning result ≡ decided (goes takes pushed) }
{
    Act::Turns(goes(takes, pushed))
}

// To the target, with so many operands taken.
fn jump(target: u32, takes: u32) -> Act
    ensures { meaning result ≡ decided (Turn.Goes (Some target) takes None None) }
{
    Act::Turns(Turn::Goes {
        jump: Some(target),
        takes,
        pushed: None,
        puts: None,
    })
}

// DUP: the top operand is pushed once more.
fn duplicate(operands: &Operands<'_>) -> Act
    ensures { meaning result ≡ duplicate operands.now }
{
    match operands.top() {
        Some(top) => going(0, Some(*top)),
        None => Act::Turns(Turn::Lacks),
    }
}

// POP: the top operand is taken.
fn pop(operands: &Operands<'_>) -> Act
    ensures { meaning result ≡ pop operands.now }
{
    match operands.top() {
        Some(_) => going(1, None),
        None => Act::Turns(Turn::Lacks),
    }
}

// UN: an operator on the top operand.
fn unary(operator: UnaryOperator, operands: &Operands<'_>) -> Act
    ensures { meaning result ≡ unary operator operands.now }
{
    match int_at(operands, 0) {
        Some(a) => gives(1, operate_on_one(operator, a)),
        None => Act::Turns(Turn::Lacks),
    }
}

// BIN: an operator on the two operands on top.
fn binary(operator: BinaryOperator, operands: &Operands<'_>) -> Act
    ensures { meaning result ≡ binary operator operands.now }
{
    match (int_at(operands, 1), int_at(operands, 0)) {
        (Some(a), Some(b)) => gives(2, operate(operator, a, b)),
        _ => Act::Turns(Turn::Lacks),
    }
}

// The operator's value is pushed, or its fault is met.
fn gives(takes: u32, value: Result<i32, Fault>) -> Act
    ensures { meaning result ≡ decided (gives takes value) }
{
    match value {
        Ok(value) => going(takes, Some(Operand::Int(value))),
        Err(fault) => Act::Turns(Turn::Faults(fault)),
    }
}

// JZ: jumps where the top operand is 0.
fn jump_if_zero(target: u32, operands: &Operands<'_>) -> Act
    ensures { meaning result ≡ jump_if_zero target operands.now }
{
    match int_at(operands, 0) {
        Some(0) => jump(target, 1),
        Some(_) => going(1, None),
        None => Act::Turns(Turn::Lacks),
    }
}

// USE: the value of a function that returned none is a fault.
fn use_value(operands: &Operands<'_>) -> Act
    ensures { meaning result ≡ use_value operands.now }
{
    match operands.top() {
        Some(Operand::Int(_)) => going(0, None),
        Some(Operand::NoValue) => Act::Turns(Turn::Faults(Fault::NoValue)),
        None => Act::Turns(Turn::Lacks),
    }
}

// STORE: puts the top operand, and takes it unless it is kept.
fn store(place: Place, keeps: bool, operands: &Operands<'_>) -> Act
    ensures { meaning result ≡ store place keeps operands.now }
{
    match int_at(operands, 0) {
        Some(value) => Act::Stores {
            place,
            index: 0,
            takes: if keeps { 0 } else { 1 },
            pushed: None,
            value,
        },
        None => Act::Turns(Turn::Lacks),
    }
}

// LOADX, from a variable of so many cells.
fn load_element(place: Place, cells: u32, operands: &Operands<'_>) -> Act
    ensures { meaning result ≡ load_element place cells operands.now }
{
    let Some(at) = int_at(operands, 0) else {
        return Act::Turns(Turn::Lacks);
    };
    match index_in(cells, at) {
        Some(index) => Act::Loads {
            place,
            index,
            takes: 1,
        },
        None => Act::Turns(Turn::Faults(Fault::Index)),
    }
}

// STOREX, to a variable of so many cells.
fn store_element(place: Place, cells: u32, keeps: bool, operands: &Operands<'_>) -> Act
    ensures { meaning result ≡ store_element place cells keeps operands.now }
{
    let (Some(at), Some(value)) = (int_at(operands, 1), int_at(operands, 0)) else {
        return Act::Turns(Turn::Lacks);
    };
    match index_in(cells, at) {
        Some(index) => Act::Stores {
            place,
            index,
            takes: 2,
            pushed: keeps.then_some(Operand::Int(value)),
            value,
        },
        None => Act::Turns(Turn::Faults(Fault::Index)),
    }
}

// PRINT: takes its values.
fn print(text: u32, values: u16, operands: &Operands<'_>) -> Act
    ensures { meaning result ≡ print text values (ints_on values operands.now) }
{
    if has_ints(usize::from(values), operands) {
        Act::Prints { text, values }
    } else {
        Act::Turns(Turn::Lacks)
    }
}

// ATOM: puts the operator's value, of the old value and the top operand.
fn update_scalar(place: Place, operator: AtomicOperator, side: Side, operands: &Operands<'_>) -> Act
    ensures { meaning result ≡ update_scalar place operator side operands.now }
{
    match int_at(operands, 0) {
        Some(operand) => Act::Updates {
            place,
            index: 0,
            takes: 1,
            operator,
            side,
            operand,
        },
        None => Act::Turns(Turn::Lacks),
    }
}

// ATOMX, on a variable of so many cells.
fn update_element(
    place: Place,
    cells: u32,
    operator: AtomicOperator,
    side: Side,
    operands: &Operands<'_>,
) -> Act
    ensures { meaning result ≡ update_element place cells operator side operands.now }
{
    let (Some(at), Some(operand)) = (int_at(operands, 1), int_at(operands, 0)) else {
        return Act::Turns(Turn::Lacks);
    };
    match index_in(cells, at) {
        Some(index) => Act::Updates {
            place,
            index,
            takes: 2,
            operator,
            side,
            operand,
        },
        None => Act::Turns(Turn::Faults(Fault::Index)),
    }
}

/// The int so far below the top operand; `None` where there is no operand or it is no int.
pub fn int_at(operands: &Operands<'_>, depth: usize) -> Option<i32>
    ensures { result ≡ int_at depth operands.now }
{
    let all = operands.as_slice();
    let from = all.len().checked_sub(depth)?.checked_sub(1)?;
    match all[from] {
        Operand::Int(value) => Some(value),
        Operand::NoValue => None,
    }
}

/// How many cells a variable has that exists; a scalar has one.
pub fn cells_in(raw: &Raw, slots: &[Slot], place: Place) -> u32
    requires { IsKnownPlace raw.now.globals slots.now place }
    ensures { result ≡ cells_in raw.now slots.now place }
{
    match place {
        Place::Global(number) => raw.globals.as_slice()[number as usize].length.unwrap_or(1),
        Place::Slot(number) => slots[number as usize].cells,
    }
}

/// An index that lies inside an array of so many cells (C17 6.5.6p8); `None` where it doesn't.
pub fn index_in(cells: u32, index: i32) -> Option<u32>
    ensures { result ≡ index_in cells index }
{
    if index < 0 {
        return None;
    }
    let index = index as u32;
    if index < cells { Some(index) } else { None }
}
