//! Calls, returns, reductions, and the numbers of threads.

ghost use Rattle.std.specs.Prelude.{◌<◌, ◌≤◌, ◌+◌, ◌^◌, length, option_map};
ghost use Rattle.om_memory.specs.Plain.{plain_context};
ghost use Rattle.om_team_serial.specs.SerialRows.{number_row, call_row, return_row, reduced, reduce_row};
ghost use Rattle.om_team_serial.specs.Answers.{Gives, Answers, AnswersAt};

use crate::acts::{read, write};
use crate::names::{homes_in, name, name_given, object_of, own_cells};
use crate::parts::one_put;
use crate::updates::{put_cell, put_deaths, put_ints};
use crate::{Answer, Launch, Row};
use om_code::Body;
use om_code::arithmetic::combine;
use om_code::frame::{Cell, Fault, Operand};
use om_code::instruction::{Place, Reduction};
use om_code::raw::Slot;
use om_foot::{Names, Shared};
use om_memory::{Context, Memory};
use om_seq::{AllocResult, Seq};
use om_state::{Edit, Puts, Update};
use std::alloc::Global;

// How many frames of a task wait, at most, for the one that runs.
const MAX_CALLERS: usize = 999;

/// TNUM, TSIZE: a number of threads is pushed.
pub fn number(alloc: Global, context: &Context, number: u8) -> AllocResult<Answer>
    requires { (plain_context context.now).frame.next + 1 < 2 ^ 32 }
    ensures { Answers result (number_row (plain_context context.now) number) }
{
    let to = context.frame.next + 1;
    let pushed = Some(Operand::Int(i32::from(number)));
    let row = Row::goes(alloc, to, 0, pushed, Puts::new(alloc))?;
    Ok(Answer::decided(alloc, row))
}

/// CALL: the values go into the parameters of a new frame of the body.
pub fn call(
    alloc: Global,
    launch: Launch,
    body: &Body,
    context: &Context,
    values: Option<Vec<i32>>,
) -> AllocResult<Answer>
    ensures { Answers result (call_row launch body.now (plain_context context.now) (option_map (λ
        v. v.items) values)) }
{
    let Some(values) = values else {
        return Ok(Answer::decided(alloc, Row::Lacks));
    };
    if context.callers.len() >= MAX_CALLERS {
        return Ok(Answer::decided(alloc, Row::Faults(Fault::Frames)));
    }
    let homes = homes_in(alloc, context, body.slots.as_slice())?;
    let mut names = Names::new(alloc);
    name_given(
        &mut names,
        context.task.get(),
        context.frames,
        body.given.as_slice(),
    )?;
    let mut updates = Puts::new(alloc);
    put_ints(&mut updates, values.as_slice())?;
    let homes = Shared::of(alloc, homes)?;
    let begin = Edit::BeginFrame {
        to: launch.to,
        takes: launch.takes,
        body: launch.body,
        homes,
    };
    let edits = Seq::one(alloc, begin)?;
    Ok(Answer {
        names,
        row: Row::Goes { edits, updates },
    })
}

/// RET, RETN: the frame ends, with a value for the one that called it.
pub fn give_back(
    alloc: Global,
    context: &Context,
    slots: &[Slot],
    value: Option<Operand>,
) -> AllocResult<Answer>
    requires { length slots.now ≤ 2 ^ 32 }
    ensures { Answers result (return_row (plain_context context.now) slots.now (plain_context
        context.now).callers value) }
{
    let (Some(value), false) = (value, context.callers.is_empty()) else {
        return Ok(Answer::decided(alloc, Row::Lacks));
    };
    let names = own_cells(alloc, context, slots)?;
    let mut updates = Puts::new(alloc);
    put_deaths(&mut updates, &names)?;
    let edits = Seq::one(alloc, Edit::EndFrame(value))?;
    Ok(Answer {
        names,
        row: Row::Goes { edits, updates },
    })
}

// What comes of a copy of a reduction and its original.
fn reduced(
    alloc: Global,
    to: u32,
    reduction: Reduction,
    copy: Cell,
    original: Cell,
) -> AllocResult<Row>
    ensures { Gives result (reduced to reduction copy original) }
{
    let (copy, original) = match (copy, original) {
        (Cell::Dead, _) | (_, Cell::Dead) => return Ok(Row::Faults(Fault::Dead)),
        (Cell::Unset, _) | (_, Cell::Unset) => return Ok(Row::Faults(Fault::Unset)),
        (Cell::Int(copy), Cell::Int(original)) => (copy, original),
    };
    match combine(reduction, original, copy) {
        Ok(value) => {
            let mut updates = one_put(alloc, Update::Keep)?;
            put_cell(&mut updates, Cell::Int(value))?;
            Row::goes(alloc, to, 0, None, updates)
        }
        Err(fault) => Ok(Row::Faults(fault)),
    }
}

/// A copy of a reduction that is combined with its original.
#[derive(Clone, Copy)]
pub struct Combining {
    pub reduction: Reduction,
    /// The slot of the copy.
    pub copy: u32,
    pub original: Place,
}

/// RED: the copy in a slot is combined with its original, in one step.
pub fn reduce(
    alloc: Global,
    store: &Memory,
    context: &Context,
    combining: Combining,
) -> AllocResult<Answer>
    requires { (plain_context context.now).frame.next + 1 < 2 ^ 32 }
    ensures { AnswersAt result (reduce_row (plain_context context.now) combining.reduction
        combining.copy combining.original) store.now }
{
    let copy = &read(object_of(context, Place::Slot(combining.copy), 0));
    let original = &write(object_of(context, combining.original, 0));
    let to = context.frame.next + 1;
    let mut names = Names::new(alloc);
    name(&mut names, copy.object, copy.mode)?;
    name(&mut names, original.object, original.mode)?;
    let row = reduced(
        alloc,
        to,
        combining.reduction,
        store.cell(alloc, &copy.object),
        store.cell(alloc, &original.object),
    )?;
    Ok(Answer { names, row })
}
