//! The rows of the frame machine: objects for its variables, updates for what it puts.

ghost use Rattle.std.specs.Prelude.{◌≡◌, ◌++◌, ◌<◌, ◌+◌, ◌^◌, ◌∷◌, [], Some, slice_get, unwrap_or, option_map};
ghost use Rattle.om_foot.specs.declared.object.Obj.TheVariants as obj;
ghost use Rattle.om_code.specs.declared.instruction.Instr.TheVariants as instructions;
ghost use Rattle.om_code.specs.Frames.{act, meaning, IsThere};
ghost use Rattle.om_code.specs.Places.{slots_of};
ghost use Rattle.om_code.specs.Validity.{NamesKnown};
ghost use Rattle.om_memory.specs.Plain.{plain_context};
ghost use Rattle.om_memory.specs.Memories.{state_of};
ghost use Rattle.om_state.specs.Values.{cell_in};
ghost use Rattle.om_team_serial.specs.Objects.{read, write, object_of};
ghost use Rattle.om_team_serial.specs.SerialRows.{row_of, put_of, unsets, cleared, act_row, serial_row, slots_in};
ghost use Rattle.om_team_serial.specs.Answers.{Gives, AnswersAt};

use crate::names::{name_one, name_place, name_slot, operands_of};
use crate::parts::one_put;
use crate::updates::put_each;
use crate::{Answer, Row};
use om_code::act::{Act, Turn};
use om_code::frame::Cell;
use om_code::instruction::Place;
use om_code::print::print_bytes;
use om_code::raw::Slot;
use om_code::serial::act_of;
use om_code::{Raw, Serial};
use om_foot::{Access, Mode, Names, Obj};
use om_memory::{Context, Memory};
use om_seq::{AllocResult, Seq};
use om_state::{Edit, Puts, Tail, Update, Val};
use std::alloc::Global;

/// The slots of a body, by its number; none where there is no such body.
pub(crate) fn slots_of(raw: &Raw, body: u32) -> &[Slot]
    ensures { result.now ≡ slots_of raw.now body }
{
    match raw.bodies.as_slice().get(body as usize) {
        Some(body) => body.slots.as_slice(),
        None => &[],
    }
}

// A put of an int before these updates.
fn with_put(updates: Puts, value: i32) -> AllocResult<Puts>
    ensures { Gives result (put_of (Some value) ++ updates) }
{
    updates.behind(Update::Put(Val::Cell(Cell::Int(value))))
}

// What a turn makes of its worker, with these updates behind what it puts.
fn row_of(alloc: Global, next: u32, updates: Puts, turn: Turn) -> AllocResult<Row>
    requires { next + 1 < 2 ^ 32 }
    ensures { Gives result (row_of (next + 1) updates turn) }
{
    match turn {
        Turn::Goes {
            jump,
            takes,
            pushed,
            puts,
        } => {
            let updates = match puts {
                Some(value) => with_put(updates, value)?,
                None => updates,
            };
            let to = jump.unwrap_or(next + 1);
            let edits = Seq::one(alloc, Edit::Go { to, takes, pushed })?;
            Ok(Row::Goes { edits, updates })
        }
        Turn::Faults(fault) => Ok(Row::Faults(fault)),
        Turn::Lacks | Turn::Returns(_) | Turn::Finishes(_) => Ok(Row::Lacks),
    }
}

// How many cells a slot has; none where there is no such slot.
fn cells_of(slots: &[Slot], slot: u32) -> u32
    ensures { result ≡ unwrap_or (option_map (λ s. s.cells) (slice_get slots.now slot)) 0 }
{
    match slots.get(slot as usize) {
        Some(slot) => slot.cells,
        None => 0,
    }
}

// That cells become unset, one for each of these names.
fn unset(alloc: Global, names: &Names) -> AllocResult<Puts>
    ensures { Gives result (unsets names.now) }
{
    let mut updates = Puts::new(alloc);
    put_each(&mut updates, Cell::Unset, names)?;
    Ok(updates)
}

// What an instruction does, where it is met: the context that runs it, and what the objects hold.
#[derive(Clone, Copy)]
struct Met<'a> {
    store: &'a Memory,
    context: &'a Context,
    act: Act,
}

// The answer where one cell of a variable is read, or written. The object is made where it is named,
// since it is large.
#[inline(never)]
fn at_cell(
    alloc: Global,
    met: &Met<'_>,
    place: Place,
    index: u32,
    mode: Mode,
) -> AllocResult<Answer>
    requires { (plain_context met.now.context.now).frame.next + 1 < 2 ^ 32 }
    ensures { Gives result (record {
      names = record { object = object_of (plain_context met.now.context.now) place index; mode = mode } ∷ [];
      row = row_of ((plain_context met.now.context.now).frame.next + 1) [] ((meaning met.now.act).turn
          (cell_in (state_of met.now.store.now (object_of (plain_context met.now.context.now) place index))));
    }) }
{
    // An access is large: there is room for no others.
    let mut names = Seq::of(Vec::with_capacity(alloc, 1)?);
    name_place(&mut names, met.context, place, index, mode)?;
    let cell = met.store.cell(alloc, &names.as_slice()[0].object);
    let turn = met.act.turn(cell);
    let row = row_of(alloc, met.context.frame.next, Puts::new(alloc), turn)?;
    Ok(Answer {
        names: Names::of(alloc, names),
        row,
    })
}

// The answer where a slot becomes unset, and the turn is this one.
#[inline(never)]
fn clearing(
    alloc: Global,
    raw: &Raw,
    context: &Context,
    slot: u32,
    turn: Turn,
) -> AllocResult<Answer>
    requires { (plain_context context.now).frame.next + 1 < 2 ^ 32 }
    ensures { Gives result (cleared raw.now (plain_context context.now) slot turn) }
{
    let cells = cells_of(slots_of(raw, context.frame.body), slot);
    let mut names = Names::new(alloc);
    name_slot(&mut names, context, slot, cells)?;
    let updates = unset(alloc, &names)?;
    let row = row_of(alloc, context.frame.next, updates, turn)?;
    Ok(Answer { names, row })
}

// The answer where bytes are printed, and the turn is this one.
#[inline(never)]
fn printing(alloc: Global, next: u32, bytes: Seq<u8>, turn: Turn) -> AllocResult<Answer>
    requires { next + 1 < 2 ^ 32 }
    ensures { Gives result (record {
      names = write obj.Output ∷ [];
      row = row_of (next + 1) (Update.Append (Tail.Bytes bytes) ∷ []) turn;
    }) }
{
    let updates = one_put(alloc, Update::Append(Tail::Bytes(bytes)))?;
    let names = name_one(alloc, &Obj::Output, Mode::Write)?;
    let row = row_of(alloc, next, updates, turn)?;
    Ok(Answer { names, row })
}

// The answer where an instruction does this.
fn answer(alloc: Global, raw: &Raw, met: &Met<'_>) -> AllocResult<Answer>
    requires there { IsThere raw.now (slots_in raw.now (plain_context met.now.context.now))
        (plain_context met.now.context.now).frame.operands (meaning met.now.act).touch }
    requires next { (plain_context met.now.context.now).frame.next + 1 < 2 ^ 32 }
    ensures { AnswersAt result (act_row raw.now (plain_context met.now.context.now)
        (meaning met.now.act)) met.now.store.now }
{
    let context = met.context;
    let next = context.frame.next;
    match met.act {
        Act::Turns(turn) => {
            let row = row_of(alloc, next, Puts::new(alloc), turn)?;
            Ok(Answer::decided(alloc, row))
        }
        Act::Loads { place, index, .. } => at_cell(alloc, met, place, index, Mode::Read),
        Act::Stores { place, index, .. } => at_cell(alloc, met, place, index, Mode::Write),
        Act::Updates { place, index, .. } => at_cell(alloc, met, place, index, Mode::Write),
        Act::Clears(slot) => clearing(alloc, raw, context, slot, met.act.turn(Cell::Unset)),
        Act::Prints { text, values } => {
            let bytes = print_bytes(alloc, raw, text, values, &operands_of(context))?;
            printing(alloc, next, Seq::of(bytes), met.act.turn(Cell::Unset))
        }
    }
}

/// The answer to an instruction of the frame machine that goes on in its frame: what it names, and
/// what comes of the values there. Its only error is out of memory.
pub fn serial(
    alloc: Global,
    raw: &Raw,
    store: &Memory,
    context: &Context,
    instr: Serial,
) -> AllocResult<Answer>
    requires names { NamesKnown raw.now (slots_in raw.now (plain_context context.now)) (instructions.Serial instr) }
    requires next { (plain_context context.now).frame.next + 1 < 2 ^ 32 }
    ensures { AnswersAt result (serial_row raw.now (plain_context context.now) instr) store.now }
{
    let slots = slots_of(raw, context.frame.body);
    let act = act_of(raw, slots, instr, &operands_of(context));
    let met = &Met {
        store,
        context,
        act,
    };
    answer(alloc, raw, met)
}

/// That an object is read.
pub(crate) fn read(object: Obj) -> Access
    ensures { result ≡ read object }
{
    Access {
        object,
        mode: Mode::Read,
    }
}

/// That an object is read and may be put.
pub(crate) fn write(object: Obj) -> Access
    ensures { result ≡ write object }
{
    Access {
        object,
        mode: Mode::Write,
    }
}
