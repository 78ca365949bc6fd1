//! The objects that instructions name.

ghost use Rattle.std.specs.Prelude.{◌≡◌, ◌++◌, ◌∷◌, [], ◌≤◌, ◌^◌, OnOk, length, option_map, slice_get};
ghost use Rattle.om_memory.specs.Plain.{plain_context};
ghost use Rattle.om_team_serial.specs.Objects.{write, object_of, slot_in, slot_cells, given_cells, own_slot, own_cells, home_at, home_from, home_for, homes_for, homes_in, innermost, group_name, group_in, is_in_region, is_misplaced};
ghost use Rattle.om_foot.specs.declared.object.Obj.TheVariants as obj;
ghost use Rattle.om_team_serial.specs.Answers.{Gives};

use om_code::frame::Operands;
use om_code::instruction::Place;
use om_code::raw::{Slot, Source};
use om_foot::{Access, Cells, Mode, Name, Names, Obj, Shared, SlotName};
use om_memory::{Context, Tape};
use om_seq::{AllocResult, Seq};
use om_state::{Construct, Home, Kind};
use std::alloc::Global;

// Appends an access to a list.
fn push(names: &mut Seq<Access>, object: Obj, mode: Mode) -> AllocResult<()>
    ensures { OnOk result (names.new ≡ names.old ++ record { object = object; mode = mode } ∷ []) }
{
    names.push(Access { object, mode })
}

/// An object alone. An access is large: there is room for no others.
pub fn name_one(alloc: Global, object: &Obj, mode: Mode) -> AllocResult<Names>
    ensures { Gives result (record { object = object.now; mode = mode } ∷ []) }
{
    let mut names = Seq::of(Vec::with_capacity(alloc, 1)?);
    push(&mut names, *object, mode)?;
    Ok(Names::of(alloc, names))
}

/// Appends an access.
pub fn name(names: &mut Names, object: Obj, mode: Mode) -> AllocResult<()>
    ensures { OnOk result (names.new ≡ names.old ++ record { object = object; mode = mode } ∷ []) }
{
    names.push(&Access { object, mode })
}

/// Appends the event records of a worker, as what is written.
pub fn name_events(names: &mut Names, worker: u8) -> AllocResult<()>
    ensures { OnOk result (names.new ≡ names.old ++ write (obj.Events worker) ∷ []) }
{
    name(names, Obj::Events(worker), Mode::Write)
}

// A cell of a task's frame. It stands apart, so that the name in it is copied once.
#[inline(never)]
fn cell_at(task: &Name, frame: u64, slot: u32, index: u32) -> Obj
    ensures { result ≡ obj.Cell task.now frame slot index }
{
    Obj::Cell {
        task: *task,
        frame,
        slot,
        index,
    }
}

// A cell of a task's frame.
#[derive(Clone, Copy)]
struct Spot<'a> {
    task: &'a Name,
    frame: u64,
    slot: u32,
    index: u32,
}

// Appends a cell of a frame. It stands apart, so that the name in it is copied into the access at once.
#[inline(never)]
fn name_spot(names: &mut Seq<Access>, spot: &Spot<'_>, mode: Mode) -> AllocResult<()>
    ensures { OnOk result (names.new ≡ names.old
        ++ record { object = obj.Cell spot.now.task.now spot.now.frame spot.now.slot spot.now.index; mode = mode } ∷ []) }
{
    let object = Obj::Cell {
        task: *spot.task,
        frame: spot.frame,
        slot: spot.slot,
        index: spot.index,
    };
    push(names, object, mode)
}

// Appends a cell of a global variable. It stands apart, as an access is large.
#[inline(never)]
fn name_global(names: &mut Seq<Access>, variable: u32, index: u32, mode: Mode) -> AllocResult<()>
    ensures { OnOk result
        (names.new ≡ names.old ++ record { object = obj.Global variable index; mode = mode } ∷ []) }
{
    push(names, Obj::Global { variable, index }, mode)
}

/// Appends a variable's cell, in the running frame of a context.
pub(crate) fn name_place(
    names: &mut Seq<Access>,
    context: &Context,
    place: Place,
    index: u32,
    mode: Mode,
) -> AllocResult<()>
    ensures { OnOk result (names.new ≡ names.old
        ++ record { object = object_of (plain_context context.now) place index; mode = mode } ∷ []) }
{
    match place {
        Place::Global(variable) => name_global(names, variable, index, mode),
        Place::Slot(slot) => match context.frame.homes.get().as_slice().get(slot as usize) {
            Some(Home::Elsewhere { task, frame, slot }) => {
                let spot = Spot {
                    task: task.get(),
                    frame: *frame,
                    slot: *slot,
                    index,
                };
                name_spot(names, &spot, mode)
            }
            Some(Home::Own) | None => {
                let spot = Spot {
                    task: context.task.get(),
                    frame: context.frame.ordinal,
                    slot,
                    index,
                };
                name_spot(names, &spot, mode)
            }
        },
    }
}

/// The object of a variable's cell, in the running frame of a context.
pub fn object_of(context: &Context, place: Place, index: u32) -> Obj
    ensures { result ≡ object_of (plain_context context.now) place index }
{
    match place {
        Place::Global(variable) => Obj::Global { variable, index },
        Place::Slot(slot) => match context.frame.homes.get().as_slice().get(slot as usize) {
            Some(Home::Elsewhere { task, frame, slot }) => {
                cell_at(task.get(), *frame, *slot, index)
            }
            Some(Home::Own) | None => {
                cell_at(context.task.get(), context.frame.ordinal, slot, index)
            }
        },
    }
}

// Where the cells of a slot lie; a slot that has no home lies in the frame itself.
fn home_at<'a>(homes: &'a [Home], slot: u32, own: &'a Home) -> &'a Home
    requires { own.now ≡ Home.Own }
    ensures { result.now ≡ home_at homes.now slot }
{
    match homes.get(slot as usize) {
        Some(home) => home,
        None => own,
    }
}

// The slot in which the cells of a slot lie.
fn slot_in(context: &Context, slot: u32, home: &Home) -> SlotName
    ensures { result ≡ slot_in (plain_context context.now).task
        (plain_context context.now).frame.ordinal slot home.now }
{
    match home {
        Home::Own => SlotName {
            task: *context.task.get(),
            frame: context.frame.ordinal,
            slot,
        },
        Home::Elsewhere { task, frame, slot } => SlotName {
            task: *task.get(),
            frame: *frame,
            slot: *slot,
        },
    }
}

// The slot in which the cells of a slot of the running frame lie.
fn slot_of(context: &Context, slot: u32) -> SlotName
    ensures { result ≡ slot_in (plain_context context.now).task
        (plain_context context.now).frame.ordinal slot
        (home_at (plain_context context.now).frame.homes slot) }
{
    let own = Home::Own;
    let home = home_at(context.frame.homes.get().as_slice(), slot, &own);
    slot_in(context, slot, home)
}

/// Appends the cells of a slot of the running frame, as what is written.
pub fn name_slot(names: &mut Names, context: &Context, slot: u32, count: u32) -> AllocResult<()>
    ensures { OnOk result
        (names.new ≡ names.old ++ slot_cells (plain_context context.now).task
        (plain_context context.now).frame.ordinal slot
        (home_at (plain_context context.now).frame.homes slot) 0 count) }
{
    let slot = slot_of(context, slot);
    names.push_cells(&Cells { slot, count })
}

/// Appends the first cells of these slots, in the frame of a task with this ordinal, as what is written.
pub fn name_given(names: &mut Names, task: &Name, frame: u64, slots: &[u32]) -> AllocResult<()>
    ensures { OnOk result (names.new ≡ names.old ++ given_cells task.now frame slots.now) }
{
    for slot in slots {
        let cell = Obj::Cell {
            task: *task,
            frame,
            slot: *slot,
            index: 0,
        };
        name(names, cell, Mode::Write)?;
    }
    Ok(())
}

// Appends the cells of a slot of the running frame, where they lie in the frame itself.
fn name_own(own: &mut Names, context: &Context, slot: u32, cells: u32) -> AllocResult<()>
    ensures { OnOk result
        (own.new ≡ own.old ++ own_slot (plain_context context.now) slot cells
        (home_at (plain_context context.now).frame.homes slot)) }
{
    let Home::Own = home_at(context.frame.homes.get().as_slice(), slot, &Home::Own) else {
        return Ok(());
    };
    name_slot(own, context, slot, cells)
}

/// The cells of the running frame's own slots, as what is written.
pub fn own_cells(alloc: Global, context: &Context, slots: &[Slot]) -> AllocResult<Names>
    requires { length slots.now ≤ 2 ^ 32 }
    ensures { Gives result (own_cells (plain_context context.now) slots.now) }
{
    let mut own = Names::new(alloc);
    for (number, slot) in slots.iter().enumerate() {
        name_own(&mut own, context, number as u32, slot.cells)?;
    }
    Ok(own)
}

// Where the cells of a slot lie, for a frame that is begun from another one.
fn home_from(task: &Shared<Name>, frame: u64, slot: u32, home: &Home) -> AllocResult<Home>
    ensures { Gives result (home_from task.now frame slot home.now) }
{
    match home {
        Home::Own => Ok(Home::Elsewhere {
            task: task.copy()?,
            frame,
            slot,
        }),
        Home::Elsewhere { .. } => home.copy(),
    }
}

// Where the cells of a slot lie, for a frame that is begun from one with these homes.
fn home_for(task: &Shared<Name>, frame: u64, homes: &[Home], source: Source) -> AllocResult<Home>
    ensures { Gives result (home_for task.now frame homes.now source) }
{
    match source {
        Source::Own => Ok(Home::Own),
        Source::Outer(slot) => home_from(task, frame, slot, home_at(homes, slot, &Home::Own)),
    }
}

/// Where the cells of a body's slots lie, for a frame that is begun from the frame of a task with
/// this ordinal and these homes.
pub fn homes_for(
    alloc: Global,
    task: &Shared<Name>,
    frame: u64,
    homes: &[Home],
    slots: &[Slot],
) -> AllocResult<Seq<Home>>
    ensures { Gives result (homes_for task.now frame homes.now slots.now) }
{
    let mut all = Seq::new(alloc);
    for slot in slots {
        all.push(home_for(task, frame, homes, slot.source)?)?;
    }
    Ok(all)
}

/// The same from the running frame of a context.
pub fn homes_in(alloc: Global, context: &Context, slots: &[Slot]) -> AllocResult<Seq<Home>>
    ensures { Gives result (homes_in (plain_context context.now) slots.now) }
{
    let frame = &context.frame;
    homes_for(
        alloc,
        &context.task,
        frame.ordinal,
        frame.homes.get().as_slice(),
        slots,
    )
}

/// The operands of the running frame of a context.
pub fn operands_of(context: &Context) -> Operands<'_>
    ensures { result ≡ (plain_context context.now).frame.operands }
{
    Operands::of(context.frame.operands.as_slice())
}

// The region at this depth, the innermost one at 0; `None` exactly where there is none.
fn region_at(constructs: &Tape<Shared<Construct>>, depth: usize) -> Option<&Construct>
    ensures { option_map (λ t. t.now) result ≡ slice_get constructs.now.items depth }
{
    Some(constructs.get(depth)?.get())
}

/// The innermost open region of a context.
pub fn innermost(context: &Context) -> Option<Construct>
    ensures { result ≡ innermost (plain_context context.now).constructs }
{
    region_at(&context.constructs, 0).copied()
}

// The name of the task group that a region is, if it is one.
fn group_name(construct: &Construct) -> Option<Name>
    ensures { result ≡ group_name construct.now }
{
    let Construct::Group(name) = construct else {
        return None;
    };
    Some(*name)
}

/// The innermost task group of a context.
pub fn group_of(context: &Context) -> Option<Name>
    ensures { result
        ≡ group_in (plain_context context.now).constructs (plain_context context.now).group }
{
    for depth in 0..context.constructs.len() {
        let Some(construct) = region_at(&context.constructs, depth) else {
            unreachable!();
        };
        let name = &group_name(construct);
        if name.is_some() {
            return *name;
        }
    }
    *context.group.get()
}

// Whether a worksharing, masked or critical region is open.
fn is_in_region(constructs: &Tape<Shared<Construct>>) -> bool
    ensures { result ≡ is_in_region constructs.now.items }
{
    for depth in 0..constructs.len() {
        let Some(construct) = region_at(constructs, depth) else {
            unreachable!();
        };
        let Some(_group) = group_name(construct) else {
            return true;
        };
    }
    false
}

/// Whether no barrier or worksharing region may be met in a context.
pub fn is_misplaced(context: &Context) -> bool
    ensures { result ≡ is_misplaced (plain_context context.now) }
{
    match context.kind {
        Kind::Explicit => true,
        Kind::Initial => is_in_region(&context.constructs),
        Kind::Implicit => is_in_region(&context.constructs),
    }
}
