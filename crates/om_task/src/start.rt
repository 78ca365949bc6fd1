//! The store in which a program starts.

ghost use Rattle.std.specs.Prelude.{◌≡◌, ◌≤◌, IfOk, OnOk, [], ◌∷◌};
ghost use Rattle.om_code.specs.declared.frame.Cell.TheVariants as cells;
ghost use Rattle.om_events.specs.declared.kind.Thread.TheVariants as thread;
ghost use Rattle.om_events.specs.declared.event.Record.TheVariants as event_record;
ghost use Rattle.om_state.specs.declared.value.Val.TheVariants as value;
ghost use Rattle.om_memory.specs.Memories.{state_of};
ghost use Rattle.om_team_serial.specs.Sites.{body_of};
ghost use Rattle.om_team_serial.specs.Answers.{Gives};
ghost use Rattle.om_task.specs.Contexts.{initial_context, initial_begun};
ghost use Rattle.om_task.specs.Rules.{first_context, first_control, first_records, initial_in, start_of};

use om_code::frame::Cell;
use om_code::raw::GlobalVariable;
use om_code::{Body, Program};
use om_events::{Endpoint, Record, TaskFlag, Thread};
use om_foot::{Name, Obj, Shared};
use om_memory::Memory;
use om_seq::{AllocResult, Seq};
use om_state::{Context, Control, Frame, Kind, SharedPile, Stack, Team, Val};
use om_team_serial::begin::{first_frame, in_no_group, new_context};
use om_team_serial::names::homes_for;
use std::alloc::Global;

// The body of `main`.
fn main_body(program: &Program) -> &Body
    ensures { result.now ≡ body_of program.now program.now.main }
{
    let raw = program.raw();
    match raw.bodies.as_slice().get(raw.main as usize) {
        Some(body) => body,
        None => unreachable!(),
    }
}

// The name of the initial task.
fn first_task() -> Name
    ensures { result ≡ 0 ∷ [] }
{
    match Name::empty().child(0) {
        Some(task) => task,
        None => unreachable!(),
    }
}

// The frame of the initial task, at the first instruction of `main`.
fn main_frame(alloc: Global, program: &Program) -> AllocResult<Frame>
    ensures { Gives result (first_context program.now).frame }
{
    let slots = main_body(program).slots.as_slice();
    let task = Shared::of(alloc, first_task())?;
    let homes = homes_for(alloc, &task, 0, &[], slots)?;
    let homes = Shared::of(alloc, homes)?;
    Ok(first_frame(alloc, program.main(), homes))
}

// The context of the initial task, with its frame: it is alone in a team, and in no group.
fn first_context(alloc: Global, frame: Frame) -> AllocResult<Context>
    ensures { Gives result (initial_context frame) }
{
    let team = &Team {
        name: Shared::of(alloc, Name::empty())?,
        number: 0,
        size: 1,
        level: 0,
    };
    let standing = in_no_group(alloc, &first_task(), team)?;
    new_context(alloc, Kind::Initial, 0, standing, frame)
}

// The control of the worker that runs the initial task.
fn first_control(alloc: Global, program: &Program) -> AllocResult<Control>
    ensures { Gives result (first_control program.now 0) }
{
    let frame = main_frame(alloc, program)?;
    let top = first_context(alloc, frame)?;
    match SharedPile::new(alloc) {
        Ok(below) => Ok(Control::Running(Stack { top, below })),
        Err(error) => {
            drop(top);
            Err(error)
        }
    }
}

// What is recorded of the worker that runs the initial task.
fn initial_records(alloc: Global) -> AllocResult<Val>
    ensures { IfOk result (λ v. v ≡ value.Events (first_records 1 0)) }
{
    let thread = Thread::Initial;
    let mut records = Seq::one(alloc, Record::ThreadBegin { thread })?;
    records.push(Record::ImplicitTask {
        endpoint: Endpoint::Begin,
        team: Shared::of(alloc, Name::empty())?,
        task: Shared::of(alloc, first_task())?,
        size: 1,
        number: 1,
        flag: TaskFlag::Initial,
    })?;
    Ok(Val::Events(records))
}

// What is recorded of any other worker.
fn worker_records(alloc: Global) -> AllocResult<Val>
    ensures { IfOk result (λ v. v ≡ value.Events (event_record.ThreadBegin thread.Worker ∷ [])) }
{
    let thread = Thread::Worker;
    let records = Seq::one(alloc, Record::ThreadBegin { thread })?;
    Ok(Val::Events(records))
}

// What the first cell of a global variable holds at first.
fn initial_value(global: &GlobalVariable) -> Val
    ensures { result ≡ value.Cell (cells.Int (initial_in (Some global.now))) }
{
    match global.length {
        Some(_) => Val::Cell(Cell::Int(0)),
        None => Val::Cell(Cell::Int(global.initial)),
    }
}

// Puts the control of the worker that runs the initial task. Its only error is out of memory.
fn begin_initial(alloc: Global, store: &mut Memory, program: &Program) -> AllocResult<()>
    ensures { OnOk result (state_of store.new ≡ initial_begun program.now (state_of store.old)) }
{
    let control = first_control(alloc, program)?;
    let begun = store.begin(alloc, 0, &control);
    drop(control);
    begun
}

// The store in which a program starts with one worker. Its only error is out of memory.
fn with_globals(alloc: Global, program: &Program) -> AllocResult<Memory>
    ensures { IfOk result (λ store. state_of store ≡ start_of program.now 1) }
{
    let mut store = Memory::new(alloc);
    begin_initial(alloc, &mut store, program)?;
    store.create(alloc, &Obj::Events(0), initial_records(alloc)?)?;
    for (number, global) in program.globals().iter().enumerate() {
        let variable = number as u32;
        let object = Obj::Global { variable, index: 0 };
        store.create(alloc, &object, initial_value(global))?;
    }
    Ok(store)
}

/// The store in which a program starts with so many workers, 1 to 32. Its only error is out of
/// memory.
pub fn started(alloc: Global, program: &Program, workers: u8) -> AllocResult<Memory>
    requires { 1 ≤ workers }
    ensures { IfOk result (λ store. state_of store ≡ start_of program.now workers) }
{
    let mut store = with_globals(alloc, program)?;
    for worker in 1..workers {
        store.create(alloc, &Obj::Events(worker), worker_records(alloc)?)?;
    }
    Ok(store)
}
