//! What the choice of a worker names, and what comes of it, but for the rows of tasks. `om_task::plan` gives
//! both to a machine. `names` and `effect` are for tools that ask for one of them alone.

ghost use Rattle.std.specs.Prelude.{◌∷◌, ◌≤◌, ◌^◌, Some};
ghost use Rattle.om_code.specs.Places.{instruction_at};
ghost use Rattle.om_memory.specs.Plain.{plain_control, plain_stack};
ghost use Rattle.om_memory.specs.Memories.{state_of};
ghost use Rattle.om_team_serial.specs.Answers.{Gives};
ghost use Rattle.om_team.specs.Asked.{next_asked, choice_asked, asked_in, answer_in, names_in, row_in, effect_at};
ghost use Rattle.om_team.specs.Counters.{IsWithin, ControlWithin, StateWithin};
ghost use Rattle.om_team_serial.specs.Sites.{site, site_of};

use crate::table::{answer, instruction_of};
use om_code::Program;
use om_foot::{Access, Mode, Obj};
use om_memory::{Control, Memory, Stack};
use om_seq::{AllocResult, Seq};
use om_state::{Blocked, Choice, Label};
use om_team_serial::{Answer, Here, Row};
use std::alloc::Global;

// A choice of one of so many workers.
#[derive(Clone, Copy)]
struct Planning<'a> {
    label: &'a Label,
    // 1 to 32.
    workers: u8,
    // There is at least one.
    ghost some: { 1 ≤ workers },
}

/// What a worker's step touches that names these objects beside its control. Its only error is out of
/// memory.
pub fn footprint(worker: u8, names: Seq<Access>) -> AllocResult<Seq<Access>>
    ensures { Gives result (record { object = Obj.Control worker; mode = Mode.Write } ∷ names) }
{
    let object = Obj::Control(worker);
    let mode = Mode::Write;
    // Most steps name nothing, and an access is large: there is no room for others.
    let mut names = names.into_vec();
    names.reserve_exact(1)?;
    let mut footprint = Seq::of(names);
    footprint.push_front(Access { object, mode })?;
    Ok(footprint)
}

// The answer of the instruction at which a stack stands.
fn next_answer(here: &Here<'_>) -> AllocResult<Option<Answer>>
    requires { IsWithin (2 ^ 63) (plain_stack here.now.stack.now).top }
    ensures { Gives result (answer_in (state_of here.now.store.now) (next_asked (site_of here.now)
        (instruction_at here.now.program.now (plain_stack here.now.stack.now).top.frame.body
        (plain_stack here.now.stack.now).top.frame.next))) }
{
    let Some(instruction) = instruction_of(here.program, here.stack) else {
        return Ok(Some(Answer::decided(here.alloc, Row::Lacks)));
    };
    answer(here, instruction)
}

// The answer of a choice on a stack.
fn choice_answer(
    alloc: Global,
    program: &Program,
    store: &Memory,
    stack: &Stack,
    planning: &Planning<'_>,
) -> AllocResult<Option<Answer>>
    requires { IsWithin (2 ^ 63) (plain_stack stack.now).top }
    ensures { Gives result (answer_in (state_of store.now) (choice_asked (site program.now
        planning.now.workers planning.now.label.now.worker (plain_stack stack.now))
        planning.now.label.now.choice)) }
{
    match &planning.label.choice {
        Choice::Next => next_answer(&Here {
            alloc,
            store,
            program,
            stack,
            worker: planning.label.worker,
            workers: planning.workers,
        }),
        Choice::Start(_) => Ok(None),
    }
}

// The answer of a worker that has this control.
fn control_answer(
    alloc: Global,
    program: &Program,
    store: &Memory,
    control: &Control,
    planning: &Planning<'_>,
) -> AllocResult<Option<Answer>>
    requires { ControlWithin (2 ^ 63) (plain_control control.now) }
    ensures { Gives result (answer_in (state_of store.now) (asked_in program.now
        planning.now.workers planning.now.label.now (plain_control control.now))) }
{
    match control {
        Control::Running(stack) => choice_answer(alloc, program, store, stack, planning),
        Control::Idle => Ok(Some(Answer::decided(alloc, Row::Blocked(Blocked::Idle)))),
        Control::Faulted(_, _) => Ok(Some(Answer::decided(alloc, Row::Lacks))),
        Control::Ended(_) => Ok(Some(Answer::decided(alloc, Row::Lacks))),
    }
}

/// What the choice of a worker touches that has this control, which comes first. `None` where the
/// row is one of tasks: the start of one, or an instruction of them.
///
/// It looks at the program, the control and the choice alone. No counter of the control is above
/// 2^63, as after fewer steps; there is at least one worker. The only error is out of memory.
pub fn names(
    alloc: Global,
    program: &Program,
    workers: u8,
    control: &Control,
    label: &Label,
) -> AllocResult<Option<Seq<Access>>>
    requires counters { ControlWithin (2 ^ 63) (plain_control control.now) }
    requires some { 1 ≤ workers }
    ensures { Gives result (names_in label.now (asked_in program.now workers label.now
        (plain_control control.now))) }
{
    let planning = &Planning { label, workers };
    let store = &Memory::new(alloc);
    let Some(answer) = control_answer(alloc, program, store, control, planning)? else {
        return Ok(None);
    };
    let Answer { names, row } = answer;
    drop(row);
    Ok(Some(footprint(label.worker, names.into_seq()?)?))
}

// What comes of the choice of a worker that has this control.
fn control_row(
    alloc: Global,
    program: &Program,
    store: &Memory,
    control: &Control,
    planning: &Planning<'_>,
) -> AllocResult<Option<Row>>
    requires { ControlWithin (2 ^ 63) (plain_control control.now) }
    ensures { Gives result (row_in (state_of store.now) (asked_in program.now planning.now.workers
        planning.now.label.now (plain_control control.now))) }
{
    let Some(answer) = control_answer(alloc, program, store, control, planning)? else {
        return Ok(None);
    };
    let Answer { names, row } = answer;
    drop(names);
    Ok(Some(row))
}

/// What comes of the choice of a worker at a store's state: edits of its control and updates, a
/// fault, that it is blocked, or that its code lacks something. `None` where the row is one of
/// tasks.
///
/// It looks at the values alone that `names` says are read or written. No counter there is above
/// 2^63, as after fewer steps; there is at least one worker. Nothing changes; the only error is out of
/// memory.
pub fn effect(
    alloc: Global,
    program: &Program,
    store: &Memory,
    workers: u8,
    label: &Label,
) -> AllocResult<Option<Row>>
    requires counters { StateWithin (2 ^ 63) (state_of store.now) }
    requires some { 1 ≤ workers }
    ensures { Gives result (effect_at program.now workers label.now (state_of store.now)) }
{
    let planning = &Planning { label, workers };
    match store.control(label.worker) {
        Some(control) => control_row(alloc, program, store, control, planning),
        None => control_row(alloc, program, store, &Control::Idle, planning),
    }
}
