//! What the choice of a worker names, what comes of it, and the plan of its step. `plan` gives both to a
//! machine. `names` and `effect` are for tools that ask for one of them alone.

ghost use Rattle.std.specs.Prelude.{◌≡◌, ◌≤◌, ◌^◌, IfOk};
ghost use Rattle.om_foot.specs.declared.object.Obj.TheVariants as obj;
ghost use Rattle.om_state.specs.declared.control.Control as controls;
ghost use Rattle.om_state.specs.Rules.{step_at};
ghost use Rattle.om_state.specs.Values.{control_in};
ghost use Rattle.om_memory.specs.Plain.{plain_control, plain_stack};
ghost use Rattle.om_memory.specs.Memories.{state_of};
ghost use Rattle.om_team_serial.specs.Answers.{Gives, AnswersAt};
ghost use Rattle.om_team.specs.Counters.{IsWithin, ControlWithin, StateWithin};
ghost use Rattle.om_task.specs.Planned.{next_asked, choice_asked, answer_by, row_step, Plans, PlansBy};
ghost use Rattle.om_task.specs.Plans.{label_at, RowHasRoom, names_of, effect_at, StandsFor, PlanHasRoom};
ghost use Rattle.om_task.specs.Rules.{is_at_scheduling_point, line_in, rules_of};

use crate::admit::{admits, instruction, leaving};
use crate::planned::Plan;
use crate::table::answer;
use crate::task_start::{Starting, start};
use om_code::Program;
use om_foot::{Access, Names};
use om_memory::{Control, Memory};
use om_seq::{AllocResult, Seq};
use om_state::{Blocked, Change, Choice, Edit, Footprint, Label, Puts};
use om_team::answers::footprint;
use om_team::table::instruction_of;
use om_team_serial::{Answer, Here, Row};
use std::alloc::Global;

/// A choice of one of so many workers. A choice is large, so it stays where it is.
#[derive(Clone, Copy)]
pub struct Planning<'a> {
    /// The worker, from 0.
    pub worker: u8,
    /// How many workers there are, 1 to 32.
    pub workers: u8,
    /// What the worker would do.
    pub choice: &'a Choice,
    /// There is at least one.
    pub ghost some: { 1 ≤ workers },
}

// The answer of the instruction at which a stack stands.
fn next_answer(here: &Here<'_>) -> AllocResult<Answer>
    requires { IsWithin (2 ^ 63) (plain_stack here.now.stack.now).top }
    ensures { AnswersAt result (next_asked here.now.program.now here.now.workers here.now.worker
        here.now.stack.now) here.now.store.now }
{
    match instruction_of(here.program, here.stack) {
        Some(instruction) => answer(here, instruction),
        None => Ok(Answer::decided(here.alloc, Row::Lacks)),
    }
}

// The answer of a choice on a stack.
fn choice_answer(here: &Here<'_>, choice: &Choice) -> AllocResult<Answer>
    requires { IsWithin (2 ^ 63) (plain_stack here.now.stack.now).top }
    ensures { AnswersAt result (choice_asked here.now.program.now here.now.workers
        (label_at here.now.worker choice.now) here.now.stack.now) here.now.store.now }
{
    match choice {
        Choice::Next => next_answer(here),
        Choice::Start(name) => {
            let context = &here.stack.top;
            let starting = Starting {
                worker: here.worker,
                status: leaving(instruction(here.program, context)),
                admits: admits(here.program, name, here.stack),
            };
            start(here.alloc, here.store, &starting, name, context)
        }
    }
}

// The answer of a worker that has this control.
fn control_answer(
    alloc: Global,
    program: &Program,
    store: &Memory,
    control: &Control,
    planning: &Planning<'_>,
) -> AllocResult<Answer>
    requires { ControlWithin (2 ^ 63) (plain_control control.now) }
    ensures { Gives result
        (answer_by program.now planning.now.workers
        (label_at planning.now.worker planning.now.choice.now) store.now control.now) }
{
    match control {
        Control::Running(stack) => {
            let here = &Here {
                alloc,
                store,
                program,
                stack,
                worker: planning.worker,
                workers: planning.workers,
            };
            choice_answer(here, planning.choice)
        }
        Control::Idle => Ok(Answer::decided(alloc, Row::Blocked(Blocked::Idle))),
        Control::Faulted(_, _) => Ok(Answer::decided(alloc, Row::Lacks)),
        Control::Ended(_) => Ok(Answer::decided(alloc, Row::Lacks)),
    }
}

// The plan of a step, by what it names and by its row. A fault is an edit of the control.
fn planned(alloc: Global, worker: u8, line: u32, names: Names, row: Row) -> AllocResult<Plan>
    ensures plan { (c : controls.Control) → Plans result c (row_step worker names c row line) }
    ensures room { (c : controls.Control) → RowHasRoom c row → IfOk result (PlanHasRoom c) }
{
    let (edits, updates) = match row {
        Row::Goes { edits, updates } => (edits, updates),
        Row::Faults(fault) => (Seq::one(alloc, Edit::Fail(fault))?, Puts::new(alloc)),
        Row::Blocked(why) => return Ok(Plan::Blocked(why)),
        Row::Lacks => return Ok(Plan::Ended),
    };
    let footprint = Footprint::of(worker, names);
    Ok(Plan::Updates(Change {
        footprint,
        edits,
        updates,
        line,
    }))
}

/// The line of the instruction that a control runs, or of the one that met its fault; 0 where
/// there is none.
pub fn line(program: &Program, control: &Control) -> u32
    ensures { result ≡ line_in program.now (plain_control control.now) }
{
    match control {
        Control::Running(stack) => program.line(stack.top.frame.body, stack.top.frame.next),
        Control::Faulted(_, stack) => program.line(stack.top.frame.body, stack.top.frame.next),
        Control::Idle | Control::Ended(_) => 0,
    }
}

/// Whether a worker of this control is at a scheduling point, where it may start a task.
pub fn is_at_scheduling_point(program: &Program, control: &Control) -> bool
    ensures { result ≡ is_at_scheduling_point program.now (plain_control control.now) }
{
    let Control::Running(stack) = control else {
        return false;
    };
    leaving(instruction(program, &stack.top)).is_some()
}

// The plan of the step of a worker that has this control.
fn control_plan(
    alloc: Global,
    program: &Program,
    store: &Memory,
    control: &Control,
    planning: &Planning<'_>,
) -> AllocResult<Plan>
    requires control { ControlWithin (2 ^ 63) (plain_control control.now) }
    requires state { StateWithin (2 ^ 63) (state_of store.now) }
    ensures plan { PlansBy result program.now planning.now.workers
        (label_at planning.now.worker planning.now.choice.now) store.now control.now }
    ensures room { IfOk result (λ plan. PlanHasRoom (plain_control control.now) plan) }
{
    let Answer { names, row } = control_answer(alloc, program, store, control, planning)?;
    let line = line(program, control);
    planned(alloc, planning.worker, line, names, row)
}

/// What the choice of a worker touches that has this control, which comes first.
///
/// It looks at the program, the control and the choice alone. No counter of the control is above
/// 2^63, as after fewer steps; there is at least one worker. The only error is out of memory.
pub fn names(
    alloc: Global,
    program: &Program,
    workers: u8,
    control: &Control,
    label: &Label,
) -> AllocResult<Seq<Access>>
    requires counters { ControlWithin (2 ^ 63) (plain_control control.now) }
    requires some { 1 ≤ workers }
    ensures { Gives result (names_of program.now workers label.now (plain_control control.now)) }
{
    let planning = &Planning {
        worker: label.worker,
        workers,
        choice: &label.choice,
    };
    let store = &Memory::new(alloc);
    let Answer { names, row } = control_answer(alloc, program, store, control, planning)?;
    drop(row);
    footprint(label.worker, names.into_seq()?)
}

// What comes of the choice of a worker that has this control.
fn control_row(
    alloc: Global,
    program: &Program,
    store: &Memory,
    control: &Control,
    planning: &Planning<'_>,
) -> AllocResult<Row>
    requires { ControlWithin (2 ^ 63) (plain_control control.now) }
    ensures { Gives result
        (answer_by program.now planning.now.workers
        (label_at planning.now.worker planning.now.choice.now) store.now control.now).row }
{
    let Answer { names, row } = control_answer(alloc, program, store, control, planning)?;
    drop(names);
    Ok(row)
}

/// What comes of the choice of a worker at a store's state: edits of its control and updates, a
/// fault, that it is blocked, or that its code lacks something.
///
/// It looks at the values alone that `names` says are read or written. No counter there is above
/// 2^63, as after fewer steps; there is at least one worker. Nothing changes; the only error is out of
/// memory.
pub fn effect(
    alloc: Global,
    program: &Program,
    store: &Memory,
    workers: u8,
    label: &Label,
) -> AllocResult<Row>
    requires counters { StateWithin (2 ^ 63) (state_of store.now) }
    requires some { 1 ≤ workers }
    ensures { Gives result (effect_at program.now workers label.now (state_of store.now)) }
{
    let planning = &Planning {
        worker: label.worker,
        workers,
        choice: &label.choice,
    };
    match store.control(label.worker) {
        Some(control) => control_row(alloc, program, store, control, planning),
        None => control_row(alloc, program, store, &Control::Idle, planning),
    }
}

/// The plan of the step that a worker would take by its choice at a store's state: what `plan` answers, of a
/// choice that stays where it is.
pub fn plan_by(
    alloc: Global,
    program: &Program,
    store: &Memory,
    planning: &Planning<'_>,
) -> AllocResult<Plan>
    requires { StateWithin (2 ^ 63) (state_of store.now) }
    ensures plan { IfOk result (λ plan. StandsFor plan
        (control_in (state_of store.now (obj.Control planning.now.worker)))
        (step_at (rules_of program.now planning.now.workers) (state_of store.now)
        (label_at planning.now.worker planning.now.choice.now))) }
    ensures room { IfOk result (λ plan. PlanHasRoom
        (control_in (state_of store.now (obj.Control planning.now.worker))) plan) }
{
    match store.control(planning.worker) {
        Some(control) => control_plan(alloc, program, store, control, planning),
        None => control_plan(alloc, program, store, &Control::Idle, planning),
    }
}

/// The plan of the step that a worker would take by its choice at a store's state: `names` and
/// `effect`, with its line. Its edits are not made.
///
/// No counter there is above 2^63, as after fewer steps; there is at least one worker. Nothing changes;
/// the only error is out of memory.
pub fn plan(
    alloc: Global,
    program: &Program,
    store: &Memory,
    workers: u8,
    label: &Label,
) -> AllocResult<Plan>
    requires counters { StateWithin (2 ^ 63) (state_of store.now) }
    requires some { 1 ≤ workers }
    ensures plan { IfOk result (λ plan. StandsFor plan
        (control_in (state_of store.now (obj.Control label.now.worker)))
        (step_at (rules_of program.now workers) (state_of store.now) label.now)) }
    ensures room { IfOk result (λ plan. PlanHasRoom
        (control_in (state_of store.now (obj.Control label.now.worker))) plan) }
{
    let planning = &Planning {
        worker: label.worker,
        workers,
        choice: &label.choice,
    };
    plan_by(alloc, program, store, planning)
}
