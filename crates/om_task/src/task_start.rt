//! The row of the choice to start a task.

ghost use Rattle.std.specs.Prelude.{◌≡◌, IfOk, option_map};
ghost use Rattle.om_memory.specs.Plain.{plain_context};
ghost use Rattle.om_team_serial.specs.Answers.{Gives, AnswersAt};
ghost use Rattle.om_task.specs.Contexts.{beginning, task_at};
ghost use Rattle.om_task.specs.Tasks.{task_context};
ghost use Rattle.om_task.specs.Rows.{begun_updates, ready_for, start_row};

use om_events::{Record, TaskStatus};
use om_foot::{Mode, Name, Obj, Shared};
use om_memory::{Context, Memory};
use om_seq::{AllocResult, Seq};
use om_state::{Blocked, Context as PlainContext, Edit, Kind, Puts, Ready, Task, Update, Val};
use om_team_serial::begin::{Standing, first_frame, new_context};
use om_team_serial::parts::{name_with_events, update_with_event};
use om_team_serial::{Answer, Row};
use std::alloc::Global;

/// Where a task is to be started.
#[derive(Clone, Copy)]
pub struct Starting {
    /// The worker that would start it, from 0.
    pub worker: u8,
    /// The status of the task that is left for it: a yield or a switch. `None` where the worker is
    /// at no scheduling point.
    pub status: Option<TaskStatus>,
    /// Whether the task scheduling constraints admit the task.
    pub admits: bool,
}

// Where the task of a name stands that is started on another context.
fn task_standing(
    alloc: Global,
    name: &Shared<Name>,
    on: &Context,
    ready: &Ready,
) -> AllocResult<Standing>
    ensures { IfOk result
        (λ s. s ≡ record {
          task = name.now;
          team = on.now.team;
          group = ready.now.group;
        }) }
{
    Ok(Standing {
        task: name.copy()?,
        team: on.team.copy()?,
        group: ready.group.copy()?,
    })
}

// The context of a task that is started on another context.
fn task_context(
    alloc: Global,
    name: &Shared<Name>,
    on: &Context,
    ready: &Ready,
) -> AllocResult<PlainContext>
    ensures { Gives result (task_context name.now (plain_context on.now) ready.now) }
{
    let homes = ready.homes.copy()?;
    let standing = task_standing(alloc, name, on, ready)?;
    let frame = first_frame(alloc, ready.body, homes);
    new_context(alloc, Kind::Explicit, ready.phase, standing, frame)
}

// What the start of a task puts and records.
fn begun_updates(
    alloc: Global,
    worker: u8,
    prior: &Shared<Name>,
    status: TaskStatus,
    next: &Shared<Name>,
) -> AllocResult<Puts>
    ensures { Gives result (begun_updates worker prior.now status next.now) }
{
    let entry = Record::TaskSchedule {
        prior: prior.copy()?,
        status,
        next: next.copy()?,
    };
    update_with_event(alloc, Update::Put(Val::Task(Task::Running(worker))), entry)
}

// The edit by which a task begins on a context.
fn beginning(
    alloc: Global,
    name: &Shared<Name>,
    on: &Context,
    ready: &Ready,
) -> AllocResult<Seq<Edit>>
    ensures { Gives result (beginning name.now (plain_context on.now) ready.now) }
{
    let context = Shared::of(alloc, task_context(alloc, name, on, ready)?)?;
    Seq::one(alloc, Edit::BeginContext(context))
}

// What a task waits with, where it is ready and of this team.
fn ready_for<'a>(store: &'a Memory, name: &Name, team: &Name) -> Option<&'a Ready>
    ensures { option_map (λ r. r.now) result ≡ ready_for team.now (task_at store.now name.now) }
{
    let Task::Ready(ready) = store.task(name)? else {
        return None;
    };
    let ready = ready.get();
    if *ready.team.get() == *team {
        Some(ready)
    } else {
        None
    }
}

/// The choice to start the task of a name on a context, which is the running one of the worker.
///
/// The only error is out of memory.
pub fn start(
    alloc: Global,
    store: &Memory,
    starting: &Starting,
    name: &Name,
    on: &Context,
) -> AllocResult<Answer>
    ensures { AnswersAt result (start_row starting.now name.now (plain_context on.now)) store.now }
{
    let Some(status) = starting.status else {
        return Ok(Answer::decided(alloc, Row::Blocked(Blocked::Place)));
    };
    if !starting.admits {
        return Ok(Answer::decided(alloc, Row::Blocked(Blocked::Task)));
    }
    let names = name_with_events(alloc, &Obj::Task(*name), Mode::Write, starting.worker)?;
    let Some(ready) = ready_for(store, name, on.team.get().name.get()) else {
        let row = Row::Blocked(Blocked::Task);
        return Ok(Answer { names, row });
    };
    let task = &Shared::of(alloc, *name)?;
    let updates = begun_updates(alloc, starting.worker, &on.task, status, task)?;
    let edits = beginning(alloc, task, on, ready)?;
    let row = Row::Goes { edits, updates };
    Ok(Answer { names, row })
}
