//! The rows that wait for tasks.

ghost use Rattle.std.specs.Prelude.{◌≡◌, ◌+◌, ◌<◌, ◌^◌};
ghost use Rattle.om_memory.specs.Plain.{plain_context};
ghost use Rattle.om_team_serial.specs.Objects.{innermost};
ghost use Rattle.om_team_serial.specs.Answers.{Gives, Answers, AnswersAt};
ghost use Rattle.om_task.specs.Contexts.{opening};
ghost use Rattle.om_task.specs.Tasks.{innermost_group};
ghost use Rattle.om_task.specs.Rows.{sync_event, wait_begin_row, waited, wait_end_row, group_begin_row, closed, group_end_row};

use om_code::frame::Fault;
use om_events::{Endpoint, Record, Sync};
use om_foot::{Mode, Name, Obj, Shared};
use om_memory::{Context, Memory};
use om_seq::{AllocResult, Seq};
use om_state::{Blocked, Construct, Edit, Update};
use om_team_serial::names::innermost;
use om_team_serial::parts::{
    go_and, go_and_then, go_on, is_zero, name_with_events, recorded, update_with_event,
};
use om_team_serial::{Answer, Row};
use std::alloc::Global;

// What a context's task records where it begins and ends to wait.
fn sync_event(sync: Sync, endpoint: Endpoint, context: &Context) -> AllocResult<Record>
    ensures { Gives result (sync_event sync endpoint (plain_context context.now)) }
{
    Ok(Record::SyncRegion {
        sync,
        endpoint,
        team: context.team.get().name.copy()?,
        task: context.task.copy()?,
    })
}

/// TWB: a task begins to wait for its children, and goes on to a place.
///
/// The only error is out of memory.
pub fn wait_begin(alloc: Global, worker: u8, to: u32, context: &Context) -> AllocResult<Answer>
    ensures { Answers result (wait_begin_row worker to (plain_context context.now)) }
{
    let edits = go_on(alloc, to)?;
    let entry = sync_event(Sync::TaskWait, Endpoint::Begin, context)?;
    recorded(alloc, worker, edits, entry)
}

// What comes of a task that waits for its children.
fn waited(alloc: Global, to: u32, context: &Context, is_over: bool) -> AllocResult<Row>
    ensures { Gives result (waited to (plain_context context.now) is_over) }
{
    if !is_over {
        return Ok(Row::Blocked(Blocked::Children));
    }
    let entry = sync_event(Sync::TaskWait, Endpoint::End, context)?;
    let updates = update_with_event(alloc, Update::Keep, entry)?;
    Row::goes(alloc, to, 0, None, updates)
}

/// TWE: a task goes on to a place, once all of its children have ended.
///
/// The only error is out of memory.
pub fn wait_end(
    alloc: Global,
    store: &Memory,
    worker: u8,
    to: u32,
    context: &Context,
) -> AllocResult<Answer>
    ensures { AnswersAt result (wait_end_row worker to (plain_context context.now)) store.now }
{
    let kids = &Obj::Kids(*context.task.get());
    let names = name_with_events(alloc, kids, Mode::Read, worker)?;
    let row = waited(alloc, to, context, is_zero(alloc, store, kids))?;
    Ok(Answer { names, row })
}

// The edits by which a task group opens.
fn opening(alloc: Global, to: u32, group: &Name) -> AllocResult<Seq<Edit>>
    ensures { Gives result (opening to group.now) }
{
    let region = Shared::of(alloc, Construct::Group(*group))?;
    go_and_then(alloc, to, 0, Edit::CountBirth, Edit::Open(region))
}

/// TGB: a task group opens, by a name that is born of the task, which goes on to a place.
///
/// The only error is out of memory.
pub fn group_begin(alloc: Global, worker: u8, to: u32, context: &Context) -> AllocResult<Answer>
    requires { context.now.births + 1 < 2 ^ 64 }
    ensures { Answers result (group_begin_row worker to (plain_context context.now)) }
{
    let Some(group) = &context.task.get().child(context.births + 1) else {
        return Ok(Answer::decided(alloc, Row::Faults(Fault::Name)));
    };
    let edits = opening(alloc, to, group)?;
    let entry = sync_event(Sync::TaskGroup, Endpoint::Begin, context)?;
    recorded(alloc, worker, edits, entry)
}

// What comes of a task that waits for the tasks of a group.
fn closed(alloc: Global, to: u32, context: &Context, is_over: bool) -> AllocResult<Row>
    ensures { Gives result (closed to (plain_context context.now) is_over) }
{
    if !is_over {
        return Ok(Row::Blocked(Blocked::Group));
    }
    let entry = sync_event(Sync::TaskGroup, Endpoint::End, context)?;
    let updates = update_with_event(alloc, Update::Keep, entry)?;
    let edits = go_and(alloc, to, 0, Edit::Close)?;
    Ok(Row::Goes { edits, updates })
}

// The name of the task group that is the innermost open region of a context, if that is one.
fn innermost_group(context: &Context) -> Option<Name>
    ensures { result ≡ innermost_group (innermost (plain_context context.now).constructs) }
{
    let region = &innermost(context)?;
    let Construct::Group(group) = region else {
        return None;
    };
    Some(*group)
}

/// TGE: the innermost task group closes once all of its tasks have ended, and the task goes on to a
/// place.
///
/// The only error is out of memory.
pub fn group_end(
    alloc: Global,
    store: &Memory,
    worker: u8,
    to: u32,
    context: &Context,
) -> AllocResult<Answer>
    ensures { AnswersAt result (group_end_row worker to (plain_context context.now)) store.now }
{
    let Some(group) = &innermost_group(context) else {
        return Ok(Answer::decided(alloc, Row::Lacks));
    };
    let count = &Obj::Group(*group);
    let names = name_with_events(alloc, count, Mode::Read, worker)?;
    let row = closed(alloc, to, context, is_zero(alloc, store, count))?;
    Ok(Answer { names, row })
}
