//! The rows that make and end explicit tasks, and the counts of unfinished ones.

ghost use Rattle.std.specs.Prelude.{◌≡◌, ◌+◌, ◌<◌, ◌≤◌, ◌^◌, ◌++◌, OnOk, length, option_map, ◌∷◌, []};
ghost use Rattle.om_foot.specs.declared.object.Obj.TheVariants as obj;
ghost use Rattle.om_foot.specs.Names.{above};
ghost use Rattle.om_memory.specs.Plain.{plain_context, plain_stack};
ghost use Rattle.om_team_serial.specs.Answers.{Gives, Answers};
ghost use Rattle.om_team_serial.specs.Objects.{add};
ghost use Rattle.om_task.specs.Contexts.{born_row, held_at, ending, ready_put};
ghost use Rattle.om_task.specs.Tasks.{group_of, ready_of, group_count, counts, additions};
ghost use Rattle.om_task.specs.Rows.{made_names, values_given, spawn_row, ended_names, ended_updates, task_end_row, task_yield_row};

use om_code::Body;
use om_code::frame::Fault;
use om_code::print::ints_on;
use om_code::raw::Slot;
use om_events::{Record, TaskStatus};
use om_foot::{Mode, Name, Names, Obj, Shared};
use om_memory::{Context, Stack, Tape};
use om_seq::{AllocResult, Seq};
use om_state::{Edit, Kind, Puts, Ready, Task, Update, Val};
use om_team_serial::names::{
    group_of, homes_in, name, name_events, name_given, name_one, operands_of, own_cells,
};
use om_team_serial::parts::{go_and, one_put};
use om_team_serial::updates::{put_deaths, put_event, put_ints};
use om_team_serial::{Answer, Launch, Row};
use std::alloc::Global;

/// How a task is made.
#[derive(Clone, Copy)]
pub struct Making {
    /// The worker that makes it, from 0.
    pub worker: u8,
    /// The line of its directive, from 1.
    pub line: u32,
    /// Its body, and how the worker goes on.
    pub launch: Launch,
}

// The task group of the tasks that a context's task makes, if there is one.
fn task_group(context: &Context) -> Option<Name>
    ensures { result ≡ group_of (plain_context context.now) }
{
    group_of(context)
}

// What the making of a task names.
fn made_names(
    alloc: Global,
    worker: u8,
    body: &Body,
    context: &Context,
    new: &Name,
) -> AllocResult<Names>
    ensures { Gives result (made_names worker body.now (plain_context context.now) new.now) }
{
    let mut names = name_one(alloc, &Obj::Task(*new), Mode::Write)?;
    name_given(&mut names, new, 0, body.given.as_slice())?;
    let group = &task_group(context);
    name_counts(&mut names, context.task.get(), context, group)?;
    name_events(&mut names, worker)?;
    Ok(names)
}

// What a task that is made waits with.
fn ready_of(alloc: Global, making: &Making, body: &Body, context: &Context) -> AllocResult<Ready>
    ensures { Gives result (ready_of making.now body.now (plain_context context.now)) }
{
    let homes = homes_in(alloc, context, body.slots.as_slice())?;
    let homes = Shared::of(alloc, homes)?;
    let team = context.team.get().name.copy()?;
    let group = Shared::of(alloc, task_group(context))?;
    Ok(Ready {
        body: making.launch.body,
        line: making.line,
        homes,
        team,
        phase: context.phase,
        group,
    })
}

// Appends that the values of a task go to its cells, that its counts have one more, and its event.
fn give_values(
    alloc: Global,
    updates: &mut Puts,
    context: &Context,
    new: &Name,
    values: &[i32],
) -> AllocResult<()>
    ensures { OnOk result
        (updates.new ≡ updates.old ++ values_given (plain_context context.now) new.now values.now) }
{
    put_ints(updates, values)?;
    add_to_counts(updates, 1, &task_group(context))?;
    let entry = Record::TaskCreate {
        task: context.task.copy()?,
        new: Shared::of(alloc, *new)?,
    };
    put_event(alloc, updates, entry)
}

// A task that is ready, as what is put.
fn ready_put(alloc: Global, making: &Making, body: &Body, context: &Context) -> AllocResult<Puts>
    ensures { Gives result (ready_put making.now body.now (plain_context context.now)) }
{
    let ready = ready_of(alloc, making, body, context)?;
    let ready = Shared::of(alloc, ready)?;
    one_put(alloc, Update::Put(Val::Task(Task::Ready(ready))))
}

// The answer where a task is made with these values.
fn made(
    alloc: Global,
    making: &Making,
    body: &Body,
    context: &Context,
    values: &[i32],
) -> AllocResult<Answer>
    requires { context.now.births + 1 < 2 ^ 64 }
    ensures { Answers result (born_row making.now body.now (plain_context context.now) values.now) }
{
    let Some(new) = &context.task.get().child(context.births + 1) else {
        return Ok(Answer::decided(alloc, Row::Faults(Fault::Name)));
    };
    let names = made_names(alloc, making.worker, body, context, new)?;
    let mut updates = ready_put(alloc, making, body, context)?;
    give_values(alloc, &mut updates, context, new, values)?;
    let edits = go_and(
        alloc,
        making.launch.to,
        making.launch.takes,
        Edit::CountBirth,
    )?;
    let row = Row::Goes { edits, updates };
    Ok(Answer { names, row })
}

/// SPAWN: a task is made of a body, which is that of the launch, with firstprivate values.
///
/// These are the operands that the launch takes. The only error is out of memory.
pub fn spawn(alloc: Global, making: &Making, body: &Body, context: &Context) -> AllocResult<Answer>
    requires { context.now.births + 1 < 2 ^ 64 }
    ensures { Answers result (spawn_row making.now body.now (plain_context context.now)) }
{
    let operands = &operands_of(context);
    match ints_on(alloc, making.launch.takes as usize, operands)? {
        Some(values) => made(alloc, making, body, context, values.as_slice()),
        None => Ok(Answer::decided(alloc, Row::Lacks)),
    }
}

// What the end of a task of this parent names, its frame's own cells among them.
fn ended_names(
    alloc: Global,
    worker: u8,
    context: &Context,
    own: &Names,
    parent: &Name,
) -> AllocResult<Names>
    ensures { Gives result (ended_names worker (plain_context context.now) own.now parent.now) }
{
    let mut names = name_one(alloc, &Obj::Task(*context.task.get()), Mode::Write)?;
    names.push_all(own)?;
    name_counts(&mut names, parent, context, context.group.get())?;
    name_events(&mut names, worker)?;
    Ok(names)
}

// What the end of a task puts and adds.
fn ended_updates(
    alloc: Global,
    context: &Context,
    own: &Names,
    next: &Shared<Name>,
) -> AllocResult<Puts>
    ensures { Gives result (ended_updates (plain_context context.now) own.now next.now) }
{
    let mut updates = one_put(alloc, Update::Put(Val::Task(Task::Done)))?;
    put_deaths(&mut updates, own)?;
    add_to_counts(&mut updates, -1, context.group.get())?;
    let entry = Record::TaskSchedule {
        prior: context.task.copy()?,
        status: TaskStatus::Complete,
        next: next.copy()?,
    };
    put_event(alloc, &mut updates, entry)?;
    Ok(updates)
}

// The name above that of a context's task: its parent's, since each explicit task of a run has one.
fn above(context: &Context) -> Name
    ensures { result ≡ above context.now.task }
{
    context.task.get().above()
}

// The context next to the top, the first of those below; `None` exactly where there is none.
fn next_below(below: &Tape<Box<Context>>) -> Option<&Context>
    ensures { option_map (λ c. plain_context c.now) result ≡ held_at below.now.items 0 }
{
    let context = below.get(0)?;
    Some(context)
}

// The row of the end of a task, above a context that goes on.
fn ended(alloc: Global, context: &Context, own: &Names, next: &Context) -> AllocResult<Row>
    ensures { Gives result (ending (plain_context context.now) own.now next.now.task) }
{
    let updates = ended_updates(alloc, context, own, &next.task)?;
    let edits = Seq::one(alloc, Edit::EndContext)?;
    Ok(Row::Goes { edits, updates })
}

/// TEND: an explicit task ends, its frame's own cells with it, and the context below runs on.
///
/// The slots are those of the frame's body. The only error is out of memory.
pub fn task_end(alloc: Global, worker: u8, stack: &Stack, slots: &[Slot]) -> AllocResult<Answer>
    requires { length slots.now ≤ 2 ^ 32 }
    ensures { Answers result (task_end_row worker (plain_stack stack.now) slots.now) }
{
    let context: &Context = &stack.top;
    let (Kind::Explicit, Some(next)) = (context.kind, next_below(&stack.below)) else {
        return Ok(Answer::decided(alloc, Row::Lacks));
    };
    let own = own_cells(alloc, context, slots)?;
    let row = ended(alloc, context, &own, next)?;
    let names = ended_names(alloc, worker, context, &own, &above(context))?;
    Ok(Answer { names, row })
}

/// YIELD: a task goes on to a place, and might have started another task.
///
/// The only error is out of memory.
pub fn task_yield(alloc: Global, to: u32) -> AllocResult<Answer>
    ensures { Answers result (task_yield_row to) }
{
    let row = Row::goes(alloc, to, 0, None, Puts::new(alloc))?;
    Ok(Answer::decided(alloc, row))
}

// Appends the count of a task group, where there is a group.
fn name_group(names: &mut Names, group: &Option<Name>) -> AllocResult<()>
    ensures { OnOk result (names.new ≡ names.old ++ group_count group.now) }
{
    let Some(group) = group else {
        return Ok(());
    };
    name(names, Obj::Group(*group), Mode::Add)
}

/// Appends the counts in which a context's phase has a task of this parent and group, as what is
/// added to.
pub(crate) fn name_counts(
    names: &mut Names,
    parent: &Name,
    context: &Context,
    group: &Option<Name>,
) -> AllocResult<()>
    ensures { OnOk result
        (names.new ≡ names.old ++ counts parent.now (plain_context context.now) group.now) }
{
    let pending = Obj::Pending {
        team: *context.team.get().name.get(),
        phase: context.phase,
    };
    name(names, Obj::Kids(*parent), Mode::Add)?;
    name(names, pending, Mode::Add)?;
    name_group(names, group)
}

/// Appends the additions to the counts in which a task of this group stands.
pub(crate) fn add_to_counts(
    updates: &mut Puts,
    number: i128,
    group: &Option<Name>,
) -> AllocResult<()>
    ensures { OnOk result (updates.new ≡ updates.old ++ additions number group.now) }
{
    updates.push(Update::Add(number))?;
    updates.push(Update::Add(number))?;
    match group {
        Some(_) => updates.push(Update::Add(number)),
        None => Ok(()),
    }
}
