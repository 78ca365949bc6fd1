//! FORK: a team is made. BEGIN: a member's task begins.

ghost use Rattle.std.specs.Prelude.{◌≡◌, ◌++◌, ◌∷◌, [], ◌+◌, ◌-◌, ◌<◌, ◌≤◌, ◌^◌, IfOk, IfSome, length, None};
ghost use Rattle.om_code.specs.Frames.{int_at};
ghost use Rattle.om_code.specs.Printing.{ints_on};
ghost use Rattle.om_memory.specs.Plain.{plain_context};
ghost use Rattle.om_team_serial.specs.Objects.{events, homes_in};
ghost use Rattle.om_team_serial.specs.Begins.{first_frame};
ghost use Rattle.om_team_serial.specs.Answers.{Gives, AnswersAt};
ghost use Rattle.om_team.specs.Teams.{member, workers_from, member_cells, size_of, level_of};
ghost use Rattle.om_team.specs.Rows.{team_updates, forked, team_row, team_of, named_row, sized_row, fork_row, begin_row};

use crate::members::{busy, member, name_members, name_workers, put_given, put_members};
use om_code::Body;
use om_code::frame::Fault;
use om_code::print::ints_on;
use om_code::serial::int_at;
use om_events::Record;
use om_events::kind::{Endpoint, TaskFlag};
use om_foot::{Name, Names, Shared};
use om_memory::{Context, Memory};
use om_seq::{AllocResult, Seq};
use om_state::{Blocked, Edit, Frame, Puts, Team, Update};
use om_team_serial::begin::first_frame;
use om_team_serial::names::{homes_in, name_events, operands_of};
use om_team_serial::parts::{go_and_then, go_on, recorded};
use om_team_serial::updates::put_event;
use om_team_serial::{Answer, At, Launch, Row};
use std::alloc::Global;

/// A worker that carries out a FORK.
#[derive(Clone, Copy)]
pub struct Forking<'a> {
    /// The worker, from 0.
    pub worker: u8,
    /// How many workers there are.
    pub workers: u8,
    pub launch: Launch,
    /// The body that the members run.
    pub body: &'a Body,
    /// The context whose task makes the team.
    pub context: &'a Context,
    /// There is at least one.
    pub ghost some: { 1 ≤ workers },
}

// The size of a team of which so many threads are asked for, where there are so many workers.
fn size_of(workers: u8, level: u8, asked: Option<u32>) -> u8
    requires workers { 1 ≤ workers }
    requires asked { IfSome asked (λ threads. 1 ≤ threads) }
    ensures value { result ≡ size_of workers level asked }
    ensures some { 0 < result }
{
    if level > 0 {
        return 1;
    }
    match asked {
        Some(asked) if asked < u32::from(workers) => asked as u8,
        Some(_) | None => workers,
    }
}

// How many active regions the members of a team of this size stand in.
fn level_of(size: u8, level: u8) -> u8
    ensures { result ≡ level_of size level }
{
    if size > 1 { 1 } else { level }
}

// The team that the context's task makes, with the place of its first member.
fn team_of(alloc: Global, workers: u8, context: &Context, asked: Option<u32>) -> AllocResult<Team>
    requires births { context.now.births + 1 < 2 ^ 64 }
    requires few { length context.now.task ≤ 62 }
    requires workers { 1 ≤ workers }
    requires asked { IfSome asked (λ threads. 1 ≤ threads) }
    ensures value { Gives result (team_of workers (plain_context context.now) asked) }
    ensures member { IfOk result (λ team. team.number < team.size) }
{
    let size = size_of(workers, context.team.get().level, asked);
    match context.task.get().child(context.births + 1) {
        Some(name) => Ok(Team {
            name: Shared::of(alloc, name)?,
            number: 0,
            size,
            level: level_of(size, context.team.get().level),
        }),
        None => unreachable!(),
    }
}

// What a FORK names that makes this team.
fn team_names(alloc: Global, worker: u8, team: &Team, given: &[u32]) -> AllocResult<Names>
    requires { length team.now.name ≤ 63 }
    ensures { Gives result (workers_from 1 (team.now.size - 1) ++ (member_cells team.now.name
        given.now 0 team.now.size ++ events worker ∷ [])) }
{
    let mut names = Names::new(alloc);
    name_workers(&mut names, team.size)?;
    name_members(&mut names, team.name.get(), given, team.size)?;
    name_events(&mut names, worker)?;
    Ok(names)
}

// What is put where a team is made.
fn team_updates(
    alloc: Global,
    task: &Shared<Name>,
    team: &Team,
    frame: &Frame,
    values: &[i32],
) -> AllocResult<Puts>
    requires { length team.now.name ≤ 63 }
    ensures { Gives result (team_updates task.now team.now frame.now values.now) }
{
    let mut updates = Puts::new(alloc);
    put_members(alloc, &mut updates, team, frame)?;
    put_given(&mut updates, values, team.size)?;
    let begun = Record::ParallelBegin {
        task: task.copy()?,
        team: team.name.copy()?,
        size: team.size,
    };
    put_event(alloc, &mut updates, begun)?;
    Ok(updates)
}

// What the maker's control becomes: it waits behind the FORK, and its part as the first member begins.
fn fork_edits(alloc: Global, launch: Launch, team: &Team, frame: &Frame) -> AllocResult<Seq<Edit>>
    requires named { length team.now.name ≤ 63 }
    requires member { team.now.number < team.now.size }
    ensures { Gives result (Edit.Go launch.to launch.takes None ∷ Edit.CountBirth ∷
        Edit.BeginContext (member team.now frame.now) ∷ []) }
{
    let member = Shared::of(alloc, member(alloc, team, frame)?)?;
    let begin = Edit::BeginContext(member);
    go_and_then(alloc, launch.to, launch.takes, Edit::CountBirth, begin)
}

// The row of a FORK that makes a team, whose members begin with this frame.
fn made(
    alloc: Global,
    forking: &Forking<'_>,
    team: &Team,
    frame: &Frame,
    values: &[i32],
) -> AllocResult<Row>
    requires named { length team.now.name ≤ 63 }
    requires member { team.now.number < team.now.size }
    ensures { Gives result (forked forking.now.launch forking.now.context.now.task team.now
        frame.now values.now None) }
{
    let edits = fork_edits(alloc, forking.launch, team, frame)?;
    let updates = team_updates(alloc, &forking.context.task, team, frame, values)?;
    Ok(Row::Goes { edits, updates })
}

// The row of a FORK, where this worker, if one, is busy.
fn forked(
    alloc: Global,
    forking: &Forking<'_>,
    team: &Team,
    values: &[i32],
    hindrance: Option<u8>,
) -> AllocResult<Row>
    requires named { length team.now.name ≤ 63 }
    requires member { team.now.number < team.now.size }
    ensures { Gives result (forked forking.now.launch forking.now.context.now.task team.now
        (first_frame forking.now.launch.body (homes_in (plain_context forking.now.context.now)
        forking.now.body.now.slots)) values.now hindrance) }
{
    if let Some(worker) = hindrance {
        return Ok(Row::Blocked(Blocked::Busy(worker)));
    }
    let homes = homes_in(alloc, forking.context, forking.body.slots.as_slice())?;
    let homes = Shared::of(alloc, homes)?;
    let frame = &first_frame(alloc, forking.launch.body, homes);
    made(alloc, forking, team, frame, values)
}

// The answer of a FORK that makes this team.
fn team_answer(
    alloc: Global,
    store: &Memory,
    forking: &Forking<'_>,
    team: &Team,
    values: &[i32],
) -> AllocResult<Answer>
    requires named { length team.now.name ≤ 63 }
    requires member { team.now.number < team.now.size }
    ensures { AnswersAt result (team_row forking.now.worker forking.now.launch
        forking.now.body.now (plain_context forking.now.context.now) team.now values.now)
        store.now }
{
    let given = forking.body.given.as_slice();
    let names = team_names(alloc, forking.worker, team, given)?;
    let row = forked(alloc, forking, team, values, busy(store, team.size))?;
    Ok(Answer { names, row })
}

// The answer of a FORK with a size that can be asked for.
fn named(
    alloc: Global,
    store: &Memory,
    forking: &Forking<'_>,
    asked: Option<u32>,
    values: &[i32],
) -> AllocResult<Answer>
    requires births { forking.now.context.now.births + 1 < 2 ^ 64 }
    requires asked { IfSome asked (λ threads. 1 ≤ threads) }
    ensures { AnswersAt result (named_row forking.now.worker forking.now.workers
        forking.now.launch forking.now.body.now (plain_context forking.now.context.now) asked
        values.now) store.now }
{
    if forking.context.task.get().as_slice().len() > 62 {
        return Ok(Answer::decided(alloc, Row::Faults(Fault::Name)));
    }
    let team = &team_of(alloc, forking.workers, forking.context, asked)?;
    team_answer(alloc, store, forking, team, values)
}

// The answer of a FORK with the number of threads that is asked for, where that is an int.
fn sized_answer(
    alloc: Global,
    store: &Memory,
    forking: &Forking<'_>,
    size: Option<i32>,
    values: &[i32],
) -> AllocResult<Answer>
    requires { forking.now.context.now.births + 1 < 2 ^ 64 }
    ensures { AnswersAt result (sized_row forking.now.worker forking.now.workers
        forking.now.launch forking.now.body.now (plain_context forking.now.context.now) size
        values.now) store.now }
{
    let Some(size) = size else {
        return Ok(Answer::decided(alloc, Row::Lacks));
    };
    if size <= 0 {
        return Ok(Answer::decided(alloc, Row::Faults(Fault::Size)));
    }
    named(alloc, store, forking, Some(size as u32), values)
}

/// FORK: a team is made on a body.
///
/// So many firstprivate values lie on top of the operands, and below them, where it is sized, the
/// number of threads that is asked for. The row faults where that number isn't positive, or a
/// member's name would be too long; it is blocked while a worker that the team needs is busy. The
/// only error is out of memory.
pub fn fork(
    alloc: Global,
    store: &Memory,
    forking: &Forking<'_>,
    sized: bool,
    values: u16,
) -> AllocResult<Answer>
    requires { forking.now.context.now.births + 1 < 2 ^ 64 }
    ensures { AnswersAt result (fork_row forking.now.worker forking.now.workers forking.now.launch
        forking.now.body.now (plain_context forking.now.context.now) sized (int_at values
        (plain_context forking.now.context.now).frame.operands) (ints_on values (plain_context
        forking.now.context.now).frame.operands)) store.now }
{
    let operands = &operands_of(forking.context);
    let Some(ints) = ints_on(alloc, values as usize, operands)? else {
        return Ok(Answer::decided(alloc, Row::Lacks));
    };
    if !sized {
        return named(alloc, store, forking, None, ints.as_slice());
    }
    let size = int_at(operands, values as usize);
    sized_answer(alloc, store, forking, size, ints.as_slice())
}

/// BEGIN: the begin of a member's task is recorded. The only error is out of memory.
pub fn begin(alloc: Global, at: At, context: &Context) -> AllocResult<Answer>
    ensures { Gives result (record {
      names = (begin_row at.worker at.to (plain_context context.now)).names;
      row = (begin_row at.worker at.to (plain_context context.now)).row [];
    }) }
{
    let edits = go_on(alloc, at.to)?;
    let begun = Record::ImplicitTask {
        endpoint: Endpoint::Begin,
        team: context.team.get().name.copy()?,
        task: context.task.copy()?,
        size: context.team.get().size,
        number: context.team.get().number,
        flag: TaskFlag::Implicit,
    };
    recorded(alloc, at.worker, edits, begun)
}
