//! ARRIVE, DEPART and LEAVE: a member at a barrier, what it reads there, and the end of its region.

ghost use Rattle.std.specs.Prelude.{◌≡◌, ◌++◌, ◌≤◌, ◌<◌, ◌+◌, ◌^◌, OnOk, length, map, option_map, slice_get, replicate};
ghost use Rattle.om_memory.specs.Plain.{plain_context, plain_held, plain_stack};
ghost use Rattle.om_memory.specs.Memories.{state_of};
ghost use Rattle.om_team_serial.specs.Objects.{own_cells};
ghost use Rattle.om_team_serial.specs.Answers.{Gives, Answers, AnswersAt};
ghost use Rattle.om_team_worksharing.specs.RowParts.{reached_names, reached_turn, departed_updates, held, barrier_names, left_updates, left_on};
ghost use Rattle.om_team_worksharing.specs.Barriers.{barrier, arrivals, open_in};
ghost use Rattle.om_team_worksharing.specs.Rows.{sync_of, team_at_end, reached_row, is_misplaced_barrier, arrive_row, departed, depart_row, region_end, left_records, left, leave_row};

use om_code::frame::Fault;
use om_code::instruction::Barrier;
use om_code::raw::Slot;
use om_events::Record;
use om_events::kind::{Endpoint, Sync, TaskFlag};
use om_foot::{Mode, Name, Names, Obj, Shared};
use om_memory::{Context, Memory, Stack, Tape};
use om_seq::{AllocResult, Seq};
use om_state::{Blocked, Edit, Kind, Puts, Tail, Team, Update, Val};
use om_team_serial::names::{is_misplaced, name, name_events, own_cells};
use om_team_serial::parts::{go_and, is_zero, one_put};
use om_team_serial::updates::{put_deaths, put_event};
use om_team_serial::{Answer, At, Row};
use std::alloc::Global;

// The kind of synchronization that a barrier is.
fn sync_of(barrier: Barrier) -> Sync
    ensures { result ≡ sync_of barrier }
{
    match barrier {
        Barrier::Explicit => Sync::BarrierExplicit,
        Barrier::Worksharing => Sync::BarrierWorksharing,
        Barrier::Parallel => Sync::BarrierParallel,
    }
}

// The team that a barrier's end names; at the end of a parallel region it is no more.
fn team_at_end(alloc: Global, barrier: Barrier, team: &Shared<Name>) -> AllocResult<Shared<Name>>
    ensures { Gives result (team_at_end barrier team.now) }
{
    match barrier {
        Barrier::Explicit => team.copy(),
        Barrier::Worksharing => team.copy(),
        Barrier::Parallel => Shared::of(alloc, Name::empty()),
    }
}

// Whether a barrier may not be met in a context.
fn is_misplaced_barrier(barrier: Barrier, context: &Context) -> bool
    ensures { result ≡ is_misplaced_barrier barrier (plain_context context.now) }
{
    let Barrier::Explicit = barrier else {
        return false;
    };
    is_misplaced(context)
}

// The names of a member that reaches a barrier.
fn reached_names(alloc: Global, worker: u8, team: &Team) -> AllocResult<Names>
    ensures { Gives result (reached_names worker team.now) }
{
    let reached = Obj::Arrived {
        team: *team.name.get(),
        number: team.number,
    };
    let mut names = Names::new(alloc);
    name(&mut names, reached, Mode::Write)?;
    name_events(&mut names, worker)?;
    Ok(names)
}

// The row of a member that reaches a barrier.
fn reached_turn(alloc: Global, to: u32, barrier: Barrier, context: &Context) -> AllocResult<Row>
    requires { context.now.phase + 1 < 2 ^ 64 }
    ensures { Gives result (reached_turn to barrier (plain_context context.now)) }
{
    let mut updates = one_put(alloc, Update::Put(Val::Number(context.phase + 1)))?;
    let begun = Record::SyncRegion {
        sync: sync_of(barrier),
        endpoint: Endpoint::Begin,
        team: context.team.get().name.copy()?,
        task: context.task.copy()?,
    };
    put_event(alloc, &mut updates, begun)?;
    Row::goes(alloc, to, 0, None, updates)
}

// The answer of a member that reaches a barrier.
fn reached(alloc: Global, at: At, barrier: Barrier, context: &Context) -> AllocResult<Answer>
    requires { context.now.phase + 1 < 2 ^ 64 }
    ensures { Answers result (reached_row at.worker at.to barrier (plain_context context.now)) }
{
    let names = reached_names(alloc, at.worker, context.team.get())?;
    let row = reached_turn(alloc, at.to, barrier, context)?;
    Ok(Answer { names, row })
}

/// ARRIVE: a member reaches a barrier. The row faults where the directive `barrier` may not stand.
/// The only error is out of memory.
pub fn arrive(alloc: Global, at: At, barrier: Barrier, context: &Context) -> AllocResult<Answer>
    requires { context.now.phase + 1 < 2 ^ 64 }
    ensures { Answers result (arrive_row at.worker at.to barrier (plain_context context.now)) }
{
    if is_misplaced_barrier(barrier, context) {
        return Ok(Answer::decided(alloc, Row::Faults(Fault::Nesting)));
    }
    reached(alloc, at, barrier, context)
}

// The names of a member at a barrier, with these cells of its own.
fn barrier_names(alloc: Global, worker: u8, context: &Context, own: &Names) -> AllocResult<Names>
    ensures { Gives result (barrier_names worker (plain_context context.now) own.now) }
{
    let mut names = Names::new(alloc);
    name_barrier(&mut names, context.team.get(), context.phase)?;
    names.push_all(own)?;
    name_events(&mut names, worker)?;
    Ok(names)
}

// The updates of a member that goes on from a barrier.
fn departed_updates(alloc: Global, barrier: Barrier, context: &Context) -> AllocResult<Puts>
    ensures { Gives result (departed_updates barrier (plain_context context.now)) }
{
    let mut updates = Puts::new(alloc);
    put_kept(&mut updates, context.team.get().size)?;
    let ended = Record::SyncRegion {
        sync: sync_of(barrier),
        endpoint: Endpoint::End,
        team: team_at_end(alloc, barrier, &context.team.get().name)?,
        task: context.task.copy()?,
    };
    put_event(alloc, &mut updates, ended)?;
    Ok(updates)
}

// The row of a member at a barrier that is open or not.
fn departed(
    alloc: Global,
    to: u32,
    barrier: Barrier,
    context: &Context,
    opens: bool,
) -> AllocResult<Row>
    ensures { Gives result (departed to barrier (plain_context context.now) opens) }
{
    if !opens {
        return Ok(Row::Blocked(Blocked::Barrier));
    }
    let edits = go_and(alloc, to, 0, Edit::CountPhase)?;
    let updates = departed_updates(alloc, barrier, context)?;
    Ok(Row::Goes { edits, updates })
}

/// DEPART: a member goes on from a barrier. The row is blocked until all members have reached it and
/// the tasks of its phase have ended. The only error is out of memory.
pub fn depart(
    alloc: Global,
    store: &Memory,
    at: At,
    barrier: Barrier,
    context: &Context,
) -> AllocResult<Answer>
    ensures { AnswersAt result (depart_row at.worker at.to barrier (plain_context context.now))
        store.now }
{
    let names = barrier_names(alloc, at.worker, context, &Names::new(alloc))?;
    let opens = is_open(alloc, store, context.team.get(), context.phase);
    let row = departed(alloc, at.to, barrier, context, opens)?;
    Ok(Answer { names, row })
}

// The context next to the top, the first of those below; `None` exactly where there is none.
fn next_below(below: &Tape<Box<Context>>) -> Option<&Context>
    ensures { option_map (λ c. plain_context c.now) result ≡ slice_get (held below.now.items) 0 }
{
    let context = below.get(0)?;
    Some(context)
}

// Appends the end of a region, where a member of number 0 leaves it.
fn put_region_end(
    records: &mut Seq<Record>,
    team: &Team,
    below: &Tape<Box<Context>>,
) -> AllocResult<()>
    ensures { OnOk result
        (records.new ≡ records.old
        ++ region_end team.now.name team.now.number (map plain_held below.now.items)) }
{
    if team.number > 0 {
        return Ok(());
    }
    let Some(maker) = next_below(below) else {
        return Ok(());
    };
    records.push(Record::ParallelEnd {
        team: team.name.copy()?,
        task: maker.task.copy()?,
    })
}

// What a member's end records.
fn left_records(
    alloc: Global,
    context: &Context,
    below: &Tape<Box<Context>>,
) -> AllocResult<Seq<Record>>
    ensures { Gives result (left_records (plain_context context.now) (held below.now.items)) }
{
    let no_team = Shared::of(alloc, Name::empty())?;
    let barrier_end = Record::SyncRegion {
        sync: Sync::BarrierParallel,
        endpoint: Endpoint::End,
        team: no_team.copy()?,
        task: context.task.copy()?,
    };
    let mut records = Seq::one(alloc, barrier_end)?;
    records.push(Record::ImplicitTask {
        endpoint: Endpoint::End,
        team: no_team,
        task: context.task.copy()?,
        size: 0,
        number: context.team.get().number,
        flag: TaskFlag::Implicit,
    })?;
    put_region_end(&mut records, context.team.get(), below)?;
    Ok(records)
}

// The updates of a member whose task ends.
fn left_updates(
    alloc: Global,
    context: &Context,
    below: &Tape<Box<Context>>,
    own: &Names,
) -> AllocResult<Puts>
    ensures { Gives result (left_updates (plain_context context.now) (held below.now.items) own.now) }
{
    let mut updates = Puts::new(alloc);
    put_kept(&mut updates, context.team.get().size)?;
    put_deaths(&mut updates, own)?;
    let records = left_records(alloc, context, below)?;
    updates.push(Update::Append(Tail::Events(records)))?;
    Ok(updates)
}

// The row of a member at the end of its region, whose barrier is open or not.
fn left(
    alloc: Global,
    context: &Context,
    below: &Tape<Box<Context>>,
    own: &Names,
    opens: bool,
) -> AllocResult<Row>
    ensures { Gives result
        (left (plain_context context.now) (held below.now.items) own.now opens) }
{
    if !opens {
        return Ok(Row::Blocked(Blocked::Barrier));
    }
    let edits = Seq::one(alloc, Edit::EndContext)?;
    let updates = left_updates(alloc, context, below, own)?;
    Ok(Row::Goes { edits, updates })
}

// The answer of a member whose task can end.
fn left_answer(
    alloc: Global,
    store: &Memory,
    worker: u8,
    stack: &Stack,
    own: &Names,
) -> AllocResult<Answer>
    ensures { AnswersAt result (left_on worker (plain_stack stack.now) own.now) store.now }
{
    let context = &stack.top;
    let names = barrier_names(alloc, worker, context, own)?;
    let opens = is_open(alloc, store, context.team.get(), context.phase);
    let row = left(alloc, context, &stack.below, own, opens)?;
    Ok(Answer { names, row })
}

/// LEAVE: a member goes on from the barrier of its region, and its task ends.
///
/// The slots are those of the body that runs. The row is blocked as at DEPART, and lacks what it
/// needs where no implicit task runs, or number 0 has no context to go back to. The only error is
/// out of memory.
pub fn leave(
    alloc: Global,
    store: &Memory,
    worker: u8,
    stack: &Stack,
    slots: &[Slot],
) -> AllocResult<Answer>
    requires { length slots.now ≤ 2 ^ 32 }
    ensures { AnswersAt result (leave_row worker (plain_stack stack.now).top (plain_stack
        stack.now).below slots.now (plain_stack stack.now).top.kind (plain_stack
        stack.now).top.team.number) store.now }
{
    match stack.top.kind {
        Kind::Initial | Kind::Explicit => return Ok(Answer::decided(alloc, Row::Lacks)),
        Kind::Implicit => {}
    }
    if stack.below.is_empty() && stack.top.team.get().number == 0 {
        return Ok(Answer::decided(alloc, Row::Lacks));
    }
    let own = own_cells(alloc, &stack.top, slots)?;
    left_answer(alloc, store, worker, stack, &own)
}

// Appends how far each member of a team of this size came, as what is read.
fn name_arrivals(names: &mut Names, team: &Name, size: u8) -> AllocResult<()>
    ensures { OnOk result (names.new ≡ names.old ++ arrivals team.now 0 size) }
{
    for number in 0..size {
        let reached = Obj::Arrived {
            team: *team,
            number,
        };
        name(names, reached, Mode::Read)?;
    }
    Ok(())
}

/// Appends what a member reads that goes on from the barrier of a phase.
pub(crate) fn name_barrier(names: &mut Names, team: &Team, phase: u64) -> AllocResult<()>
    ensures { OnOk result (names.new ≡ names.old ++ barrier team.now phase) }
{
    name_arrivals(names, team.name.get(), team.size)?;
    let pending = Obj::Pending {
        team: *team.name.get(),
        phase,
    };
    name(names, pending, Mode::Read)
}

/// Whether all members have reached the barrier of a phase, and no task of it is unfinished.
pub(crate) fn is_open(alloc: Global, store: &Memory, team: &Team, phase: u64) -> bool
    ensures { result ≡ open_in (state_of store.now) team.now.name phase 0 team.now.size }
{
    for number in 0..team.size {
        let reached = &Obj::Arrived {
            team: *team.name.get(),
            number,
        };
        if store.number(alloc, reached) <= phase {
            return false;
        }
    }
    let pending = &Obj::Pending {
        team: *team.name.get(),
        phase,
    };
    is_zero(alloc, store, pending)
}

/// Appends that what a member of a team of this size reads at a barrier stays.
pub(crate) fn put_kept(updates: &mut Puts, size: u8) -> AllocResult<()>
    ensures { OnOk result (updates.new ≡ updates.old ++ replicate (size + 1) Update.Keep) }
{
    for _number in 0..size {
        updates.push(Update::Keep)?;
    }
    updates.push(Update::Keep)
}
