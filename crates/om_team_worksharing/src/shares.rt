//! Loops and sections: how they are opened, and how their iterations are given out.

ghost use Rattle.std.specs.Prelude.{◌≡◌, ◌<◌, ◌≤◌, ◌+◌, ◌^◌, ◌∷◌, [], true, slice_get, IfSome};
ghost use Rattle.om_state.specs.OpenShares.{ShareHasInts, is_loop, value_of};
ghost use Rattle.om_memory.specs.Plain.{plain_context};
ghost use Rattle.om_foot.specs.declared.object.Obj.TheVariants as obj;
ghost use Rattle.om_team_serial.specs.Objects.{write};
ghost use Rattle.om_team_serial.specs.Answers.{Gives, Answers, AnswersAt};
ghost use Rattle.om_team_worksharing.specs.RowParts.{iterated, static_by, iteration_by};
ghost use Rattle.om_team_worksharing.specs.Rows.{edits, is_right_schedule, is_right_form, loop_of, work_of, open_row, loop_row, sections_row, share_in, in_chunk, taken_row, given_row, grab_row, iterate_row, is_section, section_row, pick_row};

use crate::chunk::{Chunk, chunk_within, count_of, static_chunk, step_size};
use crate::parts::{Branch, begun, jump, share_in, work_record};
use om_code::frame::{Cell, Fault};
use om_code::instruction::{LoopForm, Place, Schedule};
use om_events::{Endpoint, Work};
use om_foot::{Mode, Obj, Shared};
use om_memory::{Context, Memory};
use om_seq::{AllocResult, Seq};
use om_state::{Construct, Edit, OpenShare, Puts, Share, Sharing, Update, Val};
use om_team_serial::names::{is_misplaced, name_one, object_of};
use om_team_serial::parts::{go_and, one_put, recorded};
use om_team_serial::{Answer, At, Row};
use std::alloc::Global;

/// The bounds of a loop, where they are ints.
#[derive(Clone, Copy)]
pub struct Bounds {
    pub lower: Option<i32>,
    pub upper: Option<i32>,
}

// Whether the chunks of a schedule have at least one iteration.
fn is_right_schedule(schedule: Schedule) -> bool
    ensures { result ≡ is_right_schedule schedule }
{
    match schedule {
        Schedule::Static => true,
        Schedule::StaticChunk(size) => size > 0,
        Schedule::Dynamic(size) => size > 0,
    }
}

// Whether a loop's step is other than 0, in the direction of its comparison, and its schedule right.
fn is_right_form(form: LoopForm) -> bool
    ensures { result ≡ is_right_form form }
{
    step_size(form.comparison, form.step) > 0 && is_right_schedule(form.schedule)
}

/// The kind of a worksharing region in its records.
pub(crate) fn work_of(sharing: Sharing) -> Work
    ensures { result ≡ work_of sharing }
{
    match sharing {
        Sharing::Loop => Work::Loop,
        Sharing::Sections => Work::Sections,
    }
}

// A loop of which nothing is given out yet.
fn loop_of(region: u64, form: LoopForm, lower: i32, upper: i32) -> Share
    requires { is_right_form form ≡ true }
    ensures { result ≡ loop_of region form lower upper }
{
    let size = step_size(form.comparison, form.step);
    Share {
        sharing: Sharing::Loop,
        region,
        count: count_of(form.comparison, lower, upper, size),
        lower,
        step: form.step,
        schedule: form.schedule,
        taken: 0,
        next: 0,
        end: 0,
    }
}

// Opens a loop or sections, where they may be met.
fn open_share(
    alloc: Global,
    context: &Context,
    at: At,
    takes: u32,
    share: Share,
) -> AllocResult<Answer>
    requires { ShareHasInts share }
    ensures { Answers result (open_row at.worker at.to takes (plain_context context.now) share) }
{
    if is_misplaced(context) {
        return Ok(Answer::decided(alloc, Row::Faults(Fault::Nesting)));
    }
    let region = &Construct::Share(OpenShare::of(share));
    let edits = begun(alloc, at.to, takes, region)?;
    let entry = work_record(
        context,
        work_of(share.sharing),
        Endpoint::Begin,
        share.count,
    )?;
    recorded(alloc, at.worker, edits, entry)
}

/// LOOP: takes the bounds, and opens a loop.
pub fn open_loop(
    alloc: Global,
    context: &Context,
    at: At,
    form: LoopForm,
    bounds: Bounds,
) -> AllocResult<Answer>
    ensures { Answers result (loop_row at.worker at.to (plain_context context.now) form
        bounds.lower bounds.upper) }
{
    let Some(lower) = bounds.lower else {
        return Ok(Answer::decided(alloc, Row::Lacks));
    };
    let Some(upper) = bounds.upper else {
        return Ok(Answer::decided(alloc, Row::Lacks));
    };
    if !is_right_form(form) {
        return Ok(Answer::decided(alloc, Row::Lacks));
    }
    let share = loop_of(context.regions, form, lower, upper);
    open_share(alloc, context, at, 2, share)
}

/// SECT: opens so many sections.
pub fn open_sections(alloc: Global, context: &Context, at: At, count: u32) -> AllocResult<Answer>
    ensures { Answers result (sections_row at.worker at.to (plain_context context.now) count) }
{
    let share = Share {
        sharing: Sharing::Sections,
        region: context.regions,
        count: u64::from(count),
        lower: 0,
        step: 1,
        schedule: Schedule::Dynamic(1),
        taken: 0,
        next: 0,
        end: 0,
    };
    open_share(alloc, context, at, 0, share)
}

// A share whose member has begun a chunk.
fn in_chunk(share: Share, taken: u64, chunk: Chunk) -> Construct
    requires ints { ShareHasInts share }
    requires within { chunk.end ≤ share.count }
    ensures { result ≡ in_chunk share taken chunk }
{
    Construct::Share(OpenShare::of(Share {
        taken,
        next: chunk.first,
        end: chunk.end,
        ..share
    }))
}

// The edits that go to a place, and let a share take the place of the innermost region.
fn replaced(alloc: Global, to: u32, share: &Construct) -> AllocResult<Seq<Edit>>
    ensures { Gives result (edits to 0 (Edit.Replace share.now)) }
{
    let share = Shared::of(alloc, *share)?;
    go_and(alloc, to, 0, Edit::Replace(share))
}

// What comes of a member's next chunk under a static schedule.
fn take(alloc: Global, branch: Branch, share: Share, chunk: Option<Chunk>) -> AllocResult<Row>
    requires few { IfSome chunk (λ c. share.taken < share.count) }
    requires within { IfSome chunk (λ c. c.end ≤ share.count) }
    requires ints { ShareHasInts share }
    ensures { Gives result (taken_row branch.to branch.otherwise share chunk) }
{
    let Some(chunk) = chunk else {
        return jump(alloc, branch.otherwise, 0);
    };
    let region = &in_chunk(share, share.taken + 1, chunk);
    let edits = replaced(alloc, branch.to, region)?;
    let updates = Puts::new(alloc);
    Ok(Row::Goes { edits, updates })
}

// What comes of the team's next chunk.
fn give(alloc: Global, branch: Branch, share: Share, chunk: Option<Chunk>) -> AllocResult<Row>
    requires within { IfSome chunk (λ c. c.end ≤ share.count) }
    requires ints { ShareHasInts share }
    ensures { Gives result (given_row branch.to branch.otherwise share chunk) }
{
    let Some(chunk) = chunk else {
        return jump(alloc, branch.otherwise, 0);
    };
    let region = &in_chunk(share, share.taken, chunk);
    let edits = replaced(alloc, branch.to, region)?;
    let updates = one_put(alloc, Update::Put(Val::Number(chunk.end)))?;
    Ok(Row::Goes { edits, updates })
}

// The next chunk under a static schedule, by the chunk size where it has one.
fn grab_static(
    alloc: Global,
    context: &Context,
    branch: Branch,
    share: Share,
    size: Option<u32>,
) -> AllocResult<Answer>
    requires { ShareHasInts share }
    ensures { Answers result (static_by branch (plain_context context.now) share size) }
{
    let chunk = static_chunk(size, share.count, context.team.get(), share.taken);
    let row = take(alloc, branch, share, chunk)?;
    Ok(Answer::decided(alloc, row))
}

// The next chunk of a team, whose count of iterations that are given out stands at this object.
fn grab_dynamic(
    alloc: Global,
    work: &Obj,
    branch: Branch,
    share: Share,
    chunk: Option<Chunk>,
) -> AllocResult<Answer>
    requires within { IfSome chunk (λ c. c.end ≤ share.count) }
    requires ints { ShareHasInts share }
    ensures { Gives result (record {
      names = write work.now ∷ [];
      row = given_row branch.to
          branch.otherwise share chunk;
    }) }
{
    let names = name_one(alloc, work, Mode::Write)?;
    let row = give(alloc, branch, share, chunk)?;
    Ok(Answer { names, row })
}

// The object at which a team counts the iterations of a share that are given out.
fn work_of_team(context: &Context, share: Share) -> Obj
    ensures { result ≡ obj.Work context.now.team.name share.region }
{
    Obj::Work {
        team: *context.team.get().name.get(),
        region: share.region,
    }
}

/// GRAB: takes the next chunk of iterations, or goes to the target where there is none.
pub fn grab(alloc: Global, store: &Memory, context: &Context, branch: Branch) -> AllocResult<Answer>
    ensures { AnswersAt result (grab_row branch.to branch.otherwise (plain_context context.now)
        (share_in (plain_context context.now))) store.now }
{
    let Some(share) = share_in(context) else {
        return Ok(Answer::decided(alloc, Row::Lacks));
    };
    match share.schedule {
        Schedule::Static => grab_static(alloc, context, branch, share, None),
        Schedule::StaticChunk(size) => grab_static(alloc, context, branch, share, Some(size)),
        Schedule::Dynamic(size) => {
            let work = &work_of_team(context, share);
            let given = u128::from(store.number(alloc, work));
            let chunk = chunk_within(share.count, given, u64::from(size));
            grab_dynamic(alloc, work, branch, share, chunk)
        }
    }
}

// The value of an iteration.
fn value_of(lower: i32, step: i32, iteration: u64) -> i128
    ensures { result ≡ value_of lower step iteration }
{
    i128::from(lower) + i128::from(iteration) * i128::from(step)
}

// The value of the next iteration of a loop, where one is left in the chunk. It is an `int`, so `as`
// keeps it.
fn next_value(share: Share) -> i32
    requires kind { is_loop share.sharing ≡ true }
    requires left { share.next < share.end }
    requires ints { ShareHasInts share }
    ensures { result ≡ value_of share.lower share.step share.next }
{
    value_of(share.lower, share.step, share.next) as i32
}

// Whether a share is a loop.
fn is_loop(sharing: Sharing) -> bool
    ensures { result ≡ is_loop sharing }
{
    matches!(sharing, Sharing::Loop)
}

// The row that begins an iteration of this value.
fn iterated(alloc: Global, to: u32, share: Share, value: i32) -> AllocResult<Row>
    requires few { share.next + 1 < 2 ^ 64 }
    requires ints { ShareHasInts share }
    ensures { Gives result (iterated to share value) }
{
    let next = share.next + 1;
    let region = &Construct::Share(OpenShare::of(Share { next, ..share }));
    let edits = replaced(alloc, to, region)?;
    let updates = one_put(alloc, Update::Put(Val::Cell(Cell::Int(value))))?;
    Ok(Row::Goes { edits, updates })
}

// Begins an iteration, where one is left in the chunk.
fn next_iteration(
    alloc: Global,
    context: &Context,
    branch: Branch,
    slot: u32,
    share: Share,
) -> AllocResult<Answer>
    requires kind { is_loop share.sharing ≡ true }
    requires ints { ShareHasInts share }
    ensures { Answers result (iteration_by branch (plain_context context.now) slot share) }
{
    if share.next >= share.end {
        let row = jump(alloc, branch.otherwise, 0)?;
        return Ok(Answer::decided(alloc, row));
    }
    let value = next_value(share);
    let variable = &object_of(context, Place::Slot(slot), 0);
    let names = name_one(alloc, variable, Mode::Write)?;
    let row = iterated(alloc, branch.to, share, value)?;
    Ok(Answer { names, row })
}

/// ITER: puts the next iteration's value into the slot, or goes to the target where none is left.
pub fn iterate(alloc: Global, context: &Context, branch: Branch, slot: u32) -> AllocResult<Answer>
    ensures { Answers result (iterate_row branch.to branch.otherwise (plain_context context.now)
        slot (share_in (plain_context context.now))) }
{
    let Some(share) = share_in(context) else {
        return Ok(Answer::decided(alloc, Row::Lacks));
    };
    if !is_loop(share.sharing) {
        return Ok(Answer::decided(alloc, Row::Lacks));
    }
    next_iteration(alloc, context, branch, slot, share)
}

// Whether a section was taken.
fn is_section(share: Share) -> bool
    ensures { result ≡ is_section share }
{
    !is_loop(share.sharing) && share.next < share.end
}

// The row that goes to the target of a section, where it has one.
fn go_to_section(alloc: Global, targets: &[u32], section: u64) -> AllocResult<Row>
    ensures { Gives result (section_row (slice_get targets.now section)) }
{
    match targets.get(section as usize) {
        Some(to) => jump(alloc, *to, 0),
        None => Ok(Row::Lacks),
    }
}

/// PICK: goes to the target of the section that was taken.
pub fn pick(alloc: Global, context: &Context, targets: &[u32]) -> AllocResult<Answer>
    ensures { Answers result (pick_row targets.now (share_in (plain_context context.now))) }
{
    let Some(share) = share_in(context) else {
        return Ok(Answer::decided(alloc, Row::Lacks));
    };
    if !is_section(share) {
        return Ok(Answer::decided(alloc, Row::Lacks));
    }
    let row = go_to_section(alloc, targets, share.next)?;
    Ok(Answer::decided(alloc, row))
}
