//! Single regions, and the end of each worksharing region.

ghost use Rattle.std.specs.Prelude.{◌≡◌, true, false};
ghost use Rattle.om_memory.specs.Plain.{plain_context};
ghost use Rattle.om_team_serial.specs.Objects.{innermost};
ghost use Rattle.om_team_serial.specs.Answers.{Gives, Answers, AnswersAt};
ghost use Rattle.om_team_worksharing.specs.RowParts.{chosen_by};
ghost use Rattle.om_team_worksharing.specs.Rows.{single_work, chosen_row, single_row, closed_row, end_worksharing_row};

use crate::parts::{Branch, begun, work_record};
use crate::shares::work_of;
use om_code::frame::Fault;
use om_events::{Endpoint, Work};
use om_foot::{Mode, Obj};
use om_memory::{Context, Memory};
use om_seq::AllocResult;
use om_state::{Construct, Edit, Update, Val};
use om_team_serial::names::{innermost, is_misplaced};
use om_team_serial::parts::{go_and, name_with_events, recorded, update_with_event};
use om_team_serial::{Answer, At, Row};
use std::alloc::Global;

// The kind of a single region in its records, for the thread that runs it and for any other.
fn single_work(runs: bool) -> Work
    ensures { result ≡ single_work runs }
{
    if runs {
        Work::SingleExecutor
    } else {
        Work::SingleOther
    }
}

// The row of the thread that runs a single region.
fn run(alloc: Global, context: &Context, to: u32) -> AllocResult<Row>
    ensures { Gives result (chosen_row to to (plain_context context.now) true) }
{
    let region = &Construct::Single { runs: true };
    let edits = begun(alloc, to, 0, region)?;
    let entry = work_record(context, single_work(true), Endpoint::Begin, 1)?;
    let updates = update_with_event(alloc, Update::Put(Val::Number(1)), entry)?;
    Ok(Row::Goes { edits, updates })
}

// The row of any other thread.
fn pass(alloc: Global, context: &Context, otherwise: u32) -> AllocResult<Row>
    ensures { Gives result (chosen_row otherwise otherwise (plain_context context.now) false) }
{
    let region = &Construct::Single { runs: false };
    let edits = begun(alloc, otherwise, 0, region)?;
    let entry = work_record(context, single_work(false), Endpoint::Begin, 1)?;
    let updates = update_with_event(alloc, Update::Keep, entry)?;
    Ok(Row::Goes { edits, updates })
}

// The row of a thread that comes to a single region, first or not.
fn choose(alloc: Global, context: &Context, branch: Branch, is_first: bool) -> AllocResult<Row>
    ensures { Gives result (chosen_by branch (plain_context context.now) is_first) }
{
    if is_first {
        run(alloc, context, branch.to)
    } else {
        pass(alloc, context, branch.otherwise)
    }
}

/// SINGLE: opens the region; the first thread runs it, and the others go to the target.
pub fn single(
    alloc: Global,
    store: &Memory,
    context: &Context,
    worker: u8,
    branch: Branch,
) -> AllocResult<Answer>
    ensures { AnswersAt result (single_row worker branch.to branch.otherwise (plain_context
        context.now)) store.now }
{
    if is_misplaced(context) {
        return Ok(Answer::decided(alloc, Row::Faults(Fault::Nesting)));
    }
    let work = &Obj::Work {
        team: *context.team.get().name.get(),
        region: context.regions,
    };
    let is_first = store.number(alloc, work) == 0;
    let names = name_with_events(alloc, work, Mode::Write, worker)?;
    let row = choose(alloc, context, branch, is_first)?;
    Ok(Answer { names, row })
}

// Closes a worksharing region of this kind and so many iterations.
fn close(alloc: Global, context: &Context, at: At, work: Work, count: u64) -> AllocResult<Answer>
    ensures { Answers result (closed_row at.worker at.to (plain_context context.now) work count) }
{
    let edits = go_and(alloc, at.to, 0, Edit::Close)?;
    let entry = work_record(context, work, Endpoint::End, count)?;
    recorded(alloc, at.worker, edits, entry)
}

/// ENDW: closes a worksharing region.
pub fn end_worksharing(alloc: Global, context: &Context, at: At) -> AllocResult<Answer>
    ensures { Answers result (end_worksharing_row at.worker at.to (plain_context context.now)
        (innermost (plain_context context.now).constructs)) }
{
    let Some(region) = innermost(context) else {
        return Ok(Answer::decided(alloc, Row::Lacks));
    };
    match &region {
        Construct::Share(share) => {
            let share = share.place();
            close(alloc, context, at, work_of(share.sharing), share.count)
        }
        Construct::Single { runs } => close(alloc, context, at, single_work(*runs), 1),
        Construct::Masked | Construct::Critical(_) | Construct::Group(_) => {
            Ok(Answer::decided(alloc, Row::Lacks))
        }
    }
}
