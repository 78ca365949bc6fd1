//! Masked regions.

ghost use Rattle.std.specs.Prelude.{◌≡◌, pos};
ghost use Rattle.std.specs.Ordering.{int_eq};
ghost use Rattle.om_memory.specs.Plain.{plain_context};
ghost use Rattle.om_team_serial.specs.Objects.{innermost};
ghost use Rattle.om_team_serial.specs.Answers.{Gives, Answers};
ghost use Rattle.om_team_worksharing.specs.RowParts.{filtered_by};
ghost use Rattle.om_team_worksharing.specs.Rows.{masked_row, is_masked, end_masked_row};

use crate::parts::{Branch, jump, opened};
use om_events::{Endpoint, Record};
use om_memory::Context;
use om_seq::AllocResult;
use om_state::{Construct, Edit};
use om_team_serial::names::innermost;
use om_team_serial::parts::{go_and, own_events, recorded};
use om_team_serial::{Answer, At, Row};
use std::alloc::Global;

// The record that a masked region begins or ends.
fn masked_record(context: &Context, endpoint: Endpoint) -> AllocResult<Record>
    ensures { Gives result (Record.Masked endpoint context.now.team.name context.now.task) }
{
    Ok(Record::Masked {
        endpoint,
        team: context.team.get().name.copy()?,
        task: context.task.copy()?,
    })
}

// The row of a thread that comes to a masked region, of the filter or not.
fn filter(
    alloc: Global,
    context: &Context,
    worker: u8,
    branch: Branch,
    runs: bool,
) -> AllocResult<Answer>
    ensures { Answers result (filtered_by worker branch (plain_context context.now) runs) }
{
    if runs {
        let edits = opened(alloc, branch.to, 1, &Construct::Masked)?;
        let entry = masked_record(context, Endpoint::Begin)?;
        return recorded(alloc, worker, edits, entry);
    }
    let names = own_events(alloc, worker)?;
    let row = jump(alloc, branch.otherwise, 1)?;
    Ok(Answer { names, row })
}

// Whether a number is the number of a thread.
fn is_thread(number: i32, thread: u8) -> bool
    ensures { result ≡ int_eq number (pos thread) }
{
    number == i32::from(thread)
}

/// MASKED: takes a thread number, and opens the region for that thread; the others go to the target.
pub fn masked(
    alloc: Global,
    context: &Context,
    worker: u8,
    branch: Branch,
    number: Option<i32>,
) -> AllocResult<Answer>
    ensures { Answers result (masked_row worker branch.to branch.otherwise (plain_context
        context.now) number) }
{
    let Some(number) = number else {
        return Ok(Answer::decided(alloc, Row::Lacks));
    };
    let runs = is_thread(number, context.team.get().number);
    filter(alloc, context, worker, branch, runs)
}

// Whether the innermost region is masked.
fn is_masked(context: &Context) -> bool
    ensures { result ≡ is_masked (innermost (plain_context context.now).constructs) }
{
    let Some(region) = innermost(context) else {
        return false;
    };
    matches!(region, Construct::Masked)
}

/// ENDM: closes a masked region.
pub fn end_masked(alloc: Global, context: &Context, at: At) -> AllocResult<Answer>
    ensures { Answers result (end_masked_row at.worker at.to (plain_context context.now)
        (innermost (plain_context context.now).constructs)) }
{
    if !is_masked(context) {
        return Ok(Answer::decided(alloc, Row::Lacks));
    }
    let edits = go_and(alloc, at.to, 0, Edit::Close)?;
    let entry = masked_record(context, Endpoint::End)?;
    recorded(alloc, at.worker, edits, entry)
}
