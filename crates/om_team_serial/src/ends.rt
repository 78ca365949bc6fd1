//! FIN: the end of the program.

ghost use Rattle.std.specs.Prelude.{◌≡◌};
ghost use Rattle.om_memory.specs.Plain.{plain_context};
ghost use Rattle.om_team_serial.specs.Answers.{Gives, AnswersAt};
ghost use Rattle.om_team_serial.specs.Ends.{value_of, finished, finish_row};

use crate::names::operands_of;
use crate::parts::{is_zero, name_with_events, update_with_event};
use crate::{Answer, Row};
use om_code::serial::int_at;
use om_events::{Endpoint, Record, TaskFlag};
use om_foot::{Mode, Name, Obj, Shared};
use om_memory::{Context, Memory};
use om_seq::{AllocResult, Seq};
use om_state::{Blocked, Edit, Kind, Update};
use std::alloc::Global;

// What comes of an initial task that is at its end, with this value.
fn finished(alloc: Global, context: &Context, value: i32, is_over: bool) -> AllocResult<Row>
    ensures { Gives result (finished (plain_context context.now) value is_over) }
{
    if !is_over {
        return Ok(Row::Blocked(Blocked::Children));
    }
    let entry = Record::ImplicitTask {
        endpoint: Endpoint::End,
        team: Shared::of(alloc, Name::empty())?,
        task: context.task.copy()?,
        size: 0,
        number: 1,
        flag: TaskFlag::Initial,
    };
    let updates = update_with_event(alloc, Update::Keep, entry)?;
    let edits = Seq::one(alloc, Edit::End(value))?;
    Ok(Row::Goes { edits, updates })
}

// The value with which the program ends: the operand on top where it has one, else 0.
fn value_of(context: &Context, has_value: bool) -> Option<i32>
    ensures { result ≡ value_of (plain_context context.now) has_value }
{
    if has_value {
        return int_at(&operands_of(context), 0);
    }
    Some(0)
}

/// FIN: the program ends, with the operand on top as its value or with 0, once all tasks of the
/// initial task's team have ended.
///
/// The only error is out of memory.
pub fn finish(
    alloc: Global,
    store: &Memory,
    worker: u8,
    context: &Context,
    has_value: bool,
) -> AllocResult<Answer>
    ensures { AnswersAt result (finish_row worker (plain_context context.now) has_value) store.now }
{
    let (Kind::Initial, Some(value)) = (context.kind, value_of(context, has_value)) else {
        return Ok(Answer::decided(alloc, Row::Lacks));
    };
    let pending = &Obj::Pending {
        team: *context.team.get().name.get(),
        phase: context.phase,
    };
    let names = name_with_events(alloc, pending, Mode::Read, worker)?;
    let row = finished(alloc, context, value, is_zero(alloc, store, pending))?;
    Ok(Answer { names, row })
}
