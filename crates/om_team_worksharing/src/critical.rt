//! Critical regions and their locks.

ghost use Rattle.std.specs.Prelude.{◌≡◌};
ghost use Rattle.om_memory.specs.Plain.{plain_context};
ghost use Rattle.om_team_serial.specs.Objects.{innermost};
ghost use Rattle.om_team_serial.specs.Answers.{Gives, Answers, AnswersAt};
ghost use Rattle.om_team_worksharing.specs.Rows.{ask_critical_row, lock_row, enter_critical_row, is_critical, unlock_row, leave_critical_row};

use crate::parts::opened;
use om_events::Record;
use om_foot::{Mode, Obj};
use om_memory::{Context, Memory};
use om_seq::{AllocResult, Seq};
use om_state::{Blocked, Construct, Edit, Update, Val};
use om_team_serial::names::innermost;
use om_team_serial::parts::{go_and, go_on, name_with_events, recorded, update_with_event};
use om_team_serial::{Answer, At, Row};
use std::alloc::Global;

// The name of a lock, for a record.
fn copied(alloc: Global, name: &[u8]) -> AllocResult<Seq<u8>>
    ensures { Gives result name.now }
{
    Ok(Seq::of(Vec::from_slice(alloc, name)?))
}

/// CRACQ: asks for a lock.
pub fn ask_critical(alloc: Global, at: At, name: &[u8]) -> AllocResult<Answer>
    ensures { Answers result (ask_critical_row at.worker at.to name.now) }
{
    let lock = copied(alloc, name)?;
    let edits = go_on(alloc, at.to)?;
    recorded(alloc, at.worker, edits, Record::MutexAcquire { lock })
}

// The row of a thread that takes a lock, unless a worker holds it.
fn lock(alloc: Global, at: At, number: u32, name: &[u8], holder: Option<u8>) -> AllocResult<Row>
    ensures { Gives result (lock_row at.worker at.to number name.now holder) }
{
    if let Some(holder) = holder {
        return Ok(Row::Blocked(Blocked::Critical(holder)));
    }
    let lock = copied(alloc, name)?;
    let put = Update::Put(Val::Lock(Some(at.worker)));
    let updates = update_with_event(alloc, put, Record::MutexAcquired { lock })?;
    let edits = opened(alloc, at.to, 0, &Construct::Critical(number))?;
    Ok(Row::Goes { edits, updates })
}

/// CRIN: takes a lock, where no worker holds it.
pub fn enter_critical(
    alloc: Global,
    store: &Memory,
    at: At,
    number: u32,
    name: &[u8],
) -> AllocResult<Answer>
    ensures { AnswersAt result (enter_critical_row at.worker at.to number name.now) store.now }
{
    let names = name_with_events(alloc, &Obj::Lock(number), Mode::Write, at.worker)?;
    let row = lock(alloc, at, number, name, store.holder(number))?;
    Ok(Answer { names, row })
}

// Whether the innermost region is critical with this lock.
fn is_critical(context: &Context, number: u32) -> bool
    ensures { result ≡ is_critical number (innermost (plain_context context.now).constructs) }
{
    let Some(region) = innermost(context) else {
        return false;
    };
    let Construct::Critical(held) = &region else {
        return false;
    };
    *held == number
}

// The row of a thread that gives a lock back.
fn unlock(alloc: Global, to: u32, name: &[u8]) -> AllocResult<Row>
    ensures { Gives result (unlock_row to name.now) }
{
    let lock = copied(alloc, name)?;
    let put = Update::Put(Val::Lock(None));
    let updates = update_with_event(alloc, put, Record::MutexReleased { lock })?;
    let edits = go_and(alloc, to, 0, Edit::Close)?;
    Ok(Row::Goes { edits, updates })
}

/// CROUT: gives a lock back.
pub fn leave_critical(
    alloc: Global,
    context: &Context,
    at: At,
    number: u32,
    name: &[u8],
) -> AllocResult<Answer>
    ensures { Answers result (leave_critical_row at.worker at.to number name.now (innermost
        (plain_context context.now).constructs)) }
{
    if !is_critical(context, number) {
        return Ok(Answer::decided(alloc, Row::Lacks));
    }
    let names = name_with_events(alloc, &Obj::Lock(number), Mode::Write, at.worker)?;
    let row = unlock(alloc, at.to, name)?;
    Ok(Answer { names, row })
}
