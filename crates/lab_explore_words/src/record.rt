//! The words of event records.

ghost use Rattle.std.specs.Prelude.{◌≡◌, ◌++◌, OnOk};
ghost use Rattle.lab_explore_words.specs.Lists.{each, list_words};
ghost use Rattle.lab_explore_words.specs.Values.{record_words};

use crate::plain::{push_bytes, push_name, push_number};
use om_events::Record;
use om_seq::AllocResult;

/// Appends how many records there are, and the words of each.
pub(crate) fn push_records(records: &[Record], out: &mut Vec<u32>) -> AllocResult<()>
    ensures { OnOk result (out.new.items ≡ out.old.items ++ list_words record_words records.now) }
{
    push_number(records.len() as u64, out)?;
    for event in records {
        push_record(event, out)?;
    }
    Ok(())
}

// Appends the words of a record.
fn push_record(event: &Record, out: &mut Vec<u32>) -> AllocResult<()>
    ensures { OnOk result (out.new.items ≡ out.old.items ++ record_words event.now) }
{
    match event {
        Record::ThreadBegin { thread } => {
            out.push(0)?;
            push_number(thread.number(), out)
        }
        Record::ParallelBegin { task, team, size } => {
            out.push(1)?;
            push_name(task.get(), out)?;
            push_name(team.get(), out)?;
            push_number(u64::from(*size), out)
        }
        Record::ParallelEnd { team, task } => {
            out.push(2)?;
            push_name(team.get(), out)?;
            push_name(task.get(), out)
        }
        Record::TaskCreate { task, new } => {
            out.push(3)?;
            push_name(task.get(), out)?;
            push_name(new.get(), out)
        }
        Record::TaskSchedule {
            prior,
            status,
            next,
        } => {
            out.push(4)?;
            push_name(prior.get(), out)?;
            push_number(status.number(), out)?;
            push_name(next.get(), out)
        }
        Record::ImplicitTask {
            endpoint,
            team,
            task,
            size,
            number,
            flag,
        } => {
            out.push(5)?;
            push_number(endpoint.number(), out)?;
            push_name(team.get(), out)?;
            push_name(task.get(), out)?;
            push_number(u64::from(*size), out)?;
            push_number(u64::from(*number), out)?;
            push_number(flag.number(), out)
        }
        Record::MutexReleased { lock } => {
            out.push(6)?;
            push_bytes(lock.as_slice(), out)
        }
        Record::Work {
            work,
            endpoint,
            team,
            task,
            count,
        } => {
            out.push(7)?;
            push_number(work.number(), out)?;
            push_number(endpoint.number(), out)?;
            push_name(team.get(), out)?;
            push_name(task.get(), out)?;
            push_number(*count, out)
        }
        Record::Masked {
            endpoint,
            team,
            task,
        } => {
            out.push(8)?;
            push_number(endpoint.number(), out)?;
            push_name(team.get(), out)?;
            push_name(task.get(), out)
        }
        Record::SyncRegion {
            sync,
            endpoint,
            team,
            task,
        } => {
            out.push(9)?;
            push_number(sync.number(), out)?;
            push_number(endpoint.number(), out)?;
            push_name(team.get(), out)?;
            push_name(task.get(), out)
        }
        Record::MutexAcquire { lock } => {
            out.push(10)?;
            push_bytes(lock.as_slice(), out)
        }
        Record::MutexAcquired { lock } => {
            out.push(11)?;
            push_bytes(lock.as_slice(), out)
        }
    }
}
