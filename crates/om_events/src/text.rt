//! The texts of event records.

ghost use Rattle.std.specs.Prelude.{◌≡◌, ◌++◌, IsTrue, [], ◌∷◌, OnOk, OnErr};
ghost use Rattle.om_events.specs.declared.event.Record.TheVariants as kind;
ghost use Rattle.om_events.specs.Records.{record_text, spaced, lock_text};
ghost use Rattle.om_events.specs.Words.{has_endpoint};

use crate::event::Record;
use crate::kind::{Endpoint, Sync, TaskFlag, TaskStatus, Thread, Work};
use crate::words::{Word, push_words};
use om_foot::{Name, Shared};
use om_seq::{AllocResult, Seq};

/// Appends the text of a record: the number and the name of its callback in OMPT, then its values,
/// with one space between words and no line end. A task or a team is shown by its numbers with
/// dots between them; a team without numbers and a lock without a name are shown as `-`.
/// When out of memory, nothing is appended.
pub fn text_of(event: &Record, out: &mut Vec<u8>) -> AllocResult<()>
    ensures appended { OnOk result (out.new.items ≡ out.old.items ++ record_text event.now) }
    ensures unchanged_on_error { OnErr result (out.new.items ≡ out.old.items) }
{
    match event {
        Record::ThreadBegin { thread } => push_thread(*thread, out),
        Record::ParallelBegin { task, team, size } => {
            push_parallel_begin(task.get(), team.get(), *size, out)
        },
        Record::ParallelEnd { team, task } => push_parallel_end(team.get(), task.get(), out),
        Record::TaskCreate { task, new } => push_task_create(task.get(), new.get(), out),
        Record::TaskSchedule {
            prior,
            status,
            next,
        } => push_schedule(prior.get(), *status, next.get(), out),
        Record::MutexReleased { lock } => push_mutex(b"17 mutex_released 5", lock, out),
        Record::MutexAcquire { lock } => push_mutex(b"26 mutex_acquire 5", lock, out),
        Record::MutexAcquired { lock } => push_mutex(b"27 mutex_acquired 5", lock, out),
        _ => push_end(event, out),
    }
}

fn push_thread(thread: Thread, out: &mut Vec<u8>) -> AllocResult<()>
    ensures appended { OnOk result
        (out.new.items ≡ out.old.items ++ record_text (kind.ThreadBegin thread)) }
    ensures unchanged_on_error { OnErr result (out.new.items ≡ out.old.items) }
{
    push_words(b"1 thread_begin", &[Word::Number(thread.number())], out)
}

fn push_parallel_begin<'a>(
    task: &'a Name,
    team: &'a Name,
    size: u8,
    out: &mut Vec<u8>,
) -> AllocResult<()>
    ensures appended { OnOk result
        (out.new.items ≡ out.old.items ++ record_text (kind.ParallelBegin task.now team.now size)) }
    ensures unchanged_on_error { OnErr result (out.new.items ≡ out.old.items) }
{
    let words = [
        Word::Name(task),
        Word::Name(team),
        Word::Number(u64::from(size)),
    ];
    push_words(b"3 parallel_begin", &words, out)
}

fn push_parallel_end(team: &Name, task: &Name, out: &mut Vec<u8>) -> AllocResult<()>
    ensures appended { OnOk result
        (out.new.items ≡ out.old.items ++ record_text (kind.ParallelEnd team.now task.now)) }
    ensures unchanged_on_error { OnErr result (out.new.items ≡ out.old.items) }
{
    push_words(
        b"4 parallel_end",
        &[Word::Name(team), Word::Name(task)],
        out,
    )
}

fn push_task_create<'a>(task: &'a Name, new: &'a Name, out: &mut Vec<u8>) -> AllocResult<()>
    ensures appended { OnOk result
        (out.new.items ≡ out.old.items ++ record_text (kind.TaskCreate task.now new.now)) }
    ensures unchanged_on_error { OnErr result (out.new.items ≡ out.old.items) }
{
    let explicit = Word::Number(TaskFlag::Explicit.number());
    push_words(
        b"5 task_create",
        &[Word::Name(task), Word::Name(new), explicit],
        out,
    )
}

fn push_schedule<'a>(
    prior: &'a Name,
    status: TaskStatus,
    next: &'a Name,
    out: &mut Vec<u8>,
) -> AllocResult<()>
    ensures appended { OnOk result
        (out.new.items ≡ out.old.items
        ++ record_text (kind.TaskSchedule prior.now status next.now)) }
    ensures unchanged_on_error { OnErr result (out.new.items ≡ out.old.items) }
{
    let words = [
        Word::Name(prior),
        Word::Number(status.number()),
        Word::Name(next),
    ];
    push_words(b"6 task_schedule", &words, out)
}

fn push_mutex(first: &[u8], lock: &Seq<u8>, out: &mut Vec<u8>) -> AllocResult<()>
    ensures appended { OnOk result
        (out.new.items ≡ out.old.items ++ (first.now ++ spaced (lock_text lock.now ∷ []))) }
    ensures unchanged_on_error { OnErr result (out.new.items ≡ out.old.items) }
{
    push_words(first, &[Word::Lock(lock.as_slice())], out)
}

// What a record of one end of a region names.
#[derive(Clone, Copy)]
struct RegionEnd<'a> {
    endpoint: Endpoint,
    team: &'a Name,
    task: &'a Name,
}

// Appends the text of a record that has an endpoint, or nothing.
fn push_end(event: &Record, out: &mut Vec<u8>) -> AllocResult<()>
    requires { IsTrue (has_endpoint event.now) }
    ensures appended { OnOk result (out.new.items ≡ out.old.items ++ record_text event.now) }
    ensures unchanged_on_error { OnErr result (out.new.items ≡ out.old.items) }
{
    match event {
        Record::ImplicitTask {
            endpoint,
            team,
            task,
            size,
            number,
            flag,
        } => push_implicit(&end_of(*endpoint, team, task), *size, *number, *flag, out),
        Record::Work {
            work,
            endpoint,
            team,
            task,
            count,
        } => push_work(*work, &end_of(*endpoint, team, task), *count, out),
        Record::Masked {
            endpoint,
            team,
            task,
        } => push_masked(&end_of(*endpoint, team, task), out),
        Record::SyncRegion {
            sync,
            endpoint,
            team,
            task,
        } => push_sync(*sync, &end_of(*endpoint, team, task), out),
        _ => unreachable!(),
    }
}

fn end_of<'a>(endpoint: Endpoint, team: &'a Shared<Name>, task: &'a Shared<Name>) -> RegionEnd<'a>
    ensures { (result.endpoint ≡ endpoint) × (result.team.now ≡ team.now)
        × (result.task.now ≡ task.now) }
{
    RegionEnd {
        endpoint,
        team: team.get(),
        task: task.get(),
    }
}

fn push_implicit(
    end: &RegionEnd,
    size: u8,
    number: u8,
    flag: TaskFlag,
    out: &mut Vec<u8>,
) -> AllocResult<()>
    ensures appended { OnOk result
        (out.new.items ≡ out.old.items
        ++ record_text
        (kind.ImplicitTask end.now.endpoint end.now.team.now end.now.task.now size number flag)) }
    ensures unchanged_on_error { OnErr result (out.new.items ≡ out.old.items) }
{
    let words = [
        Word::Number(end.endpoint.number()),
        Word::Name(end.team),
        Word::Name(end.task),
        Word::Number(u64::from(size)),
        Word::Number(u64::from(number)),
        Word::Number(flag.number()),
    ];
    push_words(b"7 implicit_task", &words, out)
}

fn push_work(work: Work, end: &RegionEnd, count: u64, out: &mut Vec<u8>) -> AllocResult<()>
    ensures appended { OnOk result
        (out.new.items ≡ out.old.items
        ++ record_text (kind.Work work end.now.endpoint end.now.team.now end.now.task.now count)) }
    ensures unchanged_on_error { OnErr result (out.new.items ≡ out.old.items) }
{
    let words = [
        Word::Number(work.number()),
        Word::Number(end.endpoint.number()),
        Word::Name(end.team),
        Word::Name(end.task),
        Word::Number(count),
    ];
    push_words(b"20 work", &words, out)
}

fn push_masked(end: &RegionEnd, out: &mut Vec<u8>) -> AllocResult<()>
    ensures appended { OnOk result
        (out.new.items ≡ out.old.items
        ++ record_text (kind.Masked end.now.endpoint end.now.team.now end.now.task.now)) }
    ensures unchanged_on_error { OnErr result (out.new.items ≡ out.old.items) }
{
    let words = [
        Word::Number(end.endpoint.number()),
        Word::Name(end.team),
        Word::Name(end.task),
    ];
    push_words(b"21 masked", &words, out)
}

fn push_sync(sync: Sync, end: &RegionEnd, out: &mut Vec<u8>) -> AllocResult<()>
    ensures appended { OnOk result
        (out.new.items ≡ out.old.items
        ++ record_text (kind.SyncRegion sync end.now.endpoint end.now.team.now end.now.task.now)) }
    ensures unchanged_on_error { OnErr result (out.new.items ≡ out.old.items) }
{
    let words = [
        Word::Number(sync.number()),
        Word::Number(end.endpoint.number()),
        Word::Name(end.team),
        Word::Name(end.task),
    ];
    push_words(b"23 sync_region", &words, out)
}
