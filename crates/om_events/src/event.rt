//! The event records of a worker.

ghost use Rattle.std.specs.Prelude.{◌≡◌, IfOk};

use crate::kind::{Endpoint, Sync, TaskFlag, TaskStatus, Thread, Work};
use om_foot::{Name, Shared};
use om_seq::{AllocResult, Seq};
use std::alloc::Global;

/// An event of the run that OMPT has a callback for (OpenMP 5.2, 19.5.2).
///
/// Only kinds and their numbers are OMPT's. Which values a record has, and in which order, is this
/// project's choice. The team of the initial task has the name without numbers. Names are shared with
/// what the record was made of.
#[derive(Drop)]
pub enum Record {
    /// A worker begins.
    ThreadBegin {
        thread: Thread,
    },
    /// A task makes a team of so many members.
    ParallelBegin {
        task: Shared<Name>,
        team: Shared<Name>,
        size: u8,
    },
    /// A task goes on behind the parallel region of a team.
    ParallelEnd {
        team: Shared<Name>,
        task: Shared<Name>,
    },
    /// A task makes an explicit task.
    TaskCreate {
        task: Shared<Name>,
        new: Shared<Name>,
    },
    /// A worker leaves one task and goes on with the next.
    TaskSchedule {
        prior: Shared<Name>,
        status: TaskStatus,
        next: Shared<Name>,
    },
    /// An initial or implicit task begins or ends. Its number is the thread number, and 1 for the
    /// initial task. At the end the team has no numbers and the size is 0.
    ImplicitTask {
        endpoint: Endpoint,
        team: Shared<Name>,
        task: Shared<Name>,
        size: u8,
        number: u8,
        flag: TaskFlag,
    },
    /// A critical region's lock is given back, by the name of the region, which may be empty.
    MutexReleased {
        lock: Seq<u8>,
    },
    /// A worksharing region begins or ends, of so many iterations or sections; 1 for `single`.
    Work {
        work: Work,
        endpoint: Endpoint,
        team: Shared<Name>,
        task: Shared<Name>,
        count: u64,
    },
    /// A `masked` region begins or ends.
    Masked {
        endpoint: Endpoint,
        team: Shared<Name>,
        task: Shared<Name>,
    },
    /// A barrier, a `taskwait` or a `taskgroup` begins or ends. The barrier of a parallel region
    /// ends with a team without numbers.
    SyncRegion {
        sync: Sync,
        endpoint: Endpoint,
        team: Shared<Name>,
        task: Shared<Name>,
    },
    /// A critical region's lock is asked for.
    MutexAcquire {
        lock: Seq<u8>,
    },
    /// A critical region's lock is had.
    MutexAcquired {
        lock: Seq<u8>,
    },
}

// A copy by a table of the kinds: first those of names and plain fields, a kind's names before
// its plain fields, then those of a lock.
macro_rules! copied {
    (
        $record:expr, $alloc:expr;
        $($kind:ident { $($name:ident),*; $($field:ident),* })*;
        $($mutex:ident)*
    ) => {
        match $record {
            $(Record::$kind { $($name,)* $($field),* } => Ok(Record::$kind {
                $($name: $name.copy()?,)*
                $($field: *$field),*
            }),)*
            $(Record::$mutex { lock } => Ok(Record::$mutex { lock: copy_lock(lock, $alloc)? }),)*
        }
    };
}

impl Record {
    /// A copy; its only error is out of memory.
    pub fn copy(&self, alloc: Global) -> AllocResult<Record>
        ensures { IfOk result (λ copy. copy ≡ self.now) }
    {
        copied! {
            self, alloc;
            ThreadBegin {; thread }
            ParallelBegin { task, team; size }
            ParallelEnd { team, task; }
            TaskCreate { task, new; }
            TaskSchedule { prior, next; status }
            ImplicitTask { team, task; endpoint, size, number, flag }
            Work { team, task; work, endpoint, count }
            Masked { team, task; endpoint }
            SyncRegion { team, task; sync, endpoint };
            MutexReleased MutexAcquire MutexAcquired
        }
    }
}

fn copy_lock(lock: &Seq<u8>, alloc: Global) -> AllocResult<Seq<u8>>
    ensures { IfOk result (λ copy. copy ≡ lock.now) }
{
    Ok(Seq::of(Vec::from_slice(alloc, lock.as_slice())?))
}
