//! Whether two event records are the same.

use crate::same::Same;
use om_events::Record;
use om_events::kind::{Endpoint, Sync, TaskFlag, TaskStatus, Thread, Work};

impl Same for Endpoint {
    fn is_same(&self, other: &Endpoint) -> bool {
        self == other
    }
}

impl Same for Thread {
    fn is_same(&self, other: &Thread) -> bool {
        self == other
    }
}

impl Same for TaskStatus {
    fn is_same(&self, other: &TaskStatus) -> bool {
        self == other
    }
}

impl Same for Work {
    fn is_same(&self, other: &Work) -> bool {
        self == other
    }
}

impl Same for Sync {
    fn is_same(&self, other: &Sync) -> bool {
        self == other
    }
}

impl Same for TaskFlag {
    fn is_same(&self, other: &TaskFlag) -> bool {
        self == other
    }
}

// Whether two records are the same, by a table of the kinds and their fields. These are small, and
// each `&&` would be one more way out of the function.
macro_rules! same_kinds {
    ($one:expr, $two:expr; $($kind:ident { $($field:ident $other:ident),* })*) => {
        match ($one, $two) {
            $((Record::$kind { $($field),* }, Record::$kind { $($field: $other),* }) => {
                true $(& $field.is_same($other))*
            })*
            _ => false,
        }
    };
}

impl Same for Record {
    fn is_same(&self, other: &Record) -> bool {
        same_kinds! {
            self, other;
            ThreadBegin { thread other_thread }
            ParallelBegin { task other_task, team other_team, size other_size }
            ParallelEnd { team other_team, task other_task }
            TaskCreate { task other_task, new other_new }
            TaskSchedule { prior other_prior, status other_status, next other_next }
            ImplicitTask {
                endpoint other_endpoint, team other_team, task other_task, size other_size,
                number other_number, flag other_flag
            }
            MutexReleased { lock other_lock }
            Work {
                work other_work, endpoint other_endpoint, team other_team, task other_task,
                count other_count
            }
            Masked { endpoint other_endpoint, team other_team, task other_task }
            SyncRegion { sync other_sync, endpoint other_endpoint, team other_team, task other_task }
            MutexAcquire { lock other_lock }
            MutexAcquired { lock other_lock }
        }
    }
}
