//! The values that a record's kind, endpoint and status can have (OpenMP 5.2, 19.4.4).

ghost use Rattle.std.specs.Prelude.{◌≡◌};
ghost use Rattle.om_events.specs.Numbers.{endpoint_number, thread_number, status_number, work_number, sync_number, flag_number};

/// Which end of a region a record stands for (`ompt_scope_endpoint_t`).
#[derive(Clone, Copy, PartialEq, Eq)]
pub enum Endpoint {
    Begin,
    End,
}

impl Endpoint {
    /// Its number in OMPT.
    pub fn number(self) -> u64
        ensures { result ≡ endpoint_number self }
    {
        match self {
            Endpoint::Begin => 1,
            Endpoint::End => 2,
        }
    }
}

/// What kind of thread begins (`ompt_thread_t`).
#[derive(Clone, Copy, PartialEq, Eq)]
pub enum Thread {
    /// The thread of the initial task.
    Initial,
    Worker,
}

impl Thread {
    /// Its number in OMPT.
    pub fn number(self) -> u64
        ensures { result ≡ thread_number self }
    {
        match self {
            Thread::Initial => 1,
            Thread::Worker => 2,
        }
    }
}

/// Why a thread leaves a task (`ompt_task_status_t`).
#[derive(Clone, Copy, PartialEq, Eq)]
pub enum TaskStatus {
    /// It is complete.
    Complete,
    /// It stands at a `taskyield`.
    Yield,
    /// It stands at any other scheduling point.
    Switch,
}

impl TaskStatus {
    /// Its number in OMPT.
    pub fn number(self) -> u64
        ensures { result ≡ status_number self }
    {
        match self {
            TaskStatus::Complete => 1,
            TaskStatus::Yield => 2,
            TaskStatus::Switch => 7,
        }
    }
}

/// What kind of worksharing region is meant (`ompt_work_t`).
#[derive(Clone, Copy, PartialEq, Eq)]
pub enum Work {
    Loop,
    Sections,
    /// A `single` region, by the thread that carries it out.
    SingleExecutor,
    /// A `single` region, by any other thread.
    SingleOther,
}

impl Work {
    /// Its number in OMPT.
    pub fn number(self) -> u64
        ensures { result ≡ work_number self }
    {
        match self {
            Work::Loop => 1,
            Work::Sections => 2,
            Work::SingleExecutor => 3,
            Work::SingleOther => 4,
        }
    }
}

/// What kind of synchronization region is meant (`ompt_sync_region_t`).
#[derive(Clone, Copy, PartialEq, Eq)]
pub enum Sync {
    /// A `barrier`.
    BarrierExplicit,
    TaskWait,
    TaskGroup,
    /// The barrier at the end of a worksharing region.
    BarrierWorksharing,
    /// The barrier at the end of a parallel region.
    BarrierParallel,
}

impl Sync {
    /// Its number in OMPT.
    pub fn number(self) -> u64
        ensures { result ≡ sync_number self }
    {
        match self {
            Sync::BarrierExplicit => 3,
            Sync::TaskWait => 5,
            Sync::TaskGroup => 6,
            Sync::BarrierWorksharing => 8,
            Sync::BarrierParallel => 9,
        }
    }
}

/// What kind of task is meant (`ompt_task_flag_t`).
#[derive(Clone, Copy, PartialEq, Eq)]
pub enum TaskFlag {
    Initial,
    Implicit,
    Explicit,
}

impl TaskFlag {
    /// Its number in OMPT.
    pub fn number(self) -> u64
        ensures { result ≡ flag_number self }
    {
        match self {
            TaskFlag::Initial => 1,
            TaskFlag::Implicit => 2,
            TaskFlag::Explicit => 4,
        }
    }
}
