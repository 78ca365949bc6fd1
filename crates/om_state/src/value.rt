//! The values that objects hold, and those that are put into the cells of a slot at once.

ghost use Rattle.std.specs.Prelude.{◌≡◌, IfOk, OnOk, OnErr, unwrap_or};
ghost use Rattle.std.specs.Option.{option_copied};
ghost use Rattle.om_state.specs.Values.{default_of, cell_in, control_in, task_in, number_in, holder_in, count_of, bytes_in, records_in, value_with, items_of, value_cut};

use crate::control::{Control, Home};
use crate::shared_control::SharedControl;
use crate::step::Tail;
use om_code::frame::Cell;
use om_events::Record;
use om_foot::{Name, Obj, Shared};
use om_seq::{AllocResult, Seq};
use std::alloc::Global;

/// An explicit task that was made and not begun.
#[derive(Drop)]
pub struct Ready {
    /// The number of its body.
    pub body: u32,
    /// The line of its directive.
    pub line: u32,
    /// Where the cells of its frame's slots lie.
    pub homes: Shared<Seq<Home>>,
    pub team: Shared<Name>,
    /// The phase of the team in which it was made.
    pub phase: u64,
    /// The task group in which it was made.
    pub group: Shared<Option<Name>>,
}

/// How far an explicit task is.
#[derive(Drop)]
pub enum Task {
    /// It was never made.
    Absent,
    Ready(Shared<Ready>),
    /// It was begun by this worker.
    Running(u8),
    Done,
}

/// What an object holds.
#[derive(Drop)]
pub enum Val {
    /// A worker's control.
    Control(SharedControl),
    /// A cell of a variable.
    Cell(Cell),
    /// An explicit task.
    Task(Task),
    /// A count, to which steps add. It is signed so that taking an addition back needs no
    /// condition.
    Count(i128),
    /// A number: barriers that were reached, iterations that were given out, or 1 for a `single`
    /// region that is taken.
    Number(u64),
    /// The worker that holds a lock, if one does.
    Lock(Option<u8>),
    /// Bytes that were printed.
    Output(Seq<u8>),
    /// Event records.
    Events(Seq<Record>),
}

impl Task {
    // A copy; its only error is out of memory.
    fn copy(&self) -> AllocResult<Task>
        ensures { IfOk result (λ task. task ≡ self.now) }
    {
        match self {
            Task::Absent => Ok(Task::Absent),
            Task::Ready(ready) => Ok(Task::Ready(ready.copy()?)),
            Task::Running(worker) => Ok(Task::Running(*worker)),
            Task::Done => Ok(Task::Done),
        }
    }
}

impl Val {
    /// What an object holds where nothing was ever put.
    pub fn default_at(alloc: Global, object: &Obj) -> Val
        ensures { result ≡ default_of object.now }
    {
        match object {
            Obj::Control(_) => Val::Control(SharedControl::idle()),
            Obj::Cell { .. } => Val::Cell(Cell::Unset),
            Obj::Global { .. } => Val::Cell(Cell::Int(0)),
            Obj::Task(_) => Val::Task(Task::Absent),
            Obj::Kids(_) | Obj::Pending { .. } | Obj::Group(_) => Val::Count(0),
            Obj::Arrived { .. } | Obj::Work { .. } => Val::Number(0),
            Obj::Lock(_) => Val::Lock(None),
            Obj::Output => Val::Output(Seq::new(alloc)),
            Obj::Events(_) => Val::Events(Seq::new(alloc)),
        }
    }

    /// The control that it is; `None` stands for an idle one.
    pub fn control(&self) -> Option<&Control>
        ensures { unwrap_or (option_copied result) Control.Idle ≡ control_in self.now }
    {
        let Val::Control(control) = self else {
            return None;
        };
        control.get()
    }

    /// The cell that it is, or one that is unset.
    pub fn cell(&self) -> Cell
        ensures { result ≡ cell_in self.now }
    {
        match self {
            Val::Cell(cell) => *cell,
            _ => Cell::Unset,
        }
    }

    /// The task that it is; `None` stands for one that was never made.
    pub fn task(&self) -> Option<&Task>
        ensures { unwrap_or (option_copied result) Task.Absent ≡ task_in self.now }
    {
        let Val::Task(task) = self else {
            return None;
        };
        Some(task)
    }

    /// The number that it is, or 0.
    pub fn number(&self) -> u64
        ensures { result ≡ number_in self.now }
    {
        match self {
            Val::Number(number) => *number,
            _ => 0,
        }
    }

    /// The worker that holds the lock that it is, if one does.
    pub fn holder(&self) -> Option<u8>
        ensures { result ≡ holder_in self.now }
    {
        let Val::Lock(holder) = self else {
            return None;
        };
        *holder
    }

    /// The count, if it is one.
    pub fn count(&self) -> Option<i128>
        ensures { result ≡ count_of self.now }
    {
        let Val::Count(value) = self else {
            return None;
        };
        Some(*value)
    }

    /// The bytes that it is, or none.
    pub fn bytes(&self) -> &[u8]
        ensures { result.now ≡ bytes_in self.now }
    {
        match self {
            Val::Output(bytes) => bytes.as_slice(),
            _ => &[],
        }
    }

    /// The event records that it is, or none.
    pub fn records(&self) -> &[Record]
        ensures { result.now ≡ records_in self.now }
    {
        match self {
            Val::Events(records) => records.as_slice(),
            _ => &[],
        }
    }

    /// How many items it has, where it is a value that only grows; else 0.
    pub fn items(&self) -> usize
        ensures { result ≡ items_of self.now }
    {
        match self {
            Val::Output(bytes) => bytes.len(),
            Val::Events(records) => records.len(),
            _ => 0,
        }
    }

    /// Appends to output or to events; another value stays. When out of memory, nothing changes.
    pub fn append(&mut self, tail: Tail) -> AllocResult<()>
        ensures appended { OnOk result (self.new ≡ value_with tail self.old) }
        ensures unchanged_on_error { OnErr result (self.new ≡ self.old) }
    {
        match (self, tail) {
            (Val::Output(before), Tail::Bytes(bytes)) => before.append(bytes),
            (Val::Events(before), Tail::Events(events)) => before.append(events),
            _ => Ok(()),
        }
    }

    /// Leaves so many items of output or of events; another value stays. It takes no memory.
    pub fn cut(&mut self, count: usize)
        ensures { self.new ≡ value_cut count self.old }
    {
        match self {
            Val::Output(bytes) => bytes.truncate(count),
            Val::Events(records) => records.truncate(count),
            _ => {}
        }
    }

    /// A copy; its only error is out of memory.
    pub fn copy(&self, alloc: Global) -> AllocResult<Val>
        ensures { IfOk result (λ value. value ≡ self.now) }
    {
        match self {
            Val::Control(control) => Ok(Val::Control(control.copy()?)),
            Val::Cell(cell) => Ok(Val::Cell(*cell)),
            Val::Task(task) => Ok(Val::Task(task.copy()?)),
            Val::Count(value) => Ok(Val::Count(*value)),
            Val::Number(value) => Ok(Val::Number(*value)),
            Val::Lock(holder) => Ok(Val::Lock(*holder)),
            Val::Output(bytes) => Ok(Val::Output(Seq::of(Vec::from_slice(
                alloc,
                bytes.as_slice(),
            )?))),
            Val::Events(records) => Ok(Val::Events(copy_records(alloc, records.as_slice())?)),
        }
    }
}

// Copies of event records, in their order.
fn copy_records(alloc: Global, records: &[Record]) -> AllocResult<Seq<Record>>
    ensures { IfOk result (λ copies. copies ≡ records.now) }
{
    let mut copies = Vec::with_capacity(alloc, records.len())?;
    for event in records {
        copies.push(event.copy(alloc)?)?;
    }
    Ok(Seq::of(copies))
}

/// A value that is put into so many cells, one after the other.
///
/// Contracts see the put of each cell as `run_puts`.
#[derive(Clone, Copy)]
pub struct Run {
    pub cell: Cell,
    pub count: u32,
}

/// What cells held, one after the other: so many alike, or another value.
///
/// Contracts see the put of each value as `were_listed`.
#[derive(Drop)]
pub enum Was {
    Cells(Run),
    Value(Val),
}
