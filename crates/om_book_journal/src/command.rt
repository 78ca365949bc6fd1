//! What a seat asks of the machine.

ghost use Rattle.std.specs.Prelude.{◌≡◌, ◌↔◌, IsTrue};
ghost use Rattle.om_book_journal.specs.Runs.{IsInRange, asks_for_list};

use crate::same::Same;
use om_foot::Obj;
use om_task::Choice;

/// What is asked about the state where the machine stands.
#[derive(Clone, Copy, PartialEq, Eq)]
pub enum Query {
    /// What an object holds.
    Value(Obj),
    /// The names of the tasks that are ready to be begun, ascending.
    Ready,
    /// The name of the first of these tasks, where there is one.
    FirstReady,
    /// The entries that stand in the history, in their order.
    Entries,
}

/// One call. Workers are numbered from 0.
#[derive(Clone, Copy, PartialEq, Eq)]
pub enum Command {
    /// The step of a worker by its choice.
    Step { worker: u8, choice: Choice },
    /// The undo of a worker's last step.
    Undo(u8),
    /// The roll of the entry with this serial.
    Roll(u64),
    /// A question, which changes nothing.
    Look(Query),
}

impl Command {
    /// Whether the worker that it names, if it names one, is below so many.
    pub fn is_in_range(&self, workers: u8) -> bool
        ensures { IsTrue result ↔ IsInRange workers self.now }
    {
        match self {
            Command::Step { worker, choice: _ } => *worker < workers,
            Command::Undo(worker) => *worker < workers,
            Command::Roll(_) => true,
            Command::Look(_) => true,
        }
    }

    /// Whether it asks for a list: which tasks are ready, or which entries stand.
    pub fn asks_for_list(&self) -> bool
        ensures { result ≡ asks_for_list self.now }
    {
        match self {
            Command::Step { .. } => false,
            Command::Undo(_) => false,
            Command::Roll(_) => false,
            Command::Look(Query::Value(_)) => false,
            Command::Look(Query::Ready) => true,
            Command::Look(Query::FirstReady) => false,
            Command::Look(Query::Entries) => true,
        }
    }
}

impl Same for Command {
    fn is_same(&self, other: &Command) -> bool {
        self == other
    }
}
