//! Commands, the name of a task in one, and why a line is none.

ghost use Rattle.std.specs.Prelude.{◌≡◌, IfOk};

use om_foot::Name;
use om_seq::{AllocResult, Seq};
use std::alloc::Global;
use std::marker::Model;

/// The name of a task. Names are large and few commands have one, so it lies in a box.
///
/// Contracts see the name alone.
#[derive(Drop)]
pub struct TaskName {
    name: Box<Name>,
}

impl Model for TaskName {
    ghost use Rattle.std.specs.Prelude.{ℕ, List};

    ghost Value = { List ℕ };

    ghost view = { λ task. task.name.value };
}

impl TaskName {
    /// This name in a box. Its only error is out of memory.
    pub fn new(alloc: Global, name: Name) -> AllocResult<TaskName>
        ensures { IfOk result (λ task. task ≡ name) }
    {
        Ok(TaskName {
            name: Box::new(alloc, name)?,
        })
    }

    /// The name.
    pub fn name(&self) -> Name
        ensures { result ≡ self.now }
    {
        *self.name
    }
}

/// A variable as a command writes it: `x`, or `a[3]`.
#[derive(Drop)]
pub struct Variable {
    /// The bytes before a `[`, or all of them.
    pub name: Seq<u8>,
    pub index: Option<u64>,
}

/// A command, with its arguments. A worker is one of those that there are.
#[derive(Drop)]
pub enum Command {
    /// `step W`: worker W takes its next step.
    Step(u8),
    /// `start W NAME`: worker W begins the ready task of this name.
    Start { worker: u8, task: TaskName },
    /// `undo W`: the last step of worker W is taken back.
    Undo(u8),
    /// `next W`: worker W steps until its line changes.
    Next(u8),
    /// `back W`: steps of worker W are taken back until its line changes.
    Back(u8),
    /// `print VAR`: the value of a global variable.
    Print(Variable),
    /// `print W VAR`: the value of the variable that worker W sees by this name.
    PrintLocal { worker: u8, variable: Variable },
    /// `where W`: what worker W is doing, and where.
    Where(u8),
    /// `history`: the steps that stand.
    History,
    /// `events W`: the event records of worker W.
    Events(u8),
    /// `output`: what the program printed.
    Output,
    /// `tasks`: the tasks that are ready.
    Tasks,
    /// `break L`: `run` stops where a worker comes to line L.
    Break(u64),
    /// `watch VAR`: `run` stops where the value of a global variable changes.
    Watch(Variable),
    /// `delete L`: `break L` is taken back.
    Delete(u64),
    /// `run K`: at most K steps are taken, 1 to 100,000.
    Run(u32),
    /// `free K`: each worker makes K rounds in a thread of its own.
    Free(u64),
    /// `roll S`: step S is taken back, with all that depends on it.
    Roll(u64),
    /// `quit`: the session is over.
    Quit,
}

/// Why a line is no command. The session goes on.
#[derive(Clone, Copy)]
pub enum CommandFault {
    /// H1: the first word names no command.
    UnknownCommand,
    /// H2: an argument is missing, wrong or one too many, or the line has more than 1,024 bytes.
    BadArgument,
}

/// What a line asks for.
#[derive(Drop)]
pub enum Request {
    /// The line has no word.
    Nothing,
    Command(Command),
    Fault(CommandFault),
}
