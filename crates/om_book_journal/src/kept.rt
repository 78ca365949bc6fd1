//! Commands and replies as a journal keeps them: what is large and rare lies apart, so that records are small.

ghost use Rattle.std.specs.Prelude.{◌≡◌, IfOk, OnErr, true};
ghost use Rattle.om_book_journal.specs.Kept.{command_in, object_in, undo_reply_in, undone_in, is_conflict};

use crate::command::{Command, Query};
use crate::same::Same;
use om_foot::{Name, Obj};
use om_seq::AllocResult;
use om_task::Choice;
use om_undo::UndoReply;
use std::alloc::Global;
use std::marker::Model;

// The parts of an object. What has a name in it is large, and lies apart.
#[derive(Drop)]
enum ObjectParts {
    Control(u8),
    Global { variable: u32, index: u32 },
    Lock(u32),
    Output,
    Events(u8),
    Named(Box<Obj>),
}

// The parts of an object, to be kept. Its only error is out of memory.
fn object_parts_of(alloc: Global, object: &Obj) -> AllocResult<ObjectParts>
    ensures { IfOk result (λ parts. object_in parts ≡ object.now) }
{
    match object {
        Obj::Control(worker) => Ok(ObjectParts::Control(*worker)),
        Obj::Global { variable, index } => Ok(ObjectParts::Global {
            variable: *variable,
            index: *index,
        }),
        Obj::Lock(number) => Ok(ObjectParts::Lock(*number)),
        Obj::Output => Ok(ObjectParts::Output),
        Obj::Events(worker) => Ok(ObjectParts::Events(*worker)),
        named => Ok(ObjectParts::Named(Box::new(alloc, *named)?)),
    }
}

impl ObjectParts {
    // The object.
    fn get(&self) -> Obj
        ensures { result ≡ object_in self.now }
    {
        match self {
            ObjectParts::Control(worker) => Obj::Control(*worker),
            ObjectParts::Global { variable, index } => Obj::Global {
                variable: *variable,
                index: *index,
            },
            ObjectParts::Lock(number) => Obj::Lock(*number),
            ObjectParts::Output => Obj::Output,
            ObjectParts::Events(worker) => Obj::Events(*worker),
            ObjectParts::Named(object) => **object,
        }
    }
}

// The parts of a command. Few start a task, so the names of tasks lie apart.
#[derive(Drop)]
enum CommandParts {
    Next(u8),
    Start { worker: u8, task: Box<Name> },
    Undo(u8),
    Roll(u64),
    Value(ObjectParts),
    Ready,
    FirstReady,
    Entries,
}

/// A command that is kept. It is small for a command of every kind.
///
/// Contracts see the command alone.
pub struct KeptCommand {
    parts: CommandParts,
}

// By hand: other crates call this, and do not prove anew how each part is dropped.
impl Drop for KeptCommand {
    fn drop(self) {
        let KeptCommand { parts } = self;
        drop(parts);
    }
}

impl Model for KeptCommand {
    ghost use Rattle.om_book_journal.specs.declared.command.Command.{Command};
    ghost use Rattle.om_book_journal.specs.Kept.{command_in};

    ghost Value = { Command };

    ghost view = { λ k. command_in k.parts };
}

// The parts of a step, to be kept. Its only error is out of memory.
fn step_parts_of(alloc: Global, worker: u8, choice: &Choice) -> AllocResult<CommandParts>
    ensures { IfOk result (λ parts. command_in parts ≡ Command.Step worker choice.now) }
{
    match choice {
        Choice::Next => Ok(CommandParts::Next(worker)),
        Choice::Start(task) => Ok(CommandParts::Start {
            worker,
            task: Box::new(alloc, *task)?,
        }),
    }
}

// The parts of a command, to be kept. Its only error is out of memory.
fn parts_of(alloc: Global, command: &Command) -> AllocResult<CommandParts>
    ensures { IfOk result (λ parts. command_in parts ≡ command.now) }
{
    match command {
        Command::Step { worker, choice } => step_parts_of(alloc, *worker, choice),
        Command::Undo(worker) => Ok(CommandParts::Undo(*worker)),
        Command::Roll(serial) => Ok(CommandParts::Roll(*serial)),
        Command::Look(Query::Value(object)) => {
            Ok(CommandParts::Value(object_parts_of(alloc, object)?))
        }
        Command::Look(Query::Ready) => Ok(CommandParts::Ready),
        Command::Look(Query::FirstReady) => Ok(CommandParts::FirstReady),
        Command::Look(Query::Entries) => Ok(CommandParts::Entries),
    }
}

impl KeptCommand {
    /// A command, to be kept; its only error is out of memory.
    pub fn of(alloc: Global, command: &Command) -> AllocResult<KeptCommand>
        ensures { IfOk result (λ kept. kept ≡ command.now) }
    {
        Ok(KeptCommand {
            parts: parts_of(alloc, command)?,
        })
    }

    /// The step of a worker by its choice, to be kept; its only error is out of memory.
    pub fn of_step(alloc: Global, worker: u8, choice: &Choice) -> AllocResult<KeptCommand>
        ensures { IfOk result (λ kept. kept ≡ Command.Step worker choice.now) }
    {
        Ok(KeptCommand {
            parts: step_parts_of(alloc, worker, choice)?,
        })
    }

    /// The command.
    pub fn get(&self) -> Command
        ensures { result ≡ self.now }
    {
        match &self.parts {
            CommandParts::Next(worker) => Command::Step {
                worker: *worker,
                choice: Choice::Next,
            },
            CommandParts::Start { worker, task } => Command::Step {
                worker: *worker,
                choice: Choice::Start(**task),
            },
            CommandParts::Undo(worker) => Command::Undo(*worker),
            CommandParts::Roll(serial) => Command::Roll(*serial),
            CommandParts::Value(object) => Command::Look(Query::Value(object.get())),
            CommandParts::Ready => Command::Look(Query::Ready),
            CommandParts::FirstReady => Command::Look(Query::FirstReady),
            CommandParts::Entries => Command::Look(Query::Entries),
        }
    }
}

/// A step that an undo took out.
#[derive(Clone, Copy)]
pub struct UndoneStep {
    /// Its serial, from 1.
    pub serial: u64,
    /// The line in the source of its instruction, from 1.
    pub line: u32,
}

// The conflict that refuses an undo.
#[derive(Drop)]
struct ConflictParts {
    serial: u64,
    worker: u8,
    object: ObjectParts,
}

// The parts of what an undo is answered. Small numbers stand first, and a conflict lies apart: so they take
// 16 bytes.
#[derive(Drop)]
enum UndoParts {
    Undone { line: u32, serial: u64 },
    Conflict(Box<ConflictParts>),
    Nothing,
}

/// What an undo is answered, to be kept. It is small also where the undo is refused.
///
/// Contracts see the reply alone.
#[derive(Drop)]
pub struct KeptUndoReply {
    parts: UndoParts,
}

impl Model for KeptUndoReply {
    ghost use Rattle.om_undo_history.specs.declared.reply.UndoReply.{UndoReply};
    ghost use Rattle.om_book_journal.specs.Kept.{undo_reply_in};

    ghost Value = { UndoReply };

    ghost view = { λ k. undo_reply_in k.parts };
}

// The parts of an undo's reply, to be kept.
fn undo_parts_of(alloc: Global, reply: &UndoReply) -> AllocResult<UndoParts>
    ensures parts { IfOk result (λ parts. undo_reply_in parts ≡ reply.now) }
    ensures only_conflicts { OnErr result (is_conflict reply.now ≡ true) }
{
    match reply {
        UndoReply::Undone { serial, line } => Ok(UndoParts::Undone {
            line: *line,
            serial: *serial,
        }),
        UndoReply::Conflict {
            serial,
            worker,
            object,
        } => {
            let conflict = ConflictParts {
                serial: *serial,
                worker: *worker,
                object: object_parts_of(alloc, object)?,
            };
            Ok(UndoParts::Conflict(Box::new(alloc, conflict)?))
        }
        UndoReply::Nothing => Ok(UndoParts::Nothing),
    }
}

impl KeptUndoReply {
    /// What an undo was answered, to be kept. Its only error is out of memory, at an undo that was refused.
    pub fn of(alloc: Global, reply: &UndoReply) -> AllocResult<KeptUndoReply>
        ensures kept { IfOk result (λ kept. kept ≡ reply.now) }
        ensures only_conflicts { OnErr result (is_conflict reply.now ≡ true) }
    {
        match undo_parts_of(alloc, reply) {
            Ok(parts) => Ok(KeptUndoReply { parts }),
            Err(error) => Err(error),
        }
    }

    /// The step that was taken out, where one was. It is read where the reply lies, which is large where
    /// it is made anew.
    pub fn undone(&self) -> Option<UndoneStep>
        ensures { result ≡ undone_in self.now }
    {
        if let UndoParts::Undone { line, serial } = &self.parts {
            return Some(UndoneStep {
                serial: *serial,
                line: *line,
            });
        }
        None
    }

    /// The reply.
    pub fn get(&self) -> UndoReply
        ensures { result ≡ self.now }
    {
        match &self.parts {
            UndoParts::Undone { line, serial } => UndoReply::Undone {
                serial: *serial,
                line: *line,
            },
            UndoParts::Conflict(conflict) => UndoReply::Conflict {
                serial: conflict.serial,
                worker: conflict.worker,
                object: conflict.object.get(),
            },
            UndoParts::Nothing => UndoReply::Nothing,
        }
    }
}

impl Same for KeptUndoReply {
    fn is_same(&self, other: &KeptUndoReply) -> bool {
        self.get().is_same(&other.get())
    }
}
