//! A machine of two workers, and a book over one.

ghost use Rattle.std.specs.Prelude.{◌≡◌, ◌<◌, ◌≤◌, IfOk};
ghost use Rattle.om_book_journal.specs.Runs.{IsInRange};

use om_book::{Book, CallError, Command, Reply};
use om_foot::Obj;
use om_frontend::program_of;
use om_seq::AllocResult;
use om_state::Val;
use om_task::Choice;
use om_undo::{Machine, StepReply, UndoReply};
use std::alloc::{AllocError, Global};

// How many steps are asked for at most.
const MOST_STEPS: u64 = 1_000_000;

/// A machine of two workers that take their next instructions.
#[derive(Drop)]
pub(crate) struct MachineOfTwo {
    machine: Machine,
    // How many steps were asked for.
    asked: u64,
    ghost two: { machine.workers ≡ 2 },
    ghost few: { machine.history.made ≤ asked },
}

impl MachineOfTwo {
    /// The machine at the start of a source; `None` where it is refused, or there is no memory.
    pub(crate) fn of(alloc: Global, source: &str) -> Option<MachineOfTwo> {
        let program = program_of(alloc, source.as_bytes()).ok()?;
        let machine = Machine::new(alloc, program, 2).ok()?;
        Some(MachineOfTwo { machine, asked: 0 })
    }

    /// The step of a worker.
    pub(crate) fn step(&mut self, alloc: Global, worker: u8) -> AllocResult<StepReply>
        requires { worker < 2 }
    {
        if self.asked >= MOST_STEPS {
            return Err(AllocError);
        }
        self.asked += 1;
        self.machine.step(alloc, worker, Choice::Next)
    }

    /// Whether each of so many steps of a worker is made.
    pub(crate) fn makes(&mut self, alloc: Global, worker: u8, count: u32) -> AllocResult<bool>
        requires { worker < 2 }
    {
        for _ in 0..count {
            if !matches!(self.step(alloc, worker)?, StepReply::Done { .. }) {
                return Ok(false);
            }
        }
        Ok(true)
    }

    /// The undo of a worker's last step.
    pub(crate) fn undo(&mut self, worker: u8) -> UndoReply
        requires { worker < 2 }
    {
        self.machine.undo(worker)
    }

    /// What an object holds.
    pub(crate) fn look(&self, alloc: Global, object: &Obj) -> AllocResult<Val> {
        self.machine.look(alloc, object)
    }
}

/// A book over a machine of two workers.
#[derive(Drop)]
pub(crate) struct BookOfTwo {
    pub(crate) book: Book,
    pub(crate) ghost two: { book.start.workers ≡ 2 },
}

/// How long a book is.
#[derive(Clone, Copy)]
pub(crate) struct Lengths {
    /// Of its journal.
    pub(crate) records: usize,
    /// Of the history of its machine.
    pub(crate) entries: usize,
}

impl BookOfTwo {
    /// The book at the start of a source; `None` where it is refused, or there is no memory.
    pub(crate) fn of(alloc: Global, source: &str) -> Option<BookOfTwo> {
        let program = program_of(alloc, source.as_bytes()).ok()?;
        let book = Book::new(alloc, program, 2).ok()?;
        Some(BookOfTwo { book })
    }

    /// Does what the first seat's command asks.
    pub(crate) fn apply(&mut self, alloc: Global, command: Command) -> Result<Reply, CallError>
        requires { IsInRange 2 command }
    {
        self.book.apply(alloc, 0, command)
    }

    /// How many calls its journal has, and how many entries its machine's history.
    pub(crate) fn lengths(&self, alloc: Global) -> AllocResult<Lengths> {
        let entries = self.book.machine().history(alloc)?;
        Ok(Lengths {
            records: self.book.journal().len(),
            entries: entries.len(),
        })
    }
}
