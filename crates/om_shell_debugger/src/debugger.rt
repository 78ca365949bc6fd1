//! A debugger: a line of commands comes in, and a text goes out.

ghost use Rattle.std.specs.Prelude.{◌≡◌, ◌≤◌, ◌++◌, ℕ, List, None, IfOk, OnOk};
ghost use Rattle.om_shell_commands.specs.Commands.{AsksWorkerBelow, HasWorkerBelow};
ghost use Rattle.om_shell_commands.specs.declared.command.Request.TheVariants as request;
ghost use Rattle.om_shell_debugger.specs.Views.{opened, is_quit, rounds_asked, AnswersRequest, IsAnswered, Obeys, PrintsFor};
ghost use Rattle.om_shell_commands.specs.declared.command.Command.TheVariants.{Break, Delete, Print, Watch};

use crate::local::{Seen, cell_of, worker_sees};
use crate::looks::{events, history, output, place, print, print_local, tasks};
use crate::marks::Marks;
use crate::moves::{back, next, roll, start, step, undo};
use crate::runs::{free, run};
use om_book::Book;
use om_code::Program;
use om_seq::{AllocResult, Seq};
use om_shell_commands::{
    Command, CommandFault, Request, Variable, push_break, push_command_fault, push_deleted,
    push_watch, request_of,
};
use std::alloc::Global;
use std::sync::Wait;
use std::thread::Threads;

/// A book, which each command is applied to, and where its runs stop.
pub struct Debugger {
    book: Book,
    marks: Marks,
}

// By hand: other crates call this, and do not prove anew how each part is dropped.
impl Drop for Debugger {
    fn drop(self) {
        let Debugger { book, marks } = self;
        drop(book);
        drop(marks);
    }
}

impl Debugger {
    /// A debugger at the start of a program, with 1 to 32 workers. Its only error is out of memory.
    pub fn new(alloc: Global, program: Program, workers: u8) -> AllocResult<Debugger>
        requires at_least_one { 1 ≤ workers }
        requires at_most_32 { workers ≤ 32 }
        ensures { IfOk result (λ debugger. debugger ≡ opened program workers) }
    {
        let book = Book::new(alloc, program, workers)?;
        Ok(Debugger {
            book,
            marks: Marks {
                breaks: Seq::new(alloc),
                watches: Seq::new(alloc),
            },
        })
    }

    /// Its book.
    pub fn into_book(self) -> Book
        ensures { result ≡ self.book }
    {
        let Debugger { book, marks } = self;
        drop(marks);
        book
    }

    /// Appends the answer to a line, and says whether the session is over. A free run starts a
    /// thread for each worker, and ends when all have made their rounds.
    ///
    /// Out of memory is its only error; the debugger is of no use then.
    pub fn answer<R: Threads + Wait + Sync>(
        &mut self,
        rt: &R,
        alloc: Global,
        line: &[u8],
        text: &mut Vec<u8>,
    ) -> AllocResult<bool>
        ensures { IfOk result (λ quits. (said : List ℕ) × (text.new.items ≡ text.old.items ++ said)
            × IsAnswered self.old line.now said self.new quits) }
    {
        let request = request_of(alloc, self.book.machine().workers(), line)?;
        match rounds_asked(&request) {
            Some(rounds) => {
                free(rt, alloc, &mut self.book, rounds, text)?;
                Ok(false)
            }
            None => {
                self.answer_to(alloc, &request, text)?;
                Ok(is_quit(&request))
            }
        }
    }

    // Appends the answer to what is asked.
    fn answer_to(&mut self, alloc: Global, request: &Request, text: &mut Vec<u8>) -> AllocResult<()>
        requires in_range { AsksWorkerBelow self.old.book.start.workers request.now }
        requires no_free_run { rounds_asked request.now ≡ None }
        ensures { OnOk result (AnswersRequest self.old request.now text.old text.new self.new) }
    {
        match request {
            Request::Nothing => Ok(()),
            Request::Command(command) => self.obey(alloc, command, text),
            Request::Fault(fault) => push_command_fault(text, *fault),
        }
    }

    // Carries a command out, and appends its answer. The two that come most are taken here, so that they do
    // without the frame of all.
    fn obey(&mut self, alloc: Global, command: &Command, text: &mut Vec<u8>) -> AllocResult<()>
        requires in_range { HasWorkerBelow self.old.book.start.workers command.now }
        requires no_free_run { rounds_asked (request.Command command.now) ≡ None }
        ensures { OnOk result (Obeys self.old command.now text.old text.new self.new) }
    {
        match command {
            Command::Step(worker) => step(alloc, &mut self.book, *worker, text),
            Command::Undo(worker) => undo(alloc, &mut self.book, *worker, text),
            _ => self.obey_any(alloc, command, text),
        }
    }

    // Carries any command out, and appends its answer.
    fn obey_any(&mut self, alloc: Global, command: &Command, text: &mut Vec<u8>) -> AllocResult<()>
        requires in_range { HasWorkerBelow self.old.book.start.workers command.now }
        requires no_free_run { rounds_asked (request.Command command.now) ≡ None }
        ensures { OnOk result (Obeys self.old command.now text.old text.new self.new) }
    {
        let book = &mut self.book;
        match command {
            Command::Step(worker) => step(alloc, book, *worker, text),
            Command::Start { worker, task } => start(alloc, book, *worker, task, text),
            Command::Undo(worker) => undo(alloc, book, *worker, text),
            Command::Next(worker) => next(alloc, book, *worker, text),
            Command::Back(worker) => back(alloc, book, *worker, text),
            Command::Print(variable) => self.print(alloc, variable, text),
            Command::PrintLocal { worker, variable } => {
                self.print_local(alloc, *worker, variable, text)
            }
            Command::Where(worker) => place(alloc, book, *worker, text),
            Command::History => history(alloc, book, text),
            Command::Events(worker) => events(alloc, book, *worker, text),
            Command::Output => output(alloc, book, text),
            Command::Tasks => tasks(alloc, book, text),
            Command::Break(line) => self.set_break(*line, text),
            Command::Watch(variable) => self.set_watch(variable, text),
            Command::Delete(line) => self.delete(alloc, *line, text),
            Command::Run(steps) => run(alloc, book, &self.marks, *steps, text),
            Command::Free(_) => unreachable!(),
            Command::Roll(serial) => roll(alloc, book, *serial, text),
            Command::Quit => Ok(()),
        }
    }

    // Answers `print VAR`.
    fn print(&mut self, alloc: Global, variable: &Variable, text: &mut Vec<u8>) -> AllocResult<()>
        ensures { OnOk result (Obeys self.old (Print variable.now) text.old text.new self.new) }
    {
        match cell_of(self.book.machine().program(), variable) {
            Some(cell) => print(alloc, &mut self.book, cell, text),
            None => push_command_fault(text, CommandFault::BadArgument),
        }
    }

    // Answers `print W VAR`.
    fn print_local(
        &mut self,
        alloc: Global,
        worker: u8,
        variable: &Variable,
        text: &mut Vec<u8>,
    ) -> AllocResult<()>
        ensures { OnOk result (PrintsFor self.old worker variable.now text.old text.new self.new) }
    {
        let machine = self.book.machine();
        let seen = worker_sees(machine, worker, variable);
        match seen {
            Seen::Global(cell) => print(alloc, &mut self.book, cell, text),
            Seen::Cell(cell) => print_local(alloc, &mut self.book, variable, &cell, text),
            Seen::Nothing => push_command_fault(text, CommandFault::BadArgument),
        }
    }

    // Answers `break L`.
    fn set_break(&mut self, line: u64, text: &mut Vec<u8>) -> AllocResult<()>
        ensures { OnOk result (Obeys self.old (Break line) text.old text.new self.new) }
    {
        self.marks.set_break(line)?;
        push_break(text, line)
    }

    // Answers `watch VAR`.
    fn set_watch(&mut self, variable: &Variable, text: &mut Vec<u8>) -> AllocResult<()>
        ensures { OnOk result (Obeys self.old (Watch variable.now) text.old text.new self.new) }
    {
        match cell_of(self.book.machine().program(), variable) {
            Some(cell) => {
                self.marks.set_watch(cell)?;
                push_watch(text, self.book.machine().program(), cell)
            }
            None => push_command_fault(text, CommandFault::BadArgument),
        }
    }

    // Answers `delete L`.
    fn delete(&mut self, alloc: Global, line: u64, text: &mut Vec<u8>) -> AllocResult<()>
        ensures { OnOk result (Obeys self.old (Delete line) text.old text.new self.new) }
    {
        let was_set = self.marks.delete(alloc, line)?;
        push_deleted(text, line, was_set)
    }
}

// Whether a request ends the session.
fn is_quit(request: &Request) -> bool
    ensures { result ≡ is_quit request.now }
{
    matches!(request, Request::Command(Command::Quit))
}

// How many rounds a free run is asked for, where one is.
fn rounds_asked(request: &Request) -> Option<u64>
    ensures { result ≡ rounds_asked request.now }
{
    let Request::Command(command) = request else {
        return None;
    };
    free_rounds(command)
}

fn free_rounds(command: &Command) -> Option<u64>
    ensures { result ≡ rounds_asked (request.Command command.now) }
{
    if let Command::Free(rounds) = command {
        return Some(*rounds);
    }
    None
}
