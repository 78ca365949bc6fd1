//! What an `until` stands for.

ghost use Rattle.std.specs.Prelude.{◌≡◌, ◌<◌, ◌++◌, map, IfOk, OnOk};
ghost use Rattle.om_book.specs.Books.{machine_of};
ghost use Rattle.lab_macros.specs.Untils.{cell_marks, far, global_marks, line_marks, marks_in, missed, until_by, until_said, walked, wrong_until};

use crate::asked::{line_in, variable_in, worker_in};
use crate::said::{Said, commands_said, push_times, words_said};
use crate::walk::{Miss, Walk, walk_to};
use om_book::Book;
use om_code::Program;
use om_seq::{AllocResult, Seq};
use om_shell_commands::{GlobalCell, Variable, push_numbered};
use om_shell_debugger::Marks;
use om_shell_debugger::local::cell_of;
use std::alloc::Global;

/// What an `until` with these words stands for where a book stands: `step W` so many times that the worker has come from
/// another line to line L, or has changed the variable. The book is of no use then. The only error is out of memory.
pub(crate) fn until_said(
    alloc: Global,
    book: &mut Book,
    words: &[&[u8]],
    most: u64,
) -> AllocResult<Said>
    ensures { IfOk result
        (λ said. said ≡ until_said most book.old (map (λ word. word.now) words.now)) }
{
    let [_, worker, aim] = words else {
        return wrong_until(alloc);
    };
    let workers = book.machine().workers();
    let Some(worker) = worker_in(alloc, workers, worker)? else {
        return wrong_until(alloc);
    };
    let Some(marks) = marks_in(alloc, book.machine().program(), workers, aim)? else {
        return wrong_until(alloc);
    };
    until_by(alloc, book, &marks, worker, most)
}

fn wrong_until(alloc: Global) -> AllocResult<Said>
    ensures { IfOk result (λ said. said ≡ wrong_until) }
{
    words_said(alloc, b"until: H2 bad argument")
}

// What an `until` of a worker stands for, where these marks stop it.
fn until_by(
    alloc: Global,
    book: &mut Book,
    marks: &Marks,
    worker: u8,
    most: u64,
) -> AllocResult<Said>
    requires in_range { worker < book.old.start.workers }
    ensures { IfOk result (λ said. said ≡ until_by most worker marks.now book.old) }
{
    match walk_to(alloc, book, marks, worker, most)? {
        Walk::There(steps) => walked(alloc, worker, steps),
        Walk::Missed(miss) => missed(alloc, most, miss),
    }
}

// What stops a run that is to come to a line, or to a change of a variable.
fn marks_in(alloc: Global, program: &Program, workers: u8, aim: &[u8]) -> AllocResult<Option<Marks>>
    ensures { IfOk result (λ marks. marks ≡ marks_in program.now workers aim.now) }
{
    if let Some(line) = line_in(alloc, workers, aim)? {
        return Ok(Some(line_marks(alloc, line)?));
    }
    match variable_in(alloc, workers, aim)? {
        Some(variable) => global_marks(alloc, program, &variable),
        None => Ok(None),
    }
}

fn line_marks(alloc: Global, line: u64) -> AllocResult<Marks>
    ensures { IfOk result (λ marks. marks ≡ line_marks line) }
{
    Ok(Marks {
        breaks: Seq::one(alloc, line)?,
        watches: Seq::new(alloc),
    })
}

fn global_marks(alloc: Global, program: &Program, variable: &Variable) -> AllocResult<Option<Marks>>
    ensures { IfOk result (λ marks. marks ≡ global_marks program.now variable.now) }
{
    match cell_of(program, variable) {
        Some(cell) => Ok(Some(cell_marks(alloc, cell)?)),
        None => Ok(None),
    }
}

fn cell_marks(alloc: Global, cell: GlobalCell) -> AllocResult<Marks>
    ensures { IfOk result (λ marks. marks ≡ cell_marks cell) }
{
    Ok(Marks {
        breaks: Seq::new(alloc),
        watches: Seq::one(alloc, cell)?,
    })
}

// So many steps of a worker.
fn walked(alloc: Global, worker: u8, steps: u64) -> AllocResult<Said>
    ensures { IfOk result (λ said. said ≡ walked worker steps) }
{
    let mut step = Vec::new(alloc);
    push_numbered(&mut step, b"step ", worker)?;
    step.extend_from_slice(b"\n")?;
    let mut text = Vec::new(alloc);
    push_times(&mut text, &step, steps)?;
    Ok(commands_said(alloc, text))
}

// Why there are no such steps.
fn missed(alloc: Global, most: u64, miss: Miss) -> AllocResult<Said>
    ensures { IfOk result (λ said. said ≡ missed most miss) }
{
    match miss {
        Miss::Blocked => words_said(alloc, b"until: a step before it can't be made"),
        Miss::Faulted => words_said(alloc, b"until: the worker meets a fault before it"),
        Miss::Full => words_said(alloc, b"until: full"),
        Miss::Far => far(alloc, most),
    }
}

fn far(alloc: Global, most: u64) -> AllocResult<Said>
    ensures { IfOk result (λ said. said ≡ far most) }
{
    let mut words = Vec::new(alloc);
    push_numbered(&mut words, b"until: not reached in ", most)?;
    words.extend_from_slice(b" steps")?;
    words_said(alloc, &words)
}
