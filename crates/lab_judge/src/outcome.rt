//! What the book that a session left says of its schedule.

ghost use Rattle.std.specs.Prelude.{◌≡◌, IfOk, None, option_copied};
ghost use Rattle.om_book.specs.Books.{machine_of};
ghost use Rattle.lab_judge.specs.Bad.{EndsWith, due, due_at, output_of, standard_by, wanted_by};
ghost use Rattle.lab_judge.specs.Texts.{text_in};

use crate::judge::{Badness, Wanted, output, output_at_end};
use crate::waits::{Wait, waits_at};
use om_book::Book;
use om_seq::AllocResult;
use om_undo::Machine;
use std::alloc::Global;

/// What a session came to that is bad.
#[derive(Drop)]
pub struct End {
    /// What the program printed.
    pub output: Vec<u8>,
    /// What is bad.
    pub why: Badness,
    /// The workers that wait, where it is stuck; else none. No clause says of which workers it tells.
    pub waits: Vec<Wait>,
}

/// What a session came to.
#[derive(Drop)]
pub struct Came {
    /// What is bad, if something is.
    pub end: Option<End>,
    /// What was printed, if the initial task has ended.
    pub output: Option<Vec<u8>>,
}

/// What the book that a session left says of it. Its only error is out of memory.
pub fn came_of(alloc: Global, book: Book, wanted: &Wanted) -> AllocResult<Came>
    ensures judged { IfOk result
        (λ came. EndsWith (machine_of book) (text_in wanted.now.text) came.end) }
    ensures printed { IfOk result
        (λ came. text_in came.output ≡ wanted_by None (machine_of book)) }
{
    let came = came_at(alloc, book.machine(), wanted);
    drop(book);
    came
}

// What a session came to, by where it left a machine.
fn came_at(alloc: Global, machine: &Machine, wanted: &Wanted) -> AllocResult<Came>
    ensures judged { IfOk result (λ came. EndsWith machine.now (text_in wanted.now.text) came.end) }
    ensures printed { IfOk result (λ came. text_in came.output ≡ wanted_by None machine.now) }
{
    let output = output_at_end(alloc, machine)?;
    let end = end_at(alloc, machine, wanted)?;
    Ok(Came { end, output })
}

/// What a session in which `run` makes all steps came to.
#[derive(Drop)]
pub struct Alone {
    /// What is wanted: what is expected, else what was printed, if the initial task has ended.
    pub wanted: Wanted,
    /// What is bad, if something is.
    pub end: Option<End>,
}

/// What is wanted, by the book that `run` alone left, and what is bad about that book, if something
/// is. Its only error is out of memory.
pub fn alone_of(alloc: Global, book: Book, expected: Option<&[u8]>) -> AllocResult<Alone>
    ensures wanted { IfOk result (λ alone. due alone ≡ due_at expected.entry (machine_of book)) }
    ensures standard { IfOk result
        (λ alone. alone.wanted.standard ≡ standard_by (option_copied expected.entry)) }
    ensures judged { IfOk result (λ alone. EndsWith (machine_of book) (due alone) alone.end) }
{
    let alone = alone_at(alloc, book.machine(), expected);
    drop(book);
    alone
}

// What is wanted, by where `run` alone leaves a machine, and what is bad there, if something is.
fn alone_at(alloc: Global, machine: &Machine, expected: Option<&[u8]>) -> AllocResult<Alone>
    ensures wanted { IfOk result (λ alone. due alone ≡ due_at expected.entry machine.now) }
    ensures standard { IfOk result
        (λ alone. alone.wanted.standard ≡ standard_by (option_copied expected.entry)) }
    ensures judged { IfOk result (λ alone. EndsWith machine.now (due alone) alone.end) }
{
    let wanted = Wanted::of(alloc, machine, expected)?;
    let end = end_at(alloc, machine, &wanted)?;
    Ok(Alone { wanted, end })
}

// What is bad about where a machine stands, if something is.
fn end_at(alloc: Global, machine: &Machine, wanted: &Wanted) -> AllocResult<Option<End>>
    ensures { IfOk result (λ end. EndsWith machine.now (text_in wanted.now.text) end) }
{
    let Some(why) = wanted.judge(alloc, machine)? else {
        return Ok(None);
    };
    Ok(Some(ended(alloc, machine, why)?))
}

/// The end where a machine stands, of which this is bad. Its only error is out of memory.
pub fn ended(alloc: Global, machine: &Machine, why: Badness) -> AllocResult<End>
    ensures printed { IfOk result (λ end. end.output.items ≡ output_of machine.now) }
    ensures why { IfOk result (λ end. end.why ≡ why) }
{
    let output = output(alloc, machine)?;
    let waits = match why {
        Badness::Stuck => waits_at(alloc, machine)?,
        Badness::Output | Badness::Fault { .. } => Vec::new(alloc),
    };
    Ok(End { output, why, waits })
}
