//! The steps that a roll would take, taking none.

ghost use Rattle.std.specs.Prelude.{◌≡◌, ◌<◌, ◌≤◌, ◌++◌, reverse, IfOk, OnOk};
ghost use Rattle.om_book.specs.Books.{machine_of};
ghost use Rattle.om_shell_commands.specs.Lists.{joined, roll_text};
ghost use Rattle.lab_script.specs.Cones.{cone_line, cone_text, IsConeOf};
ghost use Rattle.lab_script.specs.Sessions.{IsConeIn, IsConeOver};

use crate::run::{Heard, Ran, Script, ScriptFault, Session, hear, session_in};
use om_book::Book;
use om_seq::AllocResult;
use om_shell::{Options, read_all};
use om_shell_commands::{push_numbered, push_roll};
use om_undo_history::{RollReply, Taken};
use std::alloc::Global;
use std::io::Read;
use std::sync::Wait;
use std::thread::Threads;

/// Reads a session as `script` does, and answers the steps that the command `roll SERIAL` would take at its
/// end, taking none.
///
/// Each step is a line as `history` has it, in the order of the history. Where no step of that serial stands,
/// the one line is what `roll` answers. Which commands were turned down is said besides. Faults: H3 and H5,
/// those of the debugger.
pub fn cone<H: Threads + Wait + Sync, R: Read>(
    rt: &H,
    alloc: Global,
    reader: &mut R,
    options: Options<'_>,
    serial: u64,
) -> Result<Script, ScriptFault>
    requires at_least_one_worker { 0 < options.workers }
    requires at_most_32_workers { options.workers ≤ 32 }
    ensures { IfOk result (IsConeIn (R.remaining reader.old) options.entry serial) }
{
    let input = read_all(alloc, reader)?;
    let session = session_in(options.source, &input);
    cone_of(rt, alloc, options.workers, session, serial)
}

// The cone of a step at the end of a session.
fn cone_of<H: Threads + Wait + Sync>(
    rt: &H,
    alloc: Global,
    workers: u8,
    session: Session<'_>,
    serial: u64,
) -> Result<Script, ScriptFault>
    requires at_least_one_worker { 0 < workers }
    requires at_most_32_workers { workers ≤ 32 }
    ensures { IfOk result (IsConeOver workers session.entry.bytes serial) }
{
    let Heard { ran, turned_down } = hear(rt, alloc, workers, session)?;
    let Ran { text, book } = ran;
    match book {
        Some(book) => {
            let lines = cone_in(alloc, book, serial)?;
            Ok(Script::Steps { lines, turned_down })
        }
        None => Ok(Script::Refused(text)),
    }
}

// The lines of the cone of a step of a book.
fn cone_in(alloc: Global, book: Book, serial: u64) -> AllocResult<Vec<u8>>
    ensures { IfOk result (λ text. IsConeOf (machine_of book) serial text.items) }
{
    let taken = book.machine().cone(alloc, serial)?;
    match taken {
        Some(taken) => taken_text(alloc, &taken),
        None => gone_text(alloc, serial),
    }
}

// The lines of steps that a roll would take.
fn taken_text(alloc: Global, taken: &[Taken]) -> AllocResult<Vec<u8>>
    ensures { IfOk result (λ text. text.items ≡ cone_text taken.now) }
{
    let steps = in_order(alloc, taken)?;
    let mut text = Vec::new(alloc);
    push_lines(&mut text, &steps)?;
    Ok(text)
}

// The line for a serial that no step has.
fn gone_text(alloc: Global, serial: u64) -> AllocResult<Vec<u8>>
    ensures { IfOk result (λ text. text.items ≡ roll_text serial RollReply.NoEntry) }
{
    let mut text = Vec::new(alloc);
    push_roll(&mut text, serial, &RollReply::NoEntry)?;
    Ok(text)
}

// Steps in the order of the history, where the latest came first.
fn in_order(alloc: Global, taken: &[Taken]) -> AllocResult<Vec<Taken>>
    ensures { IfOk result (λ steps. steps.items ≡ reverse taken.now) }
{
    taken.iter().rev().copied().collect(alloc)
}

// Appends a line for each of some steps.
fn push_lines(text: &mut Vec<u8>, steps: &[Taken]) -> AllocResult<()>
    ensures { OnOk result (text.new.items ≡ text.old.items ++ joined cone_line steps.now) }
{
    for step in steps {
        push_line(text, step)?;
    }
    Ok(())
}

// Appends a step as `history` has it.
fn push_line(text: &mut Vec<u8>, step: &Taken) -> AllocResult<()>
    ensures { OnOk result (text.new.items ≡ text.old.items ++ cone_line step.now) }
{
    push_numbered(text, b"#", step.serial)?;
    push_numbered(text, b" worker ", step.worker)?;
    push_numbered(text, b" line ", step.line)?;
    text.extend_from_slice(b"\n")
}
