//! The steps that a session leaves, as commands.

ghost use Rattle.std.specs.Prelude.{◌≡◌, ◌<◌, ◌≤◌, map, true, IfOk};
ghost use Rattle.lab_text.specs.Commands.{script_text};
ghost use Rattle.lab_script.specs.Steps.{bare, unnumbered};
ghost use Rattle.lab_script.specs.Runs.{entries_in};
ghost use Rattle.lab_script.specs.Sessions.{IsScriptIn, IsScriptOver, LeadBack};

use crate::run::{Heard, Ran, Script, ScriptFault, Session, hear, run_over, session_in};
use lab_text::commands_for;
use om_book::Book;
use om_book_journal::same_items;
use om_seq::AllocResult;
use om_shell::{Options, ShellFault, read_all};
use om_undo::Entry;
use std::alloc::Global;
use std::io::Read;
use std::sync::Wait;
use std::thread::Threads;

/// Reads a session, a source and then commands as the debugger reads them, and answers the steps that stand
/// at its end as lines of commands: `step W`, and `start W NAME`.
///
/// The source stands at the front of the input unless it is handed in. All of the input is read, also what
/// stands after `quit`. The commands are run over the same source, so that they are known to lead to the
/// same history but for serials. Which commands of the session were turned down is said besides. Faults:
/// those of the debugger, H3 and H5, and `Differs` where that is not so.
pub fn script<H: Threads + Wait + Sync, R: Read>(
    rt: &H,
    alloc: Global,
    reader: &mut R,
    options: Options<'_>,
) -> Result<Script, ScriptFault>
    requires at_least_one_worker { 0 < options.workers }
    requires at_most_32_workers { options.workers ≤ 32 }
    ensures { IfOk result (IsScriptIn (R.remaining reader.old) options.entry) }
{
    let input = read_all(alloc, reader)?;
    let session = session_in(options.source, &input);
    script_of(rt, alloc, options.workers, session)
}

// Entries, and the commands that make their steps.
#[derive(Drop)]
struct Steps {
    entries: Vec<Entry>,
    text: Vec<u8>,
}

// The script of a session.
fn script_of<H: Threads + Wait + Sync>(
    rt: &H,
    alloc: Global,
    workers: u8,
    session: Session<'_>,
) -> Result<Script, ScriptFault>
    requires at_least_one_worker { 0 < workers }
    requires at_most_32_workers { workers ≤ 32 }
    ensures { IfOk result (IsScriptOver workers session.entry.bytes) }
{
    let Heard { ran, turned_down } = hear(rt, alloc, workers, session)?;
    let Ran { text, book } = ran;
    match book {
        Some(book) => {
            let steps = steps_of(alloc, book)?;
            if !leads_to(rt, alloc, workers, session.bytes.source, &steps)? {
                return Err(ScriptFault::Differs);
            }
            let lines = steps.text;
            Ok(Script::Steps { lines, turned_down })
        }
        None => Ok(Script::Refused(text)),
    }
}

// The steps that stand in a book.
fn steps_of(alloc: Global, book: Book) -> AllocResult<Steps>
    ensures entries { IfOk result (λ steps. steps.entries.items ≡ entries_in book) }
    ensures text { IfOk result (λ steps. steps.text.items ≡ script_text (entries_in book)) }
{
    let entries = entries_of(alloc, book)?;
    let text = commands_for(alloc, &entries)?;
    Ok(Steps { entries, text })
}

// The entries that stand in a book.
fn entries_of(alloc: Global, book: Book) -> AllocResult<Vec<Entry>>
    ensures { IfOk result (λ entries. entries.items ≡ entries_in book) }
{
    book.machine().history(alloc)
}

// Whether commands lead to the same history but for serials.
fn leads_to<H: Threads + Wait + Sync>(
    rt: &H,
    alloc: Global,
    workers: u8,
    source: &[u8],
    steps: &Steps,
) -> Result<bool, ShellFault>
    requires at_least_one_worker { 0 < workers }
    requires at_most_32_workers { workers ≤ 32 }
    ensures { IfOk result (λ leads. leads ≡ true → LeadBack workers source.now steps.now) }
{
    let Ran { text: _, book } = run_over(rt, alloc, workers, source, &steps.text)?;
    match book {
        Some(book) => {
            let others = entries_of(alloc, book)?;
            are_same(alloc, &steps.entries, &others)
        }
        None => Ok(false),
    }
}

// Whether entries are the same but for their serials.
fn are_same(alloc: Global, ones: &[Entry], others: &[Entry]) -> Result<bool, ShellFault>
    ensures { IfOk result (λ same. same ≡ true → bare others.now ≡ bare ones.now) }
{
    let ones = unnumbered(alloc, ones)?;
    let others = unnumbered(alloc, others)?;
    Ok(same_items(&others, &ones))
}

// Entries without their serials.
fn unnumbered(alloc: Global, entries: &[Entry]) -> AllocResult<Vec<Entry>>
    ensures { IfOk result (λ bare. bare.items ≡ map unnumbered entries.now) }
{
    entries
        .iter()
        .map(|entry| Entry {
            serial: 0,
            worker: entry.worker,
            choice: entry.choice,
            line: entry.line,
        })
        .collect(alloc)
}
