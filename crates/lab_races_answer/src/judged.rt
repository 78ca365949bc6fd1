//! The races of the history that a session leaves.

ghost use Rattle.std.specs.Prelude.{◌≡◌, ◌<◌, ◌≤◌, IfOk};
ghost use Rattle.om_book.specs.Books.{machine_of};
ghost use Rattle.lab_races_answer.specs.Judgements.{IsJudged, IsJudgedBy, Judges, has_any};

use lab_draw::{Heard, hear};
use lab_races::Race;
use lab_races_history::races_of;
use lab_races_words::{History, report};
use lab_replay::trace;
use om_book::Book;
use om_seq::AllocResult;
use om_shell::{Options, ShellFault, read_all};
use std::alloc::Global;
use std::io::Read;
use std::sync::Wait;
use std::thread::Threads;

/// What comes of a session whose history is judged.
#[derive(Drop)]
pub enum Judged {
    /// The session was run.
    Told {
        /// The report: how many races there are, and each with both lines.
        report: Vec<u8>,
        /// Whether there is a race.
        has_races: bool,
        /// A line for each command of the session that was turned down, as `turned_down` of lab_text writes it.
        turned_down: Vec<u8>,
    },
    /// The source was refused.
    Refused,
}

/// The races of the history that a session leaves, in words.
///
/// The reader is read to its end. It holds commands, behind a source and a line `%%` unless the options have the source.
/// The session runs, and its replies are not shown. Errors are `Read` (H3), where a read fails, and `Memory` (H5).
pub fn judge<H: Threads + Wait + Sync, R: Read>(
    rt: &H,
    alloc: Global,
    reader: &mut R,
    options: Options<'_>,
) -> Result<Judged, ShellFault>
    requires at_least_one { 0 < options.workers }
    requires at_most_32 { options.workers ≤ 32 }
    ensures { IfOk result (Judges (R.remaining reader.old) (R.remaining reader.new) options.entry) }
{
    let input = read_all(alloc, reader)?;
    match hear(rt, alloc, &input, options) {
        Ok(heard) => verdict_on(alloc, heard),
        Err(fault) => Err(fault),
    }
}

// What is told of a session of which this was heard.
fn verdict_on(alloc: Global, heard: Heard) -> Result<Judged, ShellFault>
    ensures { IfOk result (IsJudged heard.book) }
{
    let Heard {
        text: _,
        book,
        turned_down,
    } = heard;
    match book {
        Some(book) => match told(alloc, &book, turned_down) {
            Ok(judged) => Ok(judged),
            Err(error) => Err(ShellFault::from(error)),
        },
        None => Ok(Judged::Refused),
    }
}

// The races of a book's history, in words. The only error is out of memory.
fn told(alloc: Global, book: &Book, turned_down: Vec<u8>) -> AllocResult<Judged>
    ensures { IfOk result (IsJudgedBy (machine_of book.now)) }
{
    let machine = book.machine();
    let steps = trace(alloc, machine)?;
    let races = races_of(alloc, machine, &steps)?;
    let has_races = has_any(&races);
    let report = report(
        alloc,
        &History {
            program: machine.program(),
            steps: &steps,
            is_numbered: true,
        },
        &races,
    )?;
    Ok(Judged::Told {
        report,
        has_races,
        turned_down,
    })
}

// Whether there is a race.
fn has_any(races: &[Race]) -> bool
    ensures { result ≡ has_any races.now }
{
    match races {
        [] => false,
        [_, ..] => true,
    }
}
