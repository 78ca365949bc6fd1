//! A session that is run: what it wrote, the book that it left, and which commands it turned down.

ghost use Rattle.std.specs.Prelude.{◌<◌, ◌≤◌, IfOk};
ghost use Rattle.lab_draw.specs.Pages.{EndsSo};

use lab_text::{Answers, LineByLine, first_line, turned_down};
use om_book::Book;
use om_seq::AllocResult;
use om_shell::{Options, ShellFault, run, session_bytes};
use std::alloc::Global;
use std::sync::Wait;
use std::thread::Threads;

/// What comes of a session that was run.
#[derive(Drop)]
pub struct Heard {
    /// All that it wrote.
    pub text: Vec<u8>,
    /// The book of its commands; `None` where the source was refused.
    pub book: Option<Book>,
    /// A line for each command that was turned down, as `turned_down` of lab_text writes it.
    pub turned_down: Vec<u8>,
}

/// Runs a session whose input was read, and lists the commands that were turned down. Faults are those of the
/// debugger: H3 where the input takes more than 2^32 reads, H5 when out of memory.
pub fn hear<H: Threads + Wait + Sync>(
    rt: &H,
    alloc: Global,
    input: &[u8],
    options: Options<'_>,
) -> Result<Heard, ShellFault>
    requires at_least_one { 0 < options.workers }
    requires at_most_32 { options.workers ≤ 32 }
    ensures { IfOk result (EndsSo input.now options.entry) }
{
    let mut reader = LineByLine::new(input);
    let mut answers = Answers::new(alloc);
    match run(rt, alloc, &mut reader, &mut answers, options) {
        Ok(ended) => {
            let turned_down = turned_down_in(alloc, input, options, &answers)?;
            Ok(Heard {
                text: answers.into_text(),
                book: ended.book,
                turned_down,
            })
        }
        Err(fault) => Err(fault),
    }
}

// The commands of a session that were turned down, by its input and its answers.
fn turned_down_in(
    alloc: Global,
    input: &[u8],
    options: Options<'_>,
    answers: &Answers,
) -> AllocResult<Vec<u8>> {
    let commands = session_bytes(options.source, input).commands;
    let first = first_line(input, commands);
    turned_down(alloc, options.workers, first, commands, answers)
}
