//! A run of the debugger over bytes, and what is answered to whoever asks for a script or a cone.

ghost use Rattle.std.specs.Prelude.{◌<◌, ◌≤◌, IfOk, ◌≡◌, option_copied};
ghost use Rattle.std.specs.Str.Lines.{lines};
ghost use Rattle.om_shell.specs.Script.{source_of, commands_of};
ghost use Rattle.lab_script.specs.Runs.{Hears, IsRun};

use lab_text::{Answers, LineByLine, first_line, turned_down};
use om_book::Book;
use om_shell::{Options, SessionBytes, ShellFault, run, session_bytes};
use std::alloc::{AllocError, Global};
use std::sync::Wait;
use std::thread::Threads;
use thiserror::Error;

/// What a run of the debugger comes to.
#[derive(Drop)]
pub struct Ran {
    /// All that it wrote.
    pub text: Vec<u8>,
    /// The book of the commands; `None` where the source was refused.
    pub book: Option<Book>,
}

/// Runs the debugger over a source and commands, up to `quit` or their end. Faults are those of the debugger:
/// H3 where the commands take more than 2^32 reads, H5 when out of memory.
pub fn run_over<H: Threads + Wait + Sync>(
    rt: &H,
    alloc: Global,
    workers: u8,
    source: &[u8],
    commands: &[u8],
) -> Result<Ran, ShellFault>
    requires at_least_one_worker { 0 < workers }
    requires at_most_32_workers { workers ≤ 32 }
    ensures { IfOk result
        (λ ran. IsRun workers source.now commands.now ran.text.items ran.book) }
{
    let mut reader = commands;
    let mut text = Vec::new(alloc);
    let options = Options {
        workers,
        source: Some(source),
    };
    match run(rt, alloc, &mut reader, &mut text, options) {
        Ok(ended) => Ok(Ran {
            text,
            book: ended.book,
        }),
        Err(fault) => Err(fault),
    }
}

/// A session that was read whole.
#[derive(Clone, Copy)]
pub(crate) struct Session<'a> {
    pub(crate) bytes: SessionBytes<'a>,
    /// The number of the line of the input with which its commands begin, from 1.
    pub(crate) first: usize,
}

/// The session of an input: its source is given, or stands in front.
pub(crate) fn session_in<'a>(given: Option<&'a [u8]>, input: &'a [u8]) -> Session<'a>
    ensures source { result.bytes.source.now ≡ source_of (option_copied given.entry) input.now }
    ensures commands { lines result.bytes.commands.now
        ≡ commands_of (option_copied given.entry) input.now }
{
    let bytes = session_bytes(given, input);
    Session {
        bytes,
        first: first_line(input, bytes.commands),
    }
}

/// What a run of the debugger comes to, and which commands it turned down.
#[derive(Drop)]
pub(crate) struct Heard {
    pub(crate) ran: Ran,
    /// A line for each command that was turned down, as `turned_down` of lab_text writes it.
    pub(crate) turned_down: Vec<u8>,
}

/// Runs the debugger over a session as `run_over` does, and lists the commands that were turned down.
pub(crate) fn hear<H: Threads + Wait + Sync>(
    rt: &H,
    alloc: Global,
    workers: u8,
    session: Session<'_>,
) -> Result<Heard, ShellFault>
    requires at_least_one_worker { 0 < workers }
    requires at_most_32_workers { workers ≤ 32 }
    ensures { IfOk result (Hears workers session.entry) }
{
    let commands = session.bytes.commands;
    let mut reader = LineByLine::new(commands);
    let mut answers = Answers::new(alloc);
    let options = Options {
        workers,
        source: Some(session.bytes.source),
    };
    match run(rt, alloc, &mut reader, &mut answers, options) {
        Ok(ended) => {
            let turned_down = turned_down(alloc, workers, session.first, commands, &answers)?;
            let ran = Ran {
                text: answers.into_text(),
                book: ended.book,
            };
            Ok(Heard { ran, turned_down })
        }
        Err(fault) => Err(fault),
    }
}

/// Lines that a session leads to, or why there are none.
#[derive(Drop)]
pub enum Script {
    /// The session was run.
    Steps {
        /// The lines. Of `script`: commands, none where no step stands. Of `cone`: steps, or the line that
        /// `roll` answers where no step has the serial.
        lines: Vec<u8>,
        /// A line for each command of the session that was answered by H1, H2, `full`, `blocked` or
        /// `refused`, as `turned_down` of lab_text writes it.
        turned_down: Vec<u8>,
    },
    /// The one line that is written for a source that is refused.
    Refused(Vec<u8>),
}

/// Why there is no answer. What was read is lost then.
///
/// Its text is what a program writes on standard error.
#[derive(Clone, Copy, Debug, Drop, PartialEq, Eq, Error)]
pub enum ScriptFault {
    /// A read failed, or there was no memory; the session's fault.
    #[error("{0}")]
    Shell(ShellFault),
    /// The commands led to other steps than the session. It was never seen, and no law excludes it.
    #[error("the commands lead to other steps than the session")]
    Differs,
}

impl From<ShellFault> for ScriptFault {
    fn from(fault: ShellFault) -> ScriptFault {
        ScriptFault::Shell(fault)
    }
}

impl From<AllocError> for ScriptFault {
    fn from(_error: AllocError) -> ScriptFault {
        ScriptFault::Shell(ShellFault::Memory)
    }
}
