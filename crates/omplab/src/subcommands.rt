//! What each subcommand does, over any streams. Each answers the exit status. How far a hunt is goes to
//! standard error, and that a page is drawn; so does which commands of a session were turned down, and why a
//! source is refused.

ghost use Rattle.std.specs.Prelude.{◌<◌, ◌≤◌};

use crate::meter::{AGAIN, Meter};
use lab_check::{Report, report};
use lab_check_kinds::checked;
use lab_draw::{Page, page};
use lab_hunt::{Aims, Hunted, Seeds, push_report};
use lab_macros::{Expanded, Place, expand};
use lab_notes::annotate;
use lab_races_answer::Watch;
use lab_script::{Script, ScriptFault, cone, script};
use lab_text::first_line;
use lab_text::status::{BAD, DONE, FAULT, REFUSED};
use om_seq::AllocResult;
use om_shell::{Options, ShellFault, read_all, send, session_bytes};
use std::alloc::Global;
use std::io::{Read, Stderr, Write};
use std::rt::Runtime;
use std::sync::Wait;
use std::thread::Threads;

/// Where a subcommand runs, and what it is told besides its input.
#[derive(Drop)]
pub(crate) struct Host<'a, 'b, H> {
    pub(crate) rt: &'a H,
    pub(crate) alloc: Global,
    /// Standard error.
    pub(crate) errors: Stderr,
    /// The name of the file of the source, if there is one.
    pub(crate) file: Option<&'b str>,
    pub(crate) options: Options<'b>,
    /// Whether standard error is a terminal, so that somebody sees how far it is.
    pub(crate) is_watched: bool,
}

// What stands behind the first line of a text.
fn behind_first_line(text: &[u8]) -> &[u8] {
    for (at, byte) in text.iter().enumerate() {
        if *byte == b'\n' {
            return &text[at + 1..];
        }
    }
    &[]
}

/// The name of the source in a report, where it stands in standard input.
pub(crate) const INPUT: &str = "<stdin>";

impl<H> Host<'_, '_, H> {
    // Says whether a source is accepted, and else why not.
    fn report(&self, source: &[u8]) -> AllocResult<Report> {
        let file = self.file.unwrap_or(INPUT);
        report(self.alloc, file, source, self.options.workers)
    }

    /// Writes a text on standard error.
    pub(crate) fn tell(&self, text: &[u8]) {
        let mut errors = self.errors;
        let _ = send(&mut errors, text);
    }

    /// Shows words on one line of standard error in place of those before, where that is watched.
    pub(crate) fn show(&self, words: &str) {
        if self.is_watched {
            self.tell(AGAIN.as_bytes());
            self.tell(words.as_bytes());
        }
    }

    /// Tells on standard error which teams of an accepted source are smaller than it asks for.
    pub(crate) fn note(&self, source: &[u8]) -> AllocResult<()> {
        let report = self.report(source)?;
        if report.status == DONE {
            self.tell(behind_first_line(report.text.as_slice()));
        }
        Ok(())
    }

    /// Tells on standard error why a source is refused, and answers the exit status.
    pub(crate) fn refuse(&self, source: &[u8]) -> Result<u8, ShellFault> {
        let report = self.report(source)?;
        self.tell(&report.text);
        Ok(REFUSED)
    }
}

/// Says whether a source is accepted, and else why not.
pub(crate) fn check<H, W: Write>(host: &Host<'_, '_, H>, writer: &mut W) -> Result<u8, ShellFault> {
    let source = host.options.source.unwrap_or(&[]);
    let file = host.file.unwrap_or(INPUT);
    let report = checked(host.alloc, file, source, host.options.workers)?;
    let status = if report.status == 0 { DONE } else { BAD };
    written(writer, &report.text, status)
}

/// What a hunt looks for, and how long.
#[derive(Clone, Copy)]
pub(crate) struct Search<'a> {
    pub(crate) seeds: Seeds,
    pub(crate) steps: u64,
    /// What the program is to print, with `\n` for a line end; where it is `None`, what `run` prints.
    pub(crate) expected: Option<&'a str>,
}

// What a byte after a backslash stands for.
fn escape_of(byte: u8) -> u8 {
    match byte {
        b'n' => b'\n',
        b'r' => b'\r',
        b't' => b'\t',
        other => other,
    }
}

// The bytes that a word stands for, in which a line end is written `\n`, as a report writes it.
fn unescaped(alloc: Global, text: &str) -> AllocResult<Vec<u8>> {
    let mut bytes = Vec::new(alloc);
    let mut is_escaped = false;
    for byte in text.as_bytes() {
        if is_escaped {
            bytes.push(escape_of(*byte))?;
            is_escaped = false;
        } else if *byte == b'\\' {
            is_escaped = true;
        } else {
            bytes.push(*byte)?;
        }
    }
    Ok(bytes)
}

// What the program is to print, where that is told.
fn wanted(alloc: Global, expected: Option<&str>) -> AllocResult<Option<Vec<u8>>> {
    expected.map(|text| unescaped(alloc, text)).transpose()
}

/// Tries schedules by chance, and writes the first that is bad, made short.
pub(crate) fn hunt<H: Runtime + Threads + Wait + Sync, W: Write>(
    host: &Host<'_, '_, H>,
    search: Search<'_>,
    writer: &mut W,
) -> Result<u8, ShellFault>
    requires least { 0 < host.now.options.workers }
    requires most { host.now.options.workers ≤ 32 }
{
    let wanted = wanted(host.alloc, search.expected)?;
    let aims = Aims {
        workers: host.options.workers,
        seeds: search.seeds,
        steps: search.steps,
        expected: wanted.as_ref().map(|bytes| bytes.as_slice()),
    };
    let mut meter = Meter::new(host.rt, host.is_watched);
    let source = host.options.source.unwrap_or(&[]);
    let mut watch = Watch::over(&mut meter);
    let hunted = lab_hunt::hunt(host.rt, host.alloc, source, &aims, &mut watch);
    let raced = watch.into_raced();
    meter.end();
    match hunted {
        Ok(Hunted::Refused(_)) => host.refuse(source),
        Ok(hunted) => report_on(host.alloc, &hunted, raced, writer),
        Err(fault) => Err(within(fault)),
    }
}

// Writes what came of a hunt; where it found no bad schedule, also the races of a history.
fn report_on<W: Write>(
    alloc: Global,
    hunted: &Hunted,
    raced: Option<Vec<u8>>,
    writer: &mut W,
) -> Result<u8, ShellFault> {
    let mut text = Vec::new(alloc);
    push_report(&mut text, hunted)?;
    let status = match hunted {
        Hunted::Nothing { .. } => push_raced(&mut text, raced)?,
        Hunted::Found(_) => BAD,
        Hunted::Refused(_) => REFUSED,
    };
    written(writer, &text, status)
}

// Appends the races of a history, if there are some, and answers the exit status.
fn push_raced(text: &mut Vec<u8>, raced: Option<Vec<u8>>) -> AllocResult<u8> {
    match raced {
        Some(raced) => {
            text.extend_from_slice(&raced)?;
            Ok(BAD)
        }
        None => Ok(DONE),
    }
}

/// Passes answers on, with words after them.
pub(crate) fn explain<H, R: Read, W: Write>(
    host: &Host<'_, '_, H>,
    reader: &mut R,
    writer: &mut W,
) -> Result<u8, ShellFault> {
    let source = host.options.source.unwrap_or(&[]);
    if annotate(host.alloc, source, reader, writer)? {
        Ok(DONE)
    } else {
        host.refuse(source)
    }
}

/// Writes the steps that a session leaves as a script, or those of a cone. Which commands were turned down goes to
/// standard error.
pub(crate) fn keep<H: Runtime + Threads + Wait + Sync, R: Read, W: Write>(
    host: &Host<'_, '_, H>,
    serial: Option<u64>,
    reader: &mut R,
    writer: &mut W,
) -> Result<u8, ShellFault>
    requires least { 0 < host.now.options.workers }
    requires most { host.now.options.workers ≤ 32 }
{
    let input = read_all(host.alloc, reader)?;
    let mut bytes = input.as_slice();
    let kept = match serial {
        Some(serial) => cone(host.rt, host.alloc, &mut bytes, host.options, serial),
        None => script(host.rt, host.alloc, &mut bytes, host.options),
    };
    match kept {
        Ok(Script::Steps { lines, turned_down }) => {
            host.tell(&turned_down);
            written(writer, &lines, DONE)
        }
        Ok(Script::Refused(_)) => host.refuse(session_bytes(host.options.source, &input).source),
        Err(ScriptFault::Shell(fault)) => Err(within(fault)),
        Err(fault) => {
            let _ = host.rt.eprintln(fault);
            Ok(FAULT)
        }
    }
}

/// Writes the commands that a command file with macros stands for. Which macros stand for nothing goes to standard
/// error.
pub(crate) fn plain<H: Threads + Wait + Sync, R: Read, W: Write>(
    host: &Host<'_, '_, H>,
    most: u64,
    reader: &mut R,
    writer: &mut W,
) -> Result<u8, ShellFault>
    requires least { 0 < host.now.options.workers }
    requires most { host.now.options.workers ≤ 32 }
{
    let input = read_all(host.alloc, reader)?;
    let session = session_bytes(host.options.source, &input);
    let place = Place {
        workers: host.options.workers,
        source: session.source,
        most,
        first: first_line(&input, session.commands),
    };
    match expand(host.rt, host.alloc, &place, session.commands) {
        Ok(Expanded::Commands { lines, told }) => {
            host.tell(&told);
            written(writer, &lines, DONE)
        }
        Ok(Expanded::Refused(_)) => host.refuse(session.source),
        Err(fault) => Err(within(fault)),
    }
}

/// Draws what a session leaves. Which commands were turned down goes to standard error.
pub(crate) fn draw<H: Threads + Wait + Sync, R: Read, W: Write>(
    host: &Host<'_, '_, H>,
    reader: &mut R,
    writer: &mut W,
) -> Result<u8, ShellFault>
    requires least { 0 < host.now.options.workers }
    requires most { host.now.options.workers ≤ 32 }
{
    let input = read_all(host.alloc, reader)?;
    let mut bytes = input.as_slice();
    host.show("the page is drawn");
    let drawn = page(host.rt, host.alloc, &mut bytes, host.options);
    host.show("");
    match drawn {
        Ok(Page::Drawn { page, turned_down }) => {
            host.tell(&turned_down);
            written(writer, &page, DONE)
        }
        Ok(Page::Refused(_)) => host.refuse(session_bytes(host.options.source, &input).source),
        Err(fault) => Err(within(fault)),
    }
}

// The fault of a session that was run apart: such a session writes into memory, which takes every byte for which there
// is room.
pub(crate) fn within(fault: ShellFault) -> ShellFault {
    match fault {
        ShellFault::Write => ShellFault::Memory,
        other => other,
    }
}

// Writes a text, and answers the exit status that goes with it.
fn written<W: Write>(writer: &mut W, text: &[u8], status: u8) -> Result<u8, ShellFault> {
    send(writer, text)?;
    Ok(status)
}
