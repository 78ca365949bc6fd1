//! The session that the words ask for, and how it ended.

ghost use Rattle.std.specs.Prelude.{◌<◌, ◌≤◌};

use crate::words::{Words, ask_for_version, words_in};
use om_seq::AllocResult;
use om_shell::{Options, Outcome, ShellFault, read_named, run, send, words_of};
use std::alloc::{AllocError, Global};
use std::io::{self, Read, Write};
use std::mem;
use std::rt::{Files, Runtime};
use std::sync::Wait;
use std::thread::Threads;

// What is written where the version is asked for.
const VERSION: &[u8] = b"ompback 0.9.0\n";

/// Runs the shell over these ends, and tells how it ended: its status where all of it was done, and else its fault.
/// What it read and made is not given back, since the process ends behind it.
pub fn run_over<H: Threads + Wait + Sync, R: Read, W: Write>(
    rt: &H,
    alloc: Global,
    reader: &mut R,
    writer: &mut W,
    options: Options<'_>,
) -> Outcome
    requires least { 0 < options.workers }
    requires most { options.workers ≤ 32 }
{
    match run(rt, alloc, reader, writer, options) {
        Ok(ended) => {
            let status = ended.status;
            // The process ends, and gives all memory back at once, and not entry by entry.
            mem::forget(ended);
            Outcome::Ran(status)
        }
        Err(fault) => Outcome::Fault(fault),
    }
}

// Runs the shell over standard input and output, and tells how it ended.
fn session<R: Files + Input + Print + Threads + Wait + Sync>(
    rt: &R,
    alloc: Global,
    words: Words,
) -> Outcome
    requires least { 0 < words.workers }
    requires most { words.workers ≤ 32 }
{
    let source = match read_named(rt, alloc, words.file) {
        Ok(source) => source,
        Err(fault) => return Outcome::Fault(fault),
    };
    let options = Options {
        workers: words.workers,
        source: source.as_ref().map(|bytes| bytes.as_slice()),
    };
    run_over(rt, alloc, &mut rt.reader(), &mut io::writer(rt), options)
}

/// Writes the version, and tells how that ended.
pub fn version<W: Write>(writer: &mut W) -> Outcome {
    match send(writer, VERSION) {
        Ok(()) => Outcome::Ran(0),
        Err(fault) => Outcome::Fault(fault),
    }
}

/// Does what the words of a command line ask for, the first of which names the program, and tells how that ended.
/// Of wrong words standard error tells why. Its only error is out of memory.
pub fn outcome_for<R: Runtime + AllocGlobal + Threads + Wait + Sync>(
    rt: &R,
    alloc: Global,
    words: &[&str],
) -> AllocResult<Outcome> {
    if ask_for_version(words) {
        return Ok(version(&mut io::writer(rt)));
    }
    match words_in(alloc, words) {
        Ok(words) => Ok(session(rt, alloc, words)),
        Err(error) if error.kind() == clap::error::ErrorKind::OutOfMemory => Err(AllocError),
        Err(error) => {
            let _ = rt.eprint(&error);
            Ok(Outcome::Words)
        }
    }
}

/// Reads the command line that the program was called with, does what it asks for, and tells how that ended. Its
/// only error is out of memory.
pub fn program<R: Runtime + AllocGlobal + Threads + Wait + Sync>(
    rt: &R,
    alloc: Global,
) -> AllocResult<Outcome> {
    let Some(words) = words_of(rt, alloc)? else {
        return Ok(Outcome::Words);
    };
    let words: Vec<&str> = words.iter().map(|word| word.as_str()).collect(alloc)?;
    outcome_for(rt, alloc, words.as_slice())
}
