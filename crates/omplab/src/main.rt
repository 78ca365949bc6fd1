//! omplab: the program: its command line, what each subcommand does with files and streams, a meter, exit status.
//!
//! - `command` names the subcommands, and `words` reads the command line. `main` joins it with files and
//!   streams, and `faults` says on standard error why there is no answer.
//! - `subcommands` does each over any streams: `check`, `hunt`, `script`, `notes`, `draw`; `port` does `port`,
//!   `explore` both `explore` and `races`, and `judge` `races --session`. A `Meter` tells how far a hunt is.
//! - A new subcommand is a crate of its own, with its part in `command`, `words` and `subcommands`, and a row
//!   of `tests/subcommands.py`.
#![tactic(auto)]

ghost use Rattle.std.specs.Prelude.{◌<◌, ◌≤◌};

mod command;
mod explore;
mod faults;
mod judge;
mod meter;
mod port;
mod subcommands;
mod words;

use crate::explore::explore;
use crate::faults::{source_in, told};
use crate::judge::judge;
use crate::port::port;
use crate::subcommands::{Host, Search, check, draw, explain, hunt, keep, plain};
use crate::words::{Asked, Words, ask_for_version, words_in};
use clap::Error;
use clap::error::ErrorKind;
use lab_explore_answer::Question;
use lab_hunt::Seeds;
use lab_text::status::{DONE, FAULT, WORDS};
use om_parser::STACK_SIZE;
use om_seq::AllocResult;
use om_shell::{Options, ShellFault, send, words_of};
use std::alloc::{AllocError, Global};
use std::io::{self, IsTerminal, Stderr, Write};
use std::process::ExitCode;
use std::rt::{Files, Runtime};
use std::sync::Wait;
use std::thread::{Builder, Threads};

// What is written where the version is asked for.
const VERSION: &[u8] = b"omplab 0.9.0\n";

// The file that a subcommand reads, if it is given one.
fn file_of<'a>(asked: Asked<'a>) -> Option<&'a str> {
    match asked {
        Asked::Check { file } => Some(file),
        Asked::Port { file, .. } => Some(file),
        Asked::Hunt { file, .. } => Some(file),
        Asked::Explore { file, .. } => Some(file),
        Asked::Judge { file } => Some(file),
        Asked::Notes { file } => Some(file),
        Asked::Script { file, .. } => file,
        Asked::Draw { file } => file,
    }
}

// Does what is asked for over standard input and output, and answers the exit status.
fn done<R: Runtime + Threads + Wait + Sync>(
    host: &Host<'_, '_, R>,
    asked: Asked<'_>,
) -> Result<u8, ShellFault>
    requires least { 0 < host.now.options.workers }
    requires most { host.now.options.workers ≤ 32 }
{
    let mut writer = io::writer(host.rt);
    match asked {
        Asked::Check { .. } => check(host, &mut writer),
        Asked::Port { strict, list, .. } => port(host, strict, list, &mut writer),
        Asked::Hunt {
            first,
            count,
            steps,
            expected,
            ..
        } => {
            let search = Search {
                seeds: Seeds::from(first, count),
                steps,
                expected,
            };
            hunt(host, search, &mut writer)
        }
        Asked::Explore {
            subject,
            limits,
            script,
            ..
        } => {
            let question = Question {
                subject,
                workers: host.options.workers,
                limits,
                script,
            };
            explore(host, &question, &mut writer)
        }
        Asked::Judge { .. } => judge(host, &mut host.rt.reader(), &mut writer),
        Asked::Notes { .. } => explain(host, &mut host.rt.reader(), &mut writer),
        Asked::Script {
            plain: Some(most),
            ..
        } => plain(host, most, &mut host.rt.reader(), &mut writer),
        Asked::Script { cone, .. } => keep(host, cone, &mut host.rt.reader(), &mut writer),
        Asked::Draw { .. } => draw(host, &mut host.rt.reader(), &mut writer),
    }
}

// Where the program runs, besides its words.
#[derive(Clone, Copy)]
struct Place {
    alloc: Global,
    errors: Stderr,
    // Whether standard error is a terminal.
    is_watched: bool,
}

// Does what the words ask for, and answers the exit status.
fn status_of<R: Runtime + Threads + Wait + Sync>(rt: &R, place: Place, words: Words<'_>) -> u8
    requires least { 0 < words.workers }
    requires most { words.workers ≤ 32 }
{
    let file = file_of(words.asked);
    let Some(source) = source_in(rt, place.alloc, file) else {
        return FAULT;
    };
    let host = Host {
        rt,
        alloc: place.alloc,
        errors: place.errors,
        file,
        options: Options {
            workers: words.workers,
            source: source.as_ref().map(|bytes| bytes.as_slice()),
        },
        is_watched: place.is_watched,
    };
    match done(&host, words.asked) {
        Ok(status) => status,
        Err(fault) => told(rt, fault),
    }
}

// Writes the version, and answers the exit status.
fn version<R: Runtime>(rt: &R) -> u8 {
    match send(&mut io::writer(rt), VERSION) {
        Ok(()) => DONE,
        Err(fault) => told(rt, fault),
    }
}

// Says what is wrong with words, or the help that they ask for, and answers the exit status. Help goes to standard
// output.
fn answer_to_words<R: Runtime>(rt: &R, error: &Error) -> u8 {
    if error.kind() != ErrorKind::DisplayHelp {
        let _ = rt.eprint(error);
        return WORDS;
    }
    match rt.print(error) {
        Ok(()) => DONE,
        Err(_) => told(rt, ShellFault::Write),
    }
}

// Does what the words of the command line ask for, the first of which names the program.
fn status_for<R: Runtime + AllocGlobal + Threads + Wait + Sync>(
    rt: &R,
    place: Place,
    words: &[&str],
) -> AllocResult<u8> {
    if ask_for_version(words) {
        return Ok(version(rt));
    }
    match words_in(place.alloc, words) {
        Ok(words) => Ok(status_of(rt, place, words)),
        Err(error) if error.kind() == ErrorKind::OutOfMemory => Err(AllocError),
        Err(error) => Ok(answer_to_words(rt, &error)),
    }
}

// Reads the command line and does what it asks for.
fn program<R: Runtime + AllocGlobal + Threads + Wait + Sync>(
    rt: &R,
    place: Place,
) -> AllocResult<u8> {
    let Some(words) = words_of(rt, place.alloc)? else {
        return Ok(WORDS);
    };
    let words: Vec<&str> = words.iter().map(|word| word.as_str()).collect(place.alloc)?;
    status_for(rt, place, words.as_slice())
}

fn main(rt: HostRuntime) -> ExitCode {
    let errors = rt.stderr();
    let place = Place {
        alloc: rt.alloc(),
        errors,
        is_watched: errors.is_terminal(),
    };
    let thread = Builder::new()
        .stack_size(STACK_SIZE)
        .spawn(&rt, move || program(&rt, place));
    let status = match thread.map(|thread| thread.join(&rt)) {
        Ok(Ok(status)) => status,
        _ => told(&rt, ShellFault::Memory),
    };
    ExitCode::from(status)
}
