//! What each subcommand writes, by the call on which it depends.

ghost use Rattle.std.specs.Prelude.{◌≡◌};

use crate::hunts::hunted;
use crate::schedules::{explored, judged};
use crate::sections::{Given, cut};
use lab_check::{Report, report};
use lab_draw::{Page, page};
use lab_explore_answer::Subject;
use lab_macros::{Expanded, Place, expand};
use lab_notes::annotate;
use lab_script::{Script, ScriptFault, cone, script};
use lab_text::status::{BAD, DONE, REFUSED, WORDS};
use om_seq::AllocResult;
use om_shell::Options;
use std::alloc::Global;
use std::sync::Wait;
use std::thread::Threads;

/// How many workers run each source.
pub(crate) const WORKERS: u8 = 2;

// The file in which a report says that the source stands.
const FILE: &str = "a.c";

/// The exit status of a subcommand, and what it writes.
#[derive(Drop)]
pub(crate) struct Written {
    pub status: u8,
    /// What goes to standard output.
    pub text: Vec<u8>,
    /// What goes to standard error: why the source is refused, or which commands were turned down.
    pub told: Vec<u8>,
}

/// What the subcommand of these words writes. All streams are in memory, so the fault is out of memory, or that
/// a script leads to other steps than its session.
pub(crate) fn written_by<R: Threads + Wait + Sync>(
    rt: &R,
    alloc: Global,
    words: &str,
    given: Given<'_>,
) -> Result<Written, ScriptFault> {
    let (name, numbers) = cut(words, ' ');
    match name {
        "check" => Ok(checked(alloc, given)?),
        "hunt" => hunted(rt, alloc, numbers, given),
        "explore" => explored(alloc, Subject::Ends, numbers, given),
        "races" => explored(alloc, Subject::Races, numbers, given),
        "judge" => judged(rt, alloc, given, options(given)),
        "script" => scripted(rt, alloc, given),
        "macros" => plain(rt, alloc, number_in(numbers), given),
        "cone" => coned(rt, alloc, number_in(numbers), given),
        "notes" => noted(alloc, given),
        "draw" => drawn(rt, alloc, given),
        "boxes" => counted(rt, alloc, given),
        _ => Ok(output_of(alloc, WORDS, Vec::new(alloc))),
    }
}

/// The number of a word; 1, where it is none.
pub(crate) fn number_in(word: &str) -> u64 {
    word.parse().unwrap_or(1)
}

/// What is written to standard output alone.
pub(crate) fn output_of(alloc: Global, status: u8, text: Vec<u8>) -> Written {
    Written {
        status,
        text,
        told: Vec::new(alloc),
    }
}

/// What is written where the source is refused: the text, and on standard error what `check` says.
pub(crate) fn refused(alloc: Global, given: Given<'_>, text: Vec<u8>) -> AllocResult<Written> {
    let report = report(alloc, FILE, given.source, WORKERS)?;
    Ok(Written {
        status: REFUSED,
        text,
        told: report.text,
    })
}

// The source of a session, and how many workers there are.
fn options(given: Given<'_>) -> Options<'_>
    ensures two { result.workers ≡ 2 }
{
    Options {
        workers: WORKERS,
        source: Some(given.source),
    }
}

// Whether the source is accepted, and else why not.
fn checked(alloc: Global, given: Given<'_>) -> AllocResult<Written> {
    let Report { text, status } = report(alloc, FILE, given.source, WORKERS)?;
    let status = if status == 0 { DONE } else { BAD };
    Ok(output_of(alloc, status, text))
}

// The steps that the session leaves.
fn scripted<R: Threads + Wait + Sync>(
    rt: &R,
    alloc: Global,
    given: Given<'_>,
) -> Result<Written, ScriptFault> {
    let mut reader = given.input.unwrap_or(&[]);
    let script = script(rt, alloc, &mut reader, options(given))?;
    Ok(lines_of(alloc, given, script)?)
}

// The commands that macros stand for, where an `until` makes so many steps at most.
fn plain<R: Threads + Wait + Sync>(
    rt: &R,
    alloc: Global,
    most: u64,
    given: Given<'_>,
) -> Result<Written, ScriptFault> {
    let place = Place {
        workers: WORKERS,
        source: given.source,
        most,
        first: 1,
    };
    match expand(rt, alloc, &place, given.input.unwrap_or(&[]))? {
        Expanded::Commands { lines, told } => Ok(Written {
            status: DONE,
            text: lines,
            told,
        }),
        Expanded::Refused(_) => Ok(refused(alloc, given, Vec::new(alloc))?),
    }
}

// The steps that a roll would take.
fn coned<R: Threads + Wait + Sync>(
    rt: &R,
    alloc: Global,
    serial: u64,
    given: Given<'_>,
) -> Result<Written, ScriptFault> {
    let mut reader = given.input.unwrap_or(&[]);
    let cone = cone(rt, alloc, &mut reader, options(given), serial)?;
    Ok(lines_of(alloc, given, cone)?)
}

// The lines of a script, or of a cone.
fn lines_of(alloc: Global, given: Given<'_>, script: Script) -> AllocResult<Written> {
    match script {
        Script::Steps { lines, turned_down } => Ok(Written {
            status: DONE,
            text: lines,
            told: turned_down,
        }),
        Script::Refused(_) => refused(alloc, given, Vec::new(alloc)),
    }
}

// The answers, with words after them.
fn noted(alloc: Global, given: Given<'_>) -> Result<Written, ScriptFault> {
    let mut reader = given.input.unwrap_or(&[]);
    let mut text = Vec::new(alloc);
    if annotate(alloc, given.source, &mut reader, &mut text)? {
        Ok(output_of(alloc, DONE, text))
    } else {
        Ok(refused(alloc, given, text)?)
    }
}

// The page of the session.
fn drawn<R: Threads + Wait + Sync>(
    rt: &R,
    alloc: Global,
    given: Given<'_>,
) -> Result<Written, ScriptFault> {
    let mut reader = given.input.unwrap_or(&[]);
    match page(rt, alloc, &mut reader, options(given))? {
        Page::Drawn { page, turned_down } => Ok(Written {
            status: DONE,
            text: page,
            told: turned_down,
        }),
        Page::Refused(_) => Ok(refused(alloc, given, Vec::new(alloc))?),
    }
}

// How many boxes the page of the session has, in place of the page.
fn counted<R: Threads + Wait + Sync>(
    rt: &R,
    alloc: Global,
    given: Given<'_>,
) -> Result<Written, ScriptFault> {
    let Written { status, text, told } = drawn(rt, alloc, given)?;
    let page = str::from_utf8(&text).unwrap_or("");
    let boxes = page.split("<svg class='step").skip(1).count();
    let line = format!(in alloc; "boxes: {boxes}\n")?;
    Ok(Written {
        status,
        text: Vec::from_slice(alloc, line.as_bytes())?,
        told,
    })
}
