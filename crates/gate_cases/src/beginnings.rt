//! The beginnings of a source, each of which is accepted, or refused by one line.
//!
//! A section begins with a line `== beginnings TITLE`, and its source stands below. The debugger gets each
//! beginning of the source as its input: that of no byte, of one byte, and so on, up to the whole.

use crate::sessions::{Told, told_of};
use om_seq::AllocResult;
use std::alloc::Global;
use std::sync::Wait;
use std::thread::Threads;

// What the debugger says of a beginning.
#[derive(Clone, Copy, PartialEq)]
enum Answer {
    // Nothing, with status 0.
    Accepted,
    // The line of a refusal by the rule of this number, and nothing else, with status 1.
    Refused(u32),
    // Anything else.
    Wrong,
}

/// Adds the head of a section, and how many bytes the first beginning has of which something else is said
/// than of the one before.
pub(crate) fn add_beginnings<R: Threads + Wait + Sync>(
    rt: &R,
    alloc: Global,
    report: &mut String,
    head: &str,
    body: &str,
) -> AllocResult<()> {
    write!(report, "== {head}\n")?;
    let source = body.trim_end().as_bytes();
    let mut last = None;
    for end in 0..=source.len() {
        let beginning = source.get(..end).unwrap_or(source);
        let told = told_of(rt, alloc, 2, beginning)?;
        let answer = answer_in(&told);
        if last != Some(answer) {
            add_answer(report, end, answer)?;
            last = Some(answer);
        }
    }
    Ok(())
}

// What the debugger says in what it told.
fn answer_in(told: &Told) -> Answer {
    let text = str::from_utf8(told.text.as_slice()).unwrap_or("no text");
    match told.status {
        0 if text.is_empty() => Answer::Accepted,
        1 => match refusal_in(text) {
            Some(number) => Answer::Refused(number),
            None => Answer::Wrong,
        },
        _ => Answer::Wrong,
    }
}

// The number of the rule by which a source is refused, where a text is one line that says so, as
// `refused S3 line 1 column 36`.
fn refusal_in(text: &str) -> Option<u32> {
    let line = text.strip_suffix("\n")?;
    let (rule, place) = line.strip_prefix("refused S")?.split_once(" line ")?;
    let (line, column) = place.split_once(" column ")?;
    let _line: u32 = line.parse().ok()?;
    let _column: u32 = column.parse().ok()?;
    rule.parse().ok()
}

// Adds what is said of the beginnings from this many bytes on.
fn add_answer(report: &mut String, bytes: usize, answer: Answer) -> AllocResult<()> {
    match answer {
        Answer::Accepted => write!(report, "from {bytes} bytes: accepted\n"),
        Answer::Refused(number) => write!(report, "from {bytes} bytes: S{number}\n"),
        Answer::Wrong => write!(report, "from {bytes} bytes: WRONG\n"),
    }
}
