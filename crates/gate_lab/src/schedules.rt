//! What is found in all schedules, and in one, in an order of its own. Paths, numbers, who stands before an access and
//! how much was looked at depend on the order of the search, and are left out.

ghost use Rattle.std.specs.Prelude.{◌<◌, ◌≤◌};

use crate::sections::{Given, cut};
use crate::subcommands::{Written, number_in, output_of, refused};
use lab_explore::Unwatched;
use lab_explore_answer::{Question, Subject, answer, status_of};
use lab_explore_closed::Limits;
use lab_races_answer::{Judged, judge};
use lab_script::ScriptFault;
use lab_text::status::{BAD, NOT_COMPLETE};
use om_seq::AllocResult;
use om_shell::Options;
use std::alloc::Global;
use std::sync::Wait;
use std::thread::Threads;

// How many states are stored at most, where the words do not say it.
const MOST_STATES: u64 = 1_000_000;

/// What is found in all schedules of a source. The words are the number of workers, 2 or 3, and how many states are
/// stored at most.
pub(crate) fn explored(
    alloc: Global,
    subject: Subject,
    numbers: &str,
    given: Given<'_>,
) -> Result<Written, ScriptFault> {
    let (workers, states) = cut(numbers, ' ');
    let states = if states.is_empty() {
        MOST_STATES
    } else {
        number_in(states)
    };
    let question = Question {
        subject,
        workers: if workers == "3" { 3 } else { 2 },
        limits: Limits {
            states,
            steps: None,
        },
        script: None,
    };
    match answer(alloc, given.source, &question, &mut Unwatched)? {
        Some(answer) => {
            let text = facts(alloc, str::from_utf8(&answer.text).unwrap_or("no text"))?;
            Ok(output_of(alloc, status_of(answer.finding), text))
        }
        None => Ok(refused(alloc, given, Vec::new(alloc))?),
    }
}

/// What is found in the one history that a session leaves: how many races, and then each.
pub(crate) fn judged<R: Threads + Wait + Sync>(
    rt: &R,
    alloc: Global,
    given: Given<'_>,
    options: Options<'_>,
) -> Result<Written, ScriptFault>
    requires at_least_one { 0 < options.workers }
    requires at_most_32 { options.workers ≤ 32 }
{
    let mut reader = given.input.unwrap_or(&[]);
    match judge(rt, alloc, &mut reader, options)? {
        Judged::Told {
            report,
            has_races,
            turned_down,
        } => {
            let report = str::from_utf8(&report).unwrap_or("no text");
            Ok(Written {
                status: if has_races { BAD } else { NOT_COMPLETE },
                text: facts(alloc, report)?,
                told: turned_down,
            })
        }
        Judged::Refused => Ok(refused(alloc, given, Vec::new(alloc))?),
    }
}

// The first line of a report, and then what was found, each fact a line, in the order of their texts.
fn facts(alloc: Global, report: &str) -> AllocResult<Vec<u8>> {
    let (first, rest) = cut(report, '\n');
    let mut lines: Vec<&str> = Vec::new(alloc);
    for line in rest.lines() {
        if !line.starts_with("   ") && !is_size(line) {
            lines.push(fact_in(line))?;
        }
    }
    lines.sort()?;
    let mut text = Vec::new(alloc);
    push_line(&mut text, count_in(first))?;
    for line in &lines {
        push_line(&mut text, line)?;
    }
    Ok(text)
}

// A first line, without how many steps the history has.
fn count_in(first: &str) -> &str {
    let (count, _) = first.split_once(" in this history").unwrap_or((first, ""));
    count
}

// Whether a line says how much was looked at.
fn is_size(line: &str) -> bool {
    line.ends_with(" steps") || line.ends_with(" step")
}

// A line without its number, and without who stands before an access.
fn fact_in(line: &str) -> &str {
    let (fact, _) = line.split_once(" it; ").unwrap_or((line, ""));
    match fact.split_once(": ") {
        Some((number, rest)) if number.parse::<u64>().is_ok() => rest,
        _ => fact,
    }
}

fn push_line(text: &mut Vec<u8>, line: &str) -> AllocResult<()> {
    text.extend_from_slice(line.as_bytes())?;
    text.extend_from_slice(b"\n")
}
