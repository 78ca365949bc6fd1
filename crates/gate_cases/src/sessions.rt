//! Sessions of the debugger, over texts.
//!
//! A session begins with a line `== NAME`, or `== NAME by 32 workers` where there are not two. Below stands
//! its input: a source, a line `%%` and commands.

ghost use Rattle.std.specs.Prelude.{◌<◌, ◌≤◌};

use crate::written::write_out;
use om_seq::AllocResult;
use om_shell::{Options, run};
use std::alloc::{AllocError, Global};
use std::sync::Wait;
use std::thread::Threads;

// A line that stands more often than this in a row is told once.
const OFTEN: u32 = 1_000;

/// What was written in a session, and its exit status.
#[derive(Drop)]
pub(crate) struct Told {
    pub status: u8,
    pub text: Vec<u8>,
}

/// Adds the head of a session, what is written in it, and its status, where that is not 0.
pub(crate) fn add_session<R: Threads + Wait + Sync>(
    rt: &R,
    alloc: Global,
    report: &mut String,
    head: &str,
    body: &str,
) -> AllocResult<()> {
    let mut input = String::new(alloc);
    write_out(&mut input, body)?;
    let told = told_of(rt, alloc, workers_of(head), input.as_bytes())?;
    write!(report, "== {head}\n")?;
    add_lines(
        report,
        str::from_utf8(told.text.as_slice()).unwrap_or("no text"),
    )?;
    if told.status != 0 {
        write!(report, "status {}\n", told.status)?;
    }
    Ok(())
}

/// What the debugger writes. It reads from a slice and writes to a vector, so only memory can be wanting.
pub(crate) fn told_of<R: Threads + Wait + Sync>(
    rt: &R,
    alloc: Global,
    workers: u8,
    input: &[u8],
) -> AllocResult<Told>
    requires at_least_one { 0 < workers }
    requires at_most_32 { workers ≤ 32 }
{
    let mut reader = input;
    let mut writer = Vec::new(alloc);
    let options = Options {
        workers,
        source: None,
    };
    match run(rt, alloc, &mut reader, &mut writer, options) {
        Ok(ended) => Ok(Told {
            status: ended.into_status(),
            text: writer,
        }),
        Err(_) => Err(AllocError),
    }
}

// How many workers the head of a session names, from 1 to 32; two, where it names no such number.
fn workers_of(head: &str) -> u8
    ensures at_least_one { 0 < result }
    ensures at_most_32 { result ≤ 32 }
{
    let (_, words) = head.split_once(" by ").unwrap_or(("", ""));
    match words.trim_end_matches(" workers").parse() {
        Ok(workers) if 1 <= workers && workers <= 32 => workers,
        _ => 2,
    }
}

// Adds the lines of a text.
fn add_lines(told: &mut String, text: &str) -> AllocResult<()> {
    let mut line = "";
    let mut times = 0u32;
    for next in text.lines() {
        if next != line {
            add_run(told, line, times)?;
            line = next;
            times = 0;
        }
        times = times.saturating_add(1);
    }
    add_run(told, line, times)
}

// Adds a line as often as it stands in a row; `⟨2000 LINE⟩` in place of very many.
fn add_run(told: &mut String, line: &str, times: u32) -> AllocResult<()> {
    if times > OFTEN {
        return write!(told, "⟨{times} {line}⟩\n");
    }
    for _ in 0..times {
        write!(told, "{line}\n")?;
    }
    Ok(())
}
