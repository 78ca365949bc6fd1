//! All lines of a command file.

ghost use Rattle.std.specs.Prelude.{◌≡◌, ◌<◌, ◌≤◌, ◌+◌, ◌++◌, map, IfOk, OnOk};
ghost use Rattle.std.specs.Str.Lines.{strip_carriage_return};
ghost use Rattle.om_shell.specs.Lines.{parts_of};
ghost use Rattle.lab_macros.specs.Expansions.{IsExpanded, StandsBehind, StandsFor, told_at, told_line};

use crate::asked::words_of;
use crate::said::{Kind, Said, kind_of, nothing_said, plain_said, repeated_said};
use crate::until::until_said;
use lab_script::{Ran, run_over};
use om_seq::AllocResult;
use om_shell::ShellFault;
use om_shell_commands::push_numbered;
use std::alloc::Global;
use std::sync::Wait;
use std::thread::Threads;

/// What a command file is of.
#[derive(Clone, Copy)]
pub struct Place<'a> {
    /// How many workers there are, 1 to 32.
    pub workers: u8,
    pub source: &'a [u8],
    /// How many steps an `until` makes at most.
    pub most: u64,
    /// The number of its first line, from 1.
    pub first: usize,
}

/// What a command file stands for.
#[derive(Drop)]
pub enum Expanded {
    Commands {
        /// The commands of ompback, a line each.
        lines: Vec<u8>,
        /// A line for each macro that stands for nothing, with its number: `line 3: until: H2 bad argument`.
        told: Vec<u8>,
    },
    /// The one line that ompback writes for a source that is refused. It is looked at where there is an `until`.
    Refused(Vec<u8>),
}

/// The commands that a command file stands for.
///
/// A comment, from `#` on, stands for nothing, and so does a line without a word. `step 1 x 20` is a command of two
/// words, so many times. `until W L` is `step W` so many times that the worker comes from another line to line L, and
/// `until W VAR` so many times that it changes the global variable. How often is found where ompback stands behind the
/// commands before it. Any other line stands for itself. Where a `free` stands before an `until`, ompback may come to
/// another place each time.
///
/// Faults are those of the debugger, H3 and H5.
pub fn expand<H: Threads + Wait + Sync>(
    rt: &H,
    alloc: Global,
    place: &Place<'_>,
    commands: &[u8],
) -> Result<Expanded, ShellFault>
    requires at_least_one_worker { 0 < place.now.workers }
    requires at_most_32_workers { place.now.workers ≤ 32 }
    ensures { IfOk result (IsExpanded place.now commands.now) }
{
    let lines = lines_of(alloc, commands)?;
    let mut plain = Vec::new(alloc);
    let mut told = Vec::new(alloc);
    let mut index: usize = 0;
    'lines: while index < lines.len() {
        let line = lines[index];
        match said(rt, alloc, place, &plain, line)? {
            Meant::Said(said) => {
                plain.extend_from_slice(said.commands.as_slice())?;
                push_told(&mut told, place.first, index, said.words.as_slice())?;
            }
            Meant::Refused(text) => return Ok(Expanded::Refused(text)),
        }
        index += 1;
    }
    Ok(Expanded::Commands { lines: plain, told })
}

// The lines of a file, without their ends.
fn lines_of(alloc: Global, commands: &[u8]) -> AllocResult<Vec<&[u8]>>
    ensures { IfOk result (λ lines. map (λ line. line.now) lines.items ≡ parts_of commands.now) }
{
    commands.split(|byte| *byte == b'\n').collect(alloc)
}

// What a line stands for, or the refusal of the source.
#[derive(Drop)]
enum Meant {
    Said(Said),
    Refused(Vec<u8>),
}

// What a line stands for behind these commands.
fn said<H: Threads + Wait + Sync>(
    rt: &H,
    alloc: Global,
    place: &Place<'_>,
    before: &[u8],
    line: &[u8],
) -> Result<Meant, ShellFault>
    requires at_least_one_worker { 0 < place.now.workers }
    requires at_most_32_workers { place.now.workers ≤ 32 }
    ensures { IfOk result (StandsFor place.now before.now line.now) }
{
    let words = words_of(alloc, without_carriage_return(line))?;
    match kind_of(&words) {
        Kind::Nothing => Ok(Meant::Said(nothing_said(alloc))),
        Kind::Plain => Ok(Meant::Said(plain_said(alloc, line)?)),
        Kind::Repeated => Ok(Meant::Said(repeated_said(alloc, place.workers, &words)?)),
        Kind::Until => until_behind(rt, alloc, place, before, &words),
    }
}

// What an `until` stands for behind these commands.
fn until_behind<H: Threads + Wait + Sync>(
    rt: &H,
    alloc: Global,
    place: &Place<'_>,
    before: &[u8],
    words: &[&[u8]],
) -> Result<Meant, ShellFault>
    requires at_least_one_worker { 0 < place.now.workers }
    requires at_most_32_workers { place.now.workers ≤ 32 }
    ensures { IfOk result (StandsBehind place.now before.now (map (λ word. word.now) words.now)) }
{
    let Ran { text, book } = run_over(rt, alloc, place.workers, place.source, before)?;
    match book {
        Some(book) => {
            let mut book = book;
            Ok(Meant::Said(until_said(alloc, &mut book, words, place.most)?))
        }
        None => Ok(Meant::Refused(text)),
    }
}

// A line without the carriage return that may end it.
fn without_carriage_return(line: &[u8]) -> &[u8]
    ensures { result.now ≡ strip_carriage_return line.now }
{
    match line {
        [front @ .., b'\r'] => front,
        _ => line,
    }
}

// Appends why a line stands for nothing, if it is a macro that does: with its number.
fn push_told(text: &mut Vec<u8>, first: usize, index: usize, words: &[u8]) -> AllocResult<()>
    ensures { OnOk result
        (text.new.items ≡ text.old.items ++ told_at (first + index) words.now) }
{
    if words.is_empty() {
        return Ok(());
    }
    push_line(text, first as u128 + index as u128, words)
}

fn push_line(text: &mut Vec<u8>, number: u128, words: &[u8]) -> AllocResult<()>
    ensures { OnOk result (text.new.items ≡ text.old.items ++ told_line number words.now) }
{
    push_numbered(text, b"line ", number)?;
    text.extend_from_slice(b": ")?;
    text.extend_from_slice(words)?;
    text.extend_from_slice(b"\n")
}
