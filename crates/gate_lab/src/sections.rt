//! The sections of the input, and what is told of each.
//!
//! A section begins with a line `== HEAD`. The next line is a subcommand with its numbers: `check`, `script`,
//! `macros STEPS`, `cone SERIAL`, `notes`, `draw`, `boxes` (which counts those of a page), `hunt SEEDS STEPS` and its
//! first seed where that is not 1, `judge`, or `explore WORKERS`
//! and `races WORKERS`, with how many states are stored at most. Below it stands a C source. After a line `%%` stands the input: commands, answers, or what the program of a hunt is to print. The line end before the next head is no
//! part of the input. So an empty line follows an input that ends with a line end.
//!
//! What is told has the same form: the head, the exit status, and the text that was written. Before it stands
//! `standard error:` with a text that was written there, if there is one.

use crate::subcommands::written_by;
use lab_script::ScriptFault;
use std::alloc::Global;
use std::sync::Wait;
use std::thread::Threads;

/// The source of a section, and its input where it has a line `%%`.
#[derive(Clone, Copy)]
pub(crate) struct Given<'a> {
    pub source: &'a [u8],
    pub input: Option<&'a [u8]>,
}

/// What is told of all sections of a text. Its errors are those of the calls that are made.
pub fn told<R: Threads + Wait + Sync>(
    rt: &R,
    alloc: Global,
    input: &str,
) -> Result<String, ScriptFault> {
    let mut told = String::new(alloc);
    for section in input.split("\n== ").skip(1) {
        add_section(rt, alloc, &mut told, section)?;
    }
    Ok(told)
}

// Adds what is told of a section.
fn add_section<R: Threads + Wait + Sync>(
    rt: &R,
    alloc: Global,
    told: &mut String,
    section: &str,
) -> Result<(), ScriptFault> {
    let (head, body) = cut(section, '\n');
    let (words, rest) = cut(body, '\n');
    let written = written_by(rt, alloc, words, given_in(rest))?;
    write!(told, "== {head}\nstatus {}\n", written.status)?;
    if !written.told.is_empty() {
        let errors = text_of(&written.told);
        write!(told, "standard error:\n{errors}standard output:\n")?;
    }
    let text = text_of(&written.text);
    write!(told, "{text}\n")?;
    Ok(())
}

// What bytes are as a text.
fn text_of(bytes: &[u8]) -> &str {
    str::from_utf8(bytes).unwrap_or("no text")
}

// What stands below the first two lines of a section.
fn given_in(rest: &str) -> Given<'_> {
    match rest.split_once("%%\n") {
        Some((source, input)) => Given {
            source: source.as_bytes(),
            input: Some(input.as_bytes()),
        },
        None => Given {
            source: rest.as_bytes(),
            input: None,
        },
    }
}

/// What stands before and after a character; nothing after it, where a text does not have it.
pub(crate) fn cut(text: &str, mark: char) -> (&str, &str) {
    text.split_once(mark).unwrap_or((text, ""))
}
