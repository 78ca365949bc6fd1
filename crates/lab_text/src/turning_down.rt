//! The commands of a session that were turned down.

use crate::answers::Answers;
use om_seq::AllocResult;
use om_shell::line_behind;
use om_shell_commands::{Command, Request, push_numbered, request_of};
use std::alloc::Global;

// How many bytes of a command are told.
const MOST_BYTES: usize = 80;

/// The commands of a session that were turned down: that were answered by H1, H2, `full`, `blocked` or
/// `refused`.
///
/// Each is a line `line 3: step 9: H2 bad argument`, in their order. The first command stands in the line of
/// this number. Of a command there are 80 bytes at most, and `..` after them where it has more; a byte that is
/// no printable character of ASCII is written `?`. The answers are those of a run over the commands, read
/// line by line. The only error is out of memory.
pub fn turned_down(
    alloc: Global,
    workers: u8,
    first: usize,
    commands: &[u8],
    answers: &Answers,
) -> AllocResult<Vec<u8>> {
    let mut number = first;
    let mut text = Vec::new(alloc);
    let mut count: usize = 0;
    for line in commands.split(|byte| *byte == b'\n') {
        let command = without_carriage_return(line);
        let answer = answers.after(count);
        if is_answer_to(alloc, workers, command, answer)? {
            push_turned_down(&mut text, number, command, answer)?;
            count = count.saturating_add(1);
        }
        number = number.saturating_add(1);
    }
    Ok(text)
}

/// The number of the line of an input with which its commands begin, from 1. They end the input.
pub fn first_line(input: &[u8], commands: &[u8]) -> usize {
    let at = input.len().saturating_sub(commands.len());
    line_behind(input.get(..at).unwrap_or(input))
}

// A line without the carriage return that may stand before its line feed.
fn without_carriage_return(line: &[u8]) -> &[u8] {
    match line {
        [front @ .., b'\r'] => front,
        _ => line,
    }
}

// Whether the next answer is that to a command. A line without a word has none. The answer to `events` has
// none where there is no record, and is the only one that begins with a digit.
fn is_answer_to(alloc: Global, workers: u8, command: &[u8], answer: &[u8]) -> AllocResult<bool> {
    let request = request_of(alloc, workers, command)?;
    Ok(match request {
        Request::Nothing => false,
        Request::Command(Command::Events(_)) => begins_with_digit(answer),
        Request::Command(_) | Request::Fault(_) => !answer.is_empty(),
    })
}

fn begins_with_digit(text: &[u8]) -> bool {
    matches!(text, [b'0'..=b'9', ..])
}

// Appends a command with its answer, where that turned it down.
fn push_turned_down(
    text: &mut Vec<u8>,
    number: usize,
    command: &[u8],
    answer: &[u8],
) -> AllocResult<()> {
    if !turns_down(answer) {
        return Ok(());
    }
    push_numbered(text, b"line ", number)?;
    text.extend_from_slice(b": ")?;
    push_command(text, command)?;
    text.extend_from_slice(b": ")?;
    text.extend_from_slice(answer)
}

// Whether an answer turns its command down. A variable may have a name as `full`, so more than a word is
// looked at.
fn turns_down(answer: &[u8]) -> bool {
    is_text(answer, b"H1 unknown command\n")
        || is_text(answer, b"H2 bad argument\n")
        || is_text(answer, b"full\n")
        || answer.starts_with(b"blocked B")
        || answer.starts_with(b"refused by #")
}

fn is_text(text: &[u8], wanted: &[u8]) -> bool {
    text == wanted
}

// Appends the first bytes of a command.
fn push_command(text: &mut Vec<u8>, command: &[u8]) -> AllocResult<()> {
    for byte in command.iter().take(MOST_BYTES) {
        text.extend_from_slice(&[printable(*byte)])?;
    }
    if command.len() > MOST_BYTES {
        text.extend_from_slice(b"..")?;
    }
    Ok(())
}

// A byte as it is told.
fn printable(byte: u8) -> u8 {
    match byte {
        b' '..=b'~' => byte,
        _ => b'?',
    }
}
