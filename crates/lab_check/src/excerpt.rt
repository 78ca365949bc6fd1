//! The line of the source that a refusal stands in, with a mark under its token and help. The token at a
//! place, and the name before it, are found as a reader sees them.

use lab_help::{help_for, is_left_out, refusal_words};
use om_lexer::{FaultCode, SourceFault};
use om_seq::AllocResult;
use om_shell::{front_of, line_behind};
use om_shell_commands::push_numbered;
use std::alloc::Global;

// What stands round the place of a refusal.
#[derive(Clone, Copy)]
struct Around<'a> {
    // The number of the line, from 1.
    number: usize,
    // What stands before the place on its line.
    front: &'a [u8],
    // The line from the place on, without its line end.
    rest: &'a [u8],
    token: &'a [u8],
}

// The part of a source from a byte on.
fn rest_of(source: &[u8], at: u32) -> &[u8] {
    let at = at as usize;
    if at < source.len() {
        &source[at..]
    } else {
        &[]
    }
}

// What stands round a byte of the source.
fn surroundings(source: &[u8], at: u32) -> Around<'_> {
    let before = front_of(source, at);
    let rest = line_rest(rest_of(source, at));
    Around {
        number: line_behind(before),
        front: line_front(before),
        rest,
        token: token_at(rest),
    }
}

// The line, behind its number.
fn push_line(text: &mut Vec<u8>, around: Around<'_>) -> AllocResult<()> {
    push_numbered(text, b" ", around.number)?;
    text.extend_from_slice(b" | ")?;
    text.extend_from_slice(around.front)?;
    text.extend_from_slice(around.rest)?;
    text.extend_from_slice(b"\n")
}

// What stands in the mark's line under a byte: a tab under a tab, and nothing under the later bytes of a
// character that has several.
fn below(byte: u8) -> &'static [u8] {
    match byte {
        b'\t' => b"\t",
        0x80..=0xBF => b"",
        _ => b" ",
    }
}

// The margin of the mark's line, as wide as the number.
fn push_margin(text: &mut Vec<u8>, alloc: Global, number: usize) -> AllocResult<()> {
    let mut digits = Vec::new(alloc);
    push_numbered(&mut digits, b" ", number)?;
    for _ in &digits {
        text.extend_from_slice(b" ")?;
    }
    text.extend_from_slice(b" | ")
}

// A mark under the token.
fn push_mark(text: &mut Vec<u8>, alloc: Global, around: Around<'_>) -> AllocResult<()> {
    push_margin(text, alloc, around.number)?;
    for byte in around.front {
        text.extend_from_slice(below(*byte))?;
    }
    text.extend_from_slice(b"^")?;
    for _ in 1..around.token.len() {
        text.extend_from_slice(b"~")?;
    }
    text.extend_from_slice(b"\n")
}

// What to write in place of the token.
fn push_help(text: &mut Vec<u8>, fault: SourceFault, around: Around<'_>) -> AllocResult<()> {
    let Some(help) = help_for(fault.code, around.token, name_before(around.front)) else {
        return Ok(());
    };
    text.extend_from_slice(b"help: ")?;
    text.extend_from_slice(help.as_bytes())?;
    text.extend_from_slice(b"\n")
}

// Why the token is refused.
fn push_reason(text: &mut Vec<u8>, code: FaultCode, token: &[u8]) -> AllocResult<()> {
    if code == FaultCode::Syntax && is_left_out(token) {
        text.extend_from_slice(b"'")?;
        text.extend_from_slice(token)?;
        return text.extend_from_slice(b"' is left out of this C\n");
    }
    text.extend_from_slice(refusal_words(code).as_bytes())?;
    text.extend_from_slice(b"\n")
}

/// What a refusal is explained by, behind its code: words, the line with a mark, and help.
///
/// A line without a byte is not shown.
pub(crate) fn explanation(
    alloc: Global,
    source: &[u8],
    fault: SourceFault,
) -> AllocResult<Vec<u8>> {
    let around = surroundings(source, fault.at);
    let mut text = Vec::new(alloc);
    push_reason(&mut text, fault.code, around.token)?;
    if !around.front.is_empty() || !around.rest.is_empty() {
        push_line(&mut text, around)?;
        push_mark(&mut text, alloc, around)?;
    }
    push_help(&mut text, fault, around)?;
    Ok(text)
}

// Whether a byte is of a name or a number.
fn is_of_word(byte: u8) -> bool {
    byte.is_ascii_alphanumeric() || byte == b'_'
}

// The bytes up to the first line end.
fn first_line(rest: &[u8]) -> &[u8] {
    rest.split(|byte| *byte == b'\n').next().unwrap_or(rest)
}

/// The rest of a line, without its line end.
pub(crate) fn line_rest(rest: &[u8]) -> &[u8] {
    match first_line(rest) {
        [front @ .., b'\r'] => front,
        line => line,
    }
}

/// What stands before a place on its line, where the source up to the place is given.
pub(crate) fn line_front(front: &[u8]) -> &[u8] {
    front.rsplit(|byte| *byte == b'\n').next().unwrap_or(front)
}

// A text or a character, with its quotes; without a second quote it is the rest of the line.
fn quoted(line: &[u8], quote: u8) -> &[u8] {
    let mut parts = line.split(|byte| *byte == quote);
    let _before = parts.next();
    let inner = parts.next().unwrap_or(line);
    line.get(..inner.len().saturating_add(2)).unwrap_or(line)
}

/// The token that the rest of a line begins with. Of a `#` line it is all of it.
pub(crate) fn token_at(line: &[u8]) -> &[u8] {
    match line {
        [] | [b'#', ..] => line,
        [b'"', ..] => quoted(line, b'"'),
        [b'\'', ..] => quoted(line, b'\''),
        [first, ..] if is_of_word(*first) => line
            .split(|byte| !is_of_word(*byte))
            .next()
            .unwrap_or(line),
        [_, ..] => line.get(..1).unwrap_or(line),
    }
}

/// The last name or number of what stands before a place; no bytes where there is none.
pub(crate) fn name_before(front: &[u8]) -> &[u8] {
    front
        .split(|byte| !is_of_word(*byte))
        .filter(|word| !word.is_empty())
        .last()
        .unwrap_or(&[])
}
