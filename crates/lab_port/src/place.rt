//! Lines and columns of a source, and how a place of it is shown.

ghost use Rattle.std.specs.Prelude.{◌≡◌, ◌++◌, ◌+◌, ◌<◌, ◌≤◌, ◌^◌, length, take, drop, decimal, map, flat_map, OnOk};
ghost use Rattle.lab_port.specs.Written.{blank, line_feeds};
ghost use Rattle.lab_port.specs.Places.{line_of, front_behind, place_in, IsSeen, line_rest, below, margin, line_shown, caret_below, shown, excerpt};

use crate::written::blank;
use itoa::Buffer;
use om_seq::AllocResult;

/// A place of a source, and where it stands.
#[derive(Clone, Copy)]
pub struct Seen {
    /// How many bytes stand before it.
    pub at: usize,
    /// Its line, from 1.
    pub line: usize,
    /// How many bytes stand before it on its line.
    pub front: usize,
}

/// The beginning of a source.
pub(crate) fn at_first() -> Seen
    ensures at { result.at ≡ 0 }
    ensures line { result.line ≡ 1 }
    ensures front { result.front ≡ 0 }
{
    Seen {
        at: 0,
        line: 1,
        front: 0,
    }
}

/// A place of the source; what is behind its end is the end.
pub(crate) fn place_in(source: &[u8], at: usize) -> usize
    ensures place { result ≡ place_in source.now at }
    ensures inside { result ≤ length source.now }
{
    at.min(source.len())
}

/// The line of a place of a source, from 1; what is behind its end is the end.
pub fn line_of(source: &[u8], at: usize) -> usize
    ensures { result ≡ line_of source.now (place_in source.now at) }
{
    seen_at(at_first(), source, place_in(source, at)).line
}

/// Where a place stands, where another one is known.
pub(crate) fn seen_at(seen: Seen, source: &[u8], at: usize) -> Seen
    requires known { IsSeen source.now seen }
    requires inside { at ≤ length source.now }
    ensures at { result.at ≡ at }
    ensures seen { IsSeen source.now result }
{
    if seen.at <= at {
        seen_on(seen, source, at)
    } else {
        seen_on(at_first(), source, at)
    }
}

// Where a place stands, where an earlier one is known.
fn seen_on(seen: Seen, source: &[u8], at: usize) -> Seen
    requires known { IsSeen source.now seen }
    requires order { seen.at ≤ at }
    requires inside { at ≤ length source.now }
    ensures at { result.at ≡ at }
    ensures seen { IsSeen source.now result }
{
    let between = &source[seen.at..at];
    Seen {
        at,
        line: seen.line + line_feeds(between),
        front: front_behind(seen.front, between),
    }
}

// How many line feeds stand among some bytes.
fn line_feeds(bytes: &[u8]) -> usize
    ensures count { result ≡ line_feeds bytes.now }
    ensures inside { result ≤ length bytes.now }
{
    bytes.iter().filter(|byte| **byte == b'\n').count()
}

// How many bytes stand behind the last line feed of some bytes, before which so many stand on their line.
fn front_behind(size: usize, bytes: &[u8]) -> usize
    requires { size + length bytes.now < 2 ^ 64 }
    ensures { result ≡ front_behind size bytes.now }
{
    let mut size = size;
    for byte in bytes {
        size = if *byte == b'\n' { 0 } else { size + 1 };
    }
    size
}

/// Appends a number in decimal. The only error is out of memory.
pub(crate) fn push_number(out: &mut Vec<u8>, number: usize) -> AllocResult<()>
    ensures { OnOk result (out.new.items ≡ out.old.items ++ decimal number) }
{
    let mut buffer = Buffer::new();
    out.extend_from_slice(buffer.format(number).as_bytes())
}

// Appends some bytes as white space.
fn push_blank(out: &mut Vec<u8>, bytes: &[u8]) -> AllocResult<()>
    ensures { OnOk result (out.new.items ≡ out.old.items ++ map blank bytes.now) }
{
    for byte in bytes {
        out.push(blank(*byte))?;
    }
    Ok(())
}

// Appends the margin of a line with its number.
fn push_number_margin(out: &mut Vec<u8>, number: usize) -> AllocResult<()>
    ensures { OnOk result (out.new.items ≡ out.old.items ++ margin (decimal number)) }
{
    out.extend_from_slice(b" ")?;
    push_number(out, number)?;
    out.extend_from_slice(b" | ")
}

// Appends a margin as wide as that of a line with this number.
fn push_blank_margin(out: &mut Vec<u8>, number: usize) -> AllocResult<()>
    ensures { OnOk result (out.new.items ≡ out.old.items ++ margin (map blank (decimal number))) }
{
    let mut buffer = Buffer::new();
    out.extend_from_slice(b" ")?;
    push_blank(out, buffer.format(number).as_bytes())?;
    out.extend_from_slice(b" | ")
}

/// Appends the line of a place, with a caret under it. The only error is out of memory.
pub(crate) fn push_excerpt(out: &mut Vec<u8>, source: &[u8], seen: Seen) -> AllocResult<()>
    requires { IsSeen source.now seen }
    ensures { OnOk result (out.new.items ≡ out.old.items ++ excerpt source.now seen.at) }
{
    if seen.front > 200 {
        return Ok(());
    }
    let front = &source[seen.at - seen.front..seen.at];
    push_shown(out, seen.line, front, line_rest(rest_of(source, seen.at)))
}

// The bytes from a place on that are shown at most.
fn rest_of(source: &[u8], at: usize) -> &[u8]
    requires { at ≤ length source.now }
    ensures { result.now ≡ take 200 (drop at source.now) }
{
    first_of(&source[at..], 200)
}

// The first so many bytes, or all where there are fewer.
fn first_of(bytes: &[u8], count: usize) -> &[u8]
    ensures { result.now ≡ take count bytes.now }
{
    if count < bytes.len() {
        &bytes[..count]
    } else {
        bytes
    }
}

// Some bytes up to a line end.
fn line_rest(bytes: &[u8]) -> &[u8]
    ensures { result.now ≡ line_rest bytes.now }
{
    &bytes[..line_size(bytes)]
}

// How many bytes stand before a line end.
fn line_size(bytes: &[u8]) -> usize
    ensures size { take result bytes.now ≡ line_rest bytes.now }
    ensures inside { result ≤ length bytes.now }
{
    for (i, byte) in bytes.iter().enumerate() {
        if *byte == b'\n' || *byte == b'\r' {
            return i;
        }
    }
    bytes.len()
}

// Appends a line with its number, and a caret under the place between these parts of it.
fn push_shown(out: &mut Vec<u8>, line: usize, front: &[u8], rest: &[u8]) -> AllocResult<()>
    ensures { OnOk result (out.new.items ≡ out.old.items ++ shown line front.now rest.now) }
{
    push_line(out, line, front, rest)?;
    push_caret(out, line, front)
}

// Appends a line with its number.
fn push_line(out: &mut Vec<u8>, line: usize, front: &[u8], rest: &[u8]) -> AllocResult<()>
    ensures { OnOk result (out.new.items ≡ out.old.items ++ line_shown line front.now rest.now) }
{
    push_number_margin(out, line)?;
    out.extend_from_slice(front)?;
    out.extend_from_slice(rest)?;
    out.extend_from_slice(b"\n")
}

// Appends a caret under the place behind these bytes of a line.
fn push_caret(out: &mut Vec<u8>, line: usize, front: &[u8]) -> AllocResult<()>
    ensures { OnOk result (out.new.items ≡ out.old.items ++ caret_below line front.now) }
{
    push_blank_margin(out, line)?;
    push_below(out, front)?;
    out.extend_from_slice(b"^\n")
}

// Appends what stands under some bytes before the caret.
fn push_below(out: &mut Vec<u8>, front: &[u8]) -> AllocResult<()>
    ensures { OnOk result (out.new.items ≡ out.old.items ++ flat_map below front.now) }
{
    for byte in front {
        out.extend_from_slice(below(*byte))?;
    }
    Ok(())
}

fn below(byte: u8) -> &'static [u8]
    ensures { result.now ≡ below byte }
{
    match byte {
        b'\t' => b"\t",
        128..=191 => b"",
        _ => b" ",
    }
}
