//! A macro with parameters (C17 6.10.3p10), where each of its calls is written out.

ghost use Rattle.std.specs.Prelude.{◌≡◌, ◌≤◌, length, count_by, drop, flat_map, IfOk};
ghost use Rattle.std.specs.Str.{bytes_eq};
ghost use Rattle.std.specs.List.{list_any};
ghost use Rattle.lab_port_calls.specs.Lists.{spaced};
ghost use Rattle.lab_port_calls.specs.Functions.{is_line_end, line_size, is_hash, is_fresh, is_operator, is_parameter, closes_parameters, has_parameters, is_function, defines, is_nth, calls_from, places_of, is_called, function_in, short_function};

use crate::list::spaced;
use lab_port_context::{Context, Line, is_close, is_comma, is_open, nth_text};
use lab_port_names::definition_in;
use lab_port_rules::Meaning;
use lab_port_tokens::Piece;
use lab_port_words::{Class, Sign, class_of, is_gap, is_word};
use om_seq::{AllocResult, Seq};
use std::alloc::Global;

/// Whether a macro with parameters is defined behind this `#`.
pub(crate) fn defines(context: Context, piece: &Piece, rest: &[Piece]) -> bool
    ensures { result ≡ defines context piece.now rest.now }
{
    (is_fresh(context.line) && is_hash(class_of(piece))) && is_function(definition_in(rest))
}

/// Whether each other place of the name that is defined behind a `#` is a call behind the line.
pub(crate) fn is_called(rest: &[Piece], all: &[Piece]) -> bool
    ensures { result ≡ is_called rest.now all.now }
{
    let name = nth_text(0, definition_in(rest));
    places_of(name, all) == calls_of(name, &rest[line_size(rest)..])
}

/// The macro of a name, parameters and a body. The only error is out of memory.
pub(crate) fn function_in(alloc: Global, definition: &[Piece]) -> AllocResult<Meaning>
    ensures { IfOk result (λ found. found ≡ function_in definition.now) }
{
    if definition.is_empty() {
        return Ok(Meaning {
            name: Seq::new(alloc),
            text: Seq::new(alloc),
        });
    }
    let name = Vec::from_slice(alloc, definition[0].text.as_slice())?;
    let text = spaced_text(alloc, &definition[1..])?;
    Ok(Meaning {
        name: Seq::of(name),
        text: Seq::of(text),
    })
}

/// A macro whose parameters and body have 512 bytes at most.
pub(crate) fn short_function(found: Meaning) -> Option<Meaning>
    ensures { result ≡ short_function found }
{
    if found.text.len() > 512 {
        None
    } else {
        Some(found)
    }
}

/// How many pieces stand before the end of the line.
pub(crate) fn line_size(rest: &[Piece]) -> usize
    ensures size { result ≡ line_size 0 rest.now }
    ensures inside { result ≤ length rest.now }
{
    for (i, piece) in rest.iter().enumerate() {
        if is_line_end(class_of(piece)) {
            return i;
        }
    }
    rest.len()
}

// Some pieces, with a space for white space and comments.
fn spaced_text(alloc: Global, pieces: &[Piece]) -> AllocResult<Vec<u8>>
    ensures { IfOk result (λ text. text.items ≡ flat_map spaced pieces.now) }
{
    let mut text = Vec::new(alloc);
    for piece in pieces {
        text.extend_from_slice(spaced(piece))?;
    }
    Ok(text)
}

// How often the name stands in a source.
fn places_of(name: &[u8], all: &[Piece]) -> usize
    ensures { result ≡ places_of name.now all.now }
{
    all.iter()
        .filter(|piece| piece.text.as_slice() == name)
        .count()
}

// How often a macro with this name is called, and once more for its definition.
fn calls_of(name: &[u8], rest: &[Piece]) -> usize
    ensures { result ≡ calls_from 1 name.now rest.now }
{
    let mut count = 1;
    for (i, piece) in rest.iter().enumerate() {
        if piece.text.as_slice() == name && is_nth(0, b"(", &rest[i + 1..]) {
            count += 1;
        }
    }
    count
}

// Whether the n-th token that follows has these bytes.
fn is_nth(n: usize, text: &[u8], rest: &[Piece]) -> bool
    ensures { result ≡ is_nth n text.now rest.now }
{
    nth_text(n, rest) == text
}

// Whether it is a name, its parameters, and a body without operators of macros.
fn is_function(definition: &[Piece]) -> bool
    ensures { result ≡ is_function definition.now }
{
    if definition.is_empty() {
        return false;
    }
    let list = &definition[1..];
    (is_word(class_of(&definition[0])) && has_parameters(list)) && !has_operator(list)
}

// Whether an operator of macros stands there.
fn has_operator(list: &[Piece]) -> bool
    ensures { result ≡ list_any is_operator list.now }
{
    list.iter().any(|piece| is_operator(piece))
}

// Whether a list of parameters begins directly there.
fn has_parameters(rest: &[Piece]) -> bool
    ensures { result ≡ has_parameters rest.now }
{
    if rest.is_empty() {
        return false;
    }
    is_open(class_of(&rest[0])) && closes_parameters(&rest[1..])
}

// Whether words, parted by commas, and a `)` stand there.
fn closes_parameters(rest: &[Piece]) -> bool
    ensures { result ≡ closes_parameters rest.now }
{
    for piece in rest {
        let class = class_of(piece);
        if is_close(class) {
            return true;
        }
        if !is_parameter(class) {
            return false;
        }
    }
    false
}

fn is_parameter(class: Class) -> bool
    ensures { result ≡ is_parameter class }
{
    is_comma(class) || (is_gap(class) || is_word(class))
}

// Whether it is an operator of macros.
fn is_operator(piece: &Piece) -> bool
    ensures { result ≡ is_operator piece.now }
{
    let text = piece.text.as_slice();
    text == b"#".as_slice() || text == b"##".as_slice()
}

fn is_line_end(class: Class) -> bool
    ensures { result ≡ is_line_end class }
{
    match class {
        Class::LineEnd => true,
        _ => false,
    }
}

fn is_hash(class: Class) -> bool
    ensures { result ≡ is_hash class }
{
    match class {
        Class::Sign(Sign::Hash) => true,
        _ => false,
    }
}

fn is_fresh(line: Line) -> bool
    ensures { result ≡ is_fresh line }
{
    match line {
        Line::Fresh => true,
        _ => false,
    }
}
