//! What a `#` line is to conditions (C17 6.10, 6.10.1).

ghost use Rattle.std.specs.Prelude.{◌≡◌, slice_index};
ghost use Rattle.lab_port_conditions.specs.Kinds.{is_nth, ends_at, is_known, body_of, is_letter, is_reserved, undefined, asked, denied, if_ended, is_positive, number_kind, name_kind, is_digit_first, value_of, defined_at, condition_at, condition_of, definition_kind, includes_known, header_kind, plain_kind, other_kind, kind_of};

use crate::header::{is_header, is_of_header};
use lab_port_context::nth_text;
use lab_port_rules::Meaning;
use lab_port_tokens::Piece;

/// What a `#` line is to conditions.
#[derive(Clone, Copy)]
pub enum Kind {
    /// A condition that holds.
    Chosen,
    /// A condition that does not hold.
    Denied,
    /// A condition of which that is not known.
    Unknown,
    /// `#else`
    Otherwise,
    /// `#elif`
    Turned,
    /// `#endif`
    Ended,
    /// `#define`
    Defined,
    /// `#include` of a header whose macros are known, or `#pragma`
    Plain,
    /// `#include` of another header
    Included,
    /// Any other.
    Foreign,
}

/// What the line is, of these pieces behind its `#`, where these macros are defined, and headers that are not known may
/// define more.
pub(crate) fn kind_of(unknown: bool, names: &[Meaning], line: &[Piece]) -> Kind
    ensures { result ≡ kind_of unknown names.now line.now }
{
    if is_nth(0, b"ifdef", line) {
        return if_ended(2, line, asked(unknown, names, nth_text(1, line)));
    }
    if is_nth(0, b"ifndef", line) {
        return denied(if_ended(2, line, asked(unknown, names, nth_text(1, line))));
    }
    if is_nth(0, b"if", line) {
        condition_of(unknown, names, line)
    } else {
        other_kind(names, line)
    }
}

// A line that turns or ends a condition, or has none.
fn other_kind(names: &[Meaning], line: &[Piece]) -> Kind
    ensures { result ≡ other_kind names.now line.now }
{
    if is_nth(0, b"else", line) {
        return Kind::Otherwise;
    }
    if is_nth(0, b"endif", line) {
        return Kind::Ended;
    }
    if is_nth(0, b"elif", line) {
        Kind::Turned
    } else {
        plain_kind(names, line)
    }
}

// A line without a condition.
fn plain_kind(names: &[Meaning], line: &[Piece]) -> Kind
    ensures { result ≡ plain_kind names.now line.now }
{
    if is_nth(0, b"define", line) {
        return definition_kind(names);
    }
    if is_nth(0, b"include", line) {
        return header_kind(line);
    }
    if is_nth(0, b"pragma", line) {
        Kind::Plain
    } else {
        Kind::Foreign
    }
}

fn header_kind(line: &[Piece]) -> Kind
    ensures { result ≡ header_kind line.now }
{
    if includes_known(line) {
        Kind::Plain
    } else {
        Kind::Included
    }
}

// Whether the header in angle brackets is one whose macros are known.
fn includes_known(line: &[Piece]) -> bool
    ensures { result ≡ includes_known line.now }
{
    (is_nth(1, b"<", line) && is_header(nth_text(2, line)))
        && (is_nth(3, b".", line) && (is_nth(4, b"h", line) && is_nth(5, b">", line)))
}

// The first 256 macros are kept.
fn definition_kind(names: &[Meaning]) -> Kind
    ensures { result ≡ definition_kind names.now }
{
    if names.len() < 256 {
        Kind::Defined
    } else {
        Kind::Foreign
    }
}

// What `#if` asks.
fn condition_of(unknown: bool, names: &[Meaning], line: &[Piece]) -> Kind
    ensures { result ≡ condition_of unknown names.now line.now }
{
    if is_nth(1, b"!", line) {
        denied(condition_at(2, unknown, names, line))
    } else {
        condition_at(1, unknown, names, line)
    }
}

// What `#if` asks, from the token of this number on: 1 or 2.
fn condition_at(n: u8, unknown: bool, names: &[Meaning], line: &[Piece]) -> Kind
    ensures { result ≡ condition_at n unknown names.now line.now }
{
    let n = n as usize;
    if is_nth(n, b"defined", line) {
        defined_at(n as u32 + 1, unknown, names, line)
    } else {
        if_ended(n + 1, line, value_of(unknown, names, nth_text(n, line)))
    }
}

// What `defined` asks, which stands before the token of this number.
fn defined_at(n: u32, unknown: bool, names: &[Meaning], line: &[Piece]) -> Kind
    ensures { result ≡ defined_at n unknown names.now line.now }
{
    let n = n as usize;
    if is_nth(n, b"(", line) && is_nth(n + 2, b")", line) {
        if_ended(n + 3, line, asked(unknown, names, nth_text(n + 1, line)))
    } else {
        if_ended(n + 1, line, asked(unknown, names, nth_text(n, line)))
    }
}

// A token as a value: a number, or the name of a macro.
fn value_of(unknown: bool, names: &[Meaning], text: &[u8]) -> Kind
    ensures { result ≡ value_of unknown names.now text.now }
{
    if is_digit_first(text) {
        number_kind(text)
    } else {
        name_kind(unknown, names, text)
    }
}

// C17 6.10.1p4: a name that is no macro is 0.
fn name_kind(unknown: bool, names: &[Meaning], name: &[u8]) -> Kind
    ensures { result ≡ name_kind unknown names.now name.now }
{
    if is_known(name, names) {
        number_kind(body_of(name, names))
    } else {
        undefined(unknown, name)
    }
}

fn number_kind(text: &[u8]) -> Kind
    ensures { result ≡ number_kind text.now }
{
    if text == b"0".as_slice() {
        return Kind::Denied;
    }
    if is_positive(text) {
        Kind::Chosen
    } else {
        Kind::Unknown
    }
}

// Whether it is a number above 0, by its first digit.
fn is_positive(text: &[u8]) -> bool
    ensures { result ≡ is_positive text.now }
{
    let first = first_of(text);
    48 < first && first < 58
}

fn is_digit_first(text: &[u8]) -> bool
    ensures { result ≡ is_digit_first text.now }
{
    let first = first_of(text);
    47 < first && first < 58
}

// The first byte of a text; 0 where there is none.
fn first_of(text: &[u8]) -> u8
    ensures { result ≡ slice_index text.now 0 }
{
    if text.is_empty() { 0 } else { text[0] }
}

// Nothing else stands on the line.
fn if_ended(n: usize, line: &[Piece], kind: Kind) -> Kind
    ensures { result ≡ if_ended n line.now kind }
{
    if ends_at(n, line) {
        kind
    } else {
        Kind::Unknown
    }
}

// The other condition.
fn denied(kind: Kind) -> Kind
    ensures { result ≡ denied kind }
{
    match kind {
        Kind::Chosen => Kind::Denied,
        Kind::Denied => Kind::Chosen,
        Kind::Unknown => kind,
        Kind::Otherwise => kind,
        Kind::Turned => kind,
        Kind::Ended => kind,
        Kind::Defined => kind,
        Kind::Plain => kind,
        Kind::Included => kind,
        Kind::Foreign => kind,
    }
}

// Whether a name is defined.
fn asked(unknown: bool, names: &[Meaning], name: &[u8]) -> Kind
    ensures { result ≡ asked unknown names.now name.now }
{
    if is_known(name, names) || name == b"_OPENMP".as_slice() {
        Kind::Chosen
    } else {
        undefined(unknown, name)
    }
}

// What is said of a name that the program does not define so far.
fn undefined(unknown: bool, name: &[u8]) -> Kind
    ensures { result ≡ undefined unknown name.now }
{
    if unknown || is_reserved(name) {
        Kind::Unknown
    } else {
        Kind::Denied
    }
}

// Whether no program may define it, a header may define it, or it is no name.
fn is_reserved(name: &[u8]) -> bool
    ensures { result ≡ is_reserved name.now }
{
    !is_letter(first_of(name)) || is_of_header(name)
}

fn is_letter(byte: u8) -> bool
    ensures { result ≡ is_letter byte }
{
    (64 < byte && byte < 91) || (96 < byte && byte < 123)
}

// Whether it is the name of one of these macros.
fn is_known(name: &[u8], names: &[Meaning]) -> bool
    ensures { result ≡ is_known name.now names.now }
{
    names.iter().any(|next| next.name.as_slice() == name)
}

// The body of the macro with this name, if it is one token; else nothing.
fn body_of<'a>(name: &[u8], names: &'a [Meaning]) -> &'a [u8]
    ensures { result.now ≡ body_of name.now names.now }
{
    for next in names {
        if next.name.as_slice() == name {
            return next.text.as_slice();
        }
    }
    b""
}

// Whether the n-th token that follows has these bytes.
fn is_nth(n: usize, text: &[u8], line: &[Piece]) -> bool
    ensures { result ≡ is_nth n text.now line.now }
{
    nth_text(n, line) == text
}

/// Whether the line has no n-th token.
pub(crate) fn ends_at(n: usize, line: &[Piece]) -> bool
    ensures { result ≡ ends_at n line.now }
{
    nth_text(n, line).is_empty()
}
