//! Constant expressions in the brackets behind the name of an array (C17 6.6).

ghost use Rattle.std.specs.Prelude.{◌≡◌};
ghost use Rattle.lab_port_arrays.specs.Constants.{is_fresh, defines, body_number, macro_with, is_used_before, unknown, macro_at, no_macro, macro_of, or_macro, value_of, constant_of, is_nth, pair_at, constant_of_two, constant_at};

use crate::number::{combined_by, number_of};
use lab_port_context::{Context, Line, at_first, context_behind, is_code, nth_text};
use lab_port_names::definition_in;
use lab_port_tokens::Piece;
use lab_port_words::class_of;

/// A constant in brackets.
#[derive(Clone, Copy)]
pub struct Constant {
    /// Its number.
    pub number: usize,
    /// How many tokens stand in the brackets, with these.
    pub tokens: usize,
}

/// A macro.
#[derive(Clone, Copy)]
pub struct Macro {
    /// Whether it is defined.
    pub is_defined: bool,
    /// The number that it stands for, if it is one.
    pub number: Option<usize>,
}

/// The constant in brackets that begin directly there, in a source.
pub(crate) fn constant_at(rest: &[Piece], all: &[Piece]) -> Option<Constant>
    ensures { result ≡ constant_at rest.now all.now }
{
    if !is_nth(0, b"[", rest) {
        return None;
    }
    if is_nth(2, b"]", rest) {
        return constant_of(value_of(nth_text(1, rest), all), 3);
    }
    if (is_nth(1, b"(", rest) && is_nth(3, b")", rest)) && is_nth(4, b"]", rest) {
        return constant_of(value_of(nth_text(2, rest), all), 5);
    }
    constant_of_two(rest, all)
}

// The same, where the brackets begin there and have more than one token.
fn constant_of_two(rest: &[Piece], all: &[Piece]) -> Option<Constant>
    ensures { result ≡ constant_of_two rest.now all.now }
{
    if is_nth(4, b"]", rest) {
        return constant_of(pair_at(1, rest, all), 5);
    }
    if (is_nth(1, b"(", rest) && is_nth(5, b")", rest)) && is_nth(6, b"]", rest) {
        return constant_of(pair_at(2, rest, all), 7);
    }
    None
}

/// Whether the n-th token that follows has these bytes.
pub(crate) fn is_nth(n: usize, text: &[u8], rest: &[Piece]) -> bool
    ensures { result ≡ is_nth n text.now rest.now }
{
    nth_text(n, rest) == text
}

// What two numbers give with a sign between them, from the token with this number on: 1 or 2.
fn pair_at(first: u8, rest: &[Piece], all: &[Piece]) -> Option<usize>
    ensures { result ≡ pair_at first rest.now all.now }
{
    let first = first as usize;
    let sign = nth_text(first + 1, rest);
    combined_by(
        sign,
        value_of(nth_text(first, rest), all),
        value_of(nth_text(first + 2, rest), all),
    )
}

fn constant_of(number: Option<usize>, tokens: usize) -> Option<Constant>
    ensures { result ≡ constant_of number tokens }
{
    match number {
        Some(number) => Some(Constant { number, tokens }),
        None => None,
    }
}

// The number that a token of a source stands for.
fn value_of(text: &[u8], all: &[Piece]) -> Option<usize>
    ensures { result ≡ value_of text.now all.now }
{
    match number_of(text) {
        Some(number) => Some(number),
        None => macro_of(text, all).number,
    }
}

// The macro with this name in a source.
fn macro_of(name: &[u8], all: &[Piece]) -> Macro
    ensures { result ≡ macro_of name.now all.now }
{
    let mut found = no_macro();
    let mut context = at_first();
    for (i, piece) in all.iter().enumerate() {
        found = macro_at(name, found, context, piece, &all[i + 1..]);
        context = context_behind(context, class_of(piece));
    }
    found
}

fn no_macro() -> Macro
    ensures { result ≡ no_macro }
{
    Macro {
        is_defined: false,
        number: None,
    }
}

fn macro_at(name: &[u8], found: Macro, context: Context, piece: &Piece, rest: &[Piece]) -> Macro
    ensures { result ≡ macro_at name.now found context piece.now rest.now }
{
    if defines(name, context, piece, rest) {
        return macro_with(found, definition_in(rest));
    }
    if is_used_before(name, found, context, piece) {
        unknown()
    } else {
        found
    }
}

// Whether the name stands there in code, and is no macro yet.
fn is_used_before(name: &[u8], found: Macro, context: Context, piece: &Piece) -> bool
    ensures { result ≡ is_used_before name.now found context piece.now }
{
    !found.is_defined && (is_code(context.line) && piece.text.as_slice() == name)
}

// What is used before it is defined stands for no number.
fn unknown() -> Macro
    ensures { result ≡ unknown }
{
    Macro {
        is_defined: true,
        number: None,
    }
}

// With a definition more: what is defined twice stands for no number.
fn macro_with(found: Macro, definition: &[Piece]) -> Macro
    ensures { result ≡ macro_with found definition.now }
{
    Macro {
        is_defined: true,
        number: if found.is_defined {
            None
        } else {
            body_number(definition)
        },
    }
}

// The number that a macro with this name and body stands for.
fn body_number(definition: &[Piece]) -> Option<usize>
    ensures { result ≡ body_number definition.now }
{
    if nth_text(2, definition).is_empty() {
        number_of(nth_text(1, definition))
    } else {
        None
    }
}

// Whether a macro with this name is defined behind this `#`.
fn defines(name: &[u8], context: Context, piece: &Piece, rest: &[Piece]) -> bool
    ensures { result ≡ defines name.now context piece.now rest.now }
{
    let is_hash = is_fresh(context.line) && piece.text.as_slice() == b"#".as_slice();
    is_hash && is_nth(0, name, definition_in(rest))
}

fn is_fresh(line: Line) -> bool
    ensures { result ≡ is_fresh line }
{
    match line {
        Line::Fresh => true,
        _ => false,
    }
}
