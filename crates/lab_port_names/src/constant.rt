//! The constants of an enumeration (C17 6.7.2.2).

ghost use Rattle.std.specs.Prelude.{◌≡◌, ◌++◌, [], codes, decimal, IfOk, OnOk};
ghost use Rattle.lab_port_names.specs.Enumerations.{given_value, value_text, is_constant, constant_in, with_constant, past, constants_with, constants_from, no_constants, is_open_brace, behind_brace, constants_of};

use crate::names::meaning_of;
use itoa::Buffer;
use lab_port_context::{deeper, is_comma, nth_text};
use lab_port_rules::Meaning;
use lab_port_tokens::Piece;
use lab_port_words::{Class, Sign, class_of, is_gap, is_word};
use om_seq::{AllocResult, Seq};
use std::alloc::Global;

/// The constants of an enumeration so far.
#[derive(Drop)]
pub struct Constants {
    /// The constants.
    pub found: Seq<Meaning>,
    /// The last value that was given; empty where none was.
    pub base: Seq<u8>,
    /// How much the next constant is above it.
    pub offset: usize,
    /// Whether the next word is a constant.
    pub is_fresh: bool,
}

/// The constants of an enumeration, where these names are known. The only error is out of memory.
pub(crate) fn constants_of(
    alloc: Global,
    names: &[Meaning],
    list: &[Piece],
) -> AllocResult<Seq<Meaning>>
    ensures { IfOk result (λ found. found ≡ constants_of names.now list.now) }
{
    let found = constants_from(alloc, names, behind_brace(list))?;
    Ok(found.found)
}

// The constants of the pieces behind the `{`.
fn constants_from(alloc: Global, names: &[Meaning], list: &[Piece]) -> AllocResult<Constants>
    ensures { IfOk result (λ found. found ≡ constants_from names.now no_constants list.now) }
{
    let mut state = no_constants(alloc);
    for (i, piece) in list.iter().enumerate() {
        state = constants_with(alloc, names, state, piece, &list[i + 1..])?;
    }
    Ok(state)
}

fn no_constants(alloc: Global) -> Constants
    ensures { result ≡ no_constants }
{
    Constants {
        found: Seq::new(alloc),
        base: Seq::new(alloc),
        offset: 0,
        is_fresh: true,
    }
}

// The constants with a further piece.
fn constants_with(
    alloc: Global,
    names: &[Meaning],
    state: Constants,
    piece: &Piece,
    rest: &[Piece],
) -> AllocResult<Constants>
    ensures { IfOk result (λ next. next ≡ constants_with names.now state piece.now rest.now) }
{
    let class = class_of(piece);
    if !is_constant(&state, class) {
        return Ok(past(state, class));
    }
    let given = given_value(alloc, names, rest)?;
    with_constant(alloc, given, state, piece)
}

// A constant begins there.
fn is_constant(state: &Constants, class: Class) -> bool
    ensures { result ≡ is_constant state.now class }
{
    state.is_fresh && is_word(class)
}

// With one constant more, which is given this value, or is one more than the one before.
fn with_constant(
    alloc: Global,
    given: Vec<u8>,
    state: Constants,
    piece: &Piece,
) -> AllocResult<Constants>
    ensures { IfOk result (λ next. next ≡ with_constant given.items state piece.now) }
{
    if given.is_empty() {
        return counted(alloc, state, piece);
    }
    let mut found = state.found;
    found.push(constant_in(alloc, piece, given.as_slice(), 0)?)?;
    Ok(Constants {
        found,
        base: Seq::of(given),
        offset: 1,
        is_fresh: false,
    })
}

// With one constant more, which is one more than the one before.
fn counted(alloc: Global, state: Constants, piece: &Piece) -> AllocResult<Constants>
    ensures { IfOk result (λ next. next ≡ with_constant [] state piece.now) }
{
    let mut found = state.found;
    found.push(constant_in(alloc, piece, state.base.as_slice(), state.offset)?)?;
    Ok(Constants {
        found,
        base: state.base,
        offset: deeper(state.offset),
        is_fresh: false,
    })
}

// Behind a piece that begins no constant.
fn past(state: Constants, class: Class) -> Constants
    ensures { result ≡ past state class }
{
    let is_fresh = if is_gap(class) {
        state.is_fresh
    } else {
        is_comma(class)
    };
    Constants {
        found: state.found,
        base: state.base,
        offset: state.offset,
        is_fresh,
    }
}

fn constant_in(alloc: Global, piece: &Piece, base: &[u8], offset: usize) -> AllocResult<Meaning>
    ensures { IfOk result (λ found. found ≡ constant_in piece.now base.now offset) }
{
    let name = Vec::from_slice(alloc, piece.text.as_slice())?;
    let mut text = Vec::new(alloc);
    push_value(&mut text, base, offset)?;
    Ok(Meaning {
        name: Seq::of(name),
        text: Seq::of(text),
    })
}

// Appends the value of a constant that is so much above this one.
fn push_value(out: &mut Vec<u8>, base: &[u8], offset: usize) -> AllocResult<()>
    ensures { OnOk result (out.new.items ≡ out.old.items ++ value_text base.now offset) }
{
    if base.is_empty() {
        return push_number(out, offset);
    }
    if offset == 0 {
        return out.extend_from_slice(base);
    }
    out.extend_from_slice(b"(")?;
    out.extend_from_slice(base)?;
    out.extend_from_slice(b" + ")?;
    push_number(out, offset)?;
    out.extend_from_slice(b")")
}

// Appends a number in decimal.
fn push_number(out: &mut Vec<u8>, number: usize) -> AllocResult<()>
    ensures { OnOk result (out.new.items ≡ out.old.items ++ decimal number) }
{
    let mut buffer = Buffer::new();
    out.extend_from_slice(buffer.format(number).as_bytes())
}

// The value that is given to the constant before these pieces; nothing where none is.
fn given_value(alloc: Global, names: &[Meaning], rest: &[Piece]) -> AllocResult<Vec<u8>>
    ensures { IfOk result (λ value. value.items ≡ given_value names.now rest.now) }
{
    if nth_text(0, rest) != b"=".as_slice() {
        return Ok(Vec::new(alloc));
    }
    if nth_text(1, rest) == b"-".as_slice() {
        return negative(alloc, nth_text(2, rest));
    }
    Vec::from_slice(alloc, meaning_of(nth_text(1, rest), names))
}

// A number with a minus, in parentheses.
fn negative(alloc: Global, number: &[u8]) -> AllocResult<Vec<u8>>
    ensures { IfOk result (λ value. value.items ≡ codes "(-" ++ number.now ++ codes ")") }
{
    let mut value = Vec::from_slice(alloc, b"(-")?;
    value.extend_from_slice(number)?;
    value.extend_from_slice(b")")?;
    Ok(value)
}

// The pieces behind the first `{`.
fn behind_brace(list: &[Piece]) -> &[Piece]
    ensures { result.now ≡ behind_brace list.now }
{
    for (i, piece) in list.iter().enumerate() {
        if is_open_brace(class_of(piece)) {
            return &list[i + 1..];
        }
    }
    &[]
}

fn is_open_brace(class: Class) -> bool
    ensures { result ≡ is_open_brace class }
{
    match class {
        Class::Sign(Sign::OpenBrace) => true,
        _ => false,
    }
}
