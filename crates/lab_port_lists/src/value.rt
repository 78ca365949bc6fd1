//! The values of a list, and the stores that take its place.

ghost use Rattle.std.specs.Prelude.{◌≡◌, ◌++◌, [], true, ◌-◌, ◌==◌, if◌then◌else◌, codes, decimal, OnOk};
ghost use Rattle.lab_port_context.specs.Contexts.{deeper};
ghost use Rattle.lab_port_lists.specs.Values.{is_open_brace, is_close_brace, depth_behind, parts_values, is_of_value, values_with, no_values, store_head, value_part, stores_from, values_from, behind_brace, count_of, stores_of};

use itoa::Buffer;
use lab_port_context::{deeper, is_comma};
use lab_port_tokens::Piece;
use lab_port_words::{Class, Sign, class_of, is_gap};
use om_seq::AllocResult;

/// The values of a list so far.
#[derive(Clone, Copy)]
pub struct Values {
    /// How many have begun.
    pub count: usize,
    /// How many brackets are open in the last one.
    pub depth: usize,
    /// Whether no comma stands behind the last one.
    pub begun: bool,
}

/// How many values stand in a list.
pub(crate) fn count_of(list: &[Piece]) -> usize
    ensures { result ≡ count_of list.now }
{
    let mut values = no_values();
    for piece in behind_brace(list) {
        values = values_with(values, class_of(piece));
    }
    values.count
}

/// Appends a store for each value of a list. The only error is out of memory.
pub(crate) fn push_stores(out: &mut Vec<u8>, name: &[u8], list: &[Piece]) -> AllocResult<()>
    ensures { OnOk result (out.new.items ≡ out.old.items ++ stores_of name.now list.now) }
{
    let list = behind_brace(list);
    let mut values = no_values();
    for piece in list {
        push_value(out, name, values, piece)?;
        values = values_with(values, class_of(piece));
    }
    Ok(())
}

/// Appends a number in decimal. The only error is out of memory.
pub(crate) fn push_number(out: &mut Vec<u8>, number: usize) -> AllocResult<()>
    ensures { OnOk result (out.new.items ≡ out.old.items ++ decimal number) }
{
    let mut buffer = Buffer::new();
    out.extend_from_slice(buffer.format(number).as_bytes())
}

fn no_values() -> Values
    ensures { result ≡ no_values }
{
    Values {
        count: 0,
        depth: 0,
        begun: false,
    }
}

// The values behind a token.
fn values_with(values: Values, class: Class) -> Values
    ensures { result ≡ values_with values class }
{
    if is_of_value(values, class) {
        return value_with(values, class);
    }
    Values {
        count: values.count,
        depth: values.depth,
        begun: values.begun && !parts_values(values, class),
    }
}

// The values behind a token of one.
fn value_with(values: Values, class: Class) -> Values
    ensures count { result.count ≡ (if values.begun then values.count else deeper values.count) }
    ensures depth { result.depth ≡ depth_behind values.depth class }
    ensures begun { result.begun ≡ true }
{
    Values {
        count: if values.begun {
            values.count
        } else {
            deeper(values.count)
        },
        depth: depth_behind(values.depth, class),
        begun: true,
    }
}

// Appends what a piece of a value is in its store.
fn push_value(out: &mut Vec<u8>, name: &[u8], values: Values, piece: &Piece) -> AllocResult<()>
    ensures { OnOk result
        (out.new.items ≡ out.old.items ++ value_part name.now values piece.now) }
{
    if !is_of_value(values, class_of(piece)) {
        return Ok(());
    }
    if !values.begun {
        push_head(out, name, values.count)?;
    }
    out.extend_from_slice(b" ")?;
    out.extend_from_slice(piece.text.as_slice())
}

// Appends what stands before the value with this number.
fn push_head(out: &mut Vec<u8>, name: &[u8], number: usize) -> AllocResult<()>
    ensures { OnOk result (out.new.items ≡ out.old.items ++ store_head name.now number) }
{
    out.extend_from_slice(separator(number))?;
    out.extend_from_slice(b" ")?;
    out.extend_from_slice(name)?;
    out.extend_from_slice(b"[")?;
    push_number(out, number)?;
    out.extend_from_slice(b"] =")
}

fn separator(number: usize) -> &'static [u8]
    ensures { result.now ≡ (if number == 0 then [] else codes ";") }
{
    if number == 0 { b"" } else { b";" }
}

// A token of a value.
fn is_of_value(values: Values, class: Class) -> bool
    ensures { result ≡ is_of_value values class }
{
    !(is_gap(class) || (parts_values(values, class) || is_close_brace(class)))
}

// A comma outside of brackets, which ends a value.
fn parts_values(values: Values, class: Class) -> bool
    ensures { result ≡ parts_values values class }
{
    values.depth == 0 && is_comma(class)
}

// How many brackets are open behind a token.
fn depth_behind(depth: usize, class: Class) -> usize
    ensures { result ≡ depth_behind depth class }
{
    match class {
        Class::Sign(Sign::Open | Sign::OpenBracket) => deeper(depth),
        Class::Sign(Sign::Close | Sign::CloseBracket) => shallower(depth),
        _ => depth,
    }
}

// One bracket fewer.
fn shallower(depth: usize) -> usize
    ensures { result ≡ depth - 1 }
{
    if depth > 0 { depth - 1 } else { 0 }
}

// The pieces behind the first `{`.
fn behind_brace(list: &[Piece]) -> &[Piece]
    ensures { result.now ≡ behind_brace list.now }
{
    for (i, piece) in list.iter().enumerate() {
        if is_open_brace(class_of(piece)) {
            return &list[i + 1..];
        }
    }
    &[]
}

/// Whether it is a `{`.
pub(crate) fn is_open_brace(class: Class) -> bool
    ensures { result ≡ is_open_brace class }
{
    match class {
        Class::Sign(Sign::OpenBrace) => true,
        _ => false,
    }
}

fn is_close_brace(class: Class) -> bool
    ensures { result ≡ is_close_brace class }
{
    match class {
        Class::Sign(Sign::CloseBrace) => true,
        _ => false,
    }
}
