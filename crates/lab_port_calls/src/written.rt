//! What is written for a call of a macro (C17 6.10.3.1, 6.10.3.4).

ghost use Rattle.std.specs.Prelude.{◌≡◌, ◌++◌, ◌≤◌, length, flat_map, IfOk, IfSome, OnOk};
ghost use Rattle.lab_port_calls.specs.Lists.{spaced};
ghost use Rattle.lab_port_calls.specs.Written.{function_text, is_known, body_of, parameter_number, body_part, called_text, call_size, text_by, size_by, text_here, taken_here, once_from, once, rounds, call_text};

use crate::list::{list_of, parameter_of, push_argument, spaced};
use lab_port_rules::Meaning;
use lab_port_tokens::{Piece, pieces};
use lab_port_words::{class_of, is_word};
use om_seq::AllocResult;
use std::alloc::Global;

/// What a call with this list becomes, with the calls in it. The only error is out of memory.
pub fn call_text(
    alloc: Global,
    names: &[Meaning],
    name: &[u8],
    list: &[Piece],
) -> AllocResult<Vec<u8>>
    ensures { IfOk result (λ text. text.items ≡ call_text names.now name.now list.now) }
{
    let mut text = Vec::from_slice(alloc, name)?;
    push_spaced(&mut text, list)?;
    rounds(alloc, 8, names, text)
}

/// Whether it is the name of one of these macros.
pub(crate) fn is_known(name: &[u8], names: &[Meaning]) -> bool
    ensures { result ≡ is_known name.now names.now }
{
    function_text(name, names).len() > 0
}

// Appends some pieces, with a space for white space and comments.
fn push_spaced(out: &mut Vec<u8>, pieces: &[Piece]) -> AllocResult<()>
    ensures { OnOk result (out.new.items ≡ out.old.items ++ flat_map spaced pieces.now) }
{
    for piece in pieces {
        out.extend_from_slice(spaced(piece))?;
    }
    Ok(())
}

// A text that is read again, so many times, and while it has 1,024 bytes at most.
fn rounds(alloc: Global, left: usize, names: &[Meaning], text: Vec<u8>) -> AllocResult<Vec<u8>>
    ensures { IfOk result (λ out. out.items ≡ rounds left names.now text.items) }
{
    let Some(left) = left.checked_sub(1) else {
        return Ok(text);
    };
    let next = once(alloc, names, &text)?;
    if next.len() > 1024 {
        return Ok(text);
    }
    let out = rounds(alloc, left, names, next)?;
    Ok(out)
}

// A text where each call is the body of its macro.
fn once(alloc: Global, names: &[Meaning], text: &[u8]) -> AllocResult<Vec<u8>>
    ensures { IfOk result (λ out. out.items ≡ once names.now text.now) }
{
    let pieces = pieces(alloc, text)?;
    let out = written_once(alloc, names, &pieces)?;
    Ok(out)
}

// Some pieces where each call is the body of its macro.
fn written_once(alloc: Global, names: &[Meaning], pieces: &[Piece]) -> AllocResult<Vec<u8>>
    ensures { IfOk result (λ out. out.items ≡ once_from names.now 0 pieces.now) }
{
    let mut out = Vec::new(alloc);
    let mut taken = 0;
    for (i, piece) in pieces.iter().enumerate() {
        if taken == 0 {
            taken = push_here(alloc, &mut out, names, piece, &pieces[i + 1..])?;
        } else {
            taken -= 1;
        }
    }
    Ok(out)
}

// Appends what is written for a piece, before these, and answers how many of them are written with it.
fn push_here(
    alloc: Global,
    out: &mut Vec<u8>,
    names: &[Meaning],
    piece: &Piece,
    rest: &[Piece],
) -> AllocResult<usize>
    ensures text { OnOk result
        (out.new.items ≡ out.old.items ++ text_here names.now piece.now rest.now) }
    ensures taken { IfOk result (λ taken. taken ≡ taken_here names.now piece.now rest.now) }
{
    let function = pieces(alloc, function_text(piece.text.as_slice(), names))?;
    let taken = push_call(out, &function, piece, rest)?;
    Ok(taken)
}

// The same, where the piece is the name of this macro, if it is one.
fn push_call(
    out: &mut Vec<u8>,
    function: &[Piece],
    piece: &Piece,
    rest: &[Piece],
) -> AllocResult<usize>
    ensures text { OnOk result
        (out.new.items ≡ out.old.items
        ++ text_by (call_size function.now rest.now) function.now piece.now rest.now) }
    ensures taken { IfOk result (λ taken. taken ≡ size_by (call_size function.now rest.now)) }
{
    let Some(size) = call_size(function, rest) else {
        out.extend_from_slice(spaced(piece))?;
        return Ok(0);
    };
    push_called(out, function, &rest[..size])?;
    Ok(size)
}

// Appends the body of a macro that is called with this list.
fn push_called(out: &mut Vec<u8>, function: &[Piece], list: &[Piece]) -> AllocResult<()>
    ensures { OnOk result (out.new.items ≡ out.old.items ++ called_text function.now list.now) }
{
    out.extend_from_slice(b" ")?;
    push_body(out, function, list, body_of(function))?;
    out.extend_from_slice(b" ")
}

// Appends the pieces of a body, where the macro is called with this list.
fn push_body(
    out: &mut Vec<u8>,
    function: &[Piece],
    list: &[Piece],
    body: &[Piece],
) -> AllocResult<()>
    ensures { OnOk result
        (out.new.items ≡ out.old.items ++ flat_map (body_part function.now list.now) body.now) }
{
    for piece in body {
        push_part(out, function, list, piece)?;
    }
    Ok(())
}

// Appends a piece of a body. A parameter is its argument, with a space on each side.
fn push_part(
    out: &mut Vec<u8>,
    function: &[Piece],
    list: &[Piece],
    piece: &Piece,
) -> AllocResult<()>
    ensures { OnOk result
        (out.new.items ≡ out.old.items ++ body_part function.now list.now piece.now) }
{
    let Some(number) = parameter_number(function, piece) else {
        return out.extend_from_slice(spaced(piece));
    };
    out.extend_from_slice(b" ")?;
    push_argument(out, number, list)?;
    out.extend_from_slice(b" ")
}

// The number of the parameter that a piece of a body names.
fn parameter_number(function: &[Piece], piece: &Piece) -> Option<usize>
    ensures { result ≡ parameter_number function.now piece.now }
{
    if is_word(class_of(piece)) {
        parameter_of(piece.text.as_slice(), function)
    } else {
        None
    }
}

// The body behind the parameters.
fn body_of(function: &[Piece]) -> &[Piece]
    ensures { result.now ≡ body_of function.now }
{
    match list_of(function) {
        Some(list) => &function[list.size..],
        None => &[],
    }
}

// How many pieces the list of a call of this macro has. It has as many arguments as the macro has parameters.
fn call_size(function: &[Piece], rest: &[Piece]) -> Option<usize>
    ensures size { result ≡ call_size function.now rest.now }
    ensures inside { IfSome result (λ size. size ≤ length rest.now) }
{
    let Some(parameters) = list_of(function) else {
        return None;
    };
    let Some(list) = list_of(rest) else {
        return None;
    };
    if parameters.commas == list.commas {
        Some(list.size)
    } else {
        None
    }
}

// The parameters and the body of the macro with this name; nothing where there is none.
fn function_text<'a>(name: &[u8], names: &'a [Meaning]) -> &'a [u8]
    ensures { result.now ≡ function_text name.now names.now }
{
    for next in names {
        if next.name.as_slice() == name {
            return next.text.as_slice();
        }
    }
    b""
}
