//! The name that a `typedef` gives to a type of whole numbers (C17 6.7.8).

ghost use Rattle.std.specs.Prelude.{◌≡◌, ◌≤◌, [], length, IfSome, IfOk};
ghost use Rattle.lab_port_names.specs.Types.{is_plain, is_of_type, goes_if, behind_type, type_next_by, type_next, type_end, type_text, is_type_name, last_name};

use lab_port_context::{is_semicolon, is_whole_type};
use lab_port_tokens::Piece;
use lab_port_words::{Class, Storage, class_of, is_gap, is_word};
use om_seq::AllocResult;
use std::alloc::Global;

/// What stands before a token of such a definition.
#[derive(Clone, Copy)]
pub enum TypePart {
    /// The word `typedef`.
    Typedef,
    /// The word `typedef`, behind which a name stands that is known.
    Alias,
    /// A word of the type.
    Type,
    /// The name.
    Name,
}

/// What a piece is to such a definition.
#[derive(Clone, Copy)]
pub enum TypeNext {
    /// No part of it.
    Fails,
    /// Its `;`.
    Ends,
    /// A part of it, behind which this stands before the next one.
    Goes(TypePart),
}

/// How many pieces there are up to the `;` of a definition and with it, behind this.
pub(crate) fn type_end(first: TypePart, rest: &[Piece]) -> Option<usize>
    ensures size { result ≡ type_end 0 first rest.now }
    ensures inside { IfSome result (λ size. size ≤ length rest.now) }
{
    let mut part = first;
    for (i, piece) in rest.iter().enumerate() {
        match type_next(part, class_of(piece)) {
            TypeNext::Fails => return None,
            TypeNext::Ends => return Some(i + 1),
            TypeNext::Goes(next) => part = next,
        }
    }
    None
}

/// The words of the type, each behind a space. The only error is out of memory.
pub(crate) fn type_text(alloc: Global, pieces: &[Piece]) -> AllocResult<Vec<u8>>
    ensures { IfOk result (λ text. text.items ≡ type_text pieces.now) }
{
    let mut text = Vec::new(alloc);
    for piece in pieces {
        if is_of_type(class_of(piece)) {
            text.push(b' ')?;
            text.extend_from_slice(piece.text.as_slice())?;
        }
    }
    Ok(text)
}

/// The last word that is none of a type.
pub(crate) fn last_name(pieces: &[Piece]) -> &[u8]
    ensures { result.now ≡ last_name [] pieces.now }
{
    let mut name: &[u8] = b"";
    for piece in pieces {
        if is_type_name(class_of(piece)) {
            name = piece.text.as_slice();
        }
    }
    name
}

// What a piece is behind this.
fn type_next(part: TypePart, class: Class) -> TypeNext
    ensures { result ≡ type_next part class }
{
    if is_gap(class) {
        TypeNext::Goes(part)
    } else {
        type_next_by(part, class)
    }
}

// What a token is behind this.
fn type_next_by(part: TypePart, class: Class) -> TypeNext
    ensures { result ≡ type_next_by part class }
{
    match part {
        TypePart::Typedef => goes_if(is_of_type(class), TypePart::Type),
        TypePart::Alias => goes_if(is_word(class), TypePart::Type),
        TypePart::Type => behind_type(class),
        TypePart::Name if is_semicolon(class) => TypeNext::Ends,
        TypePart::Name => TypeNext::Fails,
    }
}

fn behind_type(class: Class) -> TypeNext
    ensures { result ≡ behind_type class }
{
    if is_of_type(class) {
        TypeNext::Goes(TypePart::Type)
    } else {
        goes_if(is_word(class), TypePart::Name)
    }
}

fn goes_if(goes: bool, part: TypePart) -> TypeNext
    ensures { result ≡ goes_if goes part }
{
    if goes {
        TypeNext::Goes(part)
    } else {
        TypeNext::Fails
    }
}

fn is_of_type(class: Class) -> bool
    ensures { result ≡ is_of_type class }
{
    is_whole_type(class) || is_plain(class)
}

fn is_plain(class: Class) -> bool
    ensures { result ≡ is_plain class }
{
    match class {
        Class::Storage(Storage::Plain) => true,
        _ => false,
    }
}

fn is_type_name(class: Class) -> bool
    ensures { result ≡ is_type_name class }
{
    is_word(class) && !is_of_type(class)
}
