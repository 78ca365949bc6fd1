//! What is written for an array, and for its indices.

ghost use Rattle.std.specs.Prelude.{◌≡◌, ◌++◌, decimal, IfOk, OnOk};
ghost use Rattle.lab_port_arrays.specs.Written.{sized_text, is_inner, inner_part, closed_behind, inner_text, index_text};

use crate::bracket::{closes, depth_behind};
use itoa::Buffer;
use lab_port_context::deeper;
use lab_port_tokens::Piece;
use lab_port_words::{Class, class_of, is_gap};
use om_seq::AllocResult;
use std::alloc::Global;

/// An array with this length. The only error is out of memory.
pub fn sized_text(alloc: Global, name: &[u8], number: usize) -> AllocResult<Vec<u8>>
    ensures { IfOk result (λ text. text.items ≡ sized_text name.now number) }
{
    let mut text = Vec::from_slice(alloc, name)?;
    text.extend_from_slice(b"[")?;
    push_number(&mut text, number)?;
    text.extend_from_slice(b"]")?;
    Ok(text)
}

/// An element by one index, where a row has so many elements. The only error is out of memory.
pub fn index_text(
    alloc: Global,
    name: &[u8],
    columns: usize,
    pieces: &[Piece],
) -> AllocResult<Vec<u8>>
    ensures { IfOk result (λ text. text.items ≡ index_text name.now columns pieces.now) }
{
    let mut text = Vec::from_slice(alloc, name)?;
    text.extend_from_slice(b"[(")?;
    push_inner(&mut text, 0, pieces)?;
    text.extend_from_slice(b") * ")?;
    push_number(&mut text, columns)?;
    text.extend_from_slice(b" + (")?;
    push_inner(&mut text, 1, pieces)?;
    text.extend_from_slice(b")]")?;
    Ok(text)
}

// Appends what stands between the brackets of the index with this number.
fn push_inner(out: &mut Vec<u8>, number: usize, pieces: &[Piece]) -> AllocResult<()>
    ensures { OnOk result (out.new.items ≡ out.old.items ++ inner_text number pieces.now) }
{
    let mut depth = 0;
    let mut closed = 0;
    for piece in pieces {
        let class = class_of(piece);
        out.extend_from_slice(inner_part(number, depth, closed, piece))?;
        closed = closed_behind(depth, closed, class);
        depth = depth_behind(depth, class);
    }
    Ok(())
}

fn inner_part(number: usize, depth: usize, closed: usize, piece: &Piece) -> &[u8]
    ensures { result.now ≡ inner_part number depth closed piece.now }
{
    let class = class_of(piece);
    if !is_inner(number, depth, closed, class) {
        return b"";
    }
    if is_gap(class) {
        b" "
    } else {
        piece.text.as_slice()
    }
}

// Whether a piece stands between the brackets of the index with this number.
fn is_inner(number: usize, depth: usize, closed: usize, class: Class) -> bool
    ensures { result ≡ is_inner number depth closed class }
{
    (0 < depth && closed == number) && !closes(depth, class)
}

fn closed_behind(depth: usize, closed: usize, class: Class) -> usize
    ensures { result ≡ closed_behind depth closed class }
{
    if closes(depth, class) {
        deeper(closed)
    } else {
        closed
    }
}

// Appends a number in decimal.
fn push_number(out: &mut Vec<u8>, number: usize) -> AllocResult<()>
    ensures { OnOk result (out.new.items ≡ out.old.items ++ decimal number) }
{
    let mut buffer = Buffer::new();
    out.extend_from_slice(buffer.format(number).as_bytes())
}
