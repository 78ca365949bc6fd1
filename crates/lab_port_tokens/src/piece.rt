//! What a piece is, and the pieces of a source.

ghost use Rattle.std.specs.Prelude.{◌≡◌, IfOk, length, ◌<◌, ◌≤◌, ◌+◌, slice_index};
ghost use Rattle.lab_port_tokens.specs.Pieces.{kind_of, piece_at, pieces_of, bytes_of};

use crate::character::{is_blank, is_digit, is_word_byte};
use crate::scan::{scan_after, size_from};
use om_seq::{AllocResult, Seq};
use std::alloc::Global;

/// What a piece is (C17 6.4).
#[derive(Clone, Copy, PartialEq, Eq)]
pub enum PieceKind {
    /// A line feed.
    LineEnd,
    /// White space in a line, or a backslash with the line end behind it, if one stands there.
    Space,
    /// A comment, with the line ends in it.
    Comment,
    /// A name or a keyword.
    Word,
    /// A number of any kind.
    Number,
    /// A text in double quotes; where its line ends before the quote, it is what stands up to there.
    Text,
    /// A character in single quotes; where its line ends before the quote, it is what stands up to there.
    Character,
    /// A punctuator, or one byte that no piece begins with.
    Mark,
}

/// A piece of a source.
#[derive(Drop)]
pub struct Piece {
    /// What it is.
    pub kind: PieceKind,
    /// Where its first byte stands in the source.
    pub at: usize,
    /// Its bytes, one at least.
    pub text: Seq<u8>,
}

/// The pieces of a source, in order. Their bytes, in this order, are the source. The only error is out of memory.
pub fn pieces(alloc: Global, source: &[u8]) -> AllocResult<Vec<Piece>>
    ensures pieces { IfOk result (λ pieces. pieces.items ≡ pieces_of source.now) }
    ensures whole { IfOk result (λ pieces. bytes_of pieces.items ≡ source.now) }
{
    let mut pieces = Vec::new(alloc);
    let mut at = 0;
    while at < source.len() {
        let piece = piece_at(alloc, source, at)?;
        at += piece.text.len();
        pieces.push(piece)?;
    }
    Ok(pieces)
}

// What a piece is, by its first two bytes; the second is 0 where there is none.
fn kind_of(first: u8, second: u8) -> PieceKind
    ensures { result ≡ kind_of first second }
{
    if first == b'\n' {
        return PieceKind::LineEnd;
    }
    if is_blank(first) || first == b'\\' {
        return PieceKind::Space;
    }
    if is_digit(first) || (first == b'.' && is_digit(second)) {
        return PieceKind::Number;
    }
    if is_word_byte(first) {
        return PieceKind::Word;
    }
    match first {
        b'"' => PieceKind::Text,
        b'\'' => PieceKind::Character,
        b'/' if second == b'*' || second == b'/' => PieceKind::Comment,
        _ => PieceKind::Mark,
    }
}

// The first of some bytes; 0 where there is none.
fn first_of(bytes: &[u8]) -> u8
    ensures { result ≡ slice_index bytes.now 0 }
{
    if bytes.is_empty() { 0 } else { bytes[0] }
}

// The piece that begins there.
fn piece_at(alloc: Global, source: &[u8], at: usize) -> AllocResult<Piece>
    requires { at < length source.now }
    ensures piece { IfOk result (λ piece. piece ≡ piece_at source.now at) }
    ensures inside { IfOk result (λ piece. at + length piece.text ≤ length source.now) }
    ensures moves { IfOk result (λ piece. 0 < length piece.text) }
{
    let here = &source[at..];
    let first = source[at];
    let rest = &source[at + 1..];
    let size = size_from(scan_after(first), rest) + 1;
    let text = Vec::from_slice(alloc, &here[..size])?;
    Ok(Piece {
        kind: kind_of(first, first_of(rest)),
        at,
        text: Seq::of(text),
    })
}
