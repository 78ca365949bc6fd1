//! The piece at a byte of the source, and the token at one.

ghost use Rattle.std.specs.Prelude.{◌≡◌, ◌<◌, ◌≤◌, ◌↔◌, true, length, IfOk, IfErr, IsTrue, slice_index, false};
ghost use Rattle.om_lexer.specs.WhiteSpace.{BeginsComment};
ghost use Rattle.om_lexer.specs.Pieces.{IsPiece, context_of, is_fresh};
ghost use Rattle.om_lexer.specs.Folding.{HasWordsInside};
ghost use Rattle.om_lexer.specs.Sources.{IsWrongAt, source_limit};
ghost use Rattle.om_lexer.specs.Characters.{is_word_byte};
ghost use Rattle.om_lexer.specs.Faults.{IsRefusalAt};
ghost use Rattle.om_lexer.specs.Tokens.{IsToken, IsNoToken};

use crate::character::{byte_at, is_word_byte};
use crate::fault::{SourceResult, bad_token};
use crate::hash_line::hash_line_at;
use crate::macros::Macros;
use crate::piece::{LineState, Piece, PieceKind};
use crate::spelling::{longest_punctuator, punctuator_text};
use crate::text::text_at;
use crate::token::TokenKind;
use crate::white_space::white_space_end;
use crate::word::{word_end, word_kind};
use std::alloc::Global;

/// The piece that begins at a byte of the source, behind what stands before it on its line and the macros.
pub(crate) fn piece_at(
    alloc: Global,
    source: &[u8],
    at: usize,
    state: &LineState,
    macros: &Macros,
) -> SourceResult<Piece>
    requires inside { at < length source.now }
    requires below { at < source_limit }
    ensures piece { IfOk result (IsPiece source.now (context_of state.now macros.now) at) }
    ensures moves { IfOk result (λ piece. at < piece.end) }
    ensures inside { IfOk result (λ piece. piece.end ≤ length source.now) }
    ensures words { IfOk result (λ piece. HasWordsInside piece.kind at piece.end) }
    ensures fault { IfErr result (IsWrongAt source.now (context_of state.now macros.now) at) }
{
    read_piece(alloc, source, at, state, macros)
}

// The piece itself. That it has a byte and ends in the source follows from what it is, so `piece_at`
// adds it.
fn read_piece(
    alloc: Global,
    source: &[u8],
    at: usize,
    state: &LineState,
    macros: &Macros,
) -> SourceResult<Piece>
    requires inside { at < length source.now }
    requires below { at < source_limit }
    ensures piece { IfOk result (IsPiece source.now (context_of state.now macros.now) at) }
    ensures fault { IfErr result (IsWrongAt source.now (context_of state.now macros.now) at) }
{
    if source[at] == b'\n' {
        return Ok(Piece {
            kind: PieceKind::LineFeed,
            end: at + 1,
        });
    }
    if let Some(end) = white_space_end(source, at) {
        return Ok(Piece {
            kind: PieceKind::Space,
            end,
        });
    }
    if begins_comment(source, at) {
        return Err(bad_token(at));
    }
    if state.is_ignored() {
        if source[at] >= 128 {
            return Err(bad_token(at));
        }
        return Ok(Piece {
            kind: PieceKind::Passed,
            end: at + 1,
        });
    }
    if begins_hash_line(source, at, state) {
        let (line, end) = hash_line_at(alloc, source, at, macros)?;
        return Ok(Piece {
            kind: PieceKind::HashLine(line),
            end,
        });
    }
    let (kind, end) = token_at(alloc, source, at)?;
    Ok(Piece {
        kind: PieceKind::Token(kind),
        end,
    })
}

// Whether a `#` line begins there.
fn begins_hash_line(source: &[u8], at: usize, state: &LineState) -> bool
    requires { at < length source.now }
    ensures { IsTrue result ↔ ((slice_index source.now at ≡ 35) × (is_fresh state.now ≡ true)) }
{
    source[at] == b'#' && state.is_fresh()
}

// Whether a comment begins there.
fn begins_comment(source: &[u8], at: usize) -> bool
    requires { at < length source.now }
    ensures { IsTrue result ↔ BeginsComment source.now at }
{
    let next = byte_at(source, at + 1);
    source[at] == b'/' && (next == b'*' || next == b'/')
}

/// The token that begins there, where no comment does, and the byte behind it; S2 or S10 where none does.
pub(crate) fn token_at(alloc: Global, source: &[u8], at: usize) -> SourceResult<(TokenKind, usize)>
    requires inside { at < length source.now }
    requires below { at < source_limit }
    requires no_comment { BeginsComment source.now at → ⊥ }
    ensures token { IfOk result (λ read. IsToken source.now at read.1 read.0) }
    ensures fault { IfErr result (IsRefusalAt at (IsNoToken source.now at)) }
{
    if is_word_byte(source[at]) {
        return word_at(alloc, source, at);
    }
    if source[at] == b'"' {
        return text_at(alloc, source, at);
    }
    punctuator_at(source, at)
}

// A name, a constant or a keyword; S2 or S10 where the word is none.
fn word_at(alloc: Global, source: &[u8], at: usize) -> SourceResult<(TokenKind, usize)>
    requires inside { at < length source.now }
    requires below { at < source_limit }
    requires word { is_word_byte (slice_index source.now at) ≡ true }
    ensures token { IfOk result (λ read. IsToken source.now at read.1 read.0) }
    ensures fault { IfErr result (IsRefusalAt at (IsNoToken source.now at)) }
{
    let end = word_end(source, at);
    let kind = word_kind(alloc, &source[at..end], at as u32)?;
    Ok((kind, end))
}

// A punctuator, or S2 where none begins.
fn punctuator_at(source: &[u8], at: usize) -> SourceResult<(TokenKind, usize)>
    requires inside { at < length source.now }
    requires below { at < source_limit }
    requires no_word { is_word_byte (slice_index source.now at) ≡ false }
    requires no_quote { slice_index source.now at ≡ 34 → ⊥ }
    requires no_comment { BeginsComment source.now at → ⊥ }
    ensures token { IfOk result (λ read. IsToken source.now at read.1 read.0) }
    ensures fault { IfErr result (IsRefusalAt at (IsNoToken source.now at)) }
{
    match longest_punctuator(&source[at..]) {
        Some(punctuator) => Ok((
            TokenKind::Punctuator(punctuator),
            at + punctuator_text(punctuator).len(),
        )),
        None => Err(bad_token(at)),
    }
}
