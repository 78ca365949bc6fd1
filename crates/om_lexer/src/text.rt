//! Text literals (C17 6.4.5).

ghost use Rattle.std.specs.Prelude.{◌≡◌, ◌≤◌, ◌<◌, ◌+◌, ◌↔◌, length, slice_index, IfSome, IfNone, IfOk, IfErr, IsTrue};
ghost use Rattle.om_lexer.specs.Faults.{IsRefusalAt};
ghost use Rattle.om_lexer.specs.Sources.{source_limit};
ghost use Rattle.om_lexer.specs.Texts.{IsPlain, escaped, IsCharacter, HasNoCharacter};
ghost use Rattle.om_lexer.specs.Tokens.{IsToken, IsNoToken};

use crate::character::byte_at;
use crate::fault::{SourceResult, bad_token};
use crate::token::TokenKind;
use om_seq::Seq;
use std::alloc::Global;

// Whether an ASCII character stands for itself in a text: no quote, backslash or line feed.
fn is_plain(byte: u8) -> bool
    ensures { IsTrue result ↔ IsPlain byte }
{
    byte < 128 && byte != b'"' && byte != b'\\' && byte != b'\n'
}

// The character that a letter behind a backslash stands for.
fn escaped(letter: u8) -> Option<u8>
    ensures { result ≡ escaped letter }
{
    if letter == b'n' {
        Some(b'\n')
    } else if letter == b't' {
        Some(b'\t')
    } else if letter == b'\\' {
        Some(b'\\')
    } else if letter == b'"' {
        Some(b'"')
    } else {
        None
    }
}

// The character of a text that begins there, and the byte behind it.
fn character_at(source: &[u8], from: usize) -> Option<(u8, usize)>
    requires { from ≤ length source.now }
    ensures found { IfSome result (λ read. IsCharacter source.now from read.0 read.1) }
    ensures moves { IfSome result (λ read. from < read.1) }
    ensures inside { IfSome result (λ read. read.1 ≤ length source.now) }
    ensures none { IfNone result (HasNoCharacter source.now from) }
{
    if from >= source.len() {
        return None;
    }
    let byte = source[from];
    if byte == b'\\' {
        let character = escaped(byte_at(source, from + 1))?;
        return Some((character, from + 2));
    }
    if is_plain(byte) {
        return Some((byte, from + 1));
    }
    None
}

/// The text literal whose quote stands at `at`, and the byte behind it; S2 where it is wrong or never ends.
pub(crate) fn text_at(alloc: Global, source: &[u8], at: usize) -> SourceResult<(TokenKind, usize)>
    requires inside { at < length source.now }
    requires below { at < source_limit }
    requires quote { slice_index source.now at ≡ 34 }
    ensures token { IfOk result (λ read. IsToken source.now at read.1 read.0) }
    ensures fault { IfErr result (IsRefusalAt at (IsNoToken source.now at)) }
{
    let mut characters = Vec::new(alloc);
    let mut next = at + 1;
    while byte_at(source, next) != b'"' {
        let Some((character, end)) = character_at(source, next) else {
            return Err(bad_token(at));
        };
        characters.push(character)?;
        next = end;
    }
    Ok((TokenKind::Text(Seq::of(characters)), next + 1))
}
