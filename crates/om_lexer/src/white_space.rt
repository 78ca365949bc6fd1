//! White space and comments.

ghost use Rattle.std.specs.Prelude.{◌≡◌, ◌≤◌, ◌<◌, ◌+◌, ◌⊎◌, ◌↔◌, ℕ, length, slice_index, IfSome, IfNone, IsTrue};
ghost use Rattle.om_lexer.specs.WhiteSpace.{IsLineEnd, IsSpace, IsBlockComment, IsLineComment, IsComment, IsWhiteSpace, IsGap};
ghost use Rattle.om_lexer.specs.HashLines.{IsLineEnding, EndsLine};

use crate::character::{byte_at, is_blank};

/// The byte behind the white space or the comment that begins there; a line end is none.
pub(crate) fn white_space_end(source: &[u8], from: usize) -> Option<usize>
    requires { from ≤ length source.now }
    ensures found { IfSome result (λ to. IsWhiteSpace source.now from to) }
    ensures moves { IfSome result (λ to. from < to) }
    ensures inside { IfSome result (λ to. to ≤ length source.now) }
    ensures none { IfNone result ((to : ℕ) → IsWhiteSpace source.now from to → ⊥) }
{
    let byte = byte_at(source, from);
    if is_blank(byte) {
        return Some(from + 1);
    }
    if byte == b'\\' {
        return line_end(source, from + 1);
    }
    if byte == b'/' {
        return comment_end(source, from);
    }
    None
}

/// The first byte from there on that is no white space and begins no comment: a line end or a byte of something else.
pub(crate) fn gap_end(source: &[u8], from: usize) -> usize
    requires { from ≤ length source.now }
    ensures gap { IsGap source.now from result }
    ensures behind { from ≤ result }
    ensures inside { result ≤ length source.now }
{
    let mut at = from;
    while let Some(end) = white_space_end(source, at) {
        at = end;
    }
    at
}

/// Whether nothing but white space follows on the line. A comment that never ends is a fault of its own.
pub(crate) fn ends_line(source: &[u8], from: usize) -> bool
    requires { from ≤ length source.now }
    ensures { IsTrue result ↔ EndsLine source.now from }
{
    ends_at(source, gap_end(source, from))
}

// Whether a line ends there, or a block comment begins.
fn ends_at(source: &[u8], at: usize) -> bool
    requires { at ≤ length source.now }
    ensures { IsTrue result ↔ IsLineEnding source.now at }
{
    if at == source.len() {
        return true;
    }
    let next = byte_at(source, at + 1);
    source[at] == b'\n' || (source[at] == b'/' && next == b'*')
}

// The byte behind a line end.
fn line_end(source: &[u8], from: usize) -> Option<usize>
    requires { from ≤ length source.now }
    ensures found { IfSome result (λ to. IsLineEnd source.now from to) }
    ensures moves { IfSome result (λ to. from < to) }
    ensures inside { IfSome result (λ to. to ≤ length source.now) }
    ensures none { IfNone result ((to : ℕ) → IsLineEnd source.now from to → ⊥) }
{
    match &source[from..] {
        [b'\n', ..] => Some(from + 1),
        [b'\r', b'\n', ..] => Some(from + 2),
        _ => None,
    }
}

// The byte behind the comment whose slash stands at `from`, if one begins there and ends.
fn comment_end(source: &[u8], from: usize) -> Option<usize>
    requires { slice_index source.now from ≡ 47 }
    ensures found { IfSome result (λ to. IsComment source.now from to) }
    ensures moves { IfSome result (λ to. from < to) }
    ensures inside { IfSome result (λ to. to ≤ length source.now) }
    ensures none { IfNone result ((to : ℕ) → IsComment source.now from to → ⊥) }
{
    let next = byte_at(source, from + 1);
    if next == b'*' {
        return block_comment_end(source, from);
    }
    if next == b'/' {
        return Some(line_comment_end(source, from));
    }
    None
}

// The byte behind the block comment whose two first bytes stand at `from`, if it ends.
fn block_comment_end(source: &[u8], from: usize) -> Option<usize>
    requires slash { slice_index source.now from ≡ 47 }
    requires star { slice_index source.now (from + 1) ≡ 42 }
    requires inside { from + 2 ≤ length source.now }
    ensures found { IfSome result (λ to. IsBlockComment source.now from to) }
    ensures moves { IfSome result (λ to. from < to) }
    ensures inside { IfSome result (λ to. to ≤ length source.now) }
    ensures none { IfNone result ((to : ℕ) → IsBlockComment source.now from to → ⊥) }
{
    let mut last = from + 2;
    while last < source.len() - 1 {
        if source[last] == b'*' && source[last + 1] == b'/' {
            return Some(last + 2);
        }
        last += 1;
    }
    None
}

// The byte behind the line comment whose two first bytes stand at `from`.
fn line_comment_end(source: &[u8], from: usize) -> usize
    requires slash { slice_index source.now from ≡ 47 }
    requires second { slice_index source.now (from + 1) ≡ 47 }
    requires inside { from + 2 ≤ length source.now }
    ensures { IsLineComment source.now from result }
{
    let mut to = from + 2;
    while to < source.len() && source[to] != b'\n' {
        to += 1;
    }
    to
}
