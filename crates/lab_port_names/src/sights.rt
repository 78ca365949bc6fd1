//! What stands among the pieces of a line.

ghost use Rattle.std.specs.Prelude.{◌≡◌, ◌≤◌, length};
ghost use Rattle.lab_port_names.specs.Sights.{is_space, is_line_end, is_word, is_number, is_mark, is_sign, is_named, line_pieces, behind_spaces};

use lab_port_tokens::{Piece, PieceKind};

/// Whether it is white space or a comment.
pub(crate) fn is_space(kind: PieceKind) -> bool
    ensures { result ≡ is_space kind }
{
    match kind {
        PieceKind::Space | PieceKind::Comment => true,
        _ => false,
    }
}

fn is_line_end(kind: PieceKind) -> bool
    ensures { result ≡ is_line_end kind }
{
    match kind {
        PieceKind::LineEnd => true,
        _ => false,
    }
}

/// Whether it is a name or a keyword.
pub(crate) fn is_word(kind: PieceKind) -> bool
    ensures { result ≡ is_word kind }
{
    match kind {
        PieceKind::Word => true,
        _ => false,
    }
}

/// Whether it is a number.
pub(crate) fn is_number(kind: PieceKind) -> bool
    ensures { result ≡ is_number kind }
{
    match kind {
        PieceKind::Number => true,
        _ => false,
    }
}

fn is_mark(kind: PieceKind) -> bool
    ensures { result ≡ is_mark kind }
{
    match kind {
        PieceKind::Mark => true,
        _ => false,
    }
}

/// Whether it is a punctuator with these bytes.
pub(crate) fn is_sign(bytes: &[u8], piece: &Piece) -> bool
    ensures { result ≡ is_sign bytes.now piece.now }
{
    is_mark(piece.kind) && piece.text.as_slice() == bytes
}

/// Whether it is a word with these bytes.
pub(crate) fn is_named(bytes: &[u8], piece: &Piece) -> bool
    ensures { result ≡ is_named bytes.now piece.now }
{
    is_word(piece.kind) && piece.text.as_slice() == bytes
}

/// How many pieces stand before the end of the line.
pub(crate) fn line_pieces(rest: &[Piece]) -> usize
    ensures size { result ≡ line_pieces 0 rest.now }
    ensures inside { result ≤ length rest.now }
{
    for (i, piece) in rest.iter().enumerate() {
        if is_line_end(piece.kind) {
            return i;
        }
    }
    rest.len()
}

/// The pieces without the white space before them.
pub(crate) fn behind_spaces(rest: &[Piece]) -> &[Piece]
    ensures { result.now ≡ behind_spaces rest.now }
{
    for (i, piece) in rest.iter().enumerate() {
        if !is_space(piece.kind) {
            return &rest[i..];
        }
    }
    &[]
}
