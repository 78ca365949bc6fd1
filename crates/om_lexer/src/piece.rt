//! The pieces of a source (C17 5.1.1.2, translation phase 3), and what a line is by those before a byte.

ghost use Rattle.std.specs.Prelude.{◌≡◌};
ghost use Rattle.om_lexer.specs.Pieces.{is_fresh, is_ignored};

use crate::token::{Span, TokenKind};
use om_seq::Seq;

/// A piece of the source: what it is, and the byte behind it.
#[derive(Drop)]
pub struct Piece {
    pub kind: PieceKind,
    pub end: usize,
}

/// What a piece is.
#[derive(Drop)]
pub enum PieceKind {
    /// A line end that no backslash and no comment takes.
    LineFeed,
    /// Other white space, or a comment.
    Space,
    Token(TokenKind),
    HashLine(HashLine),
    /// A byte of an ignored pragma.
    Passed,
}

/// The beginning of a `#` line (C17 6.10).
#[derive(Drop)]
pub enum HashLine {
    /// All of an include.
    Include,
    /// A define of this name, up to its constant.
    Define(Seq<u8>),
    /// `#pragma omp`: the bytes where `pragma` and `omp` begin.
    Directive(usize, usize),
    /// `#pragma`, with no `omp` behind it.
    Ignored,
}

/// What a line is so far. A line feed in a comment or behind a backslash ends no line.
#[derive(Drop)]
pub enum LineState {
    /// White space.
    Fresh,
    /// A token, an include or a whole define.
    Taken,
    /// A define of this name, whose constant is next.
    Defining(Seq<u8>),
    /// A pragma that is ignored.
    Ignored,
    /// A directive, whose last token ends at this place of no width.
    Directive(Span),
}

impl LineState {
    /// Whether the line is white space so far.
    pub(crate) fn is_fresh(&self) -> bool
        ensures { result ≡ is_fresh self.now }
    {
        matches!(self, LineState::Fresh)
    }

    /// Whether the line is a pragma that is ignored.
    pub(crate) fn is_ignored(&self) -> bool
        ensures { result ≡ is_ignored self.now }
    {
        matches!(self, LineState::Ignored)
    }
}
