//! What a directive line begins, by the word behind `omp` (OpenMP API 5.2, chapter 3).

ghost use Rattle.std.specs.Prelude.{◌≡◌};
ghost use Rattle.om_parser.specs.ConstructReading.{at_section, ends_part, from_word, line_start, start_of_kind, start_of_line, word_start};
ghost use Rattle.om_parser_parts.specs.Reading.{syntax};

use om_lexer::{Punctuator, SourceFault, Token, TokenKind};
use om_parser_parts::front::{syntax, take_mark};
use om_pragma::{DirectiveKind, begun_by};

/// What stands first, where a directive line may.
#[derive(Clone, Copy)]
pub enum LineStart {
    /// A directive with a statement behind it.
    Construct,
    /// A directive with none.
    StandAlone,
    /// `section`.
    Section,
    /// A line whose word names no directive.
    Unknown,
    /// No line.
    Nothing,
}

// What a line of a directive is.
fn start_of_kind(kind: DirectiveKind) -> LineStart
    ensures { result ≡ start_of_kind kind }
{
    if kind.stands_alone() {
        LineStart::StandAlone
    } else if kind.begins_part() {
        LineStart::Section
    } else {
        LineStart::Construct
    }
}

// What the word behind `omp` begins.
fn start_of_line(kind: &TokenKind) -> LineStart
    ensures { result ≡ start_of_line kind.now }
{
    match begun_by(kind) {
        Some(kind) => start_of_kind(kind),
        None => LineStart::Unknown,
    }
}

/// What the line that stands first is, where one stands there.
pub fn line_start(tokens: &[Token]) -> LineStart
    ensures { result ≡ line_start tokens.now }
{
    let [first, rest @ ..] = tokens else {
        return LineStart::Nothing;
    };
    match first.kind {
        TokenKind::DirectiveBegin => word_start(rest),
        _ => LineStart::Nothing,
    }
}

// What the line begins of which the `#` is taken.
fn word_start(tokens: &[Token]) -> LineStart
    ensures { result ≡ word_start tokens.now }
{
    match tokens {
        [_, _, word, ..] => start_of_line(&word.kind),
        _ => LineStart::Unknown,
    }
}

/// Whether a `section` stands first.
pub fn at_section(tokens: &[Token]) -> bool
    ensures { result ≡ at_section tokens.now }
{
    matches!(line_start(tokens), LineStart::Section)
}

/// Whether the items of a part of `sections` end: at a brace, or where another part begins.
pub fn ends_part(tokens: &[Token]) -> bool
    ensures { result ≡ ends_part tokens.now }
{
    take_mark(tokens, Punctuator::CloseBrace).is_some() || at_section(tokens)
}

/// The fault of a line that may not stand there: no tree goes on with its word.
pub fn misplaced(tokens: &[Token]) -> SourceFault
    ensures { result ≡ syntax (from_word tokens.now) }
{
    match tokens {
        [_, _, _, rest @ ..] => syntax(rest),
        _ => syntax(&[]),
    }
}
