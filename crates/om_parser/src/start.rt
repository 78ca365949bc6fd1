//! Which statement a token begins.

ghost use Rattle.std.specs.Prelude.{◌≡◌, Err};
ghost use Rattle.om_parser.specs.StatementReading.{no_room, start_of, start_of_mark, start_of_word};

use om_lexer::{Keyword, Punctuator, SourceFault, Span, Token, TokenKind};
use om_parser_parts::front::{syntax, too_deep};

/// Which statement a token begins.
#[derive(Clone, Copy)]
pub enum Start {
    Block,
    Empty,
    If,
    While,
    Do,
    For,
    Return,
    Break,
    Continue,
    Expression,
    Directive,
    /// None.
    Nothing,
}

/// Which statement a token of this kind begins.
pub fn start_of(kind: &TokenKind) -> Start
    ensures { result ≡ start_of kind.now }
{
    match kind {
        TokenKind::Punctuator(mark) => start_of_mark(*mark),
        TokenKind::Keyword(word) => start_of_word(*word),
        TokenKind::Name(_) => Start::Expression,
        TokenKind::Constant(_) => Start::Expression,
        TokenKind::DirectiveBegin => Start::Directive,
        _ => Start::Nothing,
    }
}

fn start_of_mark(mark: Punctuator) -> Start
    ensures { result ≡ start_of_mark mark }
{
    match mark {
        Punctuator::OpenBrace => Start::Block,
        Punctuator::Semicolon => Start::Empty,
        Punctuator::OpenParen
        | Punctuator::Plus
        | Punctuator::Minus
        | Punctuator::Bang
        | Punctuator::PlusPlus
        | Punctuator::MinusMinus => Start::Expression,
        _ => Start::Nothing,
    }
}

fn start_of_word(word: Keyword) -> Start
    ensures { result ≡ start_of_word word }
{
    match word {
        Keyword::If => Start::If,
        Keyword::While => Start::While,
        Keyword::Do => Start::Do,
        Keyword::For => Start::For,
        Keyword::Return => Start::Return,
        Keyword::Break => Start::Break,
        Keyword::Continue => Start::Continue,
        _ => Start::Nothing,
    }
}

/// The fault where a statement of this start would stand, and no further one may: S16 at its first
/// token. A token that begins no statement is S3.
pub fn no_room(start: Start, tokens: &[Token], first: Span) -> SourceFault
    ensures { Err result ≡ no_room start first tokens.now }
{
    match start {
        Start::Nothing => syntax(tokens),
        _ => too_deep(first),
    }
}
