//! The token that stands first, taken from those that are left.

ghost use Rattle.std.specs.Prelude.{◌≡◌, option_map};
ghost use Rattle.om_parser_parts.specs.Reading.{take_mark, take_word, take_number, mark_at, word_at, name_at, number_at, syntax, too_deep, Reads, ReadsAlways};

use om_lexer::{FaultCode, Keyword, Punctuator, SourceFault, SourceResult, Span, Token, TokenKind};
use om_pragma::{Name, Number};
use om_seq::Seq;
use std::alloc::Global;

/// The fault of tokens of which no tree has the first one there. None are left only where the
/// end of the source is lacking.
pub fn syntax(tokens: &[Token]) -> SourceFault
    ensures { result ≡ syntax tokens.now }
{
    let at = match tokens {
        [] => u32::MAX,
        [first, ..] => first.span.start,
    };
    SourceFault {
        code: FaultCode::Syntax,
        at,
    }
}

/// The fault of a limit that is passed at the token of this span.
pub fn too_deep(span: Span) -> SourceFault
    ensures { result ≡ too_deep span }
{
    SourceFault {
        code: FaultCode::TooDeep,
        at: span.start,
    }
}

/// The first token's span, if it is this punctuator, and the tokens behind it.
pub fn take_mark(tokens: &[Token], wanted: Punctuator) -> Option<(Span, &[Token])>
    ensures { option_map (λ x. (x.0, x.1.now)) result ≡ take_mark wanted tokens.now }
{
    let [first, rest @ ..] = tokens else {
        return None;
    };
    let TokenKind::Punctuator(found) = first.kind else {
        return None;
    };
    (found == wanted).then_some((first.span, rest))
}

/// The first token's span, if it is this keyword, and the tokens behind it.
pub fn take_word(tokens: &[Token], wanted: Keyword) -> Option<(Span, &[Token])>
    ensures { option_map (λ x. (x.0, x.1.now)) result ≡ take_word wanted tokens.now }
{
    let [first, rest @ ..] = tokens else {
        return None;
    };
    let TokenKind::Keyword(found) = first.kind else {
        return None;
    };
    (found == wanted).then_some((first.span, rest))
}

/// The first token, if it is a constant, and the tokens behind it.
pub fn take_number(tokens: &[Token]) -> Option<(Number, &[Token])>
    ensures { option_map (λ x. (x.0, x.1.now)) result ≡ take_number tokens.now }
{
    let [first, rest @ ..] = tokens else {
        return None;
    };
    let TokenKind::Constant(value) = first.kind else {
        return None;
    };
    let span = first.span;
    Some((Number { value, span }, rest))
}

/// The span of this punctuator, which must stand first, and the tokens behind it.
pub fn mark(tokens: &[Token], wanted: Punctuator) -> SourceResult<(Span, &[Token])>
    ensures { ReadsAlways (λ x. (x.0, x.1.now)) result (mark_at wanted tokens.now) }
{
    take_mark(tokens, wanted).ok_or(syntax(tokens))
}

/// The span of this keyword, which must stand first, and the tokens behind it.
pub fn word(tokens: &[Token], wanted: Keyword) -> SourceResult<(Span, &[Token])>
    ensures { ReadsAlways (λ x. (x.0, x.1.now)) result (word_at wanted tokens.now) }
{
    take_word(tokens, wanted).ok_or(syntax(tokens))
}

/// The constant that must stand first, and the tokens behind it.
pub fn number(tokens: &[Token]) -> SourceResult<(Number, &[Token])>
    ensures { ReadsAlways (λ x. (x.0, x.1.now)) result (number_at tokens.now) }
{
    take_number(tokens).ok_or(syntax(tokens))
}

/// The name that must stand first, and the tokens behind it.
pub fn name(alloc: Global, tokens: &[Token]) -> SourceResult<(Name, &[Token])>
    ensures { Reads (λ x. (x.0, x.1.now)) result (name_at tokens.now) }
{
    match tokens {
        [first, rest @ ..] => match &first.kind {
            TokenKind::Name(text) => {
                let text = Seq::of(text.as_slice().to_vec(alloc)?);
                Ok((
                    Name {
                        text,
                        span: first.span,
                    },
                    rest,
                ))
            }
            _ => Err(syntax(tokens)),
        },
        [] => Err(syntax(tokens)),
    }
}
