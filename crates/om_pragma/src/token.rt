//! The token that stands first, taken from those that are left, or why reading stops there.

ghost use Rattle.std.specs.Prelude.{◌≡◌, [], option_map};
ghost use Rattle.om_lexer.specs.declared.token.TokenKind.TheVariants as kinds;
ghost use Rattle.om_pragma.specs.Reading.{take_first, take_kind, take_chunk, take_end, mark_at, name_at, place, Gets};
ghost use Rattle.om_pragma.specs.Reading.{GetsAlways};
ghost use Rattle.om_pragma.specs.Views.{part_and_rest};

use crate::clause::{Name, Number};
use crate::word::{is_keyword, is_mark, is_named};
use om_lexer::{Keyword, Punctuator, Span, Token, TokenKind};
use om_seq::Seq;
use std::alloc::{AllocError, AllocFailed, Global};

/// Why the part that was asked for is not read.
#[derive(Clone, Copy, Drop)]
pub enum Stop {
    /// No memory.
    Memory,
    /// A token that no such part has there; the byte where it starts.
    Token(u32),
}

impl From<AllocError> for Stop {
    ghost use Rattle.om_pragma.specs.declared.token.Stop.{Stop};

    ghost from_gives = { λ _ stop. stop ≡ Stop.Memory };

    fn from(_error: AllocError) -> Stop {
        Stop::Memory
    }
}

impl<T: Drop> From<AllocFailed<T>> for Stop {
    ghost use Rattle.om_pragma.specs.declared.token.Stop.{Stop};

    ghost from_gives = { λ _ stop. stop ≡ Stop.Memory };

    fn from(_error: AllocFailed<T>) -> Stop {
        Stop::Memory
    }
}

/// Where the first token starts. None are left only where the end of the run is lacking.
pub fn place(tokens: &[Token]) -> u32
    ensures { result ≡ place tokens.now }
{
    match tokens {
        [] => u32::MAX,
        [first, ..] => first.span.start,
    }
}

/// The first token, and the tokens behind it.
pub fn take_first(tokens: &[Token]) -> Option<(&Token, &[Token])>
    ensures { option_map (λ x. (x.0.now, x.1.now)) result ≡ take_first tokens.now }
{
    let [first, rest @ ..] = tokens else {
        return None;
    };
    Some((first, rest))
}

/// The first token's span, if it is this punctuator, and the tokens behind it.
pub fn take_mark(tokens: &[Token], wanted: Punctuator) -> Option<(Span, &[Token])>
    ensures { option_map part_and_rest result ≡ take_kind (kinds.Punctuator wanted) tokens.now }
{
    let [first, rest @ ..] = tokens else {
        return None;
    };
    if is_mark(&first.kind, wanted) {
        Some((first.span, rest))
    } else {
        None
    }
}

/// The first token's span, if it is this name, and the tokens behind it.
pub fn take_named<'a>(tokens: &'a [Token], wanted: &[u8]) -> Option<(Span, &'a [Token])>
    ensures { option_map part_and_rest result ≡ take_kind (kinds.Name wanted.now) tokens.now }
{
    let [first, rest @ ..] = tokens else {
        return None;
    };
    if is_named(&first.kind, wanted) {
        Some((first.span, rest))
    } else {
        None
    }
}

/// The first token's span, if it is this keyword, and the tokens behind it.
pub fn take_keyword(tokens: &[Token], wanted: Keyword) -> Option<(Span, &[Token])>
    ensures { option_map part_and_rest result ≡ take_kind (kinds.Keyword wanted) tokens.now }
{
    let [first, rest @ ..] = tokens else {
        return None;
    };
    if is_keyword(&first.kind, wanted) {
        Some((first.span, rest))
    } else {
        None
    }
}

/// The span of the `#` with which a run begins, and the tokens behind it.
pub fn take_begin(tokens: &[Token]) -> Option<(Span, &[Token])>
    ensures { option_map part_and_rest result ≡ take_kind kinds.DirectiveBegin tokens.now }
{
    let [first, rest @ ..] = tokens else {
        return None;
    };
    let TokenKind::DirectiveBegin = first.kind else {
        return None;
    };
    Some((first.span, rest))
}

/// The place where the run ends, where nothing else is left.
pub fn take_end(tokens: &[Token]) -> Option<Span>
    ensures { option_map (λ x. (x, [])) result ≡ take_end tokens.now }
{
    let [end] = tokens else {
        return None;
    };
    let TokenKind::DirectiveEnd = end.kind else {
        return None;
    };
    Some(end.span)
}

/// The first token, if it is a constant of 1 or more, and the tokens behind it.
pub fn take_chunk(tokens: &[Token]) -> Option<(Number, &[Token])>
    ensures { option_map part_and_rest result ≡ take_chunk tokens.now }
{
    let [first, rest @ ..] = tokens else {
        return None;
    };
    let TokenKind::Constant(value) = first.kind else {
        return None;
    };
    let span = first.span;
    (value >= 1).then_some((Number { value, span }, rest))
}

/// The span of this punctuator, which must stand first, and the tokens behind it.
pub fn mark(tokens: &[Token], wanted: Punctuator) -> Result<(Span, &[Token]), Stop>
    ensures { GetsAlways part_and_rest result (mark_at wanted tokens.now) }
{
    take_mark(tokens, wanted).ok_or(Stop::Token(place(tokens)))
}

/// The name that must stand first, and the tokens behind it.
pub fn name(alloc: Global, tokens: &[Token]) -> Result<(Name, &[Token]), Stop>
    ensures { Gets part_and_rest result (name_at tokens.now) }
{
    match tokens {
        [first, rest @ ..] => match &first.kind {
            TokenKind::Name(text) => {
                let text = Seq::of(text.as_slice().to_vec(alloc)?);
                Ok((
                    Name {
                        text,
                        span: first.span,
                    },
                    rest,
                ))
            }
            _ => Err(Stop::Token(first.span.start)),
        },
        [] => Err(Stop::Token(u32::MAX)),
    }
}
