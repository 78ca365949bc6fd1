//! An expression in a run that is refused.

ghost use Rattle.std.specs.Prelude.{◌≡◌, List, IfSome, option_map};
ghost use Rattle.om_lexer.specs.declared.token.Token.{Token as Tokens};
ghost use Rattle.om_pragma.specs.Reading.{in_parentheses, tokens_before, expression_at, GetsAlways};
ghost use Rattle.om_pragma.specs.Values.{StandsAsValue, IsFirstValue};

use crate::argument::closing;
use crate::token::{Stop, mark, take_first};
use crate::word::is_named;
use om_lexer::{Punctuator, Span, Token};

/// The tokens of the first expression that stands in the parentheses of a clause, whatever run
/// these tokens are, where the right parenthesis is before the place: one or more tokens, whose
/// parentheses are paired. So a caller can find a fault in the expression of a refused run, which
/// is the lower one.
pub fn expression_before(tokens: &[Token], place: u32) -> Option<&[Token]>
    ensures found { IfSome result (λ e. IsFirstValue tokens.now place e.now) }
    ensures absent { result ≡ None → (e : List Tokens) → StandsAsValue tokens.now place e → ⊥ }
{
    let mut rest = tokens;
    'tokens: loop {
        let Some((first, behind)) = take_first(rest) else {
            return None;
        };
        if let Some(expression) = expression_at(first, behind, place) {
            return Some(expression);
        }
        rest = behind;
    }
}

// The expression of a clause whose word stands there, where the clause ends before the place.
// Behind the place no clause is looked through, so a long run of open parentheses takes linear time.
fn expression_at<'a>(word: &Token, tokens: &'a [Token], place: u32) -> Option<&'a [Token]>
    ensures { option_map (λ e. e.now) result ≡ expression_at place word.now tokens.now }
{
    if place <= word.span.start {
        None
    } else if is_named(&word.kind, b"num_threads") || is_named(&word.kind, b"filter") {
        let Ok((expression, close_paren, _)) = in_parentheses(tokens) else {
            return None;
        };
        ends_before(expression, close_paren, place)
    } else {
        None
    }
}

// The tokens in parentheses that stand there, the span of the parenthesis that closes, and the
// tokens behind it.
fn in_parentheses(tokens: &[Token]) -> Result<(&[Token], Span, &[Token]), Stop>
    ensures { GetsAlways (λ x. (x.0.now, x.1, x.2.now)) result (in_parentheses tokens.now) }
{
    let (_, rest) = mark(tokens, Punctuator::OpenParen)?;
    closing(rest)
}

// These tokens, if there are some, and the parenthesis behind them starts before the place.
fn ends_before(tokens: &[Token], close_paren: Span, place: u32) -> Option<&[Token]>
    ensures { option_map (λ e. e.now) result ≡ tokens_before place close_paren tokens.now }
{
    if place <= close_paren.start {
        return None;
    }
    let [_, ..] = tokens else {
        return None;
    };
    Some(tokens)
}
