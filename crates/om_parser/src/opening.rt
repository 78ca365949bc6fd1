//! What stands before the body of an `if`, a `while` or a `for` (C17 6.8.4, 6.8.5).

ghost use Rattle.std.specs.Prelude.{◌≡◌, option_map};
ghost use Rattle.om_parser.specs.StatementReading.{condition_at, for_head_after, for_start_at, opening_of, optional_before, start_with};
ghost use Rattle.om_parser.specs.StatementView.{view_opening, ReadsOptional};
ghost use Rattle.om_parser_parts.specs.Made.{view_operand, ReadsBoxed, ReadsOne};
ghost use Rattle.om_parser_parts.specs.PartReading.{parts};
ghost use Rattle.om_parser_tree.specs.Limits.{accepted};
ghost use Rattle.om_parser_tree.specs.View.{view_condition, view_for_head, view_for_start};

use crate::start::Start;
use om_lexer::{Keyword, Punctuator, SourceResult, Span, Token};
use om_parser_parts::front::{mark, syntax, take_mark, take_word};
use om_parser_parts::part::{enclosed, enclosed_declaration};
use om_parser_tree::assembly::boxed_before;
use om_parser_tree::{Condition, Expression, ForHead, ForStart};
use std::alloc::Global;

/// What an `if`, a `while` or a `for` has before its body.
#[derive(Drop)]
pub enum Opening {
    If(Span, Box<Condition>),
    While(Span, Box<Condition>),
    For(Box<ForHead>),
}

/// The opening of a statement of this start, of which the word is taken.
#[inline(never)]
pub fn opening_after(
    alloc: Global,
    start: Start,
    at: Span,
    tokens: &[Token],
) -> SourceResult<(Opening, &[Token])>
    ensures { ReadsOne view_opening result (opening_of (parts accepted) start at tokens.now) }
{
    match start {
        Start::If => {
            let (condition, rest) = condition(alloc, tokens)?;
            Ok((Opening::If(at, condition), rest))
        }
        Start::While => {
            let (condition, rest) = condition(alloc, tokens)?;
            Ok((Opening::While(at, condition), rest))
        }
        Start::For => {
            let (head, rest) = for_head(alloc, at, tokens)?;
            Ok((Opening::For(head), rest))
        }
        _ => Err(syntax(tokens)),
    }
}

/// An expression in parentheses, and the tokens behind it.
pub fn condition(alloc: Global, tokens: &[Token]) -> SourceResult<(Box<Condition>, &[Token])>
    ensures { ReadsBoxed view_condition result (condition_at (parts accepted) tokens.now) }
{
    let (open_paren, rest) = mark(tokens, Punctuator::OpenParen)?;
    let (value, rest) = enclosed(alloc, rest)?;
    let (close_paren, rest) = mark(rest, Punctuator::CloseParen)?;
    let value = Box::into_inner(value);
    let condition = Condition {
        open_paren,
        value,
        close_paren,
    };
    boxed_before(alloc, condition, rest)
}

// The head of a `for`, of which the word is taken, and the tokens behind it.
fn for_head(alloc: Global, word: Span, tokens: &[Token]) -> SourceResult<(Box<ForHead>, &[Token])>
    ensures { ReadsBoxed view_for_head result (for_head_after (parts accepted) word tokens.now) }
{
    let (open_paren, rest) = mark(tokens, Punctuator::OpenParen)?;
    let (start, rest) = for_start(alloc, rest)?;
    let (condition, semicolon, rest) = enclosed_before(alloc, rest, Punctuator::Semicolon)?;
    let (step, close_paren, rest) = enclosed_before(alloc, rest, Punctuator::CloseParen)?;
    let head = ForHead {
        word,
        open_paren,
        start: Box::into_inner(start),
        condition: unboxed(condition),
        semicolon,
        step: unboxed(step),
        close_paren,
    };
    boxed_before(alloc, head, rest)
}

// What a `for` begins with, and the tokens behind it.
fn for_start(alloc: Global, tokens: &[Token]) -> SourceResult<(Box<ForStart>, &[Token])>
    ensures { ReadsBoxed view_for_start result (for_start_at (parts accepted) tokens.now) }
{
    if let Some((int, rest)) = take_word(tokens, Keyword::Int) {
        let (declaration, rest) = enclosed_declaration(alloc, int, rest)?;
        return boxed_before(alloc, ForStart::Declaration(declaration), rest);
    }
    let (first, semicolon, rest) = enclosed_before(alloc, tokens, Punctuator::Semicolon)?;
    boxed_before(alloc, start_with(first, semicolon), rest)
}

// What a `for` begins with that declares nothing: perhaps an expression, and the semicolon.
fn start_with(first: Option<Box<Expression>>, semicolon: Span) -> ForStart
    ensures { view_for_start result ≡ start_with (option_map view_operand first) semicolon }
{
    match first {
        Some(first) => ForStart::Expression {
            value: Box::into_inner(first),
            semicolon,
        },
        None => ForStart::Nothing(semicolon),
    }
}

// An expression in a statement's parentheses, if one stands before this punctuator, the span of
// that, and the tokens behind it.
fn enclosed_before(
    alloc: Global,
    tokens: &[Token],
    end: Punctuator,
) -> SourceResult<(Option<Box<Expression>>, Span, &[Token])>
    ensures { ReadsOptional result (optional_before end (parts accepted).enclosed tokens.now) }
{
    if let Some((span, rest)) = take_mark(tokens, end) {
        return Ok((None, span, rest));
    }
    let (value, rest) = enclosed(alloc, tokens)?;
    let (span, rest) = mark(rest, end)?;
    Ok((Some(value), span, rest))
}

// An expression out of its box, if there is one.
fn unboxed(value: Option<Box<Expression>>) -> Option<Expression>
    ensures { result ≡ option_map (λ b. b.value) value }
{
    let value = value?;
    Some(Box::into_inner(value))
}
