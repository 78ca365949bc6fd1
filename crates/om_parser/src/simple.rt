//! Items of a block, and lines, that have no statement in them (C17 6.8).

ghost use Rattle.std.specs.Prelude.{option_map};
ghost use Rattle.om_parser.specs.ConstructReading.{section_at, stand_alone_at, unknown_line};
ghost use Rattle.om_parser.specs.StatementReading.{expression_statement_at, jump_after, local_item_after, return_after, simple_of};
ghost use Rattle.om_parser.specs.StatementView.{ReadsStatement};
ghost use Rattle.om_parser_parts.specs.Made.{ReadsOne};
ghost use Rattle.om_parser_parts.specs.PartReading.{parts};
ghost use Rattle.om_parser_tree.specs.Limits.{accepted};
ghost use Rattle.om_parser_tree.specs.Tree as trees;
ghost use Rattle.om_parser_tree.specs.View.{view_line};

use crate::construct::{LineStart, line_start, misplaced};
use crate::start::Start;
use om_lexer::{Punctuator, SourceResult, Span, Token};
use om_parser_parts::front::{mark, syntax, take_mark};
use om_parser_parts::part::{declaration, directive_line, expression};
use om_parser_tree::assembly::{boxed, boxed_before};
use om_parser_tree::{Expression, Statement};
use om_pragma::Directive;
use std::alloc::Global;

/// A statement of this start that has no statement in it, of which the first token is taken,
/// and the tokens behind it.
#[inline(never)]
pub fn simple<'a>(
    alloc: Global,
    start: Start,
    at: Span,
    behind: &'a [Token],
    whole: &'a [Token],
) -> SourceResult<(Box<Statement>, &'a [Token])>
    ensures { ReadsStatement result (simple_of (parts accepted) start at behind.now whole.now) }
{
    match start {
        Start::Empty => boxed_before(alloc, Statement::Empty(at), behind),
        Start::Return => return_after(alloc, at, behind),
        Start::Break => break_after(alloc, at, behind),
        Start::Continue => continue_after(alloc, at, behind),
        Start::Expression => expression_statement(alloc, whole),
        _ => Err(syntax(whole)),
    }
}

// A `return`, of which the word is taken, and the tokens behind it.
fn return_after(
    alloc: Global,
    at: Span,
    tokens: &[Token],
) -> SourceResult<(Box<Statement>, &[Token])>
    ensures { ReadsStatement result (return_after (parts accepted) at tokens.now) }
{
    if let Some((semicolon, rest)) = take_mark(tokens, Punctuator::Semicolon) {
        return boxed_before(
            alloc,
            Statement::Return {
                word: at,
                value: None,
                semicolon,
            },
            rest,
        );
    }
    let (value, rest) = expression(alloc, tokens)?;
    let (semicolon, rest) = mark(rest, Punctuator::Semicolon)?;
    boxed_before(
        alloc,
        Statement::Return {
            word: at,
            value: Some(value),
            semicolon,
        },
        rest,
    )
}

// A `break`, of which the word is taken, and the tokens behind it.
fn break_after(
    alloc: Global,
    at: Span,
    tokens: &[Token],
) -> SourceResult<(Box<Statement>, &[Token])>
    ensures { ReadsStatement result (jump_after (trees.Break at) tokens.now) }
{
    let (semicolon, rest) = mark(tokens, Punctuator::Semicolon)?;
    boxed_before(
        alloc,
        Statement::Break {
            word: at,
            semicolon,
        },
        rest,
    )
}

// A `continue`, of which the word is taken, and the tokens behind it.
fn continue_after(
    alloc: Global,
    at: Span,
    tokens: &[Token],
) -> SourceResult<(Box<Statement>, &[Token])>
    ensures { ReadsStatement result (jump_after (trees.Continue at) tokens.now) }
{
    let (semicolon, rest) = mark(tokens, Punctuator::Semicolon)?;
    boxed_before(
        alloc,
        Statement::Continue {
            word: at,
            semicolon,
        },
        rest,
    )
}

// An expression and its semicolon, and the tokens behind them.
fn expression_statement(alloc: Global, tokens: &[Token]) -> SourceResult<(Box<Statement>, &[Token])>
    ensures { ReadsStatement result (expression_statement_at (parts accepted) tokens.now) }
{
    let (value, rest) = expression(alloc, tokens)?;
    let (semicolon, rest) = mark(rest, Punctuator::Semicolon)?;
    boxed_before(alloc, Statement::Expression { value, semicolon }, rest)
}

/// A declaration in a block, of which `int` is taken, and the tokens behind it.
#[inline(never)]
pub fn declaration_item(
    alloc: Global,
    int: Span,
    tokens: &[Token],
) -> SourceResult<(Box<Statement>, &[Token])>
    ensures { ReadsStatement result (local_item_after (parts accepted) int tokens.now) }
{
    let (declaration, rest) = declaration(alloc, int, tokens)?;
    let declaration = boxed(alloc, declaration)?;
    boxed_before(alloc, Statement::Declaration(declaration), rest)
}

/// A directive that stands alone, and the tokens behind it.
#[inline(never)]
pub fn stand_alone(alloc: Global, tokens: &[Token]) -> SourceResult<(Box<Statement>, &[Token])>
    ensures { ReadsStatement result (stand_alone_at (parts accepted).line tokens.now) }
{
    let (directive, rest) = directive_line(alloc, tokens)?;
    boxed_before(alloc, Statement::StandAlone(directive), rest)
}

/// Refuses a line whose word names no directive.
#[inline(never)]
pub fn unknown_line(alloc: Global, tokens: &[Token]) -> SourceResult<(Box<Statement>, &[Token])>
    ensures { ReadsStatement result (unknown_line (parts accepted).line tokens.now) }
{
    directive_line(alloc, tokens)?;
    Err(misplaced(tokens))
}

/// A `section`, if it stands first, and the tokens behind it.
#[inline(never)]
pub fn section(
    alloc: Global,
    tokens: &[Token],
) -> SourceResult<(Option<Box<Directive<Expression>>>, &[Token])>
    ensures { ReadsOne (option_map view_line) result (section_at (parts accepted).line tokens.now) }
{
    match line_start(tokens) {
        LineStart::Section => {
            let (directive, rest) = directive_line(alloc, tokens)?;
            Ok((Some(directive), rest))
        }
        _ => Ok((None, tokens)),
    }
}
