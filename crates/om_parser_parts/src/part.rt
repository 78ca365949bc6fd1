//! The parts of statements that are no statements.

ghost use Rattle.om_parser_tree.specs.Limits.{accepted};
ghost use Rattle.om_parser_parts.specs.Made.{ReadsBoxed, ReadsExpression, ReadsOne};
ghost use Rattle.om_parser_parts.specs.PartReading.{global_at, parts};
ghost use Rattle.om_parser_tree.specs.View.{view_directive, view_global, view_local};

use crate::declaration::{declaration_after, local_declaration};
use crate::expression::whole;
use crate::line::line;
use om_lexer::{SourceResult, Span, Token};
use om_parser_tree::{Declaration, Expression, NESTING_LIMIT, SignedNumber};
use om_pragma::{Directive, Name};
use std::alloc::Global;

/// A whole expression, and the tokens behind it.
pub fn expression(alloc: Global, tokens: &[Token]) -> SourceResult<(Box<Expression>, &[Token])>
    ensures { ReadsExpression result ((parts accepted).expression tokens.now) }
{
    whole(alloc, tokens, NESTING_LIMIT)
}

/// A whole expression in the parentheses of a statement, and the tokens behind it.
pub fn enclosed(alloc: Global, tokens: &[Token]) -> SourceResult<(Box<Expression>, &[Token])>
    ensures { ReadsExpression result ((parts accepted).enclosed tokens.now) }
{
    whole(alloc, tokens, NESTING_LIMIT - 1)
}

/// A declaration in a block, of which `int` is taken, and the tokens behind it.
pub fn declaration(
    alloc: Global,
    int: Span,
    tokens: &[Token],
) -> SourceResult<(Declaration<Expression>, &[Token])>
    ensures { ReadsOne view_local result ((parts accepted).declaration int tokens.now) }
{
    local_declaration(alloc, NESTING_LIMIT, int, tokens)
}

/// A declaration in the parentheses of a `for`, of which `int` is taken, and the tokens behind it.
pub fn enclosed_declaration(
    alloc: Global,
    int: Span,
    tokens: &[Token],
) -> SourceResult<(Declaration<Expression>, &[Token])>
    ensures { ReadsOne view_local result ((parts accepted).enclosed_declaration int tokens.now) }
{
    local_declaration(alloc, NESTING_LIMIT - 1, int, tokens)
}

/// A directive line, and the tokens behind it.
pub fn directive_line(
    alloc: Global,
    tokens: &[Token],
) -> SourceResult<(Box<Directive<Expression>>, &[Token])>
    ensures { ReadsBoxed view_directive result ((parts accepted).line tokens.now) }
{
    line(alloc, tokens)
}

/// The rest of a declaration at file scope, of which `int` and the first name are taken, and the
/// tokens behind it.
pub fn global_declaration(
    alloc: Global,
    int: Span,
    name: Name,
    tokens: &[Token],
) -> SourceResult<(Declaration<SignedNumber>, &[Token])>
    ensures { ReadsOne view_global result (global_at int name tokens.now) }
{
    declaration_after(alloc, 0, int, name, tokens)
}
