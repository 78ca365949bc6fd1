//! Statements put together of their parts, and values in boxes.
//!
//! The functions of the parser's recursion hold a statement and its parts in boxes, and leave it to these
//! to put them together, so that their frames are small: none of these may be inlined into them.

ghost use Rattle.std.specs.Prelude.{◌≡◌, IfOk};
ghost use Rattle.om_parser_tree.specs.Making.{if_else_of, sections_of, MakesStatement, Makes};
ghost use Rattle.om_parser_tree.specs.Tree.{Block, Construct, For, If, While};
ghost use Rattle.om_parser_tree.specs.View.{view_braced, view_for_head, view_inner, view_line, view_test};

use crate::tree::{Condition, Expression, ForHead, Part, Statement};
use om_lexer::{SourceResult, Span, Token};
use om_pragma::Directive;
use om_seq::AllocResult;
use std::alloc::Global;

/// This value in a box. It is not inlined, so that a caller's frame need not hold what becomes of
/// the value where there is no memory.
#[inline(never)]
pub fn boxed<T: Drop>(alloc: Global, value: T) -> AllocResult<Box<T>>
    ensures { IfOk result (λ made. made.value ≡ value) }
{
    Ok(Box::new(alloc, value)?)
}

/// This value in a box, and the tokens behind it.
#[inline(never)]
pub fn boxed_before<'a, T: Drop>(
    alloc: Global,
    value: T,
    rest: &'a [Token],
) -> SourceResult<(Box<T>, &'a [Token])>
    ensures { Makes (λ x. (x.0.value, x.1.now)) result value rest.now }
{
    Ok((boxed(alloc, value)?, rest))
}

/// A block of these parts.
#[inline(never)]
pub fn block_of<'a>(
    alloc: Global,
    open_brace: Span,
    items: Vec<Statement>,
    close_brace: Span,
    rest: &'a [Token],
) -> SourceResult<(Box<Statement>, &'a [Token])>
    ensures { MakesStatement result (Block open_brace (view_braced items) close_brace) rest.now }
{
    let block = Statement::Block {
        open_brace,
        items,
        close_brace,
    };
    boxed_before(alloc, block, rest)
}

/// An `if` of these parts, without `else`.
#[inline(never)]
pub fn if_of<'a>(
    alloc: Global,
    at: Span,
    condition: Box<Condition>,
    body: Box<Statement>,
    rest: &'a [Token],
) -> SourceResult<(Box<Statement>, &'a [Token])>
    ensures { MakesStatement result (If at (view_test condition) (view_inner body)) rest.now }
{
    let statement = Statement::If {
        word: at,
        condition,
        body,
    };
    boxed_before(alloc, statement, rest)
}

/// What an `if` with `else` chooses from.
#[derive(Drop)]
pub struct Branches {
    pub body: Box<Statement>,
    pub else_word: Span,
    pub else_body: Box<Statement>,
}

/// An `if` of these parts, with `else`.
#[inline(never)]
pub fn if_else_of<'a>(
    alloc: Global,
    at: Span,
    condition: Box<Condition>,
    branches: Branches,
    rest: &'a [Token],
) -> SourceResult<(Box<Statement>, &'a [Token])>
    ensures { MakesStatement result (if_else_of at condition branches) rest.now }
{
    let if_else = Statement::IfElse {
        word: at,
        condition,
        body: branches.body,
        else_word: branches.else_word,
        else_body: branches.else_body,
    };
    boxed_before(alloc, if_else, rest)
}

/// A `while` of these parts.
#[inline(never)]
pub fn while_of<'a>(
    alloc: Global,
    at: Span,
    condition: Box<Condition>,
    body: Box<Statement>,
    rest: &'a [Token],
) -> SourceResult<(Box<Statement>, &'a [Token])>
    ensures { MakesStatement result (While at (view_test condition) (view_inner body)) rest.now }
{
    let statement = Statement::While {
        word: at,
        condition,
        body,
    };
    boxed_before(alloc, statement, rest)
}

/// A `for` of these parts.
#[inline(never)]
pub fn for_of<'a>(
    alloc: Global,
    head: Box<ForHead>,
    body: Box<Statement>,
    rest: &'a [Token],
) -> SourceResult<(Box<Statement>, &'a [Token])>
    ensures { MakesStatement result (For (view_for_head head.value) (view_inner body)) rest.now }
{
    boxed_before(alloc, Statement::For { head, body }, rest)
}

/// A construct of these parts.
#[inline(never)]
pub fn construct_of<'a>(
    alloc: Global,
    directive: Box<Directive<Expression>>,
    body: Box<Statement>,
    rest: &'a [Token],
) -> SourceResult<(Box<Statement>, &'a [Token])>
    ensures { MakesStatement result (Construct (view_line directive) (view_inner body)) rest.now }
{
    boxed_before(alloc, Statement::Construct { directive, body }, rest)
}

/// A `sections` of its line, and of the parts between its braces.
#[inline(never)]
pub fn sections_of<'a>(
    alloc: Global,
    directive: Box<Directive<Expression>>,
    braces: (Span, Vec<Part>, Span),
    rest: &'a [Token],
) -> SourceResult<(Box<Statement>, &'a [Token])>
    ensures { MakesStatement result (sections_of directive braces) rest.now }
{
    let (open_brace, parts, close_brace) = braces;
    let sections = Statement::Sections {
        directive,
        open_brace,
        parts,
        close_brace,
    };
    boxed_before(alloc, sections, rest)
}
