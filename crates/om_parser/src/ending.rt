//! What ends a statement behind the statement in it: of a `do`, its condition, and of an `atomic`, the test
//! of its form.
//!
//! As with `om_parser_tree::assembly`, none of these may be inlined into the functions of the recursion, so that
//! their frames stay small.

ghost use Rattle.std.specs.Prelude.{◌≡◌};
ghost use Rattle.om_parser.specs.StatementReading.{do_end};
ghost use Rattle.om_parser.specs.StatementView.{atomic_with, ReadsStatement};
ghost use Rattle.om_parser_parts.specs.PartReading.{parts};
ghost use Rattle.om_pragma.specs.Questions.{atomic_kind};
ghost use Rattle.om_parser_tree.specs.AtomicForms.{has_atomic_form};
ghost use Rattle.om_parser_tree.specs.Limits.{accepted};
ghost use Rattle.om_parser_tree.specs.View.{view_directive, view_inner, view_statement};

use crate::opening::condition;
use om_lexer::{FaultCode, Keyword, Punctuator, SourceFault, SourceResult, Span, Token};
use om_parser_parts::front::{mark, word};
use om_parser_tree::assembly::{boxed_before, construct_of};
use om_parser_tree::{Expression, Statement, has_atomic_form};
use om_pragma::Directive;
use std::alloc::Global;

/// The rest of a `do` behind its body, and the tokens behind it.
#[inline(never)]
pub fn do_end(
    alloc: Global,
    at: Span,
    body: Box<Statement>,
    tokens: &[Token],
) -> SourceResult<(Box<Statement>, &[Token])>
    ensures { ReadsStatement result (do_end (parts accepted) at (view_inner body) tokens.now) }
{
    let (again, rest) = word(tokens, Keyword::While)?;
    let (condition, rest) = condition(alloc, rest)?;
    let (semicolon, rest) = mark(rest, Punctuator::Semicolon)?;
    let statement = Statement::Do {
        word: at,
        body,
        while_word: again,
        condition,
        semicolon,
    };
    boxed_before(alloc, statement, rest)
}

/// An `atomic` with its statement, which has one of the forms where that is `checked`.
#[inline(never)]
pub fn atomic_of<'a>(
    alloc: Global,
    checked: bool,
    directive: Box<Directive<Expression>>,
    body: Box<Statement>,
    tokens: &'a [Token],
) -> SourceResult<(Box<Statement>, &'a [Token])>
    ensures { ReadsStatement result (atomic_with checked directive body tokens.now) }
{
    if !checked || has_form(&directive, &body) {
        return construct_of(alloc, directive, body, tokens);
    }
    Err(SourceFault {
        code: FaultCode::BadClause,
        at: directive.name.span().start,
    })
}

// Whether a statement is one of the forms that this `atomic` has.
fn has_form(directive: &Directive<Expression>, body: &Statement) -> bool
    ensures { result ≡ has_atomic_form (atomic_kind (view_directive directive.now))
        (view_statement body.now) }
{
    has_atomic_form(directive.atomic_kind(), body)
}
