//! What a `for` has before its body (C17 6.8.5.3).

ghost use Rattle.std.specs.Prelude.{◌≡◌, [], IfOk, option_map};
ghost use Rattle.om_parser_tree.specs.View.{view_for_head, view_for_start};
ghost use Rattle.om_scope_rules.specs.Checks.{Checks};
ghost use Rattle.om_scope_rules.specs.StatementRules.{continuing, looping};
ghost use Rattle.om_scope.specs.Resolving.{GoesBehindStart, ResolvesHead, ResolvesTurn};
ghost use Rattle.om_scope.specs.Simple.{IsFor, ResolvesPerhaps, ResolvesStart, head_condition, head_step};
ghost use Rattle.om_scope_parts.specs.Views.{view_boxed};

use om_lexer::{SourceResult, Span};
use om_parser_tree::{Expression, ForHead, ForStart};
use om_scope_parts::{boxed, boxed_expression, resolve_locals, unboxed};
use om_scope_rules::Flow;
use om_scope_symbols::Symbols;
use om_scope_tree::{ResolvedExpression, ResolvedHead, ResolvedStart, ResolvedStatement};
use std::alloc::Global;

/// What a `for` has before its body: what it begins with, its condition and its step.
pub fn resolve_for_head(
    alloc: Global,
    symbols: &mut Symbols,
    head: &ForHead,
) -> SourceResult<Box<ResolvedHead>>
    ensures found { ResolvesHead result symbols.old (view_for_head head.now) }
    ensures in_scope { GoesBehindStart result symbols.old symbols.new head.now.start }
{
    let start = boxed(alloc, resolve_for_start(alloc, symbols, &head.start))?;
    let (condition, step) = resolve_for_turn(alloc, symbols, head)?;
    head_of(alloc, start, condition, step)
}

// What a `for` has before its body, put together.
fn head_of(
    alloc: Global,
    start: Box<ResolvedStart>,
    condition: Option<Box<ResolvedExpression>>,
    step: Option<Box<ResolvedExpression>>,
) -> SourceResult<Box<ResolvedHead>>
    ensures checked { Checks result [] }
    ensures start { IfOk result (λ head. head.value.start ≡ start.value) }
    ensures condition { IfOk result (λ head. head_condition head ≡ option_map view_boxed condition) }
    ensures step { IfOk result (λ head. head_step head ≡ option_map view_boxed step) }
{
    let head = ResolvedHead {
        start: Box::into_inner(start),
        condition: unboxed(condition),
        step: unboxed(step),
    };
    Ok(Box::new(alloc, head)?)
}

// What a `for` begins with.
fn resolve_for_start(
    alloc: Global,
    symbols: &mut Symbols,
    start: &ForStart,
) -> SourceResult<ResolvedStart>
    ensures found { ResolvesStart result symbols.old (view_for_start start.now) }
    ensures in_scope { GoesBehindStart result symbols.old symbols.new start.now }
{
    match start {
        ForStart::Nothing(_) => Ok(ResolvedStart::Nothing),
        ForStart::Expression {
            value: expression,
            ..
        } => {
            let expression = boxed_expression(alloc, symbols, false, expression)?;
            Ok(ResolvedStart::Expression(Box::into_inner(expression)))
        }
        ForStart::Declaration(declaration) => {
            let declared = resolve_locals(alloc, symbols, declaration)?;
            Ok(ResolvedStart::Declaration(declared))
        }
    }
}

// The condition and the step of a `for`.
fn resolve_for_turn(
    alloc: Global,
    symbols: &Symbols,
    head: &ForHead,
) -> SourceResult<
    (
        Option<Box<ResolvedExpression>>,
        Option<Box<ResolvedExpression>>,
    ),
>
    ensures { ResolvesTurn result symbols.now (view_for_head head.now) }
{
    let condition = resolve_perhaps(alloc, symbols, true, &head.condition)?;
    let step = resolve_perhaps(alloc, symbols, false, &head.step)?;
    Ok((condition, step))
}

// An expression that may be left out.
fn resolve_perhaps(
    alloc: Global,
    symbols: &Symbols,
    for_value: bool,
    expression: &Option<Expression>,
) -> SourceResult<Option<Box<ResolvedExpression>>>
    ensures { ResolvesPerhaps result symbols.now for_value expression.now }
{
    let Some(expression) = expression else {
        return Ok(None);
    };
    let expression = boxed_expression(alloc, symbols, for_value, expression)?;
    Ok(Some(expression))
}

/// A `for` with its body.
pub fn for_of(at: Span, head: Box<ResolvedHead>, body: Box<ResolvedStatement>) -> ResolvedStatement
    ensures { IsFor at head body result }
{
    ResolvedStatement::For { at, head, body }
}

/// The same place in the body of a loop.
pub(crate) fn looping(flow: Flow) -> Flow
    ensures { result ≡ looping flow }
{
    Flow {
        may_break: true,
        may_continue: true,
        returns: flow.returns,
        in_construct: flow.in_construct,
        is_closed: flow.is_closed,
        parallel: flow.parallel,
    }
}

/// The same place, where a `continue` goes on with the next iteration.
pub(crate) fn continuing(flow: Flow) -> Flow
    ensures { result ≡ continuing flow }
{
    Flow {
        may_continue: true,
        ..flow
    }
}
