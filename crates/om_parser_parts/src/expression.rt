//! Expressions (C17 6.5).

ghost use Rattle.std.specs.Prelude.{◌≤◌, IfOk, IfErr};
ghost use Rattle.om_parser_parts.specs.ExpressionReading.{argument_at, closed_by, primary_step, whole_at, IsTakenWithin};
ghost use Rattle.om_parser_parts.specs.Made.{arguments_in, call_in, conditional_in, expression_in, first_in, inside_in, named_in, operand_in, operands_in, operators_in, postfix_in, postfixes_behind, rest_in, whole_in};
ghost use Rattle.om_parser_parts.specs.Made.{ArePrefixes, MakesExpression, ReadsArgument, ReadsClosed, ReadsExpression, ReadsUntil, StopsOperand};
ghost use Rattle.om_parser_tree.specs.Limits.{accepted};
ghost use Rattle.om_parser_tree.specs.View.{view_argument, view_expression};

use crate::front::{mark, name, syntax, take_mark, take_number, too_deep};
use crate::operator::{
    joined, postfixed, prefixed, take_assign, take_looser, take_postfix, take_prefix, take_text,
};
use om_lexer::{Punctuator, SourceResult, Span, Token};
use om_parser_tree::assembly::boxed_before;
use om_parser_tree::{Argument, Expression, PrefixOperator, TOKEN_LIMIT};
use om_pragma::Name;
use std::alloc::Global;

// The levels of precedence between operands: from `||` to `*`.
const LEVELS: usize = 6;

/// How much of an expression may still be read.
#[derive(Clone, Copy)]
pub struct Budget {
    // How many tokens must be left behind each one that is taken: with fewer, the expression has more than
    // `TOKEN_LIMIT`.
    beyond: usize,
    // How often operators and brackets may still nest. It begins as the number of tokens, so it never runs
    // out while one is left: it is there so that reading ends.
    turns: usize,
    // How many brackets may stand round a part.
    room: usize,
}

/// A whole expression, with room for `room` brackets round a part of it, and the tokens behind it.
pub fn whole(
    alloc: Global,
    tokens: &[Token],
    room: usize,
) -> SourceResult<(Box<Expression>, &[Token])>
    ensures { ReadsExpression result (whole_at accepted room tokens.now) }
{
    let beyond = tokens.len().saturating_sub(TOKEN_LIMIT);
    let budget = Budget {
        beyond,
        turns: tokens.len(),
        room,
    };
    expression(alloc, tokens, budget, true)
}

// Refuses the token before these, at its span, where fewer than `beyond` tokens are left
// behind it.
fn within(rest: &[Token], span: Span, beyond: usize) -> SourceResult<()>
    ensures { IsTakenWithin beyond span rest.now result }
{
    if beyond <= rest.len() {
        Ok(())
    } else {
        Err(too_deep(span))
    }
}

// An expression, or one that is no assignment, with room for `room` brackets round a part of
// it, and the tokens behind it. `turns` bounds how often operators and brackets nest.
#[cycle(expression)]
fn expression(
    alloc: Global,
    tokens: &[Token],
    budget: Budget,
    may_assign: bool,
) -> SourceResult<(Box<Expression>, &[Token])>
    ensures { ReadsExpression result (expression_in budget may_assign tokens.now) }
{
    let Some(turns) = budget.turns.checked_sub(1) else {
        return Err(syntax(tokens));
    };
    let budget = Budget { turns, ..budget };
    let (left, rest) = binary(alloc, tokens, budget, LEVELS)?;
    expression_after(alloc, left, rest, budget, may_assign)
}

// An operand and what goes on with it: the rest of a conditional expression, of an assignment,
// or nothing.
#[cycle(expression)]
fn expression_after(
    alloc: Global,
    left: Box<Expression>,
    tokens: &[Token],
    budget: Budget,
    may_assign: bool,
) -> SourceResult<(Box<Expression>, &[Token])>
    ensures { ReadsExpression result (rest_in budget may_assign left tokens.now) }
{
    if let Some((question, rest)) = take_mark(tokens, Punctuator::Question) {
        within(rest, question, budget.beyond)?;
        return conditional_after(alloc, left, question, rest, budget);
    }
    if let Some((operator, at, rest)) = take_assign(may_assign, &left, tokens) {
        within(rest, at, budget.beyond)?;
        let (value, rest) = expression(alloc, rest, budget, true)?;
        let assignment = Expression::Assign {
            target: left,
            operator,
            operator_span: at,
            value,
        };
        return before(alloc, assignment, rest);
    }
    Ok((left, tokens))
}

// The rest of a conditional expression, of which the question mark is taken.
#[cycle(expression)]
fn conditional_after(
    alloc: Global,
    condition: Box<Expression>,
    question: Span,
    tokens: &[Token],
    budget: Budget,
) -> SourceResult<(Box<Expression>, &[Token])>
    ensures { ReadsExpression result (conditional_in budget condition question tokens.now) }
{
    let (value, rest) = expression(alloc, tokens, budget, true)?;
    let (colon, rest) = mark(rest, Punctuator::Colon)?;
    within(rest, colon, budget.beyond)?;
    let (other, rest) = expression(alloc, rest, budget, false)?;
    let conditional = Expression::Conditional {
        condition,
        question,
        value,
        colon,
        other,
    };
    before(alloc, conditional, rest)
}

// Operands and the operators between them, of the tightest `levels` levels, and the tokens
// behind them.
#[cycle(expression)]
fn binary(
    alloc: Global,
    tokens: &[Token],
    budget: Budget,
    levels: usize,
) -> SourceResult<(Box<Expression>, &[Token])>
    ensures { ReadsExpression result (operands_in budget levels tokens.now) }
{
    let (mut left, mut rest) = unary(alloc, tokens, budget)?;
    'levels: for tighter in 0..levels {
        let (joined, others) = operators(alloc, left, rest, budget, tighter)?;
        left = joined;
        rest = others;
    }
    Ok((left, rest))
}

// An operand, the operators of one level with their right operands, and the tokens behind them.
#[cycle(expression)]
fn operators(
    alloc: Global,
    operand: Box<Expression>,
    tokens: &[Token],
    budget: Budget,
    tighter: usize,
) -> SourceResult<(Box<Expression>, &[Token])>
    ensures { ReadsExpression result (operators_in budget tighter operand tokens.now) }
{
    let mut left = operand;
    let mut rest = tokens;
    while let Some((operator, at, others)) = take_looser(rest, tighter) {
        within(others, at, budget.beyond)?;
        let (right, others) = binary(alloc, others, budget, tighter)?;
        left = joined(alloc, left, operator, at, right)?;
        rest = others;
    }
    Ok((left, rest))
}

// An operand with the operators before and behind it, and the tokens behind it.
#[cycle(expression)]
fn unary(
    alloc: Global,
    tokens: &[Token],
    budget: Budget,
) -> SourceResult<(Box<Expression>, &[Token])>
    ensures { ReadsExpression result (operand_in budget tokens.now) }
{
    let (operators, turns, rest) = prefixes(alloc, tokens, budget.beyond, budget.turns)?;
    let budget = Budget { turns, ..budget };
    let (operand, rest) = postfix(alloc, rest, budget)?;
    Ok((prefixed(alloc, operators, operand)?, rest))
}

// The operators before an operand, the turns that are left behind them, and the tokens behind
// them.
#[inline(never)]
fn prefixes(
    alloc: Global,
    tokens: &[Token],
    beyond: usize,
    turns: usize,
) -> SourceResult<(Vec<(PrefixOperator, Span)>, usize, &[Token])>
    ensures fewer_turns { IfOk result (λ x. x.1 ≤ turns) }
    ensures taken { IfOk result (ArePrefixes beyond turns tokens.now) }
    ensures refused { IfErr result (StopsOperand beyond turns tokens.now) }
{
    let mut operators = Vec::new(alloc);
    let mut left = turns;
    let mut rest = tokens;
    while let Some((operator, at, others)) = take_prefix(rest) {
        within(others, at, beyond)?;
        let Some(fewer) = left.checked_sub(1) else {
            return Err(syntax(others));
        };
        operators.push((operator, at))?;
        left = fewer;
        rest = others;
    }
    Ok((operators, left, rest))
}

// An operand with the operators behind it, and the tokens behind them.
#[cycle(expression)]
fn postfix(
    alloc: Global,
    tokens: &[Token],
    budget: Budget,
) -> SourceResult<(Box<Expression>, &[Token])>
    ensures { ReadsExpression result (postfix_in budget tokens.now) }
{
    let (operand, rest) = primary(alloc, tokens, budget)?;
    postfixes(alloc, operand, rest, budget.beyond)
}

// An operand, the operators behind it, and the tokens behind them.
#[inline(never)]
fn postfixes(
    alloc: Global,
    operand: Box<Expression>,
    tokens: &[Token],
    beyond: usize,
) -> SourceResult<(Box<Expression>, &[Token])>
    ensures { ReadsExpression result (postfixes_behind beyond operand tokens.now) }
{
    let mut left = operand;
    let mut rest = tokens;
    while let Some((operator, at, others)) = take_postfix(rest) {
        within(others, at, beyond)?;
        left = postfixed(alloc, left, operator, at)?;
        rest = others;
    }
    Ok((left, rest))
}

// A constant, an expression in parentheses, or what begins with a name, and the tokens behind
// it.
#[cycle(expression)]
fn primary(
    alloc: Global,
    tokens: &[Token],
    budget: Budget,
) -> SourceResult<(Box<Expression>, &[Token])>
    ensures { ReadsExpression result (primary_step budget.beyond (inside_in budget) tokens.now) }
{
    if let Some((number, rest)) = take_number(tokens) {
        within(rest, number.span, budget.beyond)?;
        return before(alloc, Expression::Constant(number), rest);
    }
    if let Some((left, rest)) = take_mark(tokens, Punctuator::OpenParen) {
        within(rest, left, budget.beyond)?;
        let Some(room) = budget.room.checked_sub(1) else {
            return Err(too_deep(left));
        };
        let budget = Budget { room, ..budget };
        let (inner, right, rest) = closed(alloc, rest, Punctuator::CloseParen, budget)?;
        return before(
            alloc,
            Expression::Paren {
                open_paren: left,
                inner,
                close_paren: right,
            },
            rest,
        );
    }
    let (name, rest) = name(alloc, tokens)?;
    within(rest, name.span, budget.beyond)?;
    named_after(alloc, name, rest, budget)
}

// An expression, the span of the mark that closes its bracket, and the tokens behind it.
#[cycle(expression)]
fn closed(
    alloc: Global,
    tokens: &[Token],
    close: Punctuator,
    budget: Budget,
) -> SourceResult<(Box<Expression>, Span, &[Token])>
    ensures { ReadsClosed result (closed_by budget.beyond close (whole_in budget) tokens.now) }
{
    let (inner, rest) = expression(alloc, tokens, budget, true)?;
    let (right, rest) = mark(rest, close)?;
    within(rest, right, budget.beyond)?;
    Ok((inner, right, rest))
}

// A name, and its index or its arguments, where they stand behind it.
#[cycle(expression)]
fn named_after(
    alloc: Global,
    name: Name,
    tokens: &[Token],
    budget: Budget,
) -> SourceResult<(Box<Expression>, &[Token])>
    ensures { ReadsExpression result (named_in budget name tokens.now) }
{
    if let Some((left, rest)) = take_mark(tokens, Punctuator::OpenBracket) {
        within(rest, left, budget.beyond)?;
        let Some(room) = budget.room.checked_sub(1) else {
            return Err(too_deep(left));
        };
        let budget = Budget { room, ..budget };
        let (index, right, rest) = closed(alloc, rest, Punctuator::CloseBracket, budget)?;
        return before(
            alloc,
            Expression::Index {
                name,
                open_bracket: left,
                index,
                close_bracket: right,
            },
            rest,
        );
    }
    if let Some((left, rest)) = take_mark(tokens, Punctuator::OpenParen) {
        within(rest, left, budget.beyond)?;
        let Some(room) = budget.room.checked_sub(1) else {
            return Err(too_deep(left));
        };
        let budget = Budget { room, ..budget };
        return call_after(alloc, name, left, rest, budget);
    }
    before(alloc, Expression::Name(name), tokens)
}

// The rest of a call, of which the left parenthesis is taken.
#[cycle(expression)]
fn call_after(
    alloc: Global,
    name: Name,
    left: Span,
    tokens: &[Token],
    budget: Budget,
) -> SourceResult<(Box<Expression>, &[Token])>
    ensures { ReadsExpression result (call_in budget name left tokens.now) }
{
    if let Some((right, rest)) = take_mark(tokens, Punctuator::CloseParen) {
        within(rest, right, budget.beyond)?;
        let call = Expression::Call {
            name,
            open_paren: left,
            arguments: Vec::new(alloc),
            close_paren: right,
        };
        return before(alloc, call, rest);
    }
    let (first, rest) = first_argument(alloc, &name, tokens, budget)?;
    let (arguments, right, rest) = arguments(alloc, first, rest, budget)?;
    within(rest, right, budget.beyond)?;
    before(
        alloc,
        Expression::Call {
            name,
            open_paren: left,
            arguments,
            close_paren: right,
        },
        rest,
    )
}

// The first argument of a call of this function, and the tokens behind it.
#[cycle(expression)]
fn first_argument<'a>(
    alloc: Global,
    function: &Name,
    tokens: &'a [Token],
    budget: Budget,
) -> SourceResult<(Box<Expression>, &'a [Token])>
    ensures { ReadsExpression result (first_in budget function.now tokens.now) }
{
    if let Some((text, rest)) = take_text(alloc, function, tokens)? {
        within(rest, text.span, budget.beyond)?;
        return before(alloc, Expression::Text(text), rest);
    }
    expression(alloc, tokens, budget, true)
}

// The first argument and those behind commas, the span of the parenthesis behind them, and the
// tokens behind that.
#[cycle(expression)]
fn arguments(
    alloc: Global,
    first: Box<Expression>,
    tokens: &[Token],
    budget: Budget,
) -> SourceResult<(Vec<Argument>, Span, &[Token])>
    ensures { ReadsUntil view_argument result (arguments_in budget first tokens.now) }
{
    let mut arguments = Vec::new(alloc);
    arguments.push((None, Box::into_inner(first)))?;
    let mut rest = tokens;
    'further: loop {
        if let Some((right, after)) = take_mark(rest, Punctuator::CloseParen) {
            return Ok((arguments, right, after));
        }
        let (comma, next, after) = argument(alloc, rest, budget)?;
        arguments.push((Some(comma), Box::into_inner(next)))?;
        rest = after;
    }
}

// A comma, the argument behind it, and the tokens behind that.
#[cycle(expression)]
fn argument(
    alloc: Global,
    tokens: &[Token],
    budget: Budget,
) -> SourceResult<(Span, Box<Expression>, &[Token])>
    ensures { ReadsArgument result (argument_at budget.beyond (whole_in budget) tokens.now) }
{
    let (comma, rest) = mark(tokens, Punctuator::Comma)?;
    within(rest, comma, budget.beyond)?;
    let (next, rest) = expression(alloc, rest, budget, true)?;
    Ok((comma, next, rest))
}

/// This expression in a box, and the tokens behind it.
#[inline(never)]
pub fn before<'a>(
    alloc: Global,
    expression: Expression,
    rest: &'a [Token],
) -> SourceResult<(Box<Expression>, &'a [Token])>
    ensures { MakesExpression result (view_expression expression) rest.now }
{
    boxed_before(alloc, expression, rest)
}
