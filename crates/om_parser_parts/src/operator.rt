//! Operators, and what an operand may begin with.

ghost use Rattle.std.specs.Prelude.{◌≡◌, ◌-◌, IfOk, nat_le};
ghost use Rattle.om_parser_parts.specs.ExpressionReading.{assign_of, binary_of, level_operator, postfix_of, prefix_of, prefixed, take_any_text, take_assign, take_operator, take_text};
ghost use Rattle.om_parser_parts.specs.Made.{view_operand, MakesBoxed, Takes, TakesText};
ghost use Rattle.om_parser_tree.specs.Formed.{binary_level, level};
ghost use Rattle.om_parser_tree.specs.Tree.{Binary, Postfix, Prefix};
ghost use Rattle.om_parser_tree.specs.View.{view_expression};

use om_lexer::{Punctuator, Span, Token, TokenKind};
use om_parser_tree::assembly::boxed;
use om_parser_tree::{
    AssignOperator, BinaryOperator, Expression, PostfixOperator, PrefixOperator, Text,
};
use om_pragma::Name;
use om_seq::{AllocResult, Seq};
use std::alloc::Global;

// The operator before an operand that a token of this kind is (C17 6.5.3).
fn prefix_operator(kind: &TokenKind) -> Option<PrefixOperator>
    ensures { result ≡ prefix_of kind.now }
{
    let TokenKind::Punctuator(mark) = kind else {
        return None;
    };
    Some(match mark {
        Punctuator::Plus => PrefixOperator::Plus,
        Punctuator::Minus => PrefixOperator::Minus,
        Punctuator::Bang => PrefixOperator::Not,
        Punctuator::PlusPlus => PrefixOperator::Increment,
        Punctuator::MinusMinus => PrefixOperator::Decrement,
        _ => return None,
    })
}

// The operator behind an operand that a token of this kind is (C17 6.5.2.4).
fn postfix_operator(kind: &TokenKind) -> Option<PostfixOperator>
    ensures { result ≡ postfix_of kind.now }
{
    let TokenKind::Punctuator(mark) = kind else {
        return None;
    };
    Some(match mark {
        Punctuator::PlusPlus => PostfixOperator::Increment,
        Punctuator::MinusMinus => PostfixOperator::Decrement,
        _ => return None,
    })
}

// The binary operator that a token of this kind is (C17 6.5.5 to 6.5.14).
fn binary_operator(kind: &TokenKind) -> Option<BinaryOperator>
    ensures { result ≡ binary_of kind.now }
{
    let TokenKind::Punctuator(mark) = kind else {
        return None;
    };
    Some(match mark {
        Punctuator::OrOr => BinaryOperator::Or,
        Punctuator::AndAnd => BinaryOperator::And,
        Punctuator::EqualEqual => BinaryOperator::Equal,
        Punctuator::BangEqual => BinaryOperator::NotEqual,
        Punctuator::Less => BinaryOperator::Less,
        Punctuator::Greater => BinaryOperator::Greater,
        Punctuator::LessEqual => BinaryOperator::LessEqual,
        Punctuator::GreaterEqual => BinaryOperator::GreaterEqual,
        Punctuator::Plus => BinaryOperator::Add,
        Punctuator::Minus => BinaryOperator::Subtract,
        Punctuator::Star => BinaryOperator::Multiply,
        Punctuator::Slash => BinaryOperator::Divide,
        Punctuator::Percent => BinaryOperator::Remainder,
        _ => return None,
    })
}

// The assignment that a token of this kind is (C17 6.5.16).
fn assign_operator(kind: &TokenKind) -> Option<AssignOperator>
    ensures { result ≡ assign_of kind.now }
{
    let TokenKind::Punctuator(mark) = kind else {
        return None;
    };
    Some(match mark {
        Punctuator::Equal => AssignOperator::Set,
        Punctuator::PlusEqual => AssignOperator::Add,
        Punctuator::MinusEqual => AssignOperator::Subtract,
        Punctuator::StarEqual => AssignOperator::Multiply,
        Punctuator::SlashEqual => AssignOperator::Divide,
        Punctuator::PercentEqual => AssignOperator::Remainder,
        _ => return None,
    })
}

// How tightly a binary operator binds: from 3, the loosest, to 8.
fn binary_level(operator: BinaryOperator) -> usize
    ensures { result ≡ binary_level operator }
{
    match operator {
        BinaryOperator::Or => 3,
        BinaryOperator::And => 4,
        BinaryOperator::Equal | BinaryOperator::NotEqual => 5,
        BinaryOperator::Less
        | BinaryOperator::Greater
        | BinaryOperator::LessEqual
        | BinaryOperator::GreaterEqual => 6,
        BinaryOperator::Add | BinaryOperator::Subtract => 7,
        BinaryOperator::Multiply | BinaryOperator::Divide | BinaryOperator::Remainder => 8,
    }
}

// Whether an expression binds as tightly as what may be assigned to: a unary expression.
fn is_unary(expression: &Expression) -> bool
    ensures { result ≡ nat_le 9 (level (view_expression expression.now)) }
{
    !matches!(
        expression,
        Expression::Binary { .. } | Expression::Conditional { .. } | Expression::Assign { .. }
    )
}

/// The operator before an operand that stands first, its span, and the tokens behind it.
pub fn take_prefix(tokens: &[Token]) -> Option<(PrefixOperator, Span, &[Token])>
    ensures { Takes result (take_operator prefix_of tokens.now) }
{
    let [first, rest @ ..] = tokens else {
        return None;
    };
    let operator = prefix_operator(&first.kind)?;
    Some((operator, first.span, rest))
}

/// The operator behind an operand that stands first, its span, and the tokens behind it.
pub fn take_postfix(tokens: &[Token]) -> Option<(PostfixOperator, Span, &[Token])>
    ensures { Takes result (take_operator postfix_of tokens.now) }
{
    let [first, rest @ ..] = tokens else {
        return None;
    };
    let operator = postfix_operator(&first.kind)?;
    Some((operator, first.span, rest))
}

// The binary operator of this level that a token of this kind is.
fn operator_of_level(kind: &TokenKind, wanted: usize) -> Option<BinaryOperator>
    ensures { result ≡ level_operator wanted kind.now }
{
    let operator = binary_operator(kind)?;
    if binary_level(operator) == wanted {
        Some(operator)
    } else {
        None
    }
}

// The binary operator of this level that stands first, its span, and the tokens behind it.
fn take_binary(tokens: &[Token], wanted: usize) -> Option<(BinaryOperator, Span, &[Token])>
    ensures { Takes result (take_operator (level_operator wanted) tokens.now) }
{
    let [first, rest @ ..] = tokens else {
        return None;
    };
    let operator = operator_of_level(&first.kind, wanted)?;
    Some((operator, first.span, rest))
}

/// The operator that stands first, if it is of the next looser level than the tightest
/// `tighter` ones, its span, and the tokens behind it.
pub fn take_looser(tokens: &[Token], tighter: usize) -> Option<(BinaryOperator, Span, &[Token])>
    ensures { Takes result (take_operator (level_operator (8 - tighter)) tokens.now) }
{
    take_binary(tokens, 8usize.saturating_sub(tighter))
}

// The assignment that stands first, its span, and the tokens behind it.
fn take_any_assign(tokens: &[Token]) -> Option<(AssignOperator, Span, &[Token])>
    ensures { Takes result (take_operator assign_of tokens.now) }
{
    let [first, rest @ ..] = tokens else {
        return None;
    };
    let operator = assign_operator(&first.kind)?;
    Some((operator, first.span, rest))
}

/// The assignment to this expression that stands first, its span, and the tokens behind it.
/// None where no assignment may stand, or none to this expression.
pub fn take_assign<'a>(
    may_assign: bool,
    target: &Expression,
    tokens: &'a [Token],
) -> Option<(AssignOperator, Span, &'a [Token])>
    ensures { Takes result (take_assign may_assign (view_expression target.now) tokens.now) }
{
    if may_assign && is_unary(target) {
        take_any_assign(tokens)
    } else {
        None
    }
}

// The text that stands first, and the tokens behind it.
fn take_any_text(alloc: Global, tokens: &[Token]) -> AllocResult<Option<(Text, &[Token])>>
    ensures { IfOk result (λ found. TakesText found (take_any_text tokens.now)) }
{
    let [first, rest @ ..] = tokens else {
        return Ok(None);
    };
    let TokenKind::Text(value) = &first.kind else {
        return Ok(None);
    };
    let value = Seq::of(value.as_slice().to_vec(alloc)?);
    let span = first.span;
    Ok(Some((Text { value, span }, rest)))
}

/// The text that stands first, where the function of this name takes one, and the tokens
/// behind it.
pub fn take_text<'a>(
    alloc: Global,
    function: &Name,
    tokens: &'a [Token],
) -> AllocResult<Option<(Text, &'a [Token])>>
    ensures { IfOk result (λ found. TakesText found (take_text function.now tokens.now)) }
{
    if function.text.as_slice() == b"printf".as_slice() {
        take_any_text(alloc, tokens)
    } else {
        Ok(None)
    }
}

/// An operand behind these operators.
#[inline(never)]
pub fn prefixed(
    alloc: Global,
    operators: Vec<(PrefixOperator, Span)>,
    operand: Box<Expression>,
) -> AllocResult<Box<Expression>>
    ensures { MakesBoxed result (prefixed operators.items (view_operand operand)) }
{
    let mut outer = operators;
    let mut made = operand;
    while let Some((operator, at)) = outer.pop() {
        made = with_prefix(alloc, operator, at, made)?;
    }
    Ok(made)
}

// An operator and its operand.
#[inline(never)]
fn with_prefix(
    alloc: Global,
    operator: PrefixOperator,
    at: Span,
    operand: Box<Expression>,
) -> AllocResult<Box<Expression>>
    ensures { MakesBoxed result (Prefix operator at (view_operand operand)) }
{
    let prefix = Expression::Prefix {
        operator,
        operator_span: at,
        operand,
    };
    boxed(alloc, prefix)
}

/// An operand and the operator behind it.
#[inline(never)]
pub fn postfixed(
    alloc: Global,
    operand: Box<Expression>,
    operator: PostfixOperator,
    at: Span,
) -> AllocResult<Box<Expression>>
    ensures { MakesBoxed result (Postfix (view_operand operand) operator at) }
{
    let postfix = Expression::Postfix {
        operand,
        operator,
        operator_span: at,
    };
    boxed(alloc, postfix)
}

/// Two operands and the operator between them.
#[inline(never)]
pub fn joined(
    alloc: Global,
    left: Box<Expression>,
    operator: BinaryOperator,
    at: Span,
    right: Box<Expression>,
) -> AllocResult<Box<Expression>>
    ensures { MakesBoxed result (Binary (view_operand left) operator at (view_operand right)) }
{
    let binary = Expression::Binary {
        left,
        operator,
        operator_span: at,
        right,
    };
    boxed(alloc, binary)
}
