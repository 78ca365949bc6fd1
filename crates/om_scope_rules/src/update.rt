//! The updates of `atomic`: target, operator, side and operand.

ghost use Rattle.std.specs.Prelude.{◌≡◌};
ghost use Rattle.om_scope_tree.specs.ResolvedView as view;
ghost use Rattle.om_scope_rules.specs.Updates.{binary_operator, expression_side, operation, operation_of, statement_side, step_operation, step_operator, update_of, value_operation, value_side};
ghost use Rattle.om_scope_rules.specs.UpdateViews.{operand_beside, update_in, updated_by, view_operation, view_perhaps_operation, view_perhaps_update};
ghost use Rattle.om_parser_tree.specs.View.{view_expression, view_statement};

use om_lexer::Span;
use om_parser_tree::{
    AssignOperator, BinaryOperator, Expression, PostfixOperator, Statement, same_expression,
};
use om_scope_tree::{
    ResolvedExpression, ResolvedStatement, ResolvedUpdate, Side, UpdateOperator, Variable,
};
use std::mem;

// On which side of its operator an assigned value has the target.
fn value_side(target: &Expression, value: &Expression) -> Side
    ensures { result ≡ value_side (view_expression target.now) (view_expression value.now) }
{
    match value {
        Expression::Binary { left, .. } => {
            if same_expression(target, left) {
                Side::Left
            } else {
                Side::Right
            }
        }
        _ => Side::Left,
    }
}

// On which side an expression has its target, where it is an update.
fn expression_side(expression: &Expression) -> Side
    ensures { result ≡ expression_side (view_expression expression.now) }
{
    match expression {
        Expression::Assign { target, value, .. } => value_side(target, value),
        _ => Side::Left,
    }
}

/// On which side a statement has its target, where it is an update. Parentheses tell operands apart:
/// `a[(0)] = a[0] - a[(0)];` has it on the right.
pub fn statement_side(statement: &Statement) -> Side
    ensures { result ≡ statement_side (view_statement statement.now) }
{
    match statement {
        Statement::Expression {
            value: expression,
            ..
        } => expression_side(expression),
        _ => Side::Left,
    }
}

/// What is done to the target of an update.
#[derive(Drop)]
pub struct Operation {
    pub operator: UpdateOperator,
    pub side: Side,
    pub operand: ResolvedExpression,
}

fn binary_operator(operator: BinaryOperator) -> Option<UpdateOperator>
    ensures { result ≡ binary_operator operator }
{
    Some(match operator {
        BinaryOperator::Add => UpdateOperator::Add,
        BinaryOperator::Subtract => UpdateOperator::Subtract,
        BinaryOperator::Multiply => UpdateOperator::Multiply,
        BinaryOperator::Divide => UpdateOperator::Divide,
        _ => return None,
    })
}

// An expression, taken out of its place. A `ThreadNumber` stands there then, which nobody reads: the
// caller drops the statement.
fn taken(expression: &mut ResolvedExpression) -> ResolvedExpression
    ensures { result ≡ expression.old }
{
    mem::replace(expression, ResolvedExpression::ThreadNumber)
}

// The operand on the other side, taken out of its place.
fn other_operand(
    side: Side,
    left: &mut ResolvedExpression,
    right: &mut ResolvedExpression,
) -> ResolvedExpression
    ensures { view.expression result ≡ operand_beside side left.old right.old }
{
    match side {
        Side::Left => taken(right),
        Side::Right => taken(left),
    }
}

// What an assigned value does to a target on that side.
fn value_operation(side: Side, value: &mut ResolvedExpression) -> Option<Operation>
    ensures { view_perhaps_operation result ≡ value_operation side (view.expression value.old) }
{
    let ResolvedExpression::Binary {
        left,
        operator,
        right,
    } = value
    else {
        return None;
    };
    let operator = binary_operator(*operator)?;
    let operand = other_operand(side, left, right);
    Some(Operation {
        operator,
        side,
        operand,
    })
}

// `x op= e` with a target on the left.
fn compound(operator: UpdateOperator, operand: ResolvedExpression) -> Operation
    ensures { view_operation result ≡ operation_of operator Side.Left (view.expression operand) }
{
    Operation {
        operator,
        side: Side::Left,
        operand,
    }
}

// What an assignment does to its target, which stands on that side in the value.
fn assignment(
    side: Side,
    operator: AssignOperator,
    value: &mut ResolvedExpression,
) -> Option<Operation>
    ensures { view_perhaps_operation result ≡ operation side operator (view.expression value.old) }
{
    let operator = match operator {
        AssignOperator::Set => return value_operation(side, value),
        AssignOperator::Add => UpdateOperator::Add,
        AssignOperator::Subtract => UpdateOperator::Subtract,
        AssignOperator::Multiply => UpdateOperator::Multiply,
        AssignOperator::Divide => UpdateOperator::Divide,
        AssignOperator::Remainder => return None,
    };
    Some(compound(operator, taken(value)))
}

fn step_operator(operator: PostfixOperator) -> UpdateOperator
    ensures { result ≡ step_operator operator }
{
    match operator {
        PostfixOperator::Increment => UpdateOperator::Add,
        PostfixOperator::Decrement => UpdateOperator::Subtract,
    }
}

// `x++` adds 1, and `x--` subtracts it.
fn step_operation(operator: PostfixOperator) -> Operation
    ensures { view_operation result ≡ step_operation operator }
{
    compound(step_operator(operator), ResolvedExpression::Constant(1))
}

// An update of a variable, or of the element of an array at an index.
fn updated(
    at: Span,
    variable: Variable,
    index: Option<ResolvedExpression>,
    found: Operation,
) -> ResolvedUpdate
    ensures { view.update result ≡ updated_by at variable index found }
{
    ResolvedUpdate {
        at,
        variable,
        index,
        operator: found.operator,
        side: found.side,
        operand: found.operand,
    }
}

// The update that an expression is, whose target stands on that side.
fn expression_update(
    at: Span,
    side: Side,
    expression: &mut ResolvedExpression,
) -> Option<ResolvedUpdate>
    ensures { view_perhaps_update result ≡ update_in at side expression.old }
{
    let (variable, index, found) = match expression {
        ResolvedExpression::Assign {
            variable,
            operator,
            value,
        } => {
            let found = assignment(side, *operator, value)?;
            (*variable, None, found)
        }
        ResolvedExpression::AssignElement {
            array,
            index,
            operator,
            value,
        } => {
            let found = assignment(side, *operator, value)?;
            (*array, Some(taken(index)), found)
        }
        ResolvedExpression::Postfix { variable, operator } => {
            (*variable, None, step_operation(*operator))
        }
        ResolvedExpression::PostfixElement {
            array,
            index,
            operator,
        } => (*array, Some(taken(index)), step_operation(*operator)),
        _ => return None,
    };
    Some(updated(at, variable, index, found))
}

/// The update that a statement is, whose target stands on that side of its operator (OpenMP API 5.2,
/// section 4.3.1.3); nothing where it is another statement. It takes the operands out of the statement.
pub fn update_of(side: Side, statement: &mut ResolvedStatement) -> Option<ResolvedUpdate>
    ensures { view_perhaps_update result ≡ update_of side (view.statement statement.old) }
{
    let ResolvedStatement::Expression {
        at,
        value: expression,
    } = statement
    else {
        return None;
    };
    expression_update(*at, side, expression)
}
