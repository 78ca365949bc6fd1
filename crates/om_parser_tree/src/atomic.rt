//! Which statements an `atomic` may have (OpenMP API 5.2, 4.3.1.3).

ghost use Rattle.std.specs.Prelude.{◌≡◌};
ghost use Rattle.std.specs.Str.{bytes_eq};
ghost use Rattle.om_parser_tree.specs.AtomicForms.{same_expression, contains, arguments_contain, same_arguments, is_place, is_atomic_operator, is_one_operand, is_operation_on, is_step, is_updated, is_update, is_read, is_write, has_atomic_form};
ghost use Rattle.om_parser_tree.specs.View.{view_arguments, view_expression, view_statement};

use crate::tree::{
    Argument, AssignOperator, BinaryOperator, Expression, PrefixOperator, Statement,
};
use om_pragma::{AtomicKind, Name};

// Whether two names have the same text.
fn same_name(one: &Name, other: &Name) -> bool
    ensures { result ≡ bytes_eq one.now.text other.now.text }
{
    one.text.as_slice() == other.text.as_slice()
}

/// Whether two expressions are the same but for their spans.
#[cycle(same)]
pub fn same_expression(one: &Expression, other: &Expression) -> bool
    ensures { result ≡ same_expression (view_expression one.now) (view_expression other.now) }
{
    match (one, other) {
        (Expression::Name(name), Expression::Name(other)) => same_name(name, other),
        (Expression::Constant(number), Expression::Constant(other)) => number.value == other.value,
        (Expression::Text(text), Expression::Text(other)) => {
            text.value.as_slice() == other.value.as_slice()
        }
        (Expression::Paren { inner, .. }, Expression::Paren { inner: other, .. }) => {
            same_expression(inner, other)
        }
        (
            Expression::Index { name, index, .. },
            Expression::Index {
                name: other,
                index: other_index,
                ..
            },
        ) => { same_name(name, other) && same_expression(index, other_index) }
        (
            Expression::Call {
                name,
                arguments: values,
                ..
            },
            Expression::Call {
                name: other,
                arguments: others,
                ..
            },
        ) => { same_name(name, other) && same_arguments(values, others) }
        (
            Expression::Prefix {
                operator,
                operand: inner,
                ..
            },
            Expression::Prefix {
                operator: other,
                operand: other_inner,
                ..
            },
        ) => { *operator == *other && same_expression(inner, other_inner) }
        (
            Expression::Postfix {
                operand: inner,
                operator,
                ..
            },
            Expression::Postfix {
                operand: other_inner,
                operator: other,
                ..
            },
        ) => { *operator == *other && same_expression(inner, other_inner) }
        (
            Expression::Binary {
                left,
                operator,
                right,
                ..
            },
            Expression::Binary {
                left: other_left,
                operator: other,
                right: other_right,
                ..
            },
        ) => {
            *operator == *other
                && same_expression(left, other_left)
                && same_expression(right, other_right)
        }
        (
            Expression::Conditional {
                condition,
                value,
                other: alternative,
                ..
            },
            Expression::Conditional {
                condition: other,
                value: other_value,
                other: other_alternative,
                ..
            },
        ) => {
            same_expression(condition, other)
                && same_expression(value, other_value)
                && same_expression(alternative, other_alternative)
        }
        (
            Expression::Assign {
                target: left,
                operator,
                value: right,
                ..
            },
            Expression::Assign {
                target: other_left,
                operator: other,
                value: other_right,
                ..
            },
        ) => {
            *operator == *other
                && same_expression(left, other_left)
                && same_expression(right, other_right)
        }
        _ => false,
    }
}

// Whether these are as many arguments as the others, and each is the same as the other's.
#[cycle(same)]
fn same_arguments(values: &[Argument], others: &[Argument]) -> bool
    ensures { result ≡ same_arguments (view_arguments values.now) (view_arguments others.now) }
{
    let mut rest = others;
    for (_, value) in values {
        let [(_, other), behind @ ..] = rest else {
            return false;
        };
        if !same_expression(value, other) {
            return false;
        }
        rest = behind;
    }
    rest.is_empty()
}

// Whether an expression, or a part of it, is the same as the target.
#[cycle(contains)]
fn contains(expression: &Expression, target: &Expression) -> bool
    ensures { result ≡ contains (view_expression target.now) (view_expression expression.now) }
{
    if same_expression(target, expression) {
        return true;
    }
    match expression {
        Expression::Name(_) | Expression::Constant(_) | Expression::Text(_) => false,
        Expression::Paren { inner: part, .. }
        | Expression::Index { index: part, .. }
        | Expression::Prefix { operand: part, .. }
        | Expression::Postfix { operand: part, .. } => contains(part, target),
        Expression::Call {
            arguments: values,
            ..
        } => any_contains(values, target),
        Expression::Conditional {
            condition,
            value,
            other,
            ..
        } => { contains(condition, target) || contains(value, target) || contains(other, target) }
        Expression::Binary { left, right, .. }
        | Expression::Assign {
            target: left,
            value: right,
            ..
        } => { contains(left, target) || contains(right, target) }
    }
}

// Whether one of these arguments, or a part of it, is the same as the target.
#[cycle(contains)]
fn any_contains(values: &[Argument], target: &Expression) -> bool
    ensures { result ≡ arguments_contain (view_expression target.now) (view_arguments values.now) }
{
    for (_, value) in values {
        if contains(value, target) {
            return true;
        }
    }
    false
}

// Whether an expression is a name or an indexed name.
fn is_place(expression: &Expression) -> bool
    ensures { result ≡ is_place (view_expression expression.now) }
{
    matches!(expression, Expression::Name(_) | Expression::Index { .. })
}

// Whether an update may have this operator.
fn is_atomic_operator(operator: BinaryOperator) -> bool
    ensures { result ≡ is_atomic_operator operator }
{
    matches!(
        operator,
        BinaryOperator::Add
            | BinaryOperator::Subtract
            | BinaryOperator::Multiply
            | BinaryOperator::Divide
    )
}

// Whether one operand is the target, and the other does not contain it.
fn is_one_operand(target: &Expression, left: &Expression, right: &Expression) -> bool
    ensures { result ≡ is_one_operand (view_expression target.now) (view_expression left.now)
        (view_expression right.now) }
{
    (same_expression(target, left) && !contains(right, target))
        || (same_expression(target, right) && !contains(left, target))
}

// Whether a value is an operation of the target and an operand that does not contain it.
fn is_operation_on(target: &Expression, value: &Expression) -> bool
    ensures { result ≡ is_operation_on (view_expression target.now) (view_expression value.now) }
{
    let Expression::Binary {
        left,
        operator,
        right,
        ..
    } = value
    else {
        return false;
    };
    is_atomic_operator(*operator) && is_one_operand(target, left, right)
}

// Whether this assignment of a value to the target updates it.
fn is_updated(target: &Expression, operator: AssignOperator, value: &Expression) -> bool
    ensures { result ≡ is_updated (view_expression target.now) operator
        (view_expression value.now) }
{
    match operator {
        AssignOperator::Set => is_operation_on(target, value),
        AssignOperator::Remainder => false,
        _ => !contains(value, target),
    }
}

// Whether an operator before its operand is `++` or `--`.
fn is_step(operator: PrefixOperator) -> bool
    ensures { result ≡ is_step operator }
{
    matches!(
        operator,
        PrefixOperator::Increment | PrefixOperator::Decrement
    )
}

// Whether an expression is an update.
fn is_update(expression: &Expression) -> bool
    ensures { result ≡ is_update (view_expression expression.now) }
{
    match expression {
        Expression::Prefix {
            operator,
            operand: target,
            ..
        } => is_step(*operator) && is_place(target),
        Expression::Postfix {
            operand: target,
            ..
        } => is_place(target),
        Expression::Assign {
            target,
            operator,
            value,
            ..
        } => { is_place(target) && is_updated(target, *operator, value) }
        _ => false,
    }
}

// Whether an expression is a read: `v = x`.
fn is_read(expression: &Expression) -> bool
    ensures { result ≡ is_read (view_expression expression.now) }
{
    let Expression::Assign {
        target,
        operator: AssignOperator::Set,
        value,
        ..
    } = expression
    else {
        return false;
    };
    is_place(target) && is_place(value)
}

// Whether an expression is a write: `x = e`.
fn is_write(expression: &Expression) -> bool
    ensures { result ≡ is_write (view_expression expression.now) }
{
    let Expression::Assign {
        target,
        operator: AssignOperator::Set,
        ..
    } = expression
    else {
        return false;
    };
    is_place(target)
}

/// Whether an `atomic` of this kind may have this statement (OpenMP API 5.2, 4.3.1.3).
pub fn has_atomic_form(kind: AtomicKind, statement: &Statement) -> bool
    ensures { result ≡ has_atomic_form kind (view_statement statement.now) }
{
    let Statement::Expression {
        value: expression,
        ..
    } = statement
    else {
        return false;
    };
    match kind {
        AtomicKind::Update => is_update(expression),
        AtomicKind::Read => is_read(expression),
        AtomicKind::Write => is_write(expression),
    }
}
