//! What operators give, or which fault they meet.

ghost use Rattle.std.specs.Prelude.{◌≡◌, Bool};
ghost use Rattle.om_code.specs.Arithmetic.{divided, remaining, truth, operate, operate_on_one, as_binary, update, combine};

use crate::frame::Fault;
use crate::instruction::{AtomicOperator, BinaryOperator, Reduction, Side, UnaryOperator};

/// The value of an operator on `a` and, to its right, `b` (C17 6.5.5, 6.5.6, 6.5.8, 6.5.9).
///
/// Errors: F2 where a divisor is 0, else F1 where the result, or the quotient beside a remainder, is no `int`.
pub fn operate(operator: BinaryOperator, a: i32, b: i32) -> Result<i32, Fault>
    ensures { result ≡ operate operator a b }
{
    match operator {
        BinaryOperator::Add => a.checked_add(b).ok_or(Fault::Overflow),
        BinaryOperator::Subtract => a.checked_sub(b).ok_or(Fault::Overflow),
        BinaryOperator::Multiply => a.checked_mul(b).ok_or(Fault::Overflow),
        BinaryOperator::Divide => divided(a, b),
        BinaryOperator::Remainder => remaining(a, b),
        BinaryOperator::Less => Ok(truth(a < b)),
        BinaryOperator::LessOrEqual => Ok(truth(a <= b)),
        BinaryOperator::Greater => Ok(truth(a > b)),
        BinaryOperator::GreaterOrEqual => Ok(truth(a >= b)),
        BinaryOperator::Equal => Ok(truth(a == b)),
        BinaryOperator::NotEqual => Ok(truth(a != b)),
    }
}

// A quotient, rounded toward zero.
fn divided(a: i32, b: i32) -> Result<i32, Fault>
    ensures { result ≡ divided a b }
{
    if b == 0 {
        return Err(Fault::ZeroDivisor);
    }
    a.checked_div(b).ok_or(Fault::Overflow)
}

// A remainder, which has the sign of `a`.
fn remaining(a: i32, b: i32) -> Result<i32, Fault>
    ensures { result ≡ remaining a b }
{
    if b == 0 {
        return Err(Fault::ZeroDivisor);
    }
    a.checked_rem(b).ok_or(Fault::Overflow)
}

// 1 where a comparison holds, else 0.
fn truth(holds: bool) -> i32
    ensures { result ≡ truth holds }
{
    i32::from(holds)
}

/// The value of an operator on one operand (C17 6.5.3.3).
///
/// Errors: F1 where the result is no `int`.
pub fn operate_on_one(operator: UnaryOperator, a: i32) -> Result<i32, Fault>
    ensures { result ≡ operate_on_one operator a }
{
    match operator {
        UnaryOperator::Negate => a.checked_neg().ok_or(Fault::Overflow),
        UnaryOperator::Not => Ok(truth(a == 0)),
    }
}

/// What an atomic update puts, where the variable held `old` and the other operand is `other` (OpenMP 5.2, 15.8.4).
///
/// Errors: those of the operator.
pub fn update(operator: AtomicOperator, side: Side, old: i32, other: i32) -> Result<i32, Fault>
    ensures { result ≡ update operator side old other }
{
    match side {
        Side::Left => operate(as_binary(operator), old, other),
        Side::Right => operate(as_binary(operator), other, old),
    }
}

// The operator of an atomic update among those of the language.
fn as_binary(operator: AtomicOperator) -> BinaryOperator
    ensures { result ≡ as_binary operator }
{
    match operator {
        AtomicOperator::Add => BinaryOperator::Add,
        AtomicOperator::Subtract => BinaryOperator::Subtract,
        AtomicOperator::Multiply => BinaryOperator::Multiply,
        AtomicOperator::Divide => BinaryOperator::Divide,
    }
}

/// Two copies of a reduction, combined (OpenMP 5.2, 5.5.3).
///
/// Errors: F1 where the result is no `int`.
pub fn combine(reduction: Reduction, a: i32, b: i32) -> Result<i32, Fault>
    ensures { result ≡ combine reduction a b }
{
    match reduction {
        Reduction::Add => operate(BinaryOperator::Add, a, b),
        Reduction::Multiply => operate(BinaryOperator::Multiply, a, b),
        Reduction::Max => Ok(a.max(b)),
        Reduction::Min => Ok(a.min(b)),
    }
}
