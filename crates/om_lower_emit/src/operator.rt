//! The operators of the language as those of instructions.

ghost use Rattle.std.specs.Prelude.{◌≡◌};
ghost use Rattle.om_lower_rules.specs.Operators as rows;
ghost use Rattle.om_lower_emit.specs.Forms.{form};
ghost use Rattle.om_lower_emit.specs.Words.{identity_of, reduction_of, side_of, update_of};

use om_code::instruction::{AtomicOperator, BinaryOperator, Reduction};
use om_parser_tree::{AssignOperator, PostfixOperator};
use om_pragma::ReductionOperator;
use om_scope_tree::{Side, UpdateOperator};

/// What an operator between two operands is.
#[derive(Clone, Copy)]
pub(crate) enum Form {
    /// `&&`, which may jump over its right operand (C17 6.5.13p4).
    Both,
    /// `||`, which may too (C17 6.5.14p4).
    Either,
    /// An instruction.
    Plain(BinaryOperator),
}

/// What an operator between two operands is (C17 6.5.5 to 6.5.14).
pub(crate) fn form_of(operator: om_parser_tree::BinaryOperator) -> Form
    ensures { form result ≡ rows.form_of operator }
{
    match operator {
        om_parser_tree::BinaryOperator::And => Form::Both,
        om_parser_tree::BinaryOperator::Or => Form::Either,
        om_parser_tree::BinaryOperator::Equal => Form::Plain(BinaryOperator::Equal),
        om_parser_tree::BinaryOperator::NotEqual => Form::Plain(BinaryOperator::NotEqual),
        om_parser_tree::BinaryOperator::Less => Form::Plain(BinaryOperator::Less),
        om_parser_tree::BinaryOperator::Greater => Form::Plain(BinaryOperator::Greater),
        om_parser_tree::BinaryOperator::LessEqual => Form::Plain(BinaryOperator::LessOrEqual),
        om_parser_tree::BinaryOperator::GreaterEqual => Form::Plain(BinaryOperator::GreaterOrEqual),
        om_parser_tree::BinaryOperator::Add => Form::Plain(BinaryOperator::Add),
        om_parser_tree::BinaryOperator::Subtract => Form::Plain(BinaryOperator::Subtract),
        om_parser_tree::BinaryOperator::Multiply => Form::Plain(BinaryOperator::Multiply),
        om_parser_tree::BinaryOperator::Divide => Form::Plain(BinaryOperator::Divide),
        om_parser_tree::BinaryOperator::Remainder => Form::Plain(BinaryOperator::Remainder),
    }
}

/// The operator of a compound assignment; `=` has none (C17 6.5.16.2).
pub(crate) fn compound_of(operator: AssignOperator) -> Option<BinaryOperator>
    ensures { result ≡ rows.compound_of operator }
{
    Some(match operator {
        AssignOperator::Set => return None,
        AssignOperator::Add => BinaryOperator::Add,
        AssignOperator::Subtract => BinaryOperator::Subtract,
        AssignOperator::Multiply => BinaryOperator::Multiply,
        AssignOperator::Divide => BinaryOperator::Divide,
        AssignOperator::Remainder => BinaryOperator::Remainder,
    })
}

/// What `x++` or `x--` does with x and 1 (C17 6.5.2.4).
pub(crate) fn step_of(operator: PostfixOperator) -> BinaryOperator
    ensures { result ≡ rows.step_of operator }
{
    match operator {
        PostfixOperator::Increment => BinaryOperator::Add,
        PostfixOperator::Decrement => BinaryOperator::Subtract,
    }
}

/// The inverse of that step: what makes the old value of the new one and 1.
pub(crate) fn inverse_step_of(operator: PostfixOperator) -> BinaryOperator
    ensures { result ≡ rows.inverse_step_of operator }
{
    match operator {
        PostfixOperator::Increment => BinaryOperator::Subtract,
        PostfixOperator::Decrement => BinaryOperator::Add,
    }
}

/// How a reduction combines (OpenMP API 5.2, section 5.5.3).
pub(crate) fn reduction_of(operator: ReductionOperator) -> Reduction
    ensures { result ≡ reduction_of operator }
{
    match operator {
        ReductionOperator::Add => Reduction::Add,
        ReductionOperator::Multiply => Reduction::Multiply,
        ReductionOperator::Max => Reduction::Max,
        ReductionOperator::Min => Reduction::Min,
    }
}

/// What the copies of a reduction begin with (OpenMP API 5.2, section 5.5.3).
pub(crate) fn identity_of(operator: ReductionOperator) -> i32
    ensures { result ≡ identity_of operator }
{
    match operator {
        ReductionOperator::Add => 0,
        ReductionOperator::Multiply => 1,
        ReductionOperator::Max => i32::MIN,
        ReductionOperator::Min => i32::MAX,
    }
}

/// The operator of an atomic update (OpenMP API 5.2, section 15.8.4).
pub(crate) fn update_of(operator: UpdateOperator) -> AtomicOperator
    ensures { result ≡ update_of operator }
{
    match operator {
        UpdateOperator::Add => AtomicOperator::Add,
        UpdateOperator::Subtract => AtomicOperator::Subtract,
        UpdateOperator::Multiply => AtomicOperator::Multiply,
        UpdateOperator::Divide => AtomicOperator::Divide,
    }
}

/// On which side of its operator the old value of an atomic update stands.
pub(crate) fn side_of(side: Side) -> om_code::instruction::Side
    ensures { result ≡ side_of side }
{
    match side {
        Side::Left => om_code::instruction::Side::Left,
        Side::Right => om_code::instruction::Side::Right,
    }
}
