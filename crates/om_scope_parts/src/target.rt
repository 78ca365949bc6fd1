//! What is assigned to (C17 6.5.16p2), and what stands where it can't.

ghost use Rattle.std.specs.Prelude.{◌≡◌, Some};
ghost use Rattle.om_parser_tree.specs.View.{view_expression};
ghost use Rattle.om_scope_tree.specs.ResolvedView as view;
ghost use Rattle.om_scope_rules.specs.Checks.{ChecksExactly};
ghost use Rattle.om_scope_rules.specs.ExpressionRules.{is_target, leading_breaches};
ghost use Rattle.om_scope_rules.specs.Resolution.{assigned, stepped};
ghost use Rattle.om_scope_parts.specs.TargetViews.{first_misplaced, view_target};
ghost use Rattle.om_scope_parts.specs.Views.{view_boxed};

use om_lexer::{SourceFault, SourceResult};
use om_parser_tree::{AssignOperator, Expression, PostfixOperator};
use om_scope_rules::expression_start;
use om_scope_symbols::{Symbols, check_declared, misuse};
use om_scope_tree::{ResolvedExpression, Variable};

/// The refusal of an expression that can't stand where it does: S9 at its first token, or S7 of a name
/// there.
pub fn misplaced(symbols: &Symbols, expression: &Expression) -> SourceFault
    ensures { first_misplaced symbols.now expression.now ≡ Some result }
{
    match check_leading(symbols, expression) {
        Ok(()) => misuse(expression_start(expression)),
        Err(fault) => fault,
    }
}

// The name that an expression begins with: S7.
fn check_leading(symbols: &Symbols, expression: &Expression) -> SourceResult<()>
    ensures { ChecksExactly result (leading_breaches symbols.now (view_expression expression.now)) }
{
    match expression {
        Expression::Name(name) => check_declared(symbols, name),
        Expression::Index { name, .. } => check_declared(symbols, name),
        Expression::Call { name, .. } => check_declared(symbols, name),
        Expression::Postfix { operand, .. } => check_leading(symbols, operand),
        Expression::Binary { left, .. } => check_leading(symbols, left),
        Expression::Conditional { condition, .. } => check_leading(symbols, condition),
        Expression::Assign { target, .. } => check_leading(symbols, target),
        _ => Ok(()),
    }
}

/// Whether an expression is a name or an element, in parentheses or not.
pub fn is_target(expression: &Expression) -> bool
    ensures { result ≡ is_target (view_expression expression.now) }
{
    match expression {
        Expression::Paren { inner, .. } => is_target(inner),
        _ => matches!(expression, Expression::Name(_) | Expression::Index { .. }),
    }
}

/// What is assigned to.
#[derive(Drop)]
pub enum Target {
    Variable(Variable),
    /// The element of an array at an index.
    Element(Variable, Box<ResolvedExpression>),
}

/// An assignment of a value to a target.
pub fn assigned(
    target: Target,
    operator: AssignOperator,
    value: Box<ResolvedExpression>,
) -> ResolvedExpression
    ensures { view.expression result ≡ assigned (view_target target) operator (view_boxed value) }
{
    match target {
        Target::Variable(variable) => ResolvedExpression::Assign {
            variable,
            operator,
            value,
        },
        Target::Element(array, index) => {
            ResolvedExpression::AssignElement {
                array,
                index,
                operator,
                value,
            }
        }
    }
}

/// A target with `++` or `--` behind it.
pub fn stepped(target: Target, operator: PostfixOperator) -> ResolvedExpression
    ensures { view.expression result ≡ stepped (view_target target) operator }
{
    match target {
        Target::Variable(variable) => ResolvedExpression::Postfix { variable, operator },
        Target::Element(array, index) => ResolvedExpression::PostfixElement {
            array,
            index,
            operator,
        },
    }
}
