//! Expressions: their rules, and the variable of each use. What was found is kept in a box or in a list.

ghost use Rattle.std.specs.Prelude.{◌≡◌, ◌<◌, pos, IfOk, option_map, OnOk, Ok};
ghost use Rattle.om_scope_tree.specs.ResolvedView as view;
ghost use Rattle.om_scope_rules.specs.Checks.{ChecksExactly};
ghost use Rattle.om_scope_rules.specs.ExpressionRules.{constant_breaches};
ghost use Rattle.om_scope_rules.specs.Outcomes.{Finds};
ghost use Rattle.om_scope_rules.specs.Resolution.{variable_named};
ghost use Rattle.om_scope_parts.specs.Expressions.{ResolvesArgument, ResolvesCall, ResolvesElement, ResolvesOwnCall};
ghost use Rattle.om_scope_parts.specs.Expressions.{ResolvesPrefix, ResolvesPrint, ResolvesPrinted, ResolvesStep};
ghost use Rattle.om_scope_parts.specs.Expressions.{ResolvesTarget, ResolvesUnary, ResolvesValues};
ghost use Rattle.om_scope_parts.specs.Views.{ResolvesExpression, view_boxed};
ghost use Rattle.om_scope_parts.specs.Keeps.{IsPushed, KeepsRefusals};

use crate::call::{argument_count, call_of, resolve_format};
use crate::target::{Target, assigned, is_target, misplaced, stepped};
use om_lexer::{FaultCode, SourceFault, SourceResult};
use om_parser_tree::{Argument, AssignOperator, Expression, Name, Number, PrefixOperator};
use om_scope_rules::{PRINTED_LIMIT, expression_start, refuse_among};
use om_scope_symbols::{Symbols, is_printf, misuse, resolve_array, resolve_callee, resolve_scalar};
use om_scope_tree::{ResolvedExpression, UnaryOperator, Variable};
use std::alloc::Global;

/// An expression, whose value is used or not.
#[cycle(expression)]
pub fn resolve_expression(
    alloc: Global,
    symbols: &Symbols,
    for_value: bool,
    expression: &Expression,
) -> SourceResult<ResolvedExpression>
    ensures { ResolvesExpression view.expression result symbols.now for_value expression.now }
{
    match expression {
        Expression::Name(name) => Ok(ResolvedExpression::Variable(resolve_scalar(symbols, name)?)),
        Expression::Constant(number) => Ok(ResolvedExpression::Constant(constant_of(number)?)),
        Expression::Text(text) => Err(misuse(text.span.start)),
        Expression::Paren { inner, .. } => resolve_expression(alloc, symbols, for_value, inner),
        Expression::Index { name, index, .. } => {
            let (array, index) = resolve_element(alloc, symbols, name, index)?;
            Ok(ResolvedExpression::Element { array, index })
        }
        Expression::Call {
            name,
            arguments: values,
            ..
        } => { resolve_call(alloc, symbols, for_value, name, values.as_slice()) }
        Expression::Prefix {
            operator,
            operand,
            ..
        } => { resolve_prefix(alloc, symbols, *operator, operand) }
        Expression::Postfix {
            operand,
            operator,
            ..
        } => {
            let target = resolve_target(alloc, symbols, operand)?;
            Ok(stepped(target, *operator))
        }
        Expression::Binary {
            left,
            operator,
            right,
            ..
        } => {
            let left = boxed_expression(alloc, symbols, true, left)?;
            let right = boxed_expression(alloc, symbols, true, right)?;
            Ok(ResolvedExpression::Binary {
                left,
                operator: *operator,
                right,
            })
        }
        Expression::Conditional {
            condition,
            value: then,
            other,
            ..
        } => {
            let condition = boxed_expression(alloc, symbols, true, condition)?;
            let then = boxed_expression(alloc, symbols, true, then)?;
            let other = boxed_expression(alloc, symbols, true, other)?;
            Ok(ResolvedExpression::Conditional {
                condition,
                value: then,
                other,
            })
        }
        Expression::Assign {
            target,
            operator,
            value,
            ..
        } => {
            let target = resolve_target(alloc, symbols, target)?;
            let value = boxed_expression(alloc, symbols, true, value)?;
            Ok(assigned(target, *operator, value))
        }
    }
}

/// An expression, in a box: each name in it has the variable of its innermost declaration (C17 6.2.1,
/// 6.5). `for_value` says whether its value is used.
///
/// Refusals: the first of S7, S9, S10, S11 and S13 in its text, or S0 out of memory.
#[cycle(expression)]
pub fn boxed_expression(
    alloc: Global,
    symbols: &Symbols,
    for_value: bool,
    expression: &Expression,
) -> SourceResult<Box<ResolvedExpression>>
    ensures { ResolvesExpression view_boxed result symbols.now for_value expression.now }
{
    boxed(
        alloc,
        resolve_expression(alloc, symbols, for_value, expression),
    )
}

/// An expression that may be left out, taken out of its box.
pub fn unboxed(expression: Option<Box<ResolvedExpression>>) -> Option<ResolvedExpression>
    ensures { option_map view.expression result ≡ option_map view_boxed expression }
{
    let expression = expression?;
    Some(Box::into_inner(expression))
}

/// The value of a constant: S10.
pub fn constant_of(number: &Number) -> SourceResult<i32>
    ensures checked { ChecksExactly result (constant_breaches number.now) }
    ensures value { IfOk result (λ value. value ≡ pos number.now.value) }
{
    if number.value > 2147483647 {
        return Err(SourceFault {
            code: FaultCode::ConstantTooLarge,
            at: number.span.start,
        });
    }
    Ok(number.value as i32)
}

// An operator before its operand.
#[cycle(expression)]
fn resolve_prefix(
    alloc: Global,
    symbols: &Symbols,
    operator: PrefixOperator,
    operand: &Expression,
) -> SourceResult<ResolvedExpression>
    ensures { ResolvesPrefix result symbols.now operator operand.now }
{
    match operator {
        PrefixOperator::Increment => resolve_step(alloc, symbols, AssignOperator::Add, operand),
        PrefixOperator::Decrement => {
            resolve_step(alloc, symbols, AssignOperator::Subtract, operand)
        }
        PrefixOperator::Plus => resolve_unary(alloc, symbols, UnaryOperator::Plus, operand),
        PrefixOperator::Minus => resolve_unary(alloc, symbols, UnaryOperator::Negate, operand),
        PrefixOperator::Not => resolve_unary(alloc, symbols, UnaryOperator::Not, operand),
    }
}

// `++x` is `x += 1`, and `--x` is `x -= 1`.
#[cycle(expression)]
fn resolve_step(
    alloc: Global,
    symbols: &Symbols,
    operator: AssignOperator,
    operand: &Expression,
) -> SourceResult<ResolvedExpression>
    ensures { ResolvesStep result symbols.now operator operand.now }
{
    let target = resolve_target(alloc, symbols, operand)?;
    let one = Box::new(alloc, ResolvedExpression::Constant(1))?;
    Ok(assigned(target, operator, one))
}

// An operator before an operand whose value it uses.
#[cycle(expression)]
fn resolve_unary(
    alloc: Global,
    symbols: &Symbols,
    operator: UnaryOperator,
    operand: &Expression,
) -> SourceResult<ResolvedExpression>
    ensures { ResolvesUnary result symbols.now operator operand.now }
{
    let operand = boxed_expression(alloc, symbols, true, operand)?;
    Ok(ResolvedExpression::Unary { operator, operand })
}

// What is assigned to.
#[cycle(expression)]
fn resolve_target(alloc: Global, symbols: &Symbols, target: &Expression) -> SourceResult<Target>
    ensures { ResolvesTarget result symbols.now target.now }
{
    match target {
        Expression::Name(name) => Ok(Target::Variable(resolve_scalar(symbols, name)?)),
        Expression::Index { name, index, .. } => {
            let (array, index) = resolve_element(alloc, symbols, name, index)?;
            Ok(Target::Element(array, index))
        }
        Expression::Paren { inner, .. } => {
            if is_target(inner) {
                resolve_target(alloc, symbols, inner)
            } else {
                Err(misplaced(symbols, target))
            }
        }
        _ => Err(misplaced(symbols, target)),
    }
}

// An element of an array: the array and the index.
#[cycle(expression)]
fn resolve_element(
    alloc: Global,
    symbols: &Symbols,
    name: &Name,
    index: &Expression,
) -> SourceResult<(Variable, Box<ResolvedExpression>)>
    ensures index { ResolvesElement result symbols.now name.now index.now }
    ensures array { Finds (λ found. found.0) result (variable_named symbols.now name.now) }
{
    let array = resolve_array(symbols, name)?;
    let index = boxed_expression(alloc, symbols, true, index)?;
    Ok((array, index))
}

// A call.
#[cycle(expression)]
fn resolve_call(
    alloc: Global,
    symbols: &Symbols,
    for_value: bool,
    name: &Name,
    values: &[Argument],
) -> SourceResult<ResolvedExpression>
    ensures { ResolvesCall result symbols.now for_value name.now values.now }
{
    if is_printf(symbols.meaning_of(name.text.as_slice())) {
        return resolve_print(alloc, symbols, for_value, name, values);
    }
    resolve_own_call(alloc, symbols, for_value, name, values)
}

// A call of `printf`: S9, S11.
#[cycle(expression)]
fn resolve_print(
    alloc: Global,
    symbols: &Symbols,
    for_value: bool,
    name: &Name,
    values: &[Argument],
) -> SourceResult<ResolvedExpression>
    ensures { ResolvesPrint result symbols.now for_value name.now values.now }
{
    let format = resolve_format(alloc, for_value, name, values)?;
    let printed = resolve_printed(alloc, symbols, values)?;
    Ok(ResolvedExpression::Print {
        format,
        values: printed,
    })
}

// The arguments of a `printf`, of which the first is its format: the values behind it.
#[cycle(expression)]
fn resolve_printed(
    alloc: Global,
    symbols: &Symbols,
    values: &[Argument],
) -> SourceResult<Vec<ResolvedExpression>>
    ensures { ResolvesPrinted result symbols.now values.now }
{
    let mut resolved = Vec::new(alloc);
    let mut place = 0;
    for argument in values {
        if place == 0 {
            place = 1;
            continue;
        }
        let value = resolve_argument(alloc, symbols, place, &argument.1);
        add(&mut resolved, value)?;
        place += 1;
    }
    Ok(resolved)
}

// A value that a `printf` writes, at a place from 1: S11.
#[cycle(expression)]
fn resolve_argument(
    alloc: Global,
    symbols: &Symbols,
    place: usize,
    argument: &Expression,
) -> SourceResult<ResolvedExpression>
    requires { 0 < place }
    ensures { ResolvesArgument result symbols.now place argument.now }
{
    let resolved = resolve_expression(alloc, symbols, true, argument);
    let at = expression_start(argument);
    refuse_among(resolved, PRINTED_LIMIT < place, FaultCode::TooMany, at)
}

// A call of another function than `printf`.
#[cycle(expression)]
fn resolve_own_call(
    alloc: Global,
    symbols: &Symbols,
    for_value: bool,
    name: &Name,
    values: &[Argument],
) -> SourceResult<ResolvedExpression>
    ensures { ResolvesOwnCall result symbols.now for_value name.now values.now }
{
    let place = resolve_callee(symbols, for_value, name, argument_count(values))?;
    let values = resolve_values(alloc, symbols, values)?;
    Ok(call_of(place, values))
}

// The values of a call.
#[cycle(expression)]
fn resolve_values(
    alloc: Global,
    symbols: &Symbols,
    values: &[Argument],
) -> SourceResult<Vec<ResolvedExpression>>
    ensures { ResolvesValues result symbols.now values.now }
{
    let mut resolved = Vec::new(alloc);
    for argument in values {
        let value = resolve_expression(alloc, symbols, true, &argument.1);
        add(&mut resolved, value)?;
    }
    Ok(resolved)
}

/// What was found, in a box. A refusal stays; S0 is out of memory.
pub fn boxed<T: Drop>(alloc: Global, found: SourceResult<T>) -> SourceResult<Box<T>>
    ensures checked { KeepsRefusals found result }
    ensures kept { IfOk result (λ made. found ≡ Ok made.value) }
{
    let item = found?;
    Ok(Box::new(alloc, item)?)
}

/// Adds what was found behind the items of a list. A refusal stays; S0 is out of memory.
pub fn add<T: Drop>(items: &mut Vec<T>, found: SourceResult<T>) -> SourceResult<()>
    ensures checked { KeepsRefusals found result }
    ensures added { OnOk result (IsPushed found items.old.items items.new.items) }
{
    let item = found?;
    items.push(item)?;
    Ok(())
}
