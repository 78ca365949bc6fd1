//! The bounds of a canonical loop.

ghost use Rattle.std.specs.Prelude.{◌≡◌, OnOk};
ghost use Rattle.om_scope_rules.specs.Checks.{ChecksExactly};
ghost use Rattle.om_scope_rules.specs.LoopViews.{view_loop};
ghost use Rattle.om_scope_rules.specs.StatementRules.{variable_breaches, with_iteration};
ghost use Rattle.om_scope_parts.specs.Bounds.{ResolvesBoundsOf, ResolvesLoop, ResolvesValuesOf};

use crate::declaration::local_of;
use crate::expression::boxed_expression;
use om_lexer::{FaultCode, SourceResult};
use om_parser_tree::Name;
use om_scope_rules::Loop;
use om_scope_symbols::{Symbols, check_declared, is_scalar, refuse_if};
use om_scope_tree::{ResolvedExpression, ResolvedLoop, ResolvedSchedule, Shape};
use om_seq::AllocResult;
use std::alloc::Global;

// The variable of a loop that does not declare it: S7, S9.
fn check_variable(symbols: &Symbols, name: &Name) -> SourceResult<()>
    ensures { ChecksExactly result (variable_breaches symbols.now name.now) }
{
    check_declared(symbols, name)?;
    let broken = !is_scalar(symbols.meaning_of(name.text.as_slice()));
    refuse_if(broken, FaultCode::Misuse, name.span.start)
}

// The first value and the bound of a loop's variable.
fn resolve_values(
    alloc: Global,
    symbols: &Symbols,
    found: &Loop<'_>,
) -> SourceResult<(Box<ResolvedExpression>, Box<ResolvedExpression>)>
    ensures { ResolvesValuesOf result symbols.now (view_loop found.now) }
{
    let from = boxed_expression(alloc, symbols, true, found.start.from)?;
    let to = boxed_expression(alloc, symbols, true, found.to)?;
    Ok((from, to))
}

/// Enters the scope in which a loop's variable is one of its own, whether it declares it or not (OpenMP
/// API 5.2, section 5.1.1). An error is out of memory.
pub fn enter_loop(alloc: Global, symbols: &mut Symbols, found: &Loop<'_>) -> AllocResult<()>
    ensures { OnOk result (symbols.new ≡ with_iteration symbols.old (view_loop found.now)) }
{
    symbols.enter(alloc)?;
    symbols.declare_local(alloc, found.start.variable, Shape::Scalar)
}

// The bounds of a loop: S7, S9, S13.
fn resolve_bounds(
    alloc: Global,
    symbols: &mut Symbols,
    found: &Loop<'_>,
) -> SourceResult<(Box<ResolvedExpression>, Box<ResolvedExpression>)>
    ensures found { ResolvesBoundsOf result symbols.old (view_loop found.now) }
    ensures in_scope { OnOk result (symbols.new ≡ symbols.old) }
{
    if !found.start.is_declared {
        check_variable(symbols, found.start.variable)?;
        return resolve_values(alloc, symbols, found);
    }
    enter_loop(alloc, symbols, found)?;
    let bounds = resolve_values(alloc, symbols, found)?;
    symbols.leave();
    Ok(bounds)
}

/// A loop in canonical form, with its bounds, its step and this schedule (OpenMP API 5.2, section
/// 4.4.1). The scopes stay, where it is found.
///
/// Refusals: S7 and S9 at a variable that the loop does not declare, those of the bounds' expressions,
/// and S0 out of memory.
pub fn resolve_loop(
    alloc: Global,
    symbols: &mut Symbols,
    schedule: ResolvedSchedule,
    found: &Loop<'_>,
) -> SourceResult<Box<ResolvedLoop>>
    ensures found { ResolvesLoop result symbols.old schedule (view_loop found.now) }
    ensures in_scope { OnOk result (symbols.new ≡ symbols.old) }
{
    let variable = local_of(alloc, found.start.variable)?;
    let (from, to) = resolve_bounds(alloc, symbols, found)?;
    let resolved = ResolvedLoop {
        at: found.at,
        variable,
        from: Box::into_inner(from),
        comparison: found.comparison,
        to: Box::into_inner(to),
        step: found.step,
        schedule,
    };
    Ok(Box::new(alloc, resolved)?)
}
