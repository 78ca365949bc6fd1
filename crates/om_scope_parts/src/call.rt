//! Calls, beside their values: the format of a `printf`, and the function that is called.

ghost use Rattle.std.specs.Prelude.{◌≡◌, Some, IfOk, option_map};
ghost use Rattle.om_parser_tree.specs.View.{view_arguments, view_expression};
ghost use Rattle.om_scope_tree.specs.ResolvedView as view;
ghost use Rattle.om_scope_rules.specs.ExpressionRules.{argument_count, is_print};
ghost use Rattle.om_scope_rules.specs.Resolution.{call_of, format_in, text_in};
ghost use Rattle.om_scope_parts.specs.Expressions.{ChecksFormat};
ghost use Rattle.om_scope_parts.specs.Views.{view_values};

use om_lexer::{FaultCode, SourceResult};
use om_parser_tree::{Argument, Expression, Name};
use om_scope_rules::is_format;
use om_scope_symbols::refuse_if;
use om_scope_tree::ResolvedExpression;
use om_seq::Seq;
use std::alloc::Global;

/// How many values a call has.
pub fn argument_count(values: &[Argument]) -> usize
    ensures { result ≡ argument_count (view_arguments values.now) }
{
    values.len()
}

/// The format of a `printf`: S9.
pub fn resolve_format(
    alloc: Global,
    for_value: bool,
    name: &Name,
    values: &[Argument],
) -> SourceResult<Seq<u8>>
    ensures checked { ChecksFormat result for_value name.now values.now }
    ensures resolved { IfOk result
        (λ format. format_in (view_arguments values.now) ≡ Some format) }
{
    let broken = for_value || !is_print(values);
    refuse_if(broken, FaultCode::Misuse, name.span.start)?;
    match format_in(values) {
        Some(format) => Ok(Seq::of(Vec::from_slice(alloc, format.as_slice())?)),
        None => unreachable!(),
    }
}

// Whether a call of `printf` has a format, and as many values as it takes.
fn is_print(values: &[Argument]) -> bool
    ensures { result ≡ is_print (view_arguments values.now) }
{
    let [format, printed @ ..] = values else {
        return false;
    };
    is_format(&format.1, argument_count(printed))
}

// The format that a `printf` begins with, which is there where it has one.
fn format_in(values: &[Argument]) -> Option<&Seq<u8>>
    ensures { option_map (λ text. text.now) result ≡ format_in (view_arguments values.now) }
{
    let [format, ..] = values else {
        return None;
    };
    text_in(&format.1)
}

// The text that an expression is.
fn text_in(expression: &Expression) -> Option<&Seq<u8>>
    ensures { option_map (λ text. text.now) result ≡ text_in (view_expression expression.now) }
{
    let Expression::Text(text) = expression else {
        return None;
    };
    Some(&text.value)
}

/// A call of the function at a place among the definitions.
pub fn call_of(place: usize, values: Vec<ResolvedExpression>) -> ResolvedExpression
    ensures { view.expression result ≡ call_of place (view_values values) }
{
    match place {
        1 => ResolvedExpression::ThreadNumber,
        2 => ResolvedExpression::TeamSize,
        _ => ResolvedExpression::Call {
            function: place.saturating_sub(3),
            values,
        },
    }
}
