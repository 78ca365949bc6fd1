//! The code of expressions whose values nothing uses (C17 6.8.3).

ghost use Rattle.om_lower_emit.specs.Effects.{popped, print};
ghost use Rattle.om_lower_emit.specs.Words.{Appends, AppendsBy, CallHasCode, EffectHasCode, ValueHasCode};
ghost use Rattle.om_lower_emit.specs.Words.{effect, listed};
ghost use Rattle.om_scope_tree.specs.ResolvedView as view;

use crate::draft::Draft;
use crate::expression::{assign, assign_element, assigned, call, value, values};
use crate::single::{step, step_element};
use crate::spot::Here;
use om_code::{Instr, Serial};
use om_scope_tree::ResolvedExpression;
use om_seq::AllocResult;

/// Writes an expression, which leaves nothing.
///
/// Its only error is out of memory.
pub fn effect(draft: &mut Draft, here: &Here<'_>, e: &ResolvedExpression) -> AllocResult<()>
    requires { EffectHasCode (view.expression e.now) }
    ensures { Appends result here.now effect (view.expression e.now) draft.old draft.new }
{
    match e {
        ResolvedExpression::Assign {
            variable,
            operator,
            value: e,
        } => { assign(draft, here, assigned(*variable, *operator, false), e) }
        ResolvedExpression::AssignElement {
            array,
            index,
            operator,
            value: e,
        } => {
            value(draft, here, index)?;
            assign_element(draft, here, assigned(*array, *operator, false), e)
        }
        ResolvedExpression::Postfix { variable, operator } => {
            step(draft, here, *variable, *operator, false)
        }
        ResolvedExpression::PostfixElement {
            array,
            index,
            operator,
        } => {
            value(draft, here, index)?;
            step_element(draft, here, *array, *operator, false)
        }
        ResolvedExpression::Print { format, values } => {
            print(draft, here, format.as_slice(), values.as_slice())
        }
        ResolvedExpression::Call { function, values } => {
            call(draft, here, *function, values.as_slice())?;
            draft.put(here.at.line, Instr::Serial(Serial::Pop))
        }
        ResolvedExpression::Constant(_)
        | ResolvedExpression::Variable(_)
        | ResolvedExpression::Element { .. }
        | ResolvedExpression::ThreadNumber
        | ResolvedExpression::TeamSize
        | ResolvedExpression::Unary { .. }
        | ResolvedExpression::Binary { .. }
        | ResolvedExpression::Conditional { .. } => popped(draft, here, e),
    }
}

// Writes an expression that leaves its value, and takes it off.
fn popped(draft: &mut Draft, here: &Here<'_>, e: &ResolvedExpression) -> AllocResult<()>
    requires { ValueHasCode (view.expression e.now) }
    ensures { Appends result here.now popped (view.expression e.now) draft.old draft.new }
{
    value(draft, here, e)?;
    draft.put(here.at.line, Instr::Serial(Serial::Pop))
}

// Writes the values of a `printf`, and what prints them by its format (C17 7.21.6.3).
fn print(
    draft: &mut Draft,
    here: &Here<'_>,
    format: &[u8],
    arguments: &[ResolvedExpression],
) -> AllocResult<()>
    requires { CallHasCode (listed arguments.now) }
    ensures { AppendsBy result here.now print format.now (listed arguments.now) draft.old draft.new }
{
    let text = here.tables.format_number(format);
    values(draft, here, arguments)?;
    let values = arguments.len() as u16;
    draft.put(here.at.line, Instr::Serial(Serial::Print { text, values }))
}
