//! The code of expressions (C17 6.5).

ghost use Rattle.std.specs.Prelude.{◌≡◌};
ghost use Rattle.om_lower_emit.specs.Rests.{call};
ghost use Rattle.om_lower_emit.specs.Words.{Appends, AppendsAssignment, AppendsBy, AppendsElement, AppendsOperand};
ghost use Rattle.om_lower_emit.specs.Words.{CallHasCode, ValueHasCode, ValuesHaveCode};
ghost use Rattle.om_scope_tree.specs.ResolvedView as view;
ghost use Rattle.om_lower_emit.specs.Words.{Both, Either, form_of, listed, value, values};

use crate::draft::{Draft, Jump};
use crate::operator::{Form, compound_of, form_of};
use crate::single::{
    load, load_element, one_unless_zero, postfix, postfix_element, store, truth, unary_end,
};
use crate::spot::Here;
use om_code::{Function, Instr, Serial, Team};
use om_parser_tree::AssignOperator;
use om_scope_tree::{ResolvedExpression, Variable};
use om_seq::AllocResult;

/// What is assigned to, a variable or an element of it, and how.
#[derive(Clone, Copy)]
pub(crate) struct Target {
    /// The variable, or the array that the element is of.
    pub variable: Variable,
    /// How the new value is made.
    pub operator: AssignOperator,
    /// Whether the value is left.
    pub keeps: bool,
}

/// Writes an expression, which leaves its value on top.
///
/// Its only error is out of memory.
#[cycle(expression)]
pub fn value(draft: &mut Draft, here: &Here<'_>, e: &ResolvedExpression) -> AllocResult<()>
    requires coded { ValueHasCode (view.expression e.now) }
    ensures { Appends result here.now value (view.expression e.now) draft.old draft.new }
{
    match e {
        ResolvedExpression::Constant(number) => draft.put(
            here.at.line,
            Instr::Serial(Serial::Constant(*number)),
        ),
        ResolvedExpression::Variable(variable) => load(draft, here, *variable),
        ResolvedExpression::Element { array, index } => {
            value(draft, here, index)?;
            load_element(draft, here, *array)
        }
        ResolvedExpression::Call { function, values } => {
            call(draft, here, *function, values.as_slice())?;
            draft.put(here.at.line, Instr::Serial(Serial::Use))
        }
        ResolvedExpression::ThreadNumber => draft.put(
            here.at.line,
            Instr::Team(Team::ThreadNumber),
        ),
        ResolvedExpression::TeamSize => draft.put(here.at.line, Instr::Team(Team::TeamSize)),
        ResolvedExpression::Print { .. } => unreachable!(),
        ResolvedExpression::Unary { operator, operand } => {
            value(draft, here, operand)?;
            unary_end(draft, here, *operator)
        }
        ResolvedExpression::Binary {
            left,
            operator,
            right,
        } => {
            value(draft, here, left)?;
            binary_end(draft, here, *operator, right)
        }
        ResolvedExpression::Conditional {
            condition,
            value: then,
            other,
        } => {
            let otherwise = draft.fresh()?;
            let end = draft.fresh()?;
            value(draft, here, condition)?;
            draft.put_jump(here.at.line, Jump::IfZero, otherwise)?;
            value(draft, here, then)?;
            draft.put_jump(here.at.line, Jump::Always, end)?;
            draft.define(otherwise);
            value(draft, here, other)?;
            draft.define(end);
            Ok(())
        }
        ResolvedExpression::Assign {
            variable,
            operator,
            value: e,
        } => { assign(draft, here, assigned(*variable, *operator, true), e) }
        ResolvedExpression::AssignElement {
            array,
            index,
            operator,
            value: e,
        } => {
            value(draft, here, index)?;
            assign_element(draft, here, assigned(*array, *operator, true), e)
        }
        ResolvedExpression::Postfix { variable, operator } => {
            postfix(draft, here, *variable, *operator)
        }
        ResolvedExpression::PostfixElement {
            array,
            index,
            operator,
        } => {
            value(draft, here, index)?;
            postfix_element(draft, here, *array, *operator)
        }
    }
}

/// What is assigned to, and how.
pub(crate) fn assigned(variable: Variable, operator: AssignOperator, keeps: bool) -> Target
    ensures { result ≡ record { variable = variable; operator = operator; keeps = keeps } }
{
    Target {
        variable,
        operator,
        keeps,
    }
}

/// Writes expressions from left to right, each of which leaves its value.
#[cycle(expression)]
pub(crate) fn values(
    draft: &mut Draft,
    here: &Here<'_>,
    es: &[ResolvedExpression],
) -> AllocResult<()>
    requires { ValuesHaveCode (listed es.now) }
    ensures { Appends result here.now values (listed es.now) draft.old draft.new }
{
    for e in es {
        value(draft, here, e)?;
    }
    Ok(())
}

/// Writes the values of a call, and the call (C17 6.5.2.2).
#[cycle(expression)]
pub(crate) fn call(
    draft: &mut Draft,
    here: &Here<'_>,
    function: usize,
    arguments: &[ResolvedExpression],
) -> AllocResult<()>
    requires { CallHasCode (listed arguments.now) }
    ensures { AppendsBy result here.now call function (listed arguments.now) draft.old draft.new }
{
    let body = here.tables.called_body(function);
    values(draft, here, arguments)?;
    let values = arguments.len() as u16;
    draft.put(
        here.at.line,
        Instr::Function(Function::Call { body, values }),
    )
}

// Writes what stands behind the left operand of an operator between two (C17 6.5.5 to 6.5.14).
#[cycle(expression)]
fn binary_end(
    draft: &mut Draft,
    here: &Here<'_>,
    operator: om_parser_tree::BinaryOperator,
    right: &ResolvedExpression,
) -> AllocResult<()>
    requires { ValueHasCode (view.expression right.now) }
    ensures { AppendsOperand result here.now (form_of operator) right.now draft.old draft.new }
{
    match form_of(operator) {
        Form::Both => both_end(draft, here, right),
        Form::Either => either_end(draft, here, right),
        Form::Plain(operator) => {
            value(draft, here, right)?;
            draft.put(here.at.line, Instr::Serial(Serial::Binary(operator)))
        }
    }
}

// Writes what stands behind the left operand of `a && b` (C17 6.5.13).
#[cycle(expression)]
fn both_end(draft: &mut Draft, here: &Here<'_>, right: &ResolvedExpression) -> AllocResult<()>
    requires { ValueHasCode (view.expression right.now) }
    ensures { AppendsOperand result here.now Both right.now draft.old draft.new }
{
    let not_both = draft.fresh()?;
    let end = draft.fresh()?;
    draft.put_jump(here.at.line, Jump::IfZero, not_both)?;
    value(draft, here, right)?;
    truth(draft, here.at.line, not_both, end)
}

// Writes what stands behind the left operand of `a || b` (C17 6.5.14).
#[cycle(expression)]
fn either_end(draft: &mut Draft, here: &Here<'_>, right: &ResolvedExpression) -> AllocResult<()>
    requires { ValueHasCode (view.expression right.now) }
    ensures { AppendsOperand result here.now Either right.now draft.old draft.new }
{
    let next = draft.fresh()?;
    let neither = draft.fresh()?;
    let end = draft.fresh()?;
    one_unless_zero(draft, here.at.line, next, end)?;
    draft.define(next);
    value(draft, here, right)?;
    truth(draft, here.at.line, neither, end)
}

/// Writes an assignment to a variable (C17 6.5.16).
#[cycle(expression)]
pub(crate) fn assign(
    draft: &mut Draft,
    here: &Here<'_>,
    target: Target,
    e: &ResolvedExpression,
) -> AllocResult<()>
    requires { ValueHasCode (view.expression e.now) }
    ensures { AppendsAssignment result here.now target e.now draft.old draft.new }
{
    match compound_of(target.operator) {
        None => {
            value(draft, here, e)?;
            store(draft, here, target.variable, target.keeps)
        }
        Some(operator) => {
            load(draft, here, target.variable)?;
            value(draft, here, e)?;
            draft.put(here.at.line, Instr::Serial(Serial::Binary(operator)))?;
            store(draft, here, target.variable, target.keeps)
        }
    }
}

/// Writes what stands behind the index of an assignment to an element (C17 6.5.16).
#[cycle(expression)]
pub(crate) fn assign_element(
    draft: &mut Draft,
    here: &Here<'_>,
    target: Target,
    e: &ResolvedExpression,
) -> AllocResult<()>
    requires { ValueHasCode (view.expression e.now) }
    ensures { AppendsElement result here.now target e.now draft.old draft.new }
{
    let line = here.at.line;
    let place = here.tables.place(target.variable);
    let keeps = target.keeps;
    let store = Instr::Serial(Serial::StoreElement { place, keeps });
    match compound_of(target.operator) {
        None => {
            value(draft, here, e)?;
            draft.put(line, store)
        }
        Some(operator) => {
            draft.put_all(
                line,
                &[
                    Instr::Serial(Serial::Duplicate),
                    Instr::Serial(Serial::LoadElement(place)),
                ],
            )?;
            value(draft, here, e)?;
            draft.put_all(line, &[Instr::Serial(Serial::Binary(operator)), store])
        }
    }
}
