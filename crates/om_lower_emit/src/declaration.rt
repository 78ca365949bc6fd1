//! Declarations, parameters, tests, and what leaves a function.

ghost use Rattle.std.specs.Prelude.{◌≡◌, All, IfSome, map, option_map};
ghost use Rattle.om_lower_emit.specs.Words.{AppendsPerhapsEffect, AppendsPerhapsTest, AppendsReturn, AppendsStart};
ghost use Rattle.om_lower_emit.specs.Words.{AppendsTest, BeginsEach, DeclaratorHasCode, EffectHasCode, HasNoTarget, Initializes};
ghost use Rattle.om_lower_emit.specs.Words.{InitializesAll, ScopesDeclarator, ScopesDeclarators, ScopesStart};
ghost use Rattle.om_lower_emit.specs.Words.{StartHasCode, ValueHasCode, parameter_scope};
ghost use Rattle.om_scope_tree.specs.ResolvedView as view;
ghost use Rattle.om_lower_rules.specs.Statements as rows;

use crate::draft::{Draft, Jump};
use crate::expression::value;
use crate::single::store;
use crate::spot::Here;
use crate::unused::effect;
use crate::writing::{ScopeStack, Writing};
use om_code::{Function, Instr, Serial};
use om_scope_tree::{
    LocalVariable, ResolvedDeclarator, ResolvedExpression, ResolvedStart, Variable,
};
use om_seq::AllocResult;

/// Begins the scopes of the parameters of a function, which are in scope in all of its body (C17 6.2.1p4). They
/// need no code: a call gives them their values.
pub fn begin_parameters(scopes: &mut ScopeStack, parameters: &[LocalVariable]) -> AllocResult<()>
    ensures { BeginsEach result parameter_scope parameters.now scopes.old scopes.new }
{
    for parameter in parameters {
        scopes.begin(0, None, parameter)?;
    }
    Ok(())
}

// Writes the code of a declared name: it is made unset, or gets its initializer (C17 6.7.9).
fn initialize(draft: &mut Draft, here: &Here<'_>, declared: &ResolvedDeclarator) -> AllocResult<()>
    requires { DeclaratorHasCode (view.declarator declared.now) }
    ensures { Initializes result here.now declared.now draft.old draft.new }
{
    let variable = &declared.variable;
    match &declared.initial {
        None => {
            draft.put(
                here.at.line,
                Instr::Serial(Serial::Clear(here.tables.slot(variable))),
            )?;
            Ok(())
        }
        Some(initial) => {
            value(draft, here, initial)?;
            store(draft, here, Variable::Local(variable.at), false)?;
            Ok(())
        }
    }
}

// Writes the code of a declared name, which is in scope from there on (C17 6.2.1p7).
fn declarator(
    writing: &mut Writing,
    here: &Here<'_>,
    declared: &ResolvedDeclarator,
) -> AllocResult<()>
    requires { DeclaratorHasCode (view.declarator declared.now) }
    ensures code { Initializes result here.now declared.now writing.old.draft writing.new.draft }
    ensures scopes { ScopesDeclarator result here.now declared.now writing.old writing.new }
{
    let from = writing.draft.place();
    let scopes = &mut writing.scopes;
    scopes.begin(from, declared.length, &declared.variable)?;
    initialize(&mut writing.draft, here, declared)?;
    Ok(())
}

/// Writes the code of the names of a declaration, in their order.
pub fn declarators(
    writing: &mut Writing,
    here: &Here<'_>,
    declared: &[ResolvedDeclarator],
) -> AllocResult<()>
    requires { All DeclaratorHasCode (map view.declarator declared.now) }
    ensures code { InitializesAll result here.now declared.now writing.old.draft writing.new.draft }
    ensures scopes { ScopesDeclarators result here.now declared.now writing.old writing.new }
{
    for one in declared {
        declarator(writing, here, one)?;
    }
    Ok(())
}

/// Writes what a `for` begins with (C17 6.8.5.3).
pub fn start(writing: &mut Writing, here: &Here<'_>, start: &ResolvedStart) -> AllocResult<()>
    requires { StartHasCode (view.start start.now) }
    ensures code { AppendsStart result here.now start.now writing.old.draft writing.new.draft }
    ensures scopes { ScopesStart result here.now start.now writing.old writing.new }
{
    match start {
        ResolvedStart::Nothing => Ok(()),
        ResolvedStart::Expression(expression) => {
            effect(&mut writing.draft, here, expression)?;
            Ok(())
        }
        ResolvedStart::Declaration(declared) => {
            declarators(writing, here, declared.as_slice())?;
            Ok(())
        }
    }
}

/// Writes a test: where the condition is 0, the code goes on at the label (C17 6.8.4.1p2).
pub fn test(
    draft: &mut Draft,
    here: &Here<'_>,
    condition: &ResolvedExpression,
    otherwise: usize,
) -> AllocResult<()>
    requires { ValueHasCode (view.expression condition.now) }
    ensures { AppendsTest result here.now otherwise condition.now draft.old draft.new }
{
    value(draft, here, condition)?;
    draft.put_jump(here.at.line, Jump::IfZero, otherwise)?;
    Ok(())
}

/// Writes a test that may be left out (C17 6.8.5.3p2).
pub fn perhaps_test(
    draft: &mut Draft,
    here: &Here<'_>,
    condition: &Option<ResolvedExpression>,
    otherwise: usize,
) -> AllocResult<()>
    requires { IfSome (option_map view.expression condition.now) ValueHasCode }
    ensures { AppendsPerhapsTest result here.now otherwise condition.now draft.old draft.new }
{
    let Some(condition) = condition else {
        return Ok(());
    };
    test(draft, here, condition, otherwise)
}

/// Writes the code of an expression that may be left out, and whose value nothing uses.
pub fn perhaps_effect(
    draft: &mut Draft,
    here: &Here<'_>,
    expression: &Option<ResolvedExpression>,
) -> AllocResult<()>
    requires { IfSome (option_map view.expression expression.now) EffectHasCode }
    ensures { AppendsPerhapsEffect result here.now expression.now draft.old draft.new }
{
    let Some(expression) = expression else {
        return Ok(());
    };
    effect(draft, here, expression)
}

/// Writes a `return`, which in `main` ends the program (C17 6.8.6.4, 5.1.2.2.3).
pub fn returned(
    draft: &mut Draft,
    here: &Here<'_>,
    answer: &Option<ResolvedExpression>,
) -> AllocResult<()>
    requires { IfSome (option_map view.expression answer.now) ValueHasCode }
    ensures { AppendsReturn result here.now answer.now draft.old draft.new }
{
    let is_main = here.tables.is_main();
    match answer {
        None => {
            let last = last_instruction(is_main, false);
            draft.put(here.at.line, last)?;
            Ok(())
        }
        Some(answer) => {
            value(draft, here, answer)?;
            let last = last_instruction(is_main, true);
            draft.put(here.at.line, last)?;
            Ok(())
        }
    }
}

/// What ends the frame of a function, with a value or without.
pub fn last_instruction(is_main: bool, has_value: bool) -> Instr
    ensures last { result ≡ rows.last_instruction is_main has_value }
    ensures plain { HasNoTarget result }
{
    if is_main {
        Instr::Function(Function::Finish { has_value })
    } else if has_value {
        Instr::Function(Function::Return)
    } else {
        Instr::Function(Function::ReturnNothing)
    }
}
