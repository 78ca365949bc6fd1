//! Statements that have no statement in them.

ghost use Rattle.std.specs.Prelude.{◌≡◌, true};
ghost use Rattle.om_pragma.specs.Questions.{is_stand_alone};
ghost use Rattle.om_parser_tree.specs.View.{view_local};
ghost use Rattle.om_scope_rules.specs.Checks.{Checks, ChecksExactly};
ghost use Rattle.om_scope_rules.specs.StatementRules.{jump_breaches, section_breaches};
ghost use Rattle.om_scope.specs.Resolving.{perhaps_tree};
ghost use Rattle.om_scope.specs.Simple.{ResolvesAlone, ResolvesDeclaration, ResolvesEffect, ResolvesReturn};
ghost use Rattle.om_scope.specs.Simple.{ResolvesReturned, ResolvesStandAlone, section_tree};
ghost use Rattle.om_scope_parts.specs.Declares.{DeclaresLocals, locals_in};

use om_lexer::{FaultCode, SourceResult, Span};
use om_parser_tree::{Declaration, Expression};
use om_pragma::{Directive, DirectiveName};
use om_scope_parts::{
    boxed_expression, misplaced, refuse_if, resolve_directive, resolve_flush, resolve_locals,
    unboxed,
};
use om_scope_rules::{Flow, SECTION_LIMIT, expression_first};
use om_scope_symbols::Symbols;
use om_scope_tree::{ResolvedExpression, ResolvedStatement, StandAlone};
use std::alloc::Global;

/// A declaration in a block.
pub fn resolve_declaration(
    alloc: Global,
    symbols: &mut Symbols,
    declaration: &Declaration<Expression>,
) -> SourceResult<ResolvedStatement>
    ensures found { ResolvesDeclaration result symbols.old (view_local declaration.now) }
    ensures in_scope { DeclaresLocals result symbols.old symbols.new (locals_in declaration.now) }
{
    let declared = resolve_locals(alloc, symbols, declaration)?;
    Ok(ResolvedStatement::Declaration {
        at: declaration.int,
        declarators: declared,
    })
}

/// An expression whose value is not used, as a statement.
pub fn resolve_effect(
    alloc: Global,
    symbols: &Symbols,
    expression: &Expression,
) -> SourceResult<ResolvedStatement>
    ensures { ResolvesEffect result symbols.now expression.now }
{
    let at = expression_first(expression);
    let expression = boxed_expression(alloc, symbols, false, expression)?;
    Ok(ResolvedStatement::Expression {
        at,
        value: Box::into_inner(expression),
    })
}

/// A `return`: S9, S14.
pub fn resolve_return(
    alloc: Global,
    symbols: &Symbols,
    flow: Flow,
    at: Span,
    value: &Option<Box<Expression>>,
) -> SourceResult<ResolvedStatement>
    ensures { ResolvesReturn result symbols.now flow at (perhaps_tree value.now) }
{
    check_jump(!flow.in_construct, at.start)?;
    let value = resolve_returned(alloc, symbols, flow, value)?;
    Ok(ResolvedStatement::Return {
        at,
        value: unboxed(value),
    })
}

// What a function returns: S9.
fn resolve_returned(
    alloc: Global,
    symbols: &Symbols,
    flow: Flow,
    value: &Option<Box<Expression>>,
) -> SourceResult<Option<Box<ResolvedExpression>>>
    ensures { ResolvesReturned result symbols.now flow (perhaps_tree value.now) }
{
    let Some(value) = value else {
        return Ok(None);
    };
    if !flow.returns {
        return Err(misplaced(symbols, value));
    }
    let value = boxed_expression(alloc, symbols, true, value)?;
    Ok(Some(value))
}

/// A jump: S14.
pub fn check_jump(allowed: bool, at: u32) -> SourceResult<()>
    ensures { ChecksExactly result (jump_breaches allowed at) }
{
    refuse_if(!allowed, FaultCode::LeavesConstruct, at)
}

/// A directive that stands alone.
pub fn resolve_stand_alone(
    alloc: Global,
    symbols: &Symbols,
    flow: Flow,
    directive: &Directive<Expression>,
) -> SourceResult<ResolvedStatement>
    requires stands_alone { is_stand_alone directive.now.name ≡ true }
    ensures { ResolvesStandAlone result symbols.now flow directive.now }
{
    resolve_directive(alloc, symbols, flow, directive)?;
    resolve_alone(alloc, symbols, directive)
}

// A directive that stands alone, by its name.
fn resolve_alone(
    alloc: Global,
    symbols: &Symbols,
    directive: &Directive<Expression>,
) -> SourceResult<ResolvedStatement>
    requires stands_alone { is_stand_alone directive.now.name ≡ true }
    ensures { ResolvesAlone result symbols.now directive.now }
{
    let at = directive.hash;
    match &directive.name {
        DirectiveName::Barrier(_) => Ok(ResolvedStatement::StandAlone {
            at,
            directive: StandAlone::Barrier,
        }),
        DirectiveName::Taskwait(_) => Ok(ResolvedStatement::StandAlone {
            at,
            directive: StandAlone::Taskwait,
        }),
        DirectiveName::Taskyield(_) => Ok(ResolvedStatement::StandAlone {
            at,
            directive: StandAlone::Taskyield,
        }),
        DirectiveName::Flush(_, list) => {
            let flushed = StandAlone::Flush(resolve_flush(alloc, symbols, list)?);
            Ok(ResolvedStatement::StandAlone {
                at,
                directive: flushed,
            })
        }
        _ => unreachable!(),
    }
}

/// Refuses a `section` where so many parts stand before it that it begins one too many: S11.
pub(crate) fn check_section(
    before: usize,
    section: &Option<Box<Directive<Expression>>>,
) -> SourceResult<()>
    ensures { Checks result (section_breaches before (section_tree section.now)) }
{
    let Some(directive) = section else {
        return Ok(());
    };
    refuse_if(
        SECTION_LIMIT <= before,
        FaultCode::TooMany,
        directive.hash.start,
    )
}
