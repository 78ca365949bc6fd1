//! Statements: their rules, and the variables of their names.

ghost use Rattle.std.specs.Prelude.{◌≡◌, true, false, OnOk, is_some};
ghost use Rattle.om_parser_tree.specs.Formed.{AreParts};
ghost use Rattle.om_parser_tree.specs.Sizes.{PartsHaveForms};
ghost use Rattle.om_parser_tree.specs.View.{view_part, view_statement};
ghost use Rattle.om_scope_tree.specs.ResolvedView as view;
ghost use Rattle.om_scope_rules.specs.LoopViews.{view_loop};
ghost use Rattle.om_scope_rules.specs.DirectiveRules.{traits_of};
ghost use Rattle.om_scope_rules.specs.Loops.{loop_in};
ghost use Rattle.om_scope_rules.specs.Proper.{AreProper, AreProperParts, IsProper};
ghost use Rattle.om_scope_rules.specs.Scopes.{inside};
ghost use Rattle.om_scope.specs.Resolving.{GoesBehind, GoesBehindItems, IsProperConstruct, ResolvesItems, ResolvesStatement};
ghost use Rattle.om_scope.specs.Resolving.{item_trees, part_trees, view_body};
ghost use Rattle.om_scope.specs.Statements.{ResolvesConstruct, ResolvesFor, ResolvesLoopBody, ResolvesLoopConstruct};
ghost use Rattle.om_scope.specs.Statements.{ResolvesPart, ResolvesParts, ResolvesPlainConstruct, ResolvesRepeated};
ghost use Rattle.om_scope.specs.Statements.{ResolvesSections};

use crate::assembly::{Setting, construct_of, loop_construct_of, sections_construct_of};
use crate::entering::{enter_construct, enter_loop_construct};
use crate::head::{continuing, for_of, looping, resolve_for_head};
use crate::simple::{
    check_jump, check_section, resolve_declaration, resolve_effect, resolve_return,
    resolve_stand_alone,
};
use om_lexer::SourceResult;
use om_parser_tree::{Expression, ForHead, Part, Statement};
use om_pragma::Directive;
use om_scope_parts::{add, boxed, boxed_expression, enter_loop};
use om_scope_rules::{Flow, Loop, loop_fault, loop_in, statement_side, statement_start};
use om_scope_symbols::{Symbols, constructing, traits_of};
use om_scope_tree::{ResolvedPart, ResolvedStatement};
use std::alloc::Global;

/// The items of a block.
#[cycle(statement)]
pub(crate) fn resolve_statements(
    alloc: Global,
    symbols: &mut Symbols,
    flow: Flow,
    items: &[Statement],
) -> SourceResult<Vec<ResolvedStatement>>
    requires proper { AreProper (item_trees items.now) }
    ensures found { ResolvesItems result symbols.old flow items.now }
    ensures in_scope { GoesBehindItems result symbols.old symbols.new items.now }
{
    let mut resolved = Vec::new(alloc);
    for item in items {
        let found = resolve_statement(alloc, symbols, flow, item);
        add(&mut resolved, found)?;
    }
    Ok(resolved)
}

// A statement, or a declaration in a block.
#[cycle(statement)]
fn resolve_statement(
    alloc: Global,
    symbols: &mut Symbols,
    flow: Flow,
    statement: &Statement,
) -> SourceResult<ResolvedStatement>
    requires proper { IsProper (view_statement statement.now) }
    ensures found { ResolvesStatement view.statement result symbols.old flow statement.now }
    ensures in_scope { GoesBehind result symbols.old symbols.new statement.now }
{
    match statement {
        Statement::Declaration(declaration) => resolve_declaration(alloc, symbols, declaration),
        Statement::Block {
            open_brace: left,
            items,
            ..
        } => {
            let items = resolve_block(alloc, symbols, flow, items.as_slice())?;
            Ok(ResolvedStatement::Block { at: *left, items })
        }
        Statement::Empty(semicolon) => Ok(ResolvedStatement::Empty(*semicolon)),
        Statement::Expression {
            value: expression,
            ..
        } => resolve_effect(alloc, symbols, expression),
        Statement::If {
            word: at,
            condition,
            body: then,
        } => {
            let condition = boxed_expression(alloc, symbols, true, &condition.value)?;
            let then = resolve_body(alloc, symbols, flow, then)?;
            Ok(ResolvedStatement::If {
                at: *at,
                condition: Box::into_inner(condition),
                then,
            })
        }
        Statement::IfElse {
            word: at,
            condition,
            body: then,
            else_body: other,
            ..
        } => {
            let condition = boxed_expression(alloc, symbols, true, &condition.value)?;
            let then = resolve_body(alloc, symbols, flow, then)?;
            let other = resolve_body(alloc, symbols, flow, other)?;
            Ok(ResolvedStatement::IfElse {
                at: *at,
                condition: Box::into_inner(condition),
                then,
                other,
            })
        }
        Statement::While {
            word: at,
            condition,
            body,
        } => {
            let condition = boxed_expression(alloc, symbols, true, &condition.value)?;
            let body = resolve_body(alloc, symbols, looping(flow), body)?;
            Ok(ResolvedStatement::While {
                at: *at,
                condition: Box::into_inner(condition),
                body,
            })
        }
        Statement::Do {
            word: at,
            body,
            condition,
            ..
        } => {
            let body = resolve_body(alloc, symbols, looping(flow), body)?;
            let condition = boxed_expression(alloc, symbols, true, &condition.value)?;
            Ok(ResolvedStatement::Do {
                at: *at,
                body,
                condition: Box::into_inner(condition),
            })
        }
        Statement::For { head, body } => resolve_for(alloc, symbols, flow, head, body),
        Statement::Return {
            word: at,
            value,
            ..
        } => resolve_return(alloc, symbols, flow, *at, value),
        Statement::Break { word: at, .. } => {
            check_jump(flow.may_break, at.start)?;
            Ok(ResolvedStatement::Break(*at))
        }
        Statement::Continue { word: at, .. } => {
            check_jump(flow.may_continue, at.start)?;
            Ok(ResolvedStatement::Continue(*at))
        }
        Statement::Construct { directive, body } => {
            resolve_construct(alloc, symbols, flow, directive, body)
        }
        Statement::StandAlone(directive) => resolve_stand_alone(alloc, symbols, flow, directive),
        Statement::Sections {
            directive,
            parts,
            ..
        } => { resolve_sections(alloc, symbols, flow, directive, parts.as_slice()) }
    }
}

// A statement that is part of another one, which is a block of its own (C17 6.8.4p3, 6.8.5p5).
#[cycle(statement)]
fn resolve_body(
    alloc: Global,
    symbols: &mut Symbols,
    flow: Flow,
    body: &Statement,
) -> SourceResult<Box<ResolvedStatement>>
    requires proper { IsProper (view_statement body.now) }
    ensures found { ResolvesStatement view_body result (inside symbols.old) flow body.now }
    ensures in_scope { OnOk result (symbols.new ≡ symbols.old) }
{
    symbols.enter(alloc)?;
    let found = boxed_statement(alloc, symbols, flow, body);
    symbols.leave();
    found
}

// A statement, or a declaration in a block, in a box. It gets no scope of its own.
#[cycle(statement)]
fn boxed_statement(
    alloc: Global,
    symbols: &mut Symbols,
    flow: Flow,
    statement: &Statement,
) -> SourceResult<Box<ResolvedStatement>>
    requires proper { IsProper (view_statement statement.now) }
    ensures found { ResolvesStatement view_body result symbols.old flow statement.now }
    ensures in_scope { GoesBehind result symbols.old symbols.new statement.now }
{
    boxed(alloc, resolve_statement(alloc, symbols, flow, statement))
}

// The items of a block, in a scope of their own.
#[cycle(statement)]
fn resolve_block(
    alloc: Global,
    symbols: &mut Symbols,
    flow: Flow,
    items: &[Statement],
) -> SourceResult<Vec<ResolvedStatement>>
    requires proper { AreProper (item_trees items.now) }
    ensures found { ResolvesItems result (inside symbols.old) flow items.now }
    ensures in_scope { OnOk result (symbols.new ≡ symbols.old) }
{
    symbols.enter(alloc)?;
    let items = resolve_statements(alloc, symbols, flow, items);
    symbols.leave();
    items
}

// A `for`, in a scope of its own.
#[cycle(statement)]
fn resolve_for(
    alloc: Global,
    symbols: &mut Symbols,
    flow: Flow,
    head: &ForHead,
    body: &Statement,
) -> SourceResult<ResolvedStatement>
    requires proper { IsProper (view_statement body.now) }
    ensures found { ResolvesFor result symbols.old flow head.now body.now }
    ensures in_scope { OnOk result (symbols.new ≡ symbols.old) }
{
    symbols.enter(alloc)?;
    let turn = resolve_for_head(alloc, symbols, head)?;
    let body = resolve_body(alloc, symbols, looping(flow), body)?;
    symbols.leave();
    Ok(for_of(head.word, turn, body))
}

// A construct and its statement.
#[cycle(statement)]
fn resolve_construct(
    alloc: Global,
    symbols: &mut Symbols,
    flow: Flow,
    directive: &Directive<Expression>,
    body: &Statement,
) -> SourceResult<ResolvedStatement>
    requires proper { IsProperConstruct directive.now body.now }
    ensures found { ResolvesConstruct result symbols.old flow directive.now body.now }
    ensures in_scope { OnOk result (symbols.new ≡ symbols.old) }
{
    if !traits_of(&directive.name).takes_loop {
        resolve_plain_construct(alloc, symbols, flow, directive, body)
    } else {
        resolve_loop_construct(alloc, symbols, flow, directive, body)
    }
}

// A construct that is for any statement.
#[cycle(statement)]
fn resolve_plain_construct(
    alloc: Global,
    symbols: &mut Symbols,
    flow: Flow,
    directive: &Directive<Expression>,
    body: &Statement,
) -> SourceResult<ResolvedStatement>
    requires proper { IsProperConstruct directive.now body.now }
    requires for_any { (traits_of directive.now.name).takes_loop ≡ false }
    ensures found { ResolvesPlainConstruct result symbols.old flow directive.now body.now }
    ensures in_scope { OnOk result (symbols.new ≡ symbols.old) }
{
    let inside = constructing(directive, flow);
    let setting = Setting {
        parallel: flow.parallel,
        side: statement_side(body),
    };
    let clauses = enter_construct(alloc, symbols, flow, directive)?;
    let body = boxed_statement(alloc, symbols, inside, body)?;
    symbols.leave();
    construct_of(alloc, setting, directive, clauses, body)
}

// A worksharing-loop construct, or a `parallel for`: S12.
#[cycle(statement)]
fn resolve_loop_construct(
    alloc: Global,
    symbols: &mut Symbols,
    flow: Flow,
    directive: &Directive<Expression>,
    body: &Statement,
) -> SourceResult<ResolvedStatement>
    requires proper { IsProper (view_statement body.now) }
    ensures found { ResolvesLoopConstruct result symbols.old flow directive.now body.now }
    ensures in_scope { OnOk result (symbols.new ≡ symbols.old) }
{
    let inside = constructing(directive, flow);
    match loop_in(body) {
        None => {
            enter_construct(alloc, symbols, flow, directive)?;
            let checked = boxed_statement(alloc, symbols, inside, body);
            Err(loop_fault(checked, statement_start(body)))
        }
        Some(found) => {
            let (clauses, repeated) = enter_loop_construct(
                alloc, symbols, flow, directive, &found,
            )?;
            let body = resolve_loop_body(alloc, symbols, inside, &found, body)?;
            symbols.leave();
            loop_construct_of(alloc, directive, clauses, repeated, body)
        }
    }
}

// The body of a canonical loop.
#[cycle(statement)]
fn resolve_loop_body(
    alloc: Global,
    symbols: &mut Symbols,
    inside: Flow,
    found: &Loop<'_>,
    body: &Statement,
) -> SourceResult<Box<ResolvedStatement>>
    requires proper { IsProper (view_statement body.now) }
    requires is_loop { is_some (loop_in (view_statement body.now)) ≡ true }
    ensures found { ResolvesLoopBody result symbols.old inside (view_loop found.now) body.now }
    ensures in_scope { OnOk result (symbols.new ≡ symbols.old) }
{
    match body {
        Statement::For { body: repeated, .. } => resolve_repeated(
            alloc, symbols, inside, found, repeated,
        ),
        _ => unreachable!(),
    }
}

// What a canonical loop repeats.
#[cycle(statement)]
fn resolve_repeated(
    alloc: Global,
    symbols: &mut Symbols,
    inside: Flow,
    found: &Loop<'_>,
    repeated: &Statement,
) -> SourceResult<Box<ResolvedStatement>>
    requires proper { IsProper (view_statement repeated.now) }
    ensures found { ResolvesRepeated result symbols.old inside (view_loop found.now) repeated.now }
    ensures in_scope { OnOk result (symbols.new ≡ symbols.old) }
{
    enter_loop(alloc, symbols, found)?;
    let repeated = resolve_body(alloc, symbols, continuing(inside), repeated)?;
    symbols.leave();
    Ok(repeated)
}

// A construct of parts.
#[cycle(statement)]
fn resolve_sections(
    alloc: Global,
    symbols: &mut Symbols,
    flow: Flow,
    directive: &Directive<Expression>,
    sections: &[Part],
) -> SourceResult<ResolvedStatement>
    requires formed { AreParts (part_trees sections.now) }
    requires forms { PartsHaveForms true (part_trees sections.now) }
    ensures found { ResolvesSections result symbols.old flow directive.now sections.now }
    ensures in_scope { OnOk result (symbols.new ≡ symbols.old) }
{
    let inside = constructing(directive, flow);
    let clauses = enter_construct(alloc, symbols, flow, directive)?;
    let parts = resolve_parts(alloc, symbols, inside, sections)?;
    symbols.leave();
    sections_construct_of(alloc, directive, clauses, parts)
}

// The parts of `sections`.
#[cycle(statement)]
fn resolve_parts(
    alloc: Global,
    symbols: &mut Symbols,
    flow: Flow,
    sections: &[Part],
) -> SourceResult<Vec<ResolvedPart>>
    requires proper { AreProperParts (part_trees sections.now) }
    ensures found { ResolvesParts result symbols.old flow sections.now }
    ensures in_scope { OnOk result (symbols.new ≡ symbols.old) }
{
    let mut resolved = Vec::new(alloc);
    for part in sections {
        let found = resolve_part(alloc, symbols, flow, resolved.len(), part);
        add(&mut resolved, found)?;
    }
    Ok(resolved)
}

// A part of `sections` behind so many of them, which is a block of its own.
#[cycle(statement)]
fn resolve_part(
    alloc: Global,
    symbols: &mut Symbols,
    flow: Flow,
    before: usize,
    part: &Part,
) -> SourceResult<ResolvedPart>
    requires proper { AreProper (view_part part.now).items }
    ensures found { ResolvesPart result symbols.old flow before part.now }
    ensures in_scope { OnOk result (symbols.new ≡ symbols.old) }
{
    check_section(before, &part.section)?;
    let items = resolve_block(alloc, symbols, flow, part.items.as_slice())?;
    Ok(ResolvedPart { items })
}
