//! The slots of a body: its variables are numbered as its text is read.

ghost use Rattle.std.specs.Prelude.{◌≡◌, OnOk, IfOk, map};
ghost use Rattle.om_scope_tree.specs.ResolvedView as view;
ghost use Rattle.om_lower_rules.specs.Bodies as bodies;
ghost use Rattle.om_lower_rules.specs.Slots.{clause_sights, loop_sights, parameter_sight, parts_sights, region_clause_sights, start_sights, statements_sights};
ghost use Rattle.om_lower_tables.specs.Sighted.{Sees, clauses_sights, declarators_sights, head_sights, region_clauses_sights, sights_in, variables_of_region};
ghost use Rattle.om_lower_tables.specs.Trees.{part_trees, statement_trees};

use om_lower_rules::Variables;
use om_scope_tree::uses::{
    take, take_combined, take_expression, take_original, take_perhaps, take_region,
    take_stand_alone, take_update,
};
use om_scope_tree::{
    LocalVariable, ResolvedClause, ResolvedDeclarator, ResolvedFunction, ResolvedHead,
    ResolvedLoop, ResolvedPart, ResolvedStart, ResolvedStatement,
};
use om_seq::AllocResult;
use std::alloc::Global;

/// The variables of a function's own body, by their slots: parameters first.
pub fn function_variables(alloc: Global, function: &ResolvedFunction) -> AllocResult<Variables>
    ensures { IfOk result
        (λ made. made ≡ bodies.function_variables (view.function function.now)) }
{
    let mut variables = Variables::new(alloc);
    see_parameters(&mut variables, function.parameters.as_slice())?;
    see_statements(&mut variables, function.body.as_slice())?;
    Ok(variables)
}

/// The variables of the body of a `parallel` or a `task`, by their slots.
pub fn region_variables(
    alloc: Global,
    clauses: &[ResolvedClause],
    body: &ResolvedStatement,
) -> AllocResult<Variables>
    ensures { IfOk result (λ made. made ≡ variables_of_region clauses.now body.now) }
{
    let mut variables = Variables::new(alloc);
    see_region_clauses(&mut variables, clauses)?;
    see_statement(&mut variables, body)?;
    Ok(variables)
}

// Sees parameters.
fn see_parameters(seen: &mut Variables, parameters: &[LocalVariable]) -> AllocResult<()>
    ensures { OnOk result (Sees (map parameter_sight parameters.now) seen.old seen.new) }
{
    for parameter in parameters {
        seen.add(parameter.at)?;
    }
    Ok(())
}

// Sees declared names, and after each what it begins as.
fn see_declarators(seen: &mut Variables, declarators: &[ResolvedDeclarator]) -> AllocResult<()>
    ensures { OnOk result (Sees (declarators_sights declarators.now) seen.old seen.new) }
{
    for declarator in declarators {
        seen.add(declarator.variable.at)?;
        take_perhaps(seen, &declarator.initial)?;
    }
    Ok(())
}

// Sees the beginning of a `for`.
fn see_start(seen: &mut Variables, start: &ResolvedStart) -> AllocResult<()>
    ensures { OnOk result (Sees (start_sights (view.start start.now)) seen.old seen.new) }
{
    match start {
        ResolvedStart::Nothing => Ok(()),
        ResolvedStart::Expression(expression) => take_expression(seen, expression),
        ResolvedStart::Declaration(declarators) => { see_declarators(seen, declarators.as_slice()) }
    }
}

// Sees a clause of a construct in whose body it stands.
fn see_clause(seen: &mut Variables, clause: &ResolvedClause) -> AllocResult<()>
    ensures { OnOk result (Sees (clause_sights (view.clause clause.now)) seen.old seen.new) }
{
    match clause {
        ResolvedClause::Value { value, .. } => take_expression(seen, value),
        ResolvedClause::Shared(variable) => take(seen, *variable),
        ResolvedClause::Copied {
            kind,
            original,
            copy,
        } => {
            take_original(seen, *kind, *original)?;
            seen.add(copy.at)
        }
    }
}

// Sees clauses of a construct in whose body they stand.
fn see_clauses(seen: &mut Variables, clauses: &[ResolvedClause]) -> AllocResult<()>
    ensures { OnOk result (Sees (clauses_sights clauses.now) seen.old seen.new) }
{
    for clause in clauses {
        see_clause(seen, clause)?;
    }
    Ok(())
}

// Sees a clause of a `parallel` or a `task`, in its body.
fn see_region_clause(seen: &mut Variables, clause: &ResolvedClause) -> AllocResult<()>
    ensures { OnOk result (Sees (region_clause_sights (view.clause clause.now)) seen.old seen.new) }
{
    match clause {
        ResolvedClause::Value { .. } => Ok(()),
        ResolvedClause::Shared(variable) => take(seen, *variable),
        ResolvedClause::Copied {
            kind,
            original,
            copy,
        } => {
            take_combined(seen, *kind, *original)?;
            seen.add(copy.at)
        }
    }
}

// Sees the clauses of a `parallel` or a `task`, in its body.
fn see_region_clauses(seen: &mut Variables, clauses: &[ResolvedClause]) -> AllocResult<()>
    ensures { OnOk result (Sees (region_clauses_sights clauses.now) seen.old seen.new) }
{
    for clause in clauses {
        see_region_clause(seen, clause)?;
    }
    Ok(())
}

// Sees the iteration variable of a canonical loop and then its bounds.
fn see_loop(seen: &mut Variables, repeated: &ResolvedLoop) -> AllocResult<()>
    ensures { OnOk result (Sees (loop_sights (view.loop repeated.now)) seen.old seen.new) }
{
    seen.add(repeated.variable.at)?;
    take_expression(seen, &repeated.from)?;
    take_expression(seen, &repeated.to)
}

// Sees the head of a `for`.
fn see_head(seen: &mut Variables, head: &ResolvedHead) -> AllocResult<()>
    ensures { OnOk result (Sees (head_sights head.now) seen.old seen.new) }
{
    see_start(seen, &head.start)?;
    take_perhaps(seen, &head.condition)?;
    take_perhaps(seen, &head.step)
}

// Sees a statement. The bodies of regions in it have slots of their own.
#[cycle(statement)]
fn see_statement(seen: &mut Variables, statement: &ResolvedStatement) -> AllocResult<()>
    ensures { OnOk result (Sees (sights_in statement.now) seen.old seen.new) }
{
    match statement {
        ResolvedStatement::Declaration { declarators, .. } => {
            see_declarators(seen, declarators.as_slice())
        }
        ResolvedStatement::Block { items, .. } => see_statements(seen, items.as_slice()),
        ResolvedStatement::Empty(_)
        | ResolvedStatement::Break(_)
        | ResolvedStatement::Continue(_) => Ok(()),
        ResolvedStatement::Expression {
            value: expression,
            ..
        } => take_expression(seen, expression),
        ResolvedStatement::If {
            condition: test,
            then: body,
            ..
        }
        | ResolvedStatement::While {
            condition: test,
            body,
            ..
        } => {
            take_expression(seen, test)?;
            see_statement(seen, body)
        }
        ResolvedStatement::IfElse {
            condition,
            then,
            other,
            ..
        } => {
            take_expression(seen, condition)?;
            see_statement(seen, then)?;
            see_statement(seen, other)
        }
        ResolvedStatement::Do {
            body,
            condition,
            ..
        } => {
            see_statement(seen, body)?;
            take_expression(seen, condition)
        }
        ResolvedStatement::For { head, body, .. } => {
            see_head(seen, head)?;
            see_statement(seen, body)
        }
        ResolvedStatement::Return { value, .. } => take_perhaps(seen, value),
        ResolvedStatement::Region {
            clauses,
            captures,
            ..
        } => { take_region(seen, clauses.as_slice(), captures.as_slice()) }
        ResolvedStatement::Loop {
            clauses,
            repeated,
            body,
            ..
        } => {
            see_clauses(seen, clauses.as_slice())?;
            see_loop(seen, repeated)?;
            see_statement(seen, body)
        }
        ResolvedStatement::Sections { clauses, parts, .. } => {
            see_clauses(seen, clauses.as_slice())?;
            see_parts(seen, parts.as_slice())
        }
        ResolvedStatement::Construct { clauses, body, .. } => {
            see_clauses(seen, clauses.as_slice())?;
            see_statement(seen, body)
        }
        ResolvedStatement::Update { update, .. } => take_update(seen, update),
        ResolvedStatement::StandAlone { directive, .. } => take_stand_alone(seen, directive),
    }
}

// Sees statements.
#[cycle(statement)]
fn see_statements(seen: &mut Variables, items: &[ResolvedStatement]) -> AllocResult<()>
    ensures { OnOk result (Sees (statements_sights (statement_trees items.now)) seen.old seen.new) }
{
    for item in items {
        see_statement(seen, item)?;
    }
    Ok(())
}

// Sees the parts of `sections`.
#[cycle(statement)]
fn see_parts(seen: &mut Variables, parts: &[ResolvedPart]) -> AllocResult<()>
    ensures { OnOk result (Sees (parts_sights (part_trees parts.now)) seen.old seen.new) }
{
    for part in parts {
        see_statements(seen, part.items.as_slice())?;
    }
    Ok(())
}
