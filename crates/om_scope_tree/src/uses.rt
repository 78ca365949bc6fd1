//! The variables of its function that a part of a resolved tree uses, in the order of the text.

ghost use Rattle.std.specs.Prelude.{◌≡◌, ℕ, OnOk, map};
ghost use Rattle.std.specs.List.{flat_map};
ghost use Rattle.om_scope_tree.specs.Captures.{captured_variable, clause_uses, combined_uses, copy_uses, listed_uses, stand_alone_uses, start_uses, update_uses, variable_uses};
ghost use Rattle.om_scope_tree.specs.ResolvedView as view;
ghost use Rattle.om_scope_tree.specs.Used.{SeesUses, used_as_listed, used_by_bounds, used_by_clauses, used_by_declarators, used_by_expression, used_by_head, used_by_itself, used_by_parts, used_by_perhaps, used_by_region, used_by_statement, used_by_statements, used_by_values};

use crate::resolved::{
    Capture, CopyKind, ResolvedClause, ResolvedDeclarator, ResolvedExpression, ResolvedHead,
    ResolvedLoop, ResolvedPart, ResolvedStart, ResolvedStatement, ResolvedUpdate, StandAlone,
    Variable,
};
use om_seq::AllocResult;

/// What sees the variables that a part of a tree uses, one after the other.
pub trait Sighting {
    /// What it is once it has seen one more variable.
    ghost next: { Self → ℕ → Self };

    /// Sees a variable of the function.
    fn see(&mut self, variable: u32) -> AllocResult<()>
        ensures { OnOk result (self.new ≡ next self.old variable) };
}

/// Notes a variable that is used, where it is one of the function.
pub fn take<S: Sighting>(seen: &mut S, variable: Variable) -> AllocResult<()>
    ensures { SeesUses result S.next (variable_uses variable) seen.old seen.new }
{
    let Variable::Local(at) = variable else {
        return Ok(());
    };
    seen.see(at)
}

/// Notes what an expression uses.
#[cycle(expression)]
pub fn take_expression<S: Sighting>(
    seen: &mut S,
    expression: &ResolvedExpression,
) -> AllocResult<()>
    ensures { SeesUses result S.next (used_by_expression expression.now) seen.old seen.new }
{
    match expression {
        ResolvedExpression::Constant(_)
        | ResolvedExpression::ThreadNumber
        | ResolvedExpression::TeamSize => Ok(()),
        ResolvedExpression::Variable(variable) => take(seen, *variable),
        ResolvedExpression::Element { array, index } => {
            take(seen, *array)?;
            take_expression(seen, index)
        }
        ResolvedExpression::Call { values, .. } => take_values(seen, values.as_slice()),
        ResolvedExpression::Print { values, .. } => take_values(seen, values.as_slice()),
        ResolvedExpression::Unary { operand, .. } => take_expression(seen, operand),
        ResolvedExpression::Binary { left, right, .. } => {
            take_expression(seen, left)?;
            take_expression(seen, right)
        }
        ResolvedExpression::Conditional {
            condition,
            value: then,
            other,
        } => {
            take_expression(seen, condition)?;
            take_expression(seen, then)?;
            take_expression(seen, other)
        }
        ResolvedExpression::Assign {
            variable,
            value,
            ..
        } => {
            take(seen, *variable)?;
            take_expression(seen, value)
        }
        ResolvedExpression::AssignElement {
            array,
            index,
            value,
            ..
        } => {
            take(seen, *array)?;
            take_expression(seen, index)?;
            take_expression(seen, value)
        }
        ResolvedExpression::Postfix { variable, .. } => take(seen, *variable),
        ResolvedExpression::PostfixElement { array, index, .. } => {
            take(seen, *array)?;
            take_expression(seen, index)
        }
    }
}

// Notes what the values of a call use.
#[cycle(expression)]
fn take_values<S: Sighting>(seen: &mut S, values: &[ResolvedExpression]) -> AllocResult<()>
    ensures { SeesUses result S.next (used_by_values values.now) seen.old seen.new }
{
    for value in values {
        take_expression(seen, value)?;
    }
    Ok(())
}

/// Notes what an expression uses that may be left out.
pub fn take_perhaps<S: Sighting>(
    seen: &mut S,
    expression: &Option<ResolvedExpression>,
) -> AllocResult<()>
    ensures { SeesUses result S.next (used_by_perhaps expression.now) seen.old seen.new }
{
    let Some(expression) = expression else {
        return Ok(());
    };
    take_expression(seen, expression)
}

// Notes what declarations use.
fn take_declarators<S: Sighting>(
    seen: &mut S,
    declarators: &[ResolvedDeclarator],
) -> AllocResult<()>
    ensures { SeesUses result S.next (used_by_declarators declarators.now) seen.old seen.new }
{
    for declarator in declarators {
        take_perhaps(seen, &declarator.initial)?;
    }
    Ok(())
}

// Notes what the beginning of a `for` uses.
fn take_start<S: Sighting>(seen: &mut S, begin: &ResolvedStart) -> AllocResult<()>
    ensures { SeesUses result S.next (start_uses (view.start begin.now)) seen.old seen.new }
{
    match begin {
        ResolvedStart::Nothing => Ok(()),
        ResolvedStart::Expression(expression) => take_expression(seen, expression),
        ResolvedStart::Declaration(declarators) => {
            take_declarators(seen, declarators.as_slice())
        }
    }
}

/// Notes the original of a copy, unless that is private.
pub fn take_original<S: Sighting>(
    seen: &mut S,
    kind: CopyKind,
    original: Variable,
) -> AllocResult<()>
    ensures { SeesUses result S.next (copy_uses kind original) seen.old seen.new }
{
    if matches!(kind, CopyKind::Private) {
        return Ok(());
    }
    take(seen, original)
}

// Notes what a clause uses outside of its construct.
fn take_clause<S: Sighting>(seen: &mut S, clause: &ResolvedClause) -> AllocResult<()>
    ensures { SeesUses result S.next (clause_uses (view.clause clause.now)) seen.old seen.new }
{
    match clause {
        ResolvedClause::Value { value, .. } => take_expression(seen, value),
        ResolvedClause::Shared(variable) => take(seen, *variable),
        ResolvedClause::Copied { kind, original, .. } => take_original(seen, *kind, *original),
    }
}

// Notes what clauses use outside of their construct.
fn take_clauses<S: Sighting>(seen: &mut S, clauses: &[ResolvedClause]) -> AllocResult<()>
    ensures { SeesUses result S.next (used_by_clauses clauses.now) seen.old seen.new }
{
    for clause in clauses {
        take_clause(seen, clause)?;
    }
    Ok(())
}

// Notes what a region takes from outside.
fn take_captures<S: Sighting>(seen: &mut S, captures: &[Capture]) -> AllocResult<()>
    ensures { SeesUses result S.next (map captured_variable captures.now) seen.old seen.new }
{
    for capture in captures {
        seen.see(capture.variable)?;
    }
    Ok(())
}

// Notes variables that are used.
fn take_variables<S: Sighting>(seen: &mut S, variables: &[Variable]) -> AllocResult<()>
    ensures { SeesUses result S.next (flat_map variable_uses variables.now) seen.old seen.new }
{
    for variable in variables {
        take(seen, *variable)?;
    }
    Ok(())
}

/// Notes what a directive uses that stands alone.
pub fn take_stand_alone<S: Sighting>(seen: &mut S, directive: &StandAlone) -> AllocResult<()>
    ensures { SeesUses result S.next (stand_alone_uses directive.now) seen.old seen.new }
{
    let StandAlone::Flush(variables) = directive else {
        return Ok(());
    };
    take_variables(seen, variables.as_slice())
}

/// Notes what a team or a task uses: what its clauses do, and what it takes from outside.
pub fn take_region<S: Sighting>(
    seen: &mut S,
    clauses: &[ResolvedClause],
    captures: &[Capture],
) -> AllocResult<()>
    ensures { SeesUses result S.next (used_by_region clauses.now captures.now) seen.old seen.new }
{
    take_clauses(seen, clauses)?;
    take_captures(seen, captures)
}

// Notes what the head of a `for` uses.
fn take_head<S: Sighting>(seen: &mut S, head: &ResolvedHead) -> AllocResult<()>
    ensures { SeesUses result S.next (used_by_head head.now) seen.old seen.new }
{
    take_start(seen, &head.start)?;
    take_perhaps(seen, &head.condition)?;
    take_perhaps(seen, &head.step)
}

// Notes what the clauses and the bounds of a canonical loop use.
fn take_bounds<S: Sighting>(
    seen: &mut S,
    clauses: &[ResolvedClause],
    repeated: &ResolvedLoop,
) -> AllocResult<()>
    ensures { SeesUses result S.next (used_by_bounds clauses.now repeated.now) seen.old seen.new }
{
    take_clauses(seen, clauses)?;
    take_expression(seen, &repeated.from)?;
    take_expression(seen, &repeated.to)
}

/// Notes what an atomic update uses.
pub fn take_update<S: Sighting>(seen: &mut S, update: &ResolvedUpdate) -> AllocResult<()>
    ensures { SeesUses result S.next (update_uses (view.update update.now)) seen.old seen.new }
{
    take(seen, update.variable)?;
    take_perhaps(seen, &update.index)?;
    take_expression(seen, &update.operand)
}

// Notes what a statement uses besides the statements in it. The condition of a `do` stands behind
// its body, so that nothing is noted of that one.
fn take_own<S: Sighting>(seen: &mut S, statement: &ResolvedStatement) -> AllocResult<()>
    ensures { SeesUses result S.next (used_by_itself statement.now) seen.old seen.new }
{
    match statement {
        ResolvedStatement::Declaration { declarators, .. } => {
            take_declarators(seen, declarators.as_slice())
        }
        ResolvedStatement::Expression { value: used, .. }
        | ResolvedStatement::If {
            condition: used,
            ..
        }
        | ResolvedStatement::IfElse {
            condition: used,
            ..
        }
        | ResolvedStatement::While {
            condition: used,
            ..
        } => take_expression(seen, used),
        ResolvedStatement::For { head, .. } => take_head(seen, head),
        ResolvedStatement::Return { value, .. } => take_perhaps(seen, value),
        ResolvedStatement::Region {
            clauses,
            captures,
            ..
        } => take_region(seen, clauses.as_slice(), captures.as_slice()),
        ResolvedStatement::Loop {
            clauses,
            repeated,
            ..
        } => take_bounds(seen, clauses.as_slice(), repeated),
        ResolvedStatement::Sections { clauses, .. }
        | ResolvedStatement::Construct { clauses, .. } => { take_clauses(seen, clauses.as_slice()) }
        ResolvedStatement::Update { update, .. } => take_update(seen, update),
        ResolvedStatement::StandAlone { directive, .. } => { take_stand_alone(seen, directive) }
        ResolvedStatement::Block { .. }
        | ResolvedStatement::Empty(_)
        | ResolvedStatement::Do { .. }
        | ResolvedStatement::Break(_)
        | ResolvedStatement::Continue(_) => Ok(()),
    }
}

/// Notes what a statement uses.
#[cycle(statement)]
pub(crate) fn take_statement<S: Sighting>(
    seen: &mut S,
    statement: &ResolvedStatement,
) -> AllocResult<()>
    ensures { SeesUses result S.next (used_by_statement statement.now) seen.old seen.new }
{
    take_own(seen, statement)?;
    match statement {
        ResolvedStatement::Block { items, .. } => take_statements(seen, items.as_slice()),
        ResolvedStatement::Sections { parts, .. } => take_parts(seen, parts.as_slice()),
        ResolvedStatement::If { then: body, .. }
        | ResolvedStatement::While { body, .. }
        | ResolvedStatement::For { body, .. }
        | ResolvedStatement::Loop { body, .. }
        | ResolvedStatement::Construct { body, .. } => take_statement(seen, body),
        ResolvedStatement::IfElse { then, other, .. } => {
            take_statement(seen, then)?;
            take_statement(seen, other)
        }
        ResolvedStatement::Do {
            body,
            condition,
            ..
        } => {
            take_statement(seen, body)?;
            take_expression(seen, condition)
        }
        ResolvedStatement::Declaration { .. }
        | ResolvedStatement::Empty(_)
        | ResolvedStatement::Expression { .. }
        | ResolvedStatement::Return { .. }
        | ResolvedStatement::Break(_)
        | ResolvedStatement::Continue(_)
        | ResolvedStatement::Region { .. }
        | ResolvedStatement::Update { .. }
        | ResolvedStatement::StandAlone { .. } => Ok(()),
    }
}

// Notes what statements use.
#[cycle(statement)]
fn take_statements<S: Sighting>(seen: &mut S, items: &[ResolvedStatement]) -> AllocResult<()>
    ensures { SeesUses result S.next (used_by_statements items.now) seen.old seen.new }
{
    for item in items {
        take_statement(seen, item)?;
    }
    Ok(())
}

// Notes what the parts of `sections` use.
#[cycle(statement)]
fn take_parts<S: Sighting>(seen: &mut S, parts: &[ResolvedPart]) -> AllocResult<()>
    ensures { SeesUses result S.next (used_by_parts parts.now) seen.old seen.new }
{
    for part in parts {
        take_statements(seen, part.items.as_slice())?;
    }
    Ok(())
}

/// Notes the original of a copy that is combined into it.
pub fn take_combined<S: Sighting>(
    seen: &mut S,
    kind: CopyKind,
    original: Variable,
) -> AllocResult<()>
    ensures { SeesUses result S.next (combined_uses kind original) seen.old seen.new }
{
    let CopyKind::Reduction(_) = kind else {
        return Ok(());
    };
    take(seen, original)
}

// Notes what a clause of a region uses in it.
fn take_listed<S: Sighting>(seen: &mut S, clause: &ResolvedClause) -> AllocResult<()>
    ensures { SeesUses result S.next (listed_uses (view.clause clause.now)) seen.old seen.new }
{
    match clause {
        ResolvedClause::Value { .. } => Ok(()),
        ResolvedClause::Shared(variable) => take(seen, *variable),
        ResolvedClause::Copied { kind, original, .. } => take_combined(seen, *kind, *original),
    }
}

/// Notes what the clauses of a region use in it.
pub(crate) fn take_all_listed<S: Sighting>(
    seen: &mut S,
    clauses: &[ResolvedClause],
) -> AllocResult<()>
    ensures { SeesUses result S.next (used_as_listed clauses.now) seen.old seen.new }
{
    for clause in clauses {
        take_listed(seen, clause)?;
    }
    Ok(())
}
