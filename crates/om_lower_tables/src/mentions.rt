//! What a program mentions, its regions too: formats, names of critical regions, lines of atomic reads and writes,
//! declared variables. The same walk numbers the regions.

ghost use Rattle.std.specs.Prelude.{◌≡◌, ◌<◌, ◌+◌, OnOk, length, map, set, sum};
ghost use Rattle.std.specs.Str.{bytes_eq};
ghost use Rattle.om_scope_tree.specs.ResolvedView as view;
ghost use Rattle.om_scope_tree.specs.Weights.{clause_weight, expression_weight, loop_weight, parts_weight, perhaps_weight, start_weight, statement_weight, statements_weight, update_weight, values_weight};
ghost use Rattle.om_lower_rules.specs.Mentions.{lock_name, values_formats, with_access};
ghost use Rattle.om_lower_rules.specs.Tables.{with_sight};
ghost use Rattle.om_lower_rules.specs.Slots.{cells_of_length};
ghost use Rattle.om_lower_rules.specs.Bodies.{behind, behind_all, behind_parts};
ghost use Rattle.om_lower_rules.specs.Ends.{body_ends};
ghost use Rattle.om_lower_tables.specs.Noted.{AreNoted, noted};
ghost use Rattle.om_lower_tables.specs.Room.{HasRoom, HasRoomBehind, HasTextRoom};
ghost use Rattle.om_lower_tables.specs.Trees.{listed, part_trees, perhaps_tree, statement_trees};
ghost use Rattle.om_lower_tables.specs.Walks.{AddsAllRegionEnds, AddsEnds, AddsPartsRegionEnds, AddsRegionEnds, Finds};
ghost use Rattle.om_lower_tables.specs.Walks.{Passes, behind_body, by_clause, by_clauses, by_construct};
ghost use Rattle.om_lower_tables.specs.Walks.{by_declarators, by_head, by_loop, by_parts, by_perhaps, by_start};
ghost use Rattle.om_lower_tables.specs.Walks.{by_statement, by_statements, by_update, by_value, declarators_weight};
ghost use Rattle.om_lower_tables.specs.Walks.{formats_in, head_weight};

use om_lexer::Span;
use om_lower_rules::{Extents, Numbers, Texts};
use om_scope_tree::{
    AtomicAccess, ConstructKind, ResolvedClause, ResolvedDeclarator, ResolvedExpression,
    ResolvedHead, ResolvedLoop, ResolvedPart, ResolvedStart, ResolvedStatement, ResolvedUpdate,
};
use om_seq::{AllocResult, Seq};
use std::alloc::Global;
use std::collections::BTreeMap;

/// What functions mention, in the order of the text.
#[derive(Drop)]
pub(crate) struct Mentions {
    pub(crate) alloc: Global,
    /// The formats of `printf`.
    pub(crate) formats: Texts,
    /// The names of critical regions; the unnamed one has no bytes.
    pub(crate) locks: Texts,
    /// What the `atomic read` or `atomic write` of a line does.
    pub(crate) atomics: BTreeMap<u32, AtomicAccess>,
    /// The declared variables.
    pub(crate) extents: Extents,
}

/// A walk over functions, as far as it has come.
#[derive(Drop)]
pub(crate) struct Walk {
    pub(crate) found: Mentions,
    /// The numbers that the next body, and the next list of PICK, get.
    pub(crate) numbers: Numbers,
    /// The numbers behind each body, by its number; while the walk is in it, those at its begin.
    pub(crate) ends: Vec<Numbers>,
}

// Notes the formats of an expression, in the order of the text.
#[cycle(expression)]
fn note_expression(
    formats: &mut Texts,
    alloc: Global,
    expression: &ResolvedExpression,
) -> AllocResult<()>
    requires room { HasRoomBehind (expression_weight (view.expression expression.now)) formats.old }
    ensures { OnOk result (formats.new ≡ noted formats.old (formats_in expression.now)) }
{
    match expression {
        ResolvedExpression::Constant(_)
        | ResolvedExpression::Variable(_)
        | ResolvedExpression::ThreadNumber
        | ResolvedExpression::TeamSize
        | ResolvedExpression::Postfix { .. } => Ok(()),
        ResolvedExpression::Element { index: part, .. }
        | ResolvedExpression::Unary { operand: part, .. }
        | ResolvedExpression::Assign { value: part, .. }
        | ResolvedExpression::PostfixElement { index: part, .. } => note_expression(
            formats, alloc, part,
        ),
        ResolvedExpression::Call { values, .. } => note_values(formats, alloc, values.as_slice()),
        ResolvedExpression::Print { format, values } => {
            formats.note(alloc, format.as_slice())?;
            note_values(formats, alloc, values.as_slice())
        }
        ResolvedExpression::Binary { left, right, .. } => {
            note_expression(formats, alloc, left)?;
            note_expression(formats, alloc, right)
        }
        ResolvedExpression::Conditional {
            condition,
            value: then,
            other,
        } => {
            note_expression(formats, alloc, condition)?;
            note_expression(formats, alloc, then)?;
            note_expression(formats, alloc, other)
        }
        ResolvedExpression::AssignElement { index, value, .. } => {
            note_expression(formats, alloc, index)?;
            note_expression(formats, alloc, value)
        }
    }
}

// Notes the formats of the values of a call.
#[cycle(expression)]
fn note_values(formats: &mut Texts, alloc: Global, values: &[ResolvedExpression]) -> AllocResult<()>
    requires room { HasRoomBehind (values_weight (listed values.now)) formats.old }
    ensures { OnOk result (formats.new ≡ noted formats.old (values_formats (listed values.now))) }
{
    for value in values {
        note_expression(formats, alloc, value)?;
    }
    Ok(())
}

// Notes what an expression mentions.
fn note_value(found: &mut Mentions, value: &ResolvedExpression) -> AllocResult<()>
    requires room { HasTextRoom (expression_weight (view.expression value.now)) found.old }
    ensures { OnOk result (AreNoted (by_value value.now) found.old found.new) }
{
    note_expression(&mut found.formats, found.alloc, value)
}

// Notes the formats of an expression that may be left out.
fn note_perhaps(found: &mut Mentions, expression: &Option<ResolvedExpression>) -> AllocResult<()>
    requires room { HasTextRoom (perhaps_weight (perhaps_tree expression.now)) found.old }
    ensures { OnOk result (AreNoted (by_perhaps expression.now) found.old found.new) }
{
    let Some(expression) = expression else {
        return Ok(());
    };
    note_value(found, expression)
}

// How many cells a variable of this length has; a scalar has one.
fn cells_of(length: Option<u32>) -> u32
    ensures { result ≡ cells_of_length length }
{
    length.unwrap_or(1)
}

// Notes declared variables.
fn note_declarators(found: &mut Mentions, declarators: &[ResolvedDeclarator]) -> AllocResult<()>
    requires room { HasTextRoom (declarators_weight declarators.now) found.old }
    ensures { OnOk result (AreNoted (by_declarators declarators.now) found.old found.new) }
{
    for declarator in declarators {
        let cells = cells_of(declarator.length);
        found.extents.note(declarator.variable.at, cells)?;
        note_perhaps(found, &declarator.initial)?;
    }
    Ok(())
}

// Notes the beginning of a `for`.
fn note_start(found: &mut Mentions, start: &ResolvedStart) -> AllocResult<()>
    requires room { HasTextRoom (start_weight (view.start start.now)) found.old }
    ensures { OnOk result (AreNoted (by_start start.now) found.old found.new) }
{
    match start {
        ResolvedStart::Nothing => Ok(()),
        ResolvedStart::Expression(value) => note_value(found, value),
        ResolvedStart::Declaration(declarators) => note_declarators(found, declarators.as_slice()),
    }
}

// Notes a clause.
fn note_clause(found: &mut Mentions, clause: &ResolvedClause) -> AllocResult<()>
    requires room { HasTextRoom (clause_weight (view.clause clause.now)) found.old }
    ensures { OnOk result (AreNoted (by_clause clause.now) found.old found.new) }
{
    let ResolvedClause::Value { value, .. } = clause else {
        return Ok(());
    };
    note_value(found, value)
}

// Notes clauses.
fn note_clauses(found: &mut Mentions, clauses: &[ResolvedClause]) -> AllocResult<()>
    requires room { HasTextRoom (sum (map clause_weight (map view.clause clauses.now))) found.old }
    ensures { OnOk result (AreNoted (by_clauses clauses.now) found.old found.new) }
{
    for clause in clauses {
        note_clause(found, clause)?;
    }
    Ok(())
}

// Notes the bounds of a canonical loop.
fn note_loop(found: &mut Mentions, repeated: &ResolvedLoop) -> AllocResult<()>
    requires room { HasTextRoom (loop_weight (view.loop repeated.now)) found.old }
    ensures { OnOk result (AreNoted (by_loop repeated.now) found.old found.new) }
{
    note_value(found, &repeated.from)?;
    note_value(found, &repeated.to)
}

// Notes an atomic update.
fn note_update(found: &mut Mentions, update: &ResolvedUpdate) -> AllocResult<()>
    requires room { HasTextRoom (update_weight (view.update update.now)) found.old }
    ensures { OnOk result (AreNoted (by_update update.now) found.old found.new) }
{
    note_perhaps(found, &update.index)?;
    note_value(found, &update.operand)
}

// Notes the name of a critical region.
fn note_lock(locks: &mut Texts, alloc: Global, name: &Option<Seq<u8>>) -> AllocResult<()>
    requires room { HasRoomBehind 1 locks.old }
    ensures { OnOk result (locks.new ≡ with_sight bytes_eq locks.old (lock_name name.now)) }
{
    match name {
        None => locks.note(alloc, &[]),
        Some(name) => locks.note(alloc, name.as_slice()),
    }
}

// Notes the line of an atomic read or write.
fn note_access(
    lines: &mut BTreeMap<u32, AtomicAccess>,
    at: Span,
    access: AtomicAccess,
) -> AllocResult<()>
    ensures { OnOk result (lines.new.entries ≡ with_access lines.old.entries (at.line, access)) }
{
    lines.insert(at.line, access)?;
    Ok(())
}

// Notes what a construct mentions by itself: the name of a critical region, or the line of an atomic access.
fn note_construct(found: &mut Mentions, at: Span, kind: &ConstructKind) -> AllocResult<()>
    requires room { HasTextRoom 1 found.old }
    ensures { OnOk result (AreNoted (by_construct at kind.now) found.old found.new) }
{
    match kind {
        ConstructKind::Critical { name } => note_lock(&mut found.locks, found.alloc, name),
        ConstructKind::Atomic { access } => note_access(&mut found.atomics, at, *access),
        ConstructKind::Single { .. } | ConstructKind::Masked | ConstructKind::Taskgroup => Ok(()),
    }
}

// Notes the head of a `for`.
fn note_head(found: &mut Mentions, head: &ResolvedHead) -> AllocResult<()>
    requires room { HasTextRoom (head_weight head.now) found.old }
    ensures { OnOk result (AreNoted (by_head head.now) found.old found.new) }
{
    note_start(found, &head.start)?;
    note_perhaps(found, &head.condition)?;
    note_perhaps(found, &head.step)
}

/// Puts the numbers behind a body in their place.
pub(crate) fn put_end(ends: &mut Vec<Numbers>, index: usize, behind: Numbers)
    requires { index < length ends.old.items }
    ensures { ends.new.items ≡ set ends.old.items index behind }
{
    ends[index] = behind;
}

// Walks over the body of a region.
#[cycle(statement)]
fn note_region(walk: &mut Walk, body: &ResolvedStatement) -> AllocResult<()>
    requires room { HasRoom (1 + statement_weight (view.statement body.now)) walk.old }
    ensures behind { OnOk result (Passes behind_body (view.statement body.now) walk.old walk.new) }
    ensures ends { OnOk result (AddsEnds body_ends (view.statement body.now) walk.old walk.new) }
    ensures noted { OnOk result (Finds (by_statement body.now) walk.old walk.new) }
{
    let inner = walk.numbers.next_body();
    let index = walk.ends.len();
    walk.ends.push(inner)?;
    walk.numbers = inner;
    note_statement(walk, body)?;
    put_end(&mut walk.ends, index, walk.numbers);
    Ok(())
}

// Walks over a statement and the regions in it, in the order of the text.
#[cycle(statement)]
fn note_statement(walk: &mut Walk, statement: &ResolvedStatement) -> AllocResult<()>
    requires room { HasRoom (statement_weight (view.statement statement.now)) walk.old }
    ensures behind { OnOk result (Passes behind (view.statement statement.now) walk.old walk.new) }
    ensures ends { OnOk result (AddsRegionEnds statement.now walk.old walk.new) }
    ensures noted { OnOk result (Finds (by_statement statement.now) walk.old walk.new) }
{
    match statement {
        ResolvedStatement::Declaration { declarators, .. } => {
            note_declarators(&mut walk.found, declarators.as_slice())
        }
        ResolvedStatement::Block { items, .. } => note_statements(walk, items.as_slice()),
        ResolvedStatement::Empty(_)
        | ResolvedStatement::Break(_)
        | ResolvedStatement::Continue(_)
        | ResolvedStatement::StandAlone { .. } => Ok(()),
        ResolvedStatement::Expression { value, .. } => note_value(&mut walk.found, value),
        ResolvedStatement::If {
            condition: test,
            then: body,
            ..
        }
        | ResolvedStatement::While {
            condition: test,
            body,
            ..
        } => {
            note_value(&mut walk.found, test)?;
            note_statement(walk, body)
        }
        ResolvedStatement::IfElse {
            condition,
            then,
            other,
            ..
        } => {
            note_value(&mut walk.found, condition)?;
            note_statement(walk, then)?;
            note_statement(walk, other)
        }
        ResolvedStatement::Do {
            body,
            condition,
            ..
        } => {
            note_statement(walk, body)?;
            note_value(&mut walk.found, condition)
        }
        ResolvedStatement::For { head, body, .. } => {
            note_head(&mut walk.found, head)?;
            note_statement(walk, body)
        }
        ResolvedStatement::Return { value, .. } => note_perhaps(&mut walk.found, value),
        ResolvedStatement::Region { clauses, body, .. } => {
            note_clauses(&mut walk.found, clauses.as_slice())?;
            note_region(walk, body)
        }
        ResolvedStatement::Loop {
            clauses,
            repeated,
            body,
            ..
        } => {
            note_clauses(&mut walk.found, clauses.as_slice())?;
            note_loop(&mut walk.found, repeated)?;
            note_statement(walk, body)
        }
        ResolvedStatement::Sections { clauses, parts, .. } => {
            note_clauses(&mut walk.found, clauses.as_slice())?;
            walk.numbers = walk.numbers.next_pick();
            note_parts(walk, parts.as_slice())
        }
        ResolvedStatement::Construct {
            at,
            kind,
            clauses,
            body,
        } => {
            note_construct(&mut walk.found, *at, kind)?;
            note_clauses(&mut walk.found, clauses.as_slice())?;
            note_statement(walk, body)
        }
        ResolvedStatement::Update { update, .. } => note_update(&mut walk.found, update),
    }
}

/// Walks over statements.
#[cycle(statement)]
pub(crate) fn note_statements(walk: &mut Walk, items: &[ResolvedStatement]) -> AllocResult<()>
    requires room { HasRoom (statements_weight (statement_trees items.now)) walk.old }
    ensures behind { OnOk result (Passes behind_all (statement_trees items.now) walk.old walk.new) }
    ensures ends { OnOk result (AddsAllRegionEnds items.now walk.old walk.new) }
    ensures noted { OnOk result (Finds (by_statements items.now) walk.old walk.new) }
{
    for item in items {
        note_statement(walk, item)?;
    }
    Ok(())
}

// Walks over the parts of `sections`.
#[cycle(statement)]
fn note_parts(walk: &mut Walk, parts: &[ResolvedPart]) -> AllocResult<()>
    requires room { HasRoom (parts_weight (part_trees parts.now)) walk.old }
    ensures behind { OnOk result (Passes behind_parts (part_trees parts.now) walk.old walk.new) }
    ensures ends { OnOk result (AddsPartsRegionEnds parts.now walk.old walk.new) }
    ensures noted { OnOk result (Finds (by_parts parts.now) walk.old walk.new) }
{
    for part in parts {
        note_statements(walk, part.items.as_slice())?;
    }
    Ok(())
}
