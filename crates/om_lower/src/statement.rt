//! The code of statements.

ghost use Rattle.std.specs.Prelude.{◌≤◌, ◌+◌, ◌^◌, length};
ghost use Rattle.om_lower.specs.Words.{AreFree, EmitsAllThere, EmitsPartsThere, EmitsThere, GivesAllBehind};
ghost use Rattle.om_lower.specs.Words.{GivesBehind, GivesPartsBehind, HasCodeThere, HasEndsThere, HaveCodeThere};
ghost use Rattle.om_lower.specs.Words.{HaveEndsThere, HavePartsEndsThere, PartsHaveCode, ScopesOf, ScopesOfAll};
ghost use Rattle.om_lower.specs.Words.{ScopesOfBlock, ScopesOfParts, part_trees};
ghost use Rattle.om_scope_tree.specs.ResolvedView as view;

use crate::region::region_there;
use crate::worksharing::{
    PartsSpot, SectionsHead, begin_parts, begin_worksharing, end_worksharing,
};
use om_lower_emit::Here;
use om_lower_emit::alone::{assignment, jump, stand_alone, update};
use om_lower_emit::construct::{begin_construct, end_construct};
use om_lower_emit::declaration::{declarators, returned};
use om_lower_emit::draft::Jump;
use om_lower_emit::repeated::{
    begin_do, begin_else, begin_for, begin_if, begin_while, end_do, end_for, end_loop,
};
use om_lower_emit::spot::Spot;
use om_lower_emit::unused::effect;
use om_lower_emit::writing::Writing;
use om_lower_rules::{BodyTables, Numbers, Region};
use om_scope_tree::{ConstructKind, ResolvedHead, ResolvedPart, ResolvedStatement};
use om_seq::AllocResult;
use std::alloc::Global;

/// Writes the code of a statement, and gives the numbers behind it.
///
/// Its only error is out of memory. What is in it has code, and the tables have the regions in it.
#[cycle(statement)]
pub(crate) fn statement(
    alloc: Global,
    writing: &mut Writing,
    tables: &BodyTables<'_>,
    spot: Spot,
    tree: &ResolvedStatement,
) -> AllocResult<Numbers>
    requires code { HasCodeThere spot tree.now }
    requires ends { HasEndsThere tables.now spot tree.now }
    ensures behind { GivesBehind result spot.numbers (view.statement tree.now) }
    ensures emitted { EmitsThere result tables.now spot tree.now writing.old writing.new }
    ensures scopes { ScopesOf result tables.now tree.now writing.old writing.new }
{
    let numbers = spot.numbers;
    // Lent again, since each arm lends them for less long.
    let tables = &*tables;
    match tree {
        ResolvedStatement::Declaration {
            at,
            declarators: declared,
        } => {
            declarators(writing, &Here { tables, at: *at }, declared.as_slice())?;
            Ok(numbers)
        }
        ResolvedStatement::Block { items, .. } => {
            let height = writing.scopes.height();
            let after = statements(alloc, writing, tables, spot, items.as_slice())?;
            let to = writing.draft.place();
            writing.scopes.end(height, to)?;
            Ok(after)
        }
        ResolvedStatement::Empty(_) => Ok(numbers),
        ResolvedStatement::Expression {
            at,
            value: expression,
        } => {
            effect(&mut writing.draft, &Here { tables, at: *at }, expression)?;
            Ok(numbers)
        }
        ResolvedStatement::If {
            at,
            condition,
            then,
        } => {
            let end = begin_if(&mut writing.draft, &Here { tables, at: *at }, condition)?;
            let after = inner(alloc, writing, tables, spot, then)?;
            writing.draft.define(end);
            Ok(after)
        }
        ResolvedStatement::IfElse {
            at,
            condition,
            then,
            other,
        } => {
            let head = begin_if(&mut writing.draft, &Here { tables, at: *at }, condition)?;
            let between = inner(alloc, writing, tables, spot, then)?;
            let end = begin_else(&mut writing.draft, at.line, head)?;
            let after = inner(alloc, writing, tables, spot.behind(between), other)?;
            writing.draft.define(end);
            Ok(after)
        }
        ResolvedStatement::While {
            at,
            condition,
            body,
        } => {
            let labels = begin_while(&mut writing.draft, &Here { tables, at: *at }, condition)?;
            let inside = Spot::in_loop(numbers, labels.over, labels.again);
            let after = inner(alloc, writing, tables, inside, body)?;
            end_loop(&mut writing.draft, at.line, labels)?;
            Ok(after)
        }
        ResolvedStatement::Do {
            at,
            body,
            condition,
        } => {
            let labels = begin_do(&mut writing.draft)?;
            let inside = Spot::in_loop(numbers, labels.over, labels.next);
            let after = inner(alloc, writing, tables, inside, body)?;
            end_do(
                &mut writing.draft,
                &Here { tables, at: *at },
                labels,
                condition,
            )?;
            Ok(after)
        }
        ResolvedStatement::For { at, head, body } => {
            let head: &ResolvedHead = head;
            let here = Here { tables, at: *at };
            let height = writing.scopes.height();
            let labels = begin_for(writing, &here, &head.start, &head.condition)?;
            let inside = Spot::in_loop(numbers, labels.over, labels.next);
            let after = inner(alloc, writing, tables, inside, body)?;
            end_for(&mut writing.draft, &here, labels, &head.step)?;
            let to = writing.draft.place();
            writing.scopes.end(height, to)?;
            Ok(after)
        }
        ResolvedStatement::Return { at, value: answer } => {
            returned(&mut writing.draft, &Here { tables, at: *at }, answer)?;
            Ok(numbers)
        }
        ResolvedStatement::Break(at) => {
            jump(&mut writing.draft, at.line, spot.jumps.over)?;
            Ok(numbers)
        }
        ResolvedStatement::Continue(at) => {
            jump(&mut writing.draft, at.line, spot.jumps.next)?;
            Ok(numbers)
        }
        ResolvedStatement::Region {
            at,
            kind,
            clauses,
            captures,
            body,
        } => {
            let region = Region {
                at: *at,
                kind: *kind,
                clauses: clauses.as_slice(),
                captures: captures.as_slice(),
                statement: body,
            };
            // Named for the prover alone: a goal in `proofs/` speaks of what is behind it.
            let after = region_there(alloc, &mut writing.draft, tables, numbers, &region)?;
            Ok(after)
        }
        ResolvedStatement::Loop {
            at,
            clauses,
            nowait,
            repeated,
            body,
        } => {
            let here = Here { tables, at: *at };
            let height = writing.scopes.height();
            let labels = begin_worksharing(writing, &here, clauses.as_slice(), repeated)?;
            let inside = Spot::in_iteration(numbers, labels.again);
            let after = inner(alloc, writing, tables, inside, body)?;
            end_loop(&mut writing.draft, at.line, labels)?;
            end_worksharing(&mut writing.draft, &here, clauses.as_slice(), *nowait)?;
            let to = writing.draft.place();
            writing.scopes.end(height, to)?;
            Ok(after)
        }
        ResolvedStatement::Sections {
            at,
            clauses,
            nowait,
            parts: sections,
        } => {
            let here = Here { tables, at: *at };
            let head = SectionsHead {
                numbers,
                clauses: clauses.as_slice(),
            };
            let height = writing.scopes.height();
            let inside = begin_parts(alloc, writing, &here, &head, sections.as_slice())?;
            let after = parts(alloc, writing, tables, inside, sections.as_slice())?;
            writing.draft.define(inside.over);
            end_worksharing(&mut writing.draft, &here, clauses.as_slice(), *nowait)?;
            let to = writing.draft.place();
            writing.scopes.end(height, to)?;
            Ok(after)
        }
        ResolvedStatement::Construct {
            at,
            kind,
            clauses,
            body,
        } => {
            let here = Here { tables, at: *at };
            if let ConstructKind::Atomic { .. } = kind {
                assignment(&mut writing.draft, &here, body)?;
                return Ok(numbers);
            }
            let height = writing.scopes.height();
            let label = begin_construct(writing, &here, kind, clauses.as_slice())?;
            let inside = Spot::outside(numbers);
            let after = inner(alloc, writing, tables, inside, body)?;
            end_construct(&mut writing.draft, &here, kind, label)?;
            let to = writing.draft.place();
            writing.scopes.end(height, to)?;
            Ok(after)
        }
        ResolvedStatement::Update {
            at,
            update: updated,
        } => {
            update(&mut writing.draft, &Here { tables, at: *at }, updated)?;
            Ok(numbers)
        }
        ResolvedStatement::StandAlone { at, directive } => {
            stand_alone(&mut writing.draft, at.line, directive)?;
            Ok(numbers)
        }
    }
}

/// Writes the code of a statement of another one, which is a block of its own (C17 6.8.4p3, 6.8.5p5),
/// and gives the numbers behind it.
#[cycle(statement)]
pub(crate) fn inner(
    alloc: Global,
    writing: &mut Writing,
    tables: &BodyTables<'_>,
    spot: Spot,
    tree: &ResolvedStatement,
) -> AllocResult<Numbers>
    requires code { HasCodeThere spot tree.now }
    requires ends { HasEndsThere tables.now spot tree.now }
    ensures behind { GivesBehind result spot.numbers (view.statement tree.now) }
    ensures emitted { EmitsThere result tables.now spot tree.now writing.old writing.new }
    ensures scopes { ScopesOfBlock result tables.now tree.now writing.old writing.new }
{
    let height = writing.scopes.height();
    let after = statement(alloc, writing, tables, spot, tree)?;
    let to = writing.draft.place();
    writing.scopes.end(height, to)?;
    Ok(after)
}

/// Writes the code of statements, one behind the other, and gives the numbers behind them.
#[cycle(statement)]
pub(crate) fn statements(
    alloc: Global,
    writing: &mut Writing,
    tables: &BodyTables<'_>,
    spot: Spot,
    items: &[ResolvedStatement],
) -> AllocResult<Numbers>
    requires code { HaveCodeThere spot items.now }
    requires ends { HaveEndsThere tables.now spot items.now }
    ensures behind { GivesAllBehind result spot items.now }
    ensures emitted { EmitsAllThere result tables.now spot items.now writing.old writing.new }
    ensures scopes { ScopesOfAll result tables.now items.now writing.old writing.new }
{
    let mut numbers = spot.numbers;
    for item in items {
        let here = spot.behind(numbers);
        let after = statement(alloc, writing, tables, here, item)?;
        numbers = after;
    }
    Ok(numbers)
}

/// Writes the code of the parts of a `sections`, one behind the other, and gives the numbers behind
/// them. Behind each the next part is taken.
#[cycle(statement)]
pub(crate) fn parts(
    alloc: Global,
    writing: &mut Writing,
    tables: &BodyTables<'_>,
    spot: PartsSpot,
    sections: &[ResolvedPart],
) -> AllocResult<Numbers>
    requires code { PartsHaveCode (part_trees sections.now) }
    requires ends { HavePartsEndsThere tables.now spot sections.now }
    requires free { AreFree spot.first (length sections.now) writing.old.draft }
    requires fit { spot.first + length sections.now ≤ 2 ^ 64 }
    ensures behind { GivesPartsBehind result spot sections.now }
    ensures emitted { EmitsPartsThere result tables.now spot sections.now writing.old writing.new }
    ensures scopes { ScopesOfParts result tables.now sections.now writing.old writing.new }
{
    let mut numbers = spot.numbers;
    for (index, section) in sections.iter().enumerate() {
        writing.draft.define(spot.first + index);
        let inside = Spot::outside(numbers);
        let height = writing.scopes.height();
        let after = statements(alloc, writing, tables, inside, section.items.as_slice())?;
        let to = writing.draft.place();
        writing.scopes.end(height, to)?;
        writing.draft.put_jump(spot.line, Jump::Always, spot.again)?;
        numbers = after;
    }
    Ok(numbers)
}
