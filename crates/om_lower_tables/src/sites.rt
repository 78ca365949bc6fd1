//! The bodies of a function: its own, and those of the regions in it.

ghost use Rattle.std.specs.Prelude.{◌≡◌, ◌<◌, ◌+◌, OnOk, length};
ghost use Rattle.om_lower_tables.specs.Sites.{AddsAllRegions, AddsBody, AddsPartsRegions, AddsRegions, ComesBehind, GivesBodies, IsOpen};
ghost use Rattle.om_lower_tables.specs.Room.{HasNumbers};
ghost use Rattle.om_lower_tables.specs.Trees.{part_trees, statement_trees};
ghost use Rattle.om_lower_tables.specs.Walks.{behind_body};
ghost use Rattle.om_scope_tree.specs.ResolvedView as view;
ghost use Rattle.om_scope_tree.specs.Weights.{function_weight, parts_weight, statement_weight, statements_weight};
ghost use Rattle.om_lower_rules.specs.Bodies as bodies;

use om_lower_rules::{Numbers, Region};
use om_scope_tree::{ResolvedFunction, ResolvedPart, ResolvedStatement};
use om_seq::AllocResult;
use std::alloc::Global;

/// What a body is the code of: the whole of its function, or a region.
#[derive(Clone, Copy)]
pub enum BodyPart<'a> {
    Function,
    Region(Region<'a>),
}

/// A body of a function, and the numbers at its begin.
#[derive(Clone, Copy)]
pub struct Site<'a> {
    pub function: &'a ResolvedFunction,
    pub part: BodyPart<'a>,
    /// How many bodies it stands in.
    pub depth: usize,
    pub numbers: Numbers,
}

/// The bodies of a function, in the order of the text.
pub fn sites_of<'a>(
    alloc: Global,
    function: &'a ResolvedFunction,
    numbers: Numbers,
) -> AllocResult<Vec<Site<'a>>>
    requires room { HasNumbers (function_weight (view.function function.now)) numbers }
    ensures { GivesBodies result numbers function.now }
{
    let mut sites = Vec::new(alloc);
    let numbers = numbers.next_body();
    let own = Site {
        function,
        part: BodyPart::Function,
        depth: 0,
        numbers,
    };
    sites.push(own)?;
    see_statements(&mut sites, &own, numbers, function.body.as_slice())?;
    Ok(sites)
}

// How many bodies a region stands in, where the body round it stands in so many.
fn depth_in(sites: &[Site<'_>], depth: usize) -> usize
    requires { depth < length sites.now }
    ensures { result ≡ depth + 1 }
{
    let _count = sites.len();
    depth + 1
}

// Adds the body of a region and those in it, and answers the numbers behind it.
#[cycle(statement)]
fn see_region<'a>(
    sites: &mut Vec<Site<'a>>,
    round: &Site<'a>,
    numbers: Numbers,
    part: &BodyPart<'a>,
    body: &'a ResolvedStatement,
) -> AllocResult<Numbers>
    requires round { IsOpen round.now sites.old.items }
    requires room { HasNumbers (1 + statement_weight (view.statement body.now)) numbers }
    ensures behind { ComesBehind result behind_body numbers (view.statement body.now) }
    ensures sites { OnOk result (AddsBody round.now part.now numbers body.now sites.old sites.new) }
{
    let inner = numbers.next_body();
    let depth = depth_in(sites.as_slice(), round.depth);
    let site = Site {
        function: round.function,
        part: *part,
        depth,
        numbers: inner,
    };
    sites.push(site)?;
    see_statement(sites, &site, inner, body)
}

// Adds the bodies of the regions in a statement, which stands in an open body, and answers the numbers behind it.
#[cycle(statement)]
fn see_statement<'a>(
    sites: &mut Vec<Site<'a>>,
    round: &Site<'a>,
    numbers: Numbers,
    statement: &'a ResolvedStatement,
) -> AllocResult<Numbers>
    requires round { IsOpen round.now sites.old.items }
    requires room { HasNumbers (statement_weight (view.statement statement.now)) numbers }
    ensures behind { ComesBehind result bodies.behind numbers (view.statement statement.now) }
    ensures sites { OnOk result (AddsRegions round.now numbers statement.now sites.old sites.new) }
{
    match statement {
        ResolvedStatement::Block { items, .. } => {
            see_statements(sites, round, numbers, items.as_slice())
        }
        ResolvedStatement::If { then: body, .. }
        | ResolvedStatement::While { body, .. }
        | ResolvedStatement::Do { body, .. }
        | ResolvedStatement::For { body, .. }
        | ResolvedStatement::Loop { body, .. }
        | ResolvedStatement::Construct { body, .. } => see_statement(sites, round, numbers, body),
        ResolvedStatement::IfElse { then, other, .. } => {
            let between = see_statement(sites, round, numbers, then)?;
            see_statement(sites, round, between, other)
        }
        ResolvedStatement::Region {
            at,
            kind,
            clauses,
            captures,
            body,
        } => {
            let part = BodyPart::Region(Region {
                at: *at,
                kind: *kind,
                clauses: clauses.as_slice(),
                captures: captures.as_slice(),
                statement: body,
            });
            see_region(sites, round, numbers, &part, body)
        }
        ResolvedStatement::Sections { parts, .. } => {
            see_parts(sites, round, numbers.next_pick(), parts.as_slice())
        }
        ResolvedStatement::Declaration { .. }
        | ResolvedStatement::Empty(_)
        | ResolvedStatement::Expression { .. }
        | ResolvedStatement::Return { .. }
        | ResolvedStatement::Break(_)
        | ResolvedStatement::Continue(_)
        | ResolvedStatement::Update { .. }
        | ResolvedStatement::StandAlone { .. } => Ok(numbers),
    }
}

// The same for statements.
#[cycle(statement)]
fn see_statements<'a>(
    sites: &mut Vec<Site<'a>>,
    round: &Site<'a>,
    numbers: Numbers,
    items: &'a [ResolvedStatement],
) -> AllocResult<Numbers>
    requires round { IsOpen round.now sites.old.items }
    requires room { HasNumbers (statements_weight (statement_trees items.now)) numbers }
    ensures behind { ComesBehind result bodies.behind_all numbers (statement_trees items.now) }
    ensures sites { OnOk result (AddsAllRegions round.now numbers items.now sites.old sites.new) }
{
    let mut behind = numbers;
    for item in items {
        behind = see_statement(sites, round, behind, item)?;
    }
    Ok(behind)
}

// The same for the parts of `sections`.
#[cycle(statement)]
fn see_parts<'a>(
    sites: &mut Vec<Site<'a>>,
    round: &Site<'a>,
    numbers: Numbers,
    parts: &'a [ResolvedPart],
) -> AllocResult<Numbers>
    requires round { IsOpen round.now sites.old.items }
    requires room { HasNumbers (parts_weight (part_trees parts.now)) numbers }
    ensures behind { ComesBehind result bodies.behind_parts numbers (part_trees parts.now) }
    ensures sites { OnOk result (AddsPartsRegions round.now numbers parts.now sites.old sites.new) }
{
    let mut behind = numbers;
    for part in parts {
        behind = see_statements(sites, round, behind, part.items.as_slice())?;
    }
    Ok(behind)
}
