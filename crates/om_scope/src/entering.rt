//! Constructs, as they are entered: behind their clauses, and the bounds of their loop.

ghost use Rattle.std.specs.Prelude.{◌≡◌, OnOk};
ghost use Rattle.om_scope_rules.specs.LoopViews.{view_loop};
ghost use Rattle.om_scope_rules.specs.DirectiveRules.{in_kind};
ghost use Rattle.om_scope.specs.Entering.{ChecksEntering, EntersListed, FindsClauses, FindsLoop, IsAllowed, IsBounded};
ghost use Rattle.om_scope.specs.Entering.{ResolvesClausesOf, ResolvesRound};
ghost use Rattle.om_scope.specs.Resolving.{EntersConstruct};

use crate::assembly::schedule_of;
use om_lexer::SourceResult;
use om_parser_tree::Expression;
use om_pragma::Directive;
use om_scope_parts::{resolve_directive, resolve_loop};
use om_scope_rules::{Flow, Loop, SharingKind};
use om_scope_symbols::{Listed, Symbols, is_parallel, traits_of};
use om_scope_tree::{ResolvedClause, ResolvedLoop};
use om_seq::AllocResult;
use std::alloc::Global;

/// Enters a construct, after its clauses.
pub fn enter_construct(
    alloc: Global,
    symbols: &mut Symbols,
    flow: Flow,
    directive: &Directive<Expression>,
) -> SourceResult<Vec<ResolvedClause>>
    ensures found { ResolvesClausesOf result symbols.old flow directive.now }
    ensures in_scope { EntersConstruct result symbols.old symbols.new directive.now }
{
    let (listed, clauses) = resolve_directive(alloc, symbols, flow, directive)?;
    enter_listed(alloc, symbols, traits_of(&directive.name).region, listed)?;
    Ok(clauses)
}

// Enters a construct of a kind whose clauses say this.
fn enter_listed(
    alloc: Global,
    symbols: &mut Symbols,
    kind: SharingKind,
    listed: Listed,
) -> AllocResult<()>
    ensures { OnOk result (symbols.new ≡ in_kind kind listed symbols.old) }
{
    let (copies, region) = listed.into_region(kind);
    symbols.enter_region(alloc, &copies, region)
}

/// Enters a construct that is for a loop, after its clauses and the loop's bounds.
pub fn enter_loop_construct(
    alloc: Global,
    symbols: &mut Symbols,
    flow: Flow,
    directive: &Directive<Expression>,
    found: &Loop<'_>,
) -> SourceResult<(Vec<ResolvedClause>, Box<ResolvedLoop>)>
    ensures checked { ChecksEntering result symbols.old flow directive.now (view_loop found.now) }
    ensures listed { OnOk result (IsAllowed symbols.old flow directive.now) }
    ensures bounded { OnOk result (IsBounded symbols.old directive.now (view_loop found.now)) }
    ensures in_scope { EntersConstruct result symbols.old symbols.new directive.now }
    ensures clauses { FindsClauses result symbols.old directive.now }
    ensures repeated { FindsLoop result symbols.old directive.now (view_loop found.now) }
{
    let (listed, clauses) = resolve_directive(alloc, symbols, flow, directive)?;
    let repeated = enter_bounds(alloc, symbols, directive, listed, found)?;
    Ok((clauses, repeated))
}

// Enters a construct whose clauses say this, with the bounds of its loop. Those of a `parallel for`
// use its copies, and those of a `for` the originals.
fn enter_bounds(
    alloc: Global,
    symbols: &mut Symbols,
    directive: &Directive<Expression>,
    listed: Listed,
    found: &Loop<'_>,
) -> SourceResult<Box<ResolvedLoop>>
    ensures found { ResolvesRound result symbols.old listed directive.now (view_loop found.now) }
    ensures in_scope { EntersListed result symbols.old symbols.new listed directive.now }
{
    let kind = traits_of(&directive.name).region;
    let schedule = schedule_of(directive.clauses.as_slice());
    if is_parallel(kind) {
        enter_listed(alloc, symbols, kind, listed)?;
        return resolve_loop(alloc, symbols, schedule, found);
    }
    let repeated = resolve_loop(alloc, symbols, schedule, found);
    enter_listed(alloc, symbols, kind, listed)?;
    repeated
}
