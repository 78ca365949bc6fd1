//! Directives and their clauses: their rules, and what they say of variables.

ghost use Rattle.std.specs.Prelude.{◌≡◌, ◌&&◌, ◌||◌, false, OnOk, IfOk};
ghost use Rattle.om_parser_tree.specs.View.{view_directive};
ghost use Rattle.om_scope_rules.specs.Checks.{ChecksExactly};
ghost use Rattle.om_scope_rules.specs.DirectiveRules.{after_clause, flushed_breaches, is_listed, is_mislisted, is_variable, listed_by, names_in, nesting_breaches, sharing_of, uses_original};
ghost use Rattle.om_scope_rules.specs.Outcomes.{Finds};
ghost use Rattle.om_scope_rules.specs.Resolution.{variable_named, variable_of};
ghost use Rattle.om_scope_tree.specs.ResolvedView as view;
ghost use Rattle.om_scope_rules.specs.StatementResolution.{clause_of, kind_of};
ghost use Rattle.om_scope_parts.specs.Lists.{AddsAll, AddsClause, ChecksClause, ChecksListed, ChecksNames, ListsAll};
ghost use Rattle.om_scope_parts.specs.Lists.{ListsName, ResolvesClauses, ResolvesDirective, ResolvesFlush};
ghost use Rattle.om_scope_parts.specs.Lists.{ResolvesFlushed};
ghost use Rattle.om_scope_parts.specs.Lists.{ResolvesListed, listed_in, view_clause, view_items};

use crate::declaration::local_of;
use crate::expression::{add, boxed_expression};
use crate::separated::Separated;
use om_lexer::{FaultCode, SourceResult};
use om_parser_tree::{Expression, Name};
use om_pragma::{Clause, ClauseItem, DataSharing, Directive, DirectiveName, FurtherName, NameList};
use om_scope_rules::{Flow, Meaning};
use om_scope_symbols::{
    Listed, Symbols, check_declared, is_copied_array, is_scalar, refuse_if, traits_of,
};
use om_scope_tree::{CopyKind, ResolvedClause, Variable};
use om_seq::{AllocResult, Seq};
use std::alloc::Global;

// A worksharing construct or a barrier where none may stand: S14.
fn check_nesting(flow: Flow, name: &DirectiveName) -> SourceResult<()>
    ensures { ChecksExactly result (nesting_breaches flow name.now) }
{
    let broken = traits_of(name).is_bound && flow.is_closed;
    refuse_if(broken, FaultCode::LeavesConstruct, name.span().start)
}

// Whether a name is that of a variable.
fn is_variable(meaning: Option<Meaning>) -> bool
    ensures { result ≡ is_variable meaning }
{
    matches!(meaning, Some(Meaning::Variable(..)))
}

// Whether a name can't be shared or copied so.
fn is_mislisted(sharing: DataSharing, symbols: &Symbols, name: &[u8]) -> bool
    ensures { result ≡ is_mislisted sharing symbols.now name.now }
{
    let meaning = symbols.meaning_of(name);
    match sharing {
        DataSharing::Shared => !is_variable(meaning) || is_copied_array(symbols, name),
        DataSharing::Private => !is_scalar(meaning),
        DataSharing::Firstprivate => !is_scalar(meaning),
    }
}

// Whether a clause uses the variable outside of its construct.
fn uses_original(sharing: DataSharing) -> bool
    ensures { result ≡ uses_original sharing }
{
    !matches!(sharing, DataSharing::Private)
}

// The variable that a name of this meaning is.
fn variable_in(meaning: Option<Meaning>) -> Option<Variable>
    ensures { result ≡ variable_of meaning }
{
    let Some(Meaning::Variable(variable, _)) = meaning else {
        return None;
    };
    Some(variable)
}

// The variable of a name in the list of a clause: S7, S9, S13.
fn resolve_listed(
    symbols: &Symbols,
    sharing: DataSharing,
    listed: &Listed,
    name: &Name,
) -> SourceResult<Variable>
    ensures checked { ChecksListed result symbols.now sharing listed.now name.now }
    ensures is_new { OnOk result (is_listed listed.now name.now.text ≡ false) }
    ensures resolved { Finds (λ found. found) result (variable_named symbols.now name.now) }
{
    check_declared(symbols, name)?;
    let text = name.text.as_slice();
    let broken = is_mislisted(sharing, symbols, text) || listed.contains(text);
    refuse_if(broken, FaultCode::Misuse, name.span.start)?;
    let unlisted = uses_original(sharing) && symbols.is_unlisted(text);
    refuse_if(unlisted, FaultCode::Unlisted, name.span.start)?;
    match variable_in(symbols.meaning_of(text)) {
        Some(variable) => Ok(variable),
        None => unreachable!(),
    }
}

// How a variable is listed of which a construct has such a copy, or none.
fn sharing_of(kind: Option<CopyKind>) -> DataSharing
    ensures { result ≡ sharing_of kind }
{
    match kind {
        None => DataSharing::Shared,
        Some(CopyKind::Private) => DataSharing::Private,
        Some(CopyKind::Firstprivate) => DataSharing::Firstprivate,
        Some(CopyKind::Reduction(_)) => DataSharing::Firstprivate,
    }
}

// What a clause says of a variable that it lists by a name.
fn clause_of(
    alloc: Global,
    kind: Option<CopyKind>,
    variable: Variable,
    name: &Name,
) -> AllocResult<ResolvedClause>
    ensures { IfOk result
        (λ clause. view.clause clause ≡ clause_of kind variable name.now) }
{
    match kind {
        None => Ok(ResolvedClause::Shared(variable)),
        Some(kind) => Ok(ResolvedClause::Copied {
            kind,
            original: variable,
            copy: local_of(alloc, name)?,
        }),
    }
}

// Where a clause lists its names, and which copy it makes of the variable of each.
#[derive(Drop)]
struct Listing<'a> {
    alloc: Global,
    symbols: &'a Symbols,
    // None where it shares them.
    kind: Option<CopyKind>,
}

// Takes a name in the list of a clause.
fn list_name(
    listing: &Listing<'_>,
    listed: &mut Listed,
    name: &Name,
) -> SourceResult<ResolvedClause>
    ensures found { ResolvesListed result listing.now listed.old name.now }
    ensures listed { ListsName result listing.now listed.old listed.new name.now }
{
    let sharing = sharing_of(listing.kind);
    let variable = resolve_listed(listing.symbols, sharing, listed, name)?;
    listed.add(listing.alloc, sharing, name)?;
    Ok(clause_of(listing.alloc, listing.kind, variable, name)?)
}

// Takes the names of a list.
fn list_names(
    listing: &Listing<'_>,
    listed: &mut Listed,
    clauses: &mut Vec<ResolvedClause>,
    first: &Name,
    rest: &[FurtherName],
) -> SourceResult<()>
    ensures checked { ChecksNames result listing.now listed.old (names_in first.now rest.now) }
    ensures listed { ListsAll result listing.now listed.old listed.new first.now rest.now }
    ensures resolved { AddsAll result listing.now clauses.old clauses.new first.now rest.now }
{
    for name in Separated::new(first, rest) {
        let found = list_name(listing, listed, name);
        add(clauses, found)?;
    }
    Ok(())
}

// How a clause of data sharing copies what it lists; nothing where it shares it.
fn kind_of(sharing: DataSharing) -> Option<CopyKind>
    ensures kind { result ≡ kind_of sharing }
    ensures sharing { sharing_of result ≡ sharing }
{
    match sharing {
        DataSharing::Shared => None,
        DataSharing::Private => Some(CopyKind::Private),
        DataSharing::Firstprivate => Some(CopyKind::Firstprivate),
    }
}

// Takes a clause.
fn resolve_clause(
    alloc: Global,
    symbols: &Symbols,
    listed: &mut Listed,
    clauses: &mut Vec<ResolvedClause>,
    clause: &Clause<Expression>,
) -> SourceResult<()>
    ensures checked { ChecksClause result symbols.now listed.old clause.now }
    ensures listed { OnOk result (listed.new ≡ after_clause listed.old (view_clause clause.now)) }
    ensures resolved { AddsClause result symbols.now clauses.old clauses.new clause.now }
{
    match clause {
        Clause::Value(kind, _, value) => {
            let value = boxed_expression(alloc, symbols, true, &value.expression)?;
            clauses.push(ResolvedClause::Value {
                clause: *kind,
                value: Box::into_inner(value),
            })?;
            Ok(())
        }
        Clause::Default(_, argument) => {
            listed.set_default(argument.sharing);
            Ok(())
        }
        Clause::Data(sharing, _, list) => {
            let kind = kind_of(*sharing);
            let listing = Listing {
                alloc,
                symbols,
                kind,
            };
            let rest = list.rest.as_slice();
            list_names(&listing, listed, clauses, &list.first, rest)
        }
        Clause::Reduction(_, reduction) => {
            let kind = Some(CopyKind::Reduction(reduction.operator));
            let listing = Listing {
                alloc,
                symbols,
                kind,
            };
            let rest = reduction.rest.as_slice();
            list_names(&listing, listed, clauses, &reduction.first, rest)
        }
        Clause::Schedule(_, _) | Clause::Plain(_, _) => Ok(()),
    }
}

// Takes the clauses of a directive, in their order.
fn resolve_clauses(
    alloc: Global,
    symbols: &Symbols,
    items: &[ClauseItem<Expression>],
) -> SourceResult<(Listed, Vec<ResolvedClause>)>
    ensures found { ResolvesClauses result symbols.now (view_items items.now) }
    ensures listed { IfOk result (λ taken. taken.0 ≡ listed_in (view_items items.now)) }
{
    let mut listed = Listed::new(alloc);
    let mut clauses = Vec::new(alloc);
    for item in items {
        resolve_clause(alloc, symbols, &mut listed, &mut clauses, &item.clause)?;
    }
    Ok((listed, clauses))
}

/// What the clauses of a directive say of variables, and the clauses, resolved where it stands.
///
/// Refusals: S14 at the word of a worksharing construct or a barrier that may not stand there (OpenMP
/// API 5.2, section 17.1); S7, S9 and S13 at a listed name; those of a clause's expression; S0 out of
/// memory. Nothing is declared.
pub fn resolve_directive(
    alloc: Global,
    symbols: &Symbols,
    flow: Flow,
    directive: &Directive<Expression>,
) -> SourceResult<(Listed, Vec<ResolvedClause>)>
    ensures found { ResolvesDirective result symbols.now flow (view_directive directive.now) }
    ensures listed { IfOk result (λ taken. taken.0 ≡ listed_by (view_directive directive.now)) }
{
    check_nesting(flow, &directive.name)?;
    resolve_clauses(alloc, symbols, directive.clauses.as_slice())
}

// A variable that a `flush` names: S7, S9, S13.
fn resolve_flushed(alloc: Global, symbols: &Symbols, name: &Name) -> SourceResult<Variable>
    ensures checked { ChecksExactly result (flushed_breaches symbols.now name.now) }
    ensures resolved { Finds (λ found. found) result (variable_named symbols.now name.now) }
{
    resolve_listed(symbols, DataSharing::Shared, &Listed::new(alloc), name)
}

// The variables of a list.
fn resolve_names(
    alloc: Global,
    symbols: &Symbols,
    first: &Name,
    rest: &[FurtherName],
) -> SourceResult<Seq<Variable>>
    ensures { ResolvesFlushed result symbols.now (names_in first.now rest.now) }
{
    let mut variables = Vec::new(alloc);
    for name in Separated::new(first, rest) {
        variables.push(resolve_flushed(alloc, symbols, name)?)?;
    }
    Ok(Seq::of(variables))
}

/// The variables that a `flush` lists (OpenMP API 5.2, section 15.8.5), none where it has no list.
///
/// Refusals: S7, S9 and S13 at a listed name; S0 out of memory.
pub fn resolve_flush(
    alloc: Global,
    symbols: &Symbols,
    list: &Option<NameList>,
) -> SourceResult<Seq<Variable>>
    ensures { ResolvesFlush result symbols.now list.now }
{
    match list {
        None => Ok(Seq::of(Vec::new(alloc))),
        Some(list) => resolve_names(alloc, symbols, &list.first, list.rest.as_slice()),
    }
}
