//! What clauses make of their copies.

ghost use Rattle.std.specs.Prelude.{◌≡◌, OnOk, map, option_map};
ghost use Rattle.om_lower_emit.specs.Words.{Appends, AppendsBy, AppendsClause, AppendsClauses, BeginsCopy};
ghost use Rattle.om_lower_emit.specs.Words.{BeginsEach, BeginsReduction, BeginsReductions, ScopesClause, ScopesClauses};
ghost use Rattle.om_lower_emit.specs.Words.{clause_scope, clause_start, combine_clause, identity_start};
ghost use Rattle.om_lower_emit.specs.Words.{original_start, reductions, starts, task_scope};
ghost use Rattle.om_lower_emit.specs.Words.{team_from, team_scope, value_in};
ghost use Rattle.om_scope_tree.specs.ResolvedView as view;

use crate::draft::Draft;
use crate::operator::{identity_of, reduction_of};
use crate::single::{load, store};
use crate::spot::Here;
use crate::writing::{ScopeStack, Writing};
use om_code::{Instr, Serial, Sharing};
use om_pragma::ReductionOperator;
use om_scope_tree::{CopyKind, LocalVariable, ResolvedClause, ResolvedExpression, Variable};
use om_seq::AllocResult;

/// The value of `num_threads` or `filter`, where there is one.
pub fn clause_value(clauses: &[ResolvedClause]) -> Option<&ResolvedExpression>
    ensures { option_map (λ value. view.expression value.now) result ≡ value_in clauses.now }
{
    for clause in clauses {
        if let ResolvedClause::Value { value, .. } = clause {
            return Some(value);
        }
    }
    None
}

// Gives the copy of a reduction the value that it begins with.
fn set_identity(
    draft: &mut Draft,
    here: &Here<'_>,
    operator: ReductionOperator,
    copy: &LocalVariable,
) -> AllocResult<()>
    ensures { AppendsBy result here.now identity_start operator copy.now draft.old draft.new }
{
    let identity = identity_of(operator);
    draft.put(here.at.line, Instr::Serial(Serial::Constant(identity)))?;
    store(draft, here, Variable::Local(copy.at), false)?;
    Ok(())
}

// Gives a copy the value of its original.
fn set_original(
    draft: &mut Draft,
    here: &Here<'_>,
    original: Variable,
    copy: &LocalVariable,
) -> AllocResult<()>
    ensures { AppendsBy result here.now original_start original copy.now draft.old draft.new }
{
    load(draft, here, original)?;
    store(draft, here, Variable::Local(copy.at), false)?;
    Ok(())
}

// Writes what the copy of a clause of a worksharing construct begins with (OpenMP API 5.2, sections 5.4.3,
// 5.4.4 and 5.5.3).
fn begin_copy(draft: &mut Draft, here: &Here<'_>, clause: &ResolvedClause) -> AllocResult<()>
    ensures { Appends result here.now clause_start (view.clause clause.now) draft.old draft.new }
{
    let ResolvedClause::Copied {
        kind,
        original,
        copy,
    } = clause
    else {
        return Ok(());
    };
    match kind {
        CopyKind::Private => {
            draft.put(
                here.at.line,
                Instr::Serial(Serial::Clear(here.tables.slot(copy))),
            )?;
            Ok(())
        }
        CopyKind::Firstprivate => {
            set_original(draft, here, *original, copy)?;
            Ok(())
        }
        CopyKind::Reduction(operator) => {
            set_identity(draft, here, *operator, copy)?;
            Ok(())
        }
    }
}

// Begins the scope of the copy that a clause makes, if it makes one, at this place.
fn begin_scope(scopes: &mut ScopeStack, from: usize, clause: &ResolvedClause) -> AllocResult<()>
    ensures { OnOk result
        (BeginsCopy from (view.clause clause.now) scopes.old scopes.new) }
{
    let ResolvedClause::Copied { copy, .. } = clause else {
        return Ok(());
    };
    scopes.begin(from, None, copy)?;
    Ok(())
}

// Writes what the copy of a clause of a worksharing construct begins with, from which on it is in
// scope.
fn clause_start(writing: &mut Writing, here: &Here<'_>, clause: &ResolvedClause) -> AllocResult<()>
    ensures code { AppendsClause result here.now clause_start clause.now writing.old writing.new }
    ensures scopes { ScopesClause result here.now clause_scope clause.now writing.old writing.new }
{
    let from = writing.draft.place();
    begin_scope(&mut writing.scopes, from, clause)?;
    begin_copy(&mut writing.draft, here, clause)?;
    Ok(())
}

/// Writes what the copies of a worksharing construct begin with, in clause order.
pub fn starts(writing: &mut Writing, here: &Here<'_>, clauses: &[ResolvedClause]) -> AllocResult<()>
    ensures code { AppendsClauses result here.now starts clauses.now writing.old writing.new }
    ensures scopes { ScopesClauses result here.now clause_scope clauses.now writing.old writing.new }
{
    for clause in clauses {
        clause_start(writing, here, clause)?;
    }
    Ok(())
}

// Writes what the copy of a clause of a `parallel` begins with, if it is combined. FORK gives the
// firstprivate ones their values, and the others are new with their frame.
fn begin_reduction(draft: &mut Draft, here: &Here<'_>, clause: &ResolvedClause) -> AllocResult<()>
    ensures { BeginsReduction result here.now clause.now draft.old draft.new }
{
    let ResolvedClause::Copied { kind, copy, .. } = clause else {
        return Ok(());
    };
    let CopyKind::Reduction(operator) = kind else {
        return Ok(());
    };
    set_identity(draft, here, *operator, copy)?;
    Ok(())
}

// Where the scope of a region's copy begins: that of a reduction at its start, which is at this place,
// and that of another one with the body.
fn team_from(place: usize, clause: &ResolvedClause) -> usize
    ensures { result ≡ team_from place (view.clause clause.now) }
{
    let ResolvedClause::Copied { kind, .. } = clause else {
        return 0;
    };
    let CopyKind::Reduction(_) = kind else {
        return 0;
    };
    place
}

// Writes what the copy of a clause of a `parallel` begins with in its body, where it is in scope.
fn clause_reduction_start(
    writing: &mut Writing,
    here: &Here<'_>,
    clause: &ResolvedClause,
) -> AllocResult<()>
    ensures code { BeginsReduction result here.now clause.now writing.old.draft writing.new.draft }
    ensures scopes { ScopesClause result here.now team_scope clause.now writing.old writing.new }
{
    let from = team_from(writing.draft.place(), clause);
    begin_scope(&mut writing.scopes, from, clause)?;
    begin_reduction(&mut writing.draft, here, clause)?;
    Ok(())
}

/// Writes what the copies of a `parallel` begin with in its body, in clause order.
pub fn reduction_starts(
    writing: &mut Writing,
    here: &Here<'_>,
    clauses: &[ResolvedClause],
) -> AllocResult<()>
    ensures code { BeginsReductions result here.now clauses.now writing.old writing.new }
    ensures scopes { ScopesClauses result here.now team_scope clauses.now writing.old writing.new }
{
    for clause in clauses {
        clause_reduction_start(writing, here, clause)?;
    }
    Ok(())
}

/// Begins the scopes of the copies of a `task`, in its body.
pub fn task_copies(scopes: &mut ScopeStack, clauses: &[ResolvedClause]) -> AllocResult<()>
    ensures { BeginsEach result task_scope (map view.clause clauses.now) scopes.old scopes.new }
{
    for clause in clauses {
        begin_scope(scopes, 0, clause)?;
    }
    Ok(())
}

// Combines the copy of a clause with its original, if the clause is a reduction.
fn combine_clause(draft: &mut Draft, here: &Here<'_>, clause: &ResolvedClause) -> AllocResult<()>
    ensures { Appends result here.now combine_clause (view.clause clause.now) draft.old draft.new }
{
    let ResolvedClause::Copied {
        kind,
        original,
        copy,
    } = clause
    else {
        return Ok(());
    };
    let CopyKind::Reduction(operator) = kind else {
        return Ok(());
    };
    let reduction = reduction_of(*operator);
    let place = here.tables.place(*original);
    let copy = here.tables.slot(copy);
    draft.put(
        here.at.line,
        Instr::Sharing(Sharing::Reduce {
            reduction,
            copy,
            place,
        }),
    )?;
    Ok(())
}

/// Combines the copies of reductions with their originals, in clause order (OpenMP API 5.2, section
/// 5.5.8).
pub fn reductions(draft: &mut Draft, here: &Here<'_>, clauses: &[ResolvedClause]) -> AllocResult<()>
    ensures { Appends result here.now reductions (map view.clause clauses.now) draft.old draft.new }
{
    for clause in clauses {
        combine_clause(draft, here, clause)?;
    }
    Ok(())
}
