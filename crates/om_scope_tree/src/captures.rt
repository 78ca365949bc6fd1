//! What a region takes from outside, and how (OpenMP API 5.2, section 5.1).

ghost use Rattle.std.specs.Prelude.{◌≡◌};
ghost use Rattle.om_scope_tree.specs.Captures.{captured, is_before, taken_by_parallel};
ghost use Rattle.om_scope_tree.specs.Taken.{Produces, found_from, listed_from, parallel_captures, taken_from, taken_under, task_captures};

use crate::found::Found;
use crate::resolved::{Capture, CopyKind, ResolvedClause, ResolvedStatement, Taking, Variable};
use crate::uses::{take_all_listed, take_statement};
use om_seq::{AllocResult, Seq};
use std::alloc::Global;

// The variables from outside that the clauses of a region list that begins there.
fn listed_variables(alloc: Global, start: u32, clauses: &[ResolvedClause]) -> AllocResult<Found>
    ensures { Produces result (found_from start (listed_from start clauses.now)) }
{
    let mut found = Found::new(alloc, start);
    take_all_listed(&mut found, clauses)?;
    Ok(found)
}

// The variables from outside that a region uses that begins there.
fn taken_variables(
    alloc: Global,
    start: u32,
    clauses: &[ResolvedClause],
    body: &ResolvedStatement,
) -> AllocResult<Found>
    ensures { Produces result (found_from start (taken_from start clauses.now body.now)) }
{
    let mut found = listed_variables(alloc, start, clauses)?;
    take_statement(&mut found, body)?;
    Ok(found)
}

// Variables as a `parallel` takes them from outside.
fn captured_by_parallel(alloc: Global, variables: &[u32]) -> AllocResult<Seq<Capture>>
    ensures { Produces result (captured taken_by_parallel variables.now) }
{
    let mut captures = Vec::new(alloc);
    for variable in variables {
        captures.push(Capture {
            variable: *variable,
            taking: Taking::Shared,
        })?;
    }
    Ok(Seq::of(captures))
}

/// What a `parallel` that begins there takes from outside.
pub fn captures_of_parallel(
    alloc: Global,
    start: u32,
    clauses: &[ResolvedClause],
    body: &ResolvedStatement,
) -> AllocResult<Seq<Capture>>
    ensures { Produces result (parallel_captures start clauses.now body.now) }
{
    let found = taken_variables(alloc, start, clauses, body)?;
    captured_by_parallel(alloc, found.variables())
}

/// What decides how a `task` takes a variable that it doesn't copy by a clause (OpenMP API 5.2, 5.1.1).
#[derive(Clone, Copy)]
pub struct TaskSharing {
    /// Whether it has a `default` clause: what it doesn't copy is then shared.
    pub has_default: bool,
    /// Where the innermost `parallel` round it begins; `None` where no `parallel` is round it.
    pub parallel: Option<u32>,
}

// Whether a variable is declared before the innermost `parallel` begins.
fn is_before(parallel: Option<u32>, variable: u32) -> bool
    ensures { result ≡ is_before parallel variable }
{
    let Some(parallel) = parallel else {
        return false;
    };
    variable < parallel
}

// How a `task` takes a variable from outside.
fn taken_by_task(sharing: TaskSharing, listed: &Found, variable: u32) -> Taking
    ensures { result ≡ taken_under sharing listed.now.variables variable }
{
    if sharing.has_default || listed.contains(variable) || is_before(sharing.parallel, variable) {
        Taking::Shared
    } else {
        Taking::Firstprivate
    }
}

// Variables as a `task` takes them from outside.
fn captured_by_task(
    alloc: Global,
    sharing: TaskSharing,
    listed: &Found,
    variables: &[u32],
) -> AllocResult<Seq<Capture>>
    ensures { Produces result (captured (taken_under sharing listed.now.variables) variables.now) }
{
    let mut captures = Vec::new(alloc);
    for variable in variables {
        captures.push(Capture {
            variable: *variable,
            taking: taken_by_task(sharing, listed, *variable),
        })?;
    }
    Ok(Seq::of(captures))
}

/// What a `task` that begins there takes from outside.
pub fn captures_of_task(
    alloc: Global,
    sharing: TaskSharing,
    start: u32,
    clauses: &[ResolvedClause],
    body: &ResolvedStatement,
) -> AllocResult<Seq<Capture>>
    ensures { Produces result (task_captures sharing start clauses.now body.now) }
{
    let listed = listed_variables(alloc, start, clauses)?;
    let found = taken_variables(alloc, start, clauses, body)?;
    captured_by_task(alloc, sharing, &listed, found.variables())
}
