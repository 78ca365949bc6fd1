//! A `parallel` or a `task`, and its firstprivate copies.

ghost use Rattle.std.specs.Prelude.{◌≡◌, ◌++◌, ◌∷◌, [], OnOk};
ghost use Rattle.std.specs.List.{flat_map};
ghost use Rattle.om_scope_tree.specs.ResolvedView as view;
ghost use Rattle.om_lower_rules.specs.Slots.{capture_first, clause_first};
ghost use Rattle.om_lower_rules.specs.Copies.{AddsCopies, GivesCopies, clauses_first, first_copies_in, first_copies_of, first_copy_in};

use crate::variables::Variables;
use om_lexer::Span;
use om_scope_tree::{
    Capture, CopyKind, RegionKind, ResolvedClause, ResolvedStatement, Taking, Variable,
};
use om_seq::AllocResult;
use std::alloc::Global;

/// A `parallel` or a `task`, by its parts.
#[derive(Clone, Copy)]
pub struct Region<'a> {
    pub at: Span,
    pub kind: RegionKind,
    pub clauses: &'a [ResolvedClause],
    /// What it takes from outside.
    pub captures: &'a [Capture],
    pub statement: &'a ResolvedStatement,
}

/// A firstprivate copy: its variable, and what it begins with.
#[derive(Clone, Copy)]
pub struct FirstCopy {
    pub variable: u32,
    pub original: Variable,
}

/// The firstprivate copies of a `parallel` or a `task`, by their slots in its body, which has these variables.
pub fn given_copies(
    alloc: Global,
    clauses: &[ResolvedClause],
    captures: &[Capture],
    variables: &Variables,
) -> AllocResult<Vec<FirstCopy>>
    ensures { GivesCopies result variables.now (first_copies_in clauses.now captures.now) }
{
    let mut copies = Vec::new(alloc);
    add_clauses(&mut copies, clauses)?;
    add_captures(&mut copies, captures)?;
    by_slots(alloc, variables.as_slice(), copies.as_slice())
}

// Adds the copies of clauses.
fn add_clauses(copies: &mut Vec<FirstCopy>, clauses: &[ResolvedClause]) -> AllocResult<()>
    ensures { AddsCopies result (clauses_first clauses.now) copies.old copies.new }
{
    for clause in clauses {
        add_clause(copies, clause)?;
    }
    Ok(())
}

// Adds the copy of a clause, where that begins with its original's value.
fn add_clause(copies: &mut Vec<FirstCopy>, clause: &ResolvedClause) -> AllocResult<()>
    ensures { AddsCopies result (clause_first (view.clause clause.now)) copies.old copies.new }
{
    let ResolvedClause::Copied {
        kind: CopyKind::Firstprivate,
        original,
        copy,
    } = clause
    else {
        return Ok(());
    };
    let first = FirstCopy {
        variable: copy.at,
        original: *original,
    };
    add(copies, first)
}

// Adds a copy.
fn add(copies: &mut Vec<FirstCopy>, copy: FirstCopy) -> AllocResult<()>
    ensures { OnOk result (copies.new.items ≡ copies.old.items ++ copy ∷ []) }
{
    copies.push(copy)?;
    Ok(())
}

// Adds the copies that a region takes.
fn add_captures(copies: &mut Vec<FirstCopy>, captures: &[Capture]) -> AllocResult<()>
    ensures { AddsCopies result (flat_map capture_first captures.now) copies.old copies.new }
{
    for capture in captures {
        add_capture(copies, *capture)?;
    }
    Ok(())
}

// Adds the copy that a region takes, unless it shares.
fn add_capture(copies: &mut Vec<FirstCopy>, capture: Capture) -> AllocResult<()>
    ensures { AddsCopies result (capture_first capture) copies.old copies.new }
{
    let Taking::Firstprivate = capture.taking else {
        return Ok(());
    };
    let first = FirstCopy {
        variable: capture.variable,
        original: Variable::Local(capture.variable),
    };
    add(copies, first)
}

// The copies by the slots of their variables.
fn by_slots(alloc: Global, variables: &[u32], copies: &[FirstCopy]) -> AllocResult<Vec<FirstCopy>>
    ensures { GivesCopies result variables.now (first_copies_of copies.now) }
{
    let mut given = Vec::new(alloc);
    for variable in variables {
        add_first(&mut given, copies, *variable)?;
    }
    Ok(given)
}

// Adds the copy whose variable this is, if there is one.
fn add_first(given: &mut Vec<FirstCopy>, copies: &[FirstCopy], variable: u32) -> AllocResult<()>
    ensures { AddsCopies result (first_copy_in copies.now variable) given.old given.new }
{
    for copy in copies {
        if copy.variable == variable {
            return add(given, *copy);
        }
    }
    Ok(())
}
