//! Which clauses a directive has.

ghost use Rattle.std.specs.Prelude.{◌≡◌};
ghost use Rattle.std.specs.List.{list_any};
ghost use Rattle.om_pragma.specs.Kinds.{directive_kind};
ghost use Rattle.om_pragma.specs.Spelling.{kind_of};
ghost use Rattle.om_pragma.specs.Table.{clauses_of, may_repeat, group_of, same_clause, excludes, may_stand};
ghost use Rattle.om_pragma.specs.Views.{seen_kinds};

use crate::clause::{ClauseItem, ClauseKind};
use crate::tree::{DirectiveKind, DirectiveName};
use om_lexer::Token;

const NO_CLAUSES: [ClauseKind; 0] = [];

const PARALLEL: [ClauseKind; 6] = [
    ClauseKind::NumThreads,
    ClauseKind::Default,
    ClauseKind::Shared,
    ClauseKind::Private,
    ClauseKind::Firstprivate,
    ClauseKind::Reduction,
];

const FOR: [ClauseKind; 5] = [
    ClauseKind::Schedule,
    ClauseKind::Private,
    ClauseKind::Firstprivate,
    ClauseKind::Reduction,
    ClauseKind::Nowait,
];

const SECTIONS: [ClauseKind; 4] = [
    ClauseKind::Private,
    ClauseKind::Firstprivate,
    ClauseKind::Reduction,
    ClauseKind::Nowait,
];

const SINGLE: [ClauseKind; 3] = [
    ClauseKind::Private,
    ClauseKind::Firstprivate,
    ClauseKind::Nowait,
];

const PARALLEL_FOR: [ClauseKind; 7] = [
    ClauseKind::NumThreads,
    ClauseKind::Default,
    ClauseKind::Shared,
    ClauseKind::Private,
    ClauseKind::Firstprivate,
    ClauseKind::Reduction,
    ClauseKind::Schedule,
];

const MASKED: [ClauseKind; 1] = [ClauseKind::Filter];

const ATOMIC: [ClauseKind; 5] = [
    ClauseKind::Update,
    ClauseKind::Read,
    ClauseKind::Write,
    ClauseKind::SeqCst,
    ClauseKind::Relaxed,
];

const TASK: [ClauseKind; 4] = [
    ClauseKind::Default,
    ClauseKind::Shared,
    ClauseKind::Private,
    ClauseKind::Firstprivate,
];

// The clauses that a directive can have.
fn clauses_of(kind: DirectiveKind) -> &'static [ClauseKind]
    ensures { result.now ≡ clauses_of kind }
{
    match kind {
        DirectiveKind::Parallel => &PARALLEL,
        DirectiveKind::For => &FOR,
        DirectiveKind::Sections => &SECTIONS,
        DirectiveKind::Single => &SINGLE,
        DirectiveKind::ParallelFor => &PARALLEL_FOR,
        DirectiveKind::ParallelSections => &PARALLEL,
        DirectiveKind::Masked => &MASKED,
        DirectiveKind::Atomic => &ATOMIC,
        DirectiveKind::Task => &TASK,
        _ => &NO_CLAUSES,
    }
}

// Whether a clause can stand more than once.
fn may_repeat(kind: ClauseKind) -> bool
    ensures { result ≡ may_repeat kind }
{
    matches!(
        kind,
        ClauseKind::Shared | ClauseKind::Private | ClauseKind::Firstprivate | ClauseKind::Reduction
    )
}

// The clause that stands for those of which only one can stand.
fn group_of(kind: ClauseKind) -> ClauseKind
    ensures { result ≡ group_of kind }
{
    match kind {
        ClauseKind::Read | ClauseKind::Write => ClauseKind::Update,
        ClauseKind::Relaxed => ClauseKind::SeqCst,
        other => other,
    }
}

/// Whether two clauses are of one kind.
pub fn same_clause(one: ClauseKind, other: ClauseKind) -> bool
    ensures { result ≡ same_clause one other }
{
    one == other
}

// Whether a clause leaves no room for another behind it.
fn excludes(earlier: ClauseKind, later: ClauseKind) -> bool
    ensures { result ≡ excludes earlier later }
{
    !may_repeat(later) && same_clause(group_of(earlier), group_of(later))
}

// Whether a directive has a clause.
fn has_clause(name: &DirectiveName, kind: ClauseKind) -> bool
    ensures { result ≡ list_any (λ k. same_clause k kind) (clauses_of (directive_kind name.now)) }
{
    clauses_of(name.kind()).contains(&kind)
}

// Whether one of these clauses leaves no room for another.
fn is_excluded(before: &[ClauseItem<&[Token]>], kind: ClauseKind) -> bool
    ensures { result ≡ list_any (λ i. excludes (kind_of i.clause) kind) before.now }
{
    before.iter().any(|item| excludes(item.clause.kind(), kind))
}

/// Whether a directive can have a clause behind those before it.
// A clause that can repeat is excluded by none, so a long line of such clauses takes linear time.
pub fn may_stand(name: &DirectiveName, before: &[ClauseItem<&[Token]>], kind: ClauseKind) -> bool
    ensures { result ≡ may_stand name.now (seen_kinds before.now) kind }
{
    has_clause(name, kind) && (may_repeat(kind) || !is_excluded(before, kind))
}
