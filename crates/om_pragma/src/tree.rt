//! A directive, of which kind it is, and what OpenMP says of its kind (OpenMP API 5.2).

ghost use Rattle.std.specs.Prelude.{◌≡◌, option_map, option_copied};
ghost use Rattle.om_pragma.specs.Expressions.{first_expression, take_item};
ghost use Rattle.om_pragma.specs.Kinds.{directive_kind, stands_alone, begins_part, has_parts, is_of_atomic};
ghost use Rattle.om_pragma.specs.Questions.{word_span, has_clause, atomic_kind};

use crate::clause::{ClauseItem, ClauseKind, Name, NameList};
use crate::table::same_clause;
use om_lexer::Span;
use om_seq::Seq;

/// Which directive, with the span of each of its words.
#[derive(Drop)]
pub enum DirectiveName {
    Parallel(Span),
    For(Span),
    Sections(Span),
    Section(Span),
    Single(Span),
    ParallelFor(Span, Span),
    ParallelSections(Span, Span),
    Masked(Span),
    Master(Span),
    /// Perhaps with its name, between the spans of its parentheses.
    Critical(Span, Option<(Span, Name, Span)>),
    Atomic(Span),
    Task(Span),
    Taskgroup(Span),
    Barrier(Span),
    Taskwait(Span),
    Taskyield(Span),
    Flush(Span, Option<NameList>),
}

/// A directive, with the span of each of its tokens. Its expressions are of the type `E`.
#[derive(Drop)]
pub struct Directive<E> {
    /// The span of the `#`.
    pub hash: Span,
    pub pragma: Span,
    pub omp: Span,
    pub name: DirectiveName,
    pub clauses: Seq<ClauseItem<E>>,
    /// The place behind the last token.
    pub end: Span,
}

/// What an `atomic` does with its variable (OpenMP API 5.2, 15.8.4).
#[derive(Clone, Copy, PartialEq, Eq)]
pub enum AtomicKind {
    /// With `update`, or with none of the three.
    Update,
    Read,
    Write,
}

impl DirectiveName {
    /// Which directive it is.
    pub fn kind(&self) -> DirectiveKind
        ensures { result ≡ directive_kind self.now }
    {
        match self {
            DirectiveName::Parallel(_) => DirectiveKind::Parallel,
            DirectiveName::For(_) => DirectiveKind::For,
            DirectiveName::Sections(_) => DirectiveKind::Sections,
            DirectiveName::Section(_) => DirectiveKind::Section,
            DirectiveName::Single(_) => DirectiveKind::Single,
            DirectiveName::ParallelFor(_, _) => DirectiveKind::ParallelFor,
            DirectiveName::ParallelSections(_, _) => DirectiveKind::ParallelSections,
            DirectiveName::Masked(_) => DirectiveKind::Masked,
            DirectiveName::Master(_) => DirectiveKind::Master,
            DirectiveName::Critical(_, _) => DirectiveKind::Critical,
            DirectiveName::Atomic(_) => DirectiveKind::Atomic,
            DirectiveName::Task(_) => DirectiveKind::Task,
            DirectiveName::Taskgroup(_) => DirectiveKind::Taskgroup,
            DirectiveName::Barrier(_) => DirectiveKind::Barrier,
            DirectiveName::Taskwait(_) => DirectiveKind::Taskwait,
            DirectiveName::Taskyield(_) => DirectiveKind::Taskyield,
            DirectiveName::Flush(_, _) => DirectiveKind::Flush,
        }
    }

    /// Where the first word of the directive stands.
    pub fn span(&self) -> Span
        ensures { result ≡ word_span self.now }
    {
        match self {
            DirectiveName::Parallel(span) => *span,
            DirectiveName::For(span) => *span,
            DirectiveName::Sections(span) => *span,
            DirectiveName::Section(span) => *span,
            DirectiveName::Single(span) => *span,
            DirectiveName::ParallelFor(span, _) => *span,
            DirectiveName::ParallelSections(span, _) => *span,
            DirectiveName::Masked(span) => *span,
            DirectiveName::Master(span) => *span,
            DirectiveName::Critical(span, _) => *span,
            DirectiveName::Atomic(span) => *span,
            DirectiveName::Task(span) => *span,
            DirectiveName::Taskgroup(span) => *span,
            DirectiveName::Barrier(span) => *span,
            DirectiveName::Taskwait(span) => *span,
            DirectiveName::Taskyield(span) => *span,
            DirectiveName::Flush(span, _) => *span,
        }
    }
}

impl<E> Directive<E> {
    /// What an `atomic` with these clauses does with its variable.
    pub fn atomic_kind(&self) -> AtomicKind
        ensures { result ≡ atomic_kind self.now }
    {
        if self.has(ClauseKind::Read) {
            AtomicKind::Read
        } else if self.has(ClauseKind::Write) {
            AtomicKind::Write
        } else {
            AtomicKind::Update
        }
    }

    /// Whether a clause of this kind stands there.
    pub fn has(&self, kind: ClauseKind) -> bool
        ensures { result ≡ has_clause kind self.now }
    {
        self.clauses
            .as_slice()
            .iter()
            .any(|item| same_clause(item.clause.kind(), kind))
    }

    /// The expression of the first clause that has one.
    pub fn expression(&self) -> Option<&E>
        ensures { option_copied result ≡ first_expression self.now.clauses }
    {
        first_expression(self.clauses.as_slice())
    }
}

// The expression of the first of these clauses that has one.
fn first_expression<E>(items: &[ClauseItem<E>]) -> Option<&E>
    ensures { option_copied result ≡ first_expression items.now }
{
    let mut rest = items;
    'items: loop {
        let Some((item, behind)) = first_item(rest) else {
            return None;
        };
        if let Some(expression) = item.clause.expression() {
            return Some(expression);
        }
        rest = behind;
    }
}

// The first of these clauses, and those behind it.
fn first_item<E>(items: &[ClauseItem<E>]) -> Option<(&ClauseItem<E>, &[ClauseItem<E>])>
    ensures { option_map (λ x. (x.0.now, x.1.now)) result ≡ take_item items.now }
{
    let [first, rest @ ..] = items else {
        return None;
    };
    Some((first, rest))
}

/// Which directive, whatever stands behind its words.
#[derive(Clone, Copy)]
pub enum DirectiveKind {
    Parallel,
    For,
    Sections,
    Section,
    Single,
    ParallelFor,
    ParallelSections,
    Masked,
    Master,
    Critical,
    Atomic,
    Task,
    Taskgroup,
    Barrier,
    Taskwait,
    Taskyield,
    Flush,
}

impl DirectiveKind {
    /// Whether no statement belongs to it: `barrier`, `taskwait`, `taskyield` or `flush`.
    pub fn stands_alone(self) -> bool
        ensures { result ≡ stands_alone self }
    {
        matches!(
            self,
            DirectiveKind::Barrier
                | DirectiveKind::Taskwait
                | DirectiveKind::Taskyield
                | DirectiveKind::Flush
        )
    }

    /// Whether it begins a part of `sections`: `section`.
    pub fn begins_part(self) -> bool
        ensures { result ≡ begins_part self }
    {
        matches!(self, DirectiveKind::Section)
    }

    /// Whether its block has parts: `sections` or `parallel sections`.
    pub fn has_parts(self) -> bool
        ensures { result ≡ has_parts self }
    {
        matches!(
            self,
            DirectiveKind::Sections | DirectiveKind::ParallelSections
        )
    }

    /// Whether it is `atomic`, whose statement must have one of its forms.
    pub fn is_atomic(self) -> bool
        ensures { result ≡ is_of_atomic self }
    {
        matches!(self, DirectiveKind::Atomic)
    }
}
