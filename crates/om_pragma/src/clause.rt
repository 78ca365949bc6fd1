//! Clauses of directives (OpenMP API 5.2, chapter 3), with the names and constants in them.

ghost use Rattle.std.specs.Prelude.{◌≡◌, option_copied};
ghost use Rattle.om_pragma.specs.Expressions.{clause_expression};
ghost use Rattle.om_pragma.specs.Spelling.{value_kind, data_kind, plain_kind, kind_of};

use om_lexer::Span;
use om_seq::Seq;

/// Which clause, whatever stands in its parentheses.
#[derive(Clone, Copy, PartialEq, Eq)]
pub enum ClauseKind {
    NumThreads,
    Filter,
    Default,
    Shared,
    Private,
    Firstprivate,
    Reduction,
    Schedule,
    Nowait,
    Update,
    Read,
    Write,
    SeqCst,
    Relaxed,
}

/// A clause with an expression.
#[derive(Clone, Copy)]
pub enum ValueClause {
    NumThreads,
    Filter,
}

/// A clause that says how the variables of its list are shared.
#[derive(Clone, Copy)]
pub enum DataSharing {
    Shared,
    Private,
    Firstprivate,
}

/// A clause of one word.
#[derive(Clone, Copy)]
pub enum PlainClause {
    Nowait,
    Update,
    Read,
    Write,
    SeqCst,
    Relaxed,
}

/// What `default` says of variables that no clause lists.
#[derive(Clone, Copy)]
pub enum Sharing {
    Shared,
    None,
}

/// How a reduction combines.
#[derive(Clone, Copy, PartialEq, Eq)]
pub enum ReductionOperator {
    /// `+`
    Add,
    /// `*`
    Multiply,
    /// `max`
    Max,
    /// `min`
    Min,
}

/// How iterations are dealt out.
#[derive(Clone, Copy)]
pub enum ScheduleKind {
    Static,
    Dynamic,
}

/// An expression in parentheses.
#[derive(Drop)]
pub struct Value<E> {
    pub open_paren: Span,
    pub expression: E,
    pub close_paren: Span,
}

/// `(shared)` or `(none)`.
#[derive(Clone, Copy)]
pub struct DefaultArgument {
    pub open_paren: Span,
    pub sharing: Sharing,
    /// The span of `shared` or `none`.
    pub word: Span,
    pub close_paren: Span,
}

/// `(operator: names)`.
#[derive(Drop)]
pub struct Reduction {
    pub open_paren: Span,
    pub operator: ReductionOperator,
    /// The span of the operator.
    pub sign: Span,
    pub colon: Span,
    pub first: Name,
    pub rest: Seq<FurtherName>,
    pub close_paren: Span,
}

/// `(kind)` or `(kind, chunk)`.
#[derive(Clone, Copy)]
pub struct Schedule {
    pub open_paren: Span,
    pub kind: ScheduleKind,
    /// The span of the kind.
    pub word: Span,
    /// The chunk, which is at least 1, behind the span of its comma.
    pub chunk: Option<(Span, Number)>,
    pub close_paren: Span,
}

/// A clause, with the span of its word.
#[derive(Drop)]
pub enum Clause<E> {
    Value(ValueClause, Span, Value<E>),
    Default(Span, DefaultArgument),
    Data(DataSharing, Span, NameList),
    Reduction(Span, Reduction),
    Schedule(Span, Schedule),
    Plain(PlainClause, Span),
}

/// A clause in its row.
#[derive(Drop)]
pub struct ClauseItem<E> {
    /// The comma between it and the clause before it, where one stands.
    pub comma: Option<Span>,
    pub clause: Clause<E>,
}

impl ValueClause {
    /// The clause.
    pub fn kind(self) -> ClauseKind
        ensures { result ≡ value_kind self }
    {
        match self {
            ValueClause::NumThreads => ClauseKind::NumThreads,
            ValueClause::Filter => ClauseKind::Filter,
        }
    }
}

impl DataSharing {
    /// The clause.
    pub fn kind(self) -> ClauseKind
        ensures { result ≡ data_kind self }
    {
        match self {
            DataSharing::Shared => ClauseKind::Shared,
            DataSharing::Private => ClauseKind::Private,
            DataSharing::Firstprivate => ClauseKind::Firstprivate,
        }
    }
}

impl PlainClause {
    /// The clause.
    pub fn kind(self) -> ClauseKind
        ensures { result ≡ plain_kind self }
    {
        match self {
            PlainClause::Nowait => ClauseKind::Nowait,
            PlainClause::Update => ClauseKind::Update,
            PlainClause::Read => ClauseKind::Read,
            PlainClause::Write => ClauseKind::Write,
            PlainClause::SeqCst => ClauseKind::SeqCst,
            PlainClause::Relaxed => ClauseKind::Relaxed,
        }
    }
}

impl<E> Clause<E> {
    /// Which clause it is.
    pub fn kind(&self) -> ClauseKind
        ensures { result ≡ kind_of self.now }
    {
        match self {
            Clause::Value(kind, _, _) => kind.kind(),
            Clause::Default(_, _) => ClauseKind::Default,
            Clause::Data(kind, _, _) => kind.kind(),
            Clause::Reduction(_, _) => ClauseKind::Reduction,
            Clause::Schedule(_, _) => ClauseKind::Schedule,
            Clause::Plain(kind, _) => kind.kind(),
        }
    }

    /// Its expression, if it has one.
    pub fn expression(&self) -> Option<&E>
        ensures { option_copied result ≡ clause_expression self.now }
    {
        let Clause::Value(_, _, value) = self else {
            return None;
        };
        Some(&value.expression)
    }
}

/// A name where it stands.
#[derive(Drop)]
pub struct Name {
    /// Its letters, digits and `_`.
    pub text: Seq<u8>,
    pub span: Span,
}

/// A constant where it stands.
#[derive(Clone, Copy)]
pub struct Number {
    /// At most 2147483647.
    pub value: u32,
    pub span: Span,
}

/// A name of a list behind the first, and before it the span of its comma.
pub type FurtherName = (Span, Name);

/// One or more names in parentheses, with commas between them.
#[derive(Drop)]
pub struct NameList {
    pub open_paren: Span,
    pub first: Name,
    pub rest: Seq<FurtherName>,
    pub close_paren: Span,
}
