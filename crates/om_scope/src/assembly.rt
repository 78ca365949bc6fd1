//! Constructs, put together of their clauses and their statement.

ghost use Rattle.std.specs.Prelude.{◌≡◌, [], IfOk, IsSome, map};
ghost use Rattle.om_parser_tree.specs.View.{view_directive, view_expression};
ghost use Rattle.om_pragma.specs.Expressions.{map_clause, map_item};
ghost use Rattle.om_pragma.specs.Questions.{atomic_kind};
ghost use Rattle.om_scope_rules.specs.Checks.{Checks};
ghost use Rattle.om_scope.specs.Arounds.{IsLoop, IsLoopConstruct, IsParallel, IsSections, IsSectionsConstruct, IsTree};
ghost use Rattle.om_scope.specs.Arounds.{Makes, MakesAtomic, MakesConstruct, MakesParallel, MakesTask};
ghost use Rattle.om_scope.specs.Arounds.{construct_round, critical_around, with_around};
ghost use Rattle.om_scope_rules.specs.StatementResolution.{clause_schedule, critical_name, has_default, has_nowait, schedule_in, schedule_of, with_update};
ghost use Rattle.om_scope_rules.specs.Updates.{update_of};
ghost use Rattle.om_scope.specs.Resolving.{view_body, view_clauses};

use om_lexer::{SourceResult, Span};
use om_parser_tree::assembly::boxed;
use om_parser_tree::{Expression, Name};
use om_pragma::{
    AtomicKind, Clause, ClauseItem, ClauseKind, Directive, DirectiveName, Schedule, ScheduleKind,
};
use om_scope_parts::copy_of;
use om_scope_rules::update_of;
use om_scope_symbols::{is_parallel, traits_of};
use om_scope_tree::{
    AtomicAccess, Capture, ConstructKind, RegionKind, ResolvedClause, ResolvedLoop, ResolvedPart,
    ResolvedSchedule, ResolvedStatement, Side, TaskSharing, captures_of_parallel, captures_of_task,
};
use om_seq::{AllocResult, Seq};
use std::alloc::Global;

// Whether a directive is `nowait`.
fn has_nowait(directive: &Directive<Expression>) -> bool
    ensures { result ≡ has_nowait (view_directive directive.now) }
{
    directive.has(ClauseKind::Nowait)
}

// Whether a directive has a `default`.
fn has_default(directive: &Directive<Expression>) -> bool
    ensures { result ≡ has_default (view_directive directive.now) }
{
    directive.has(ClauseKind::Default)
}

// What an `atomic` does with its variable.
fn atomic_kind(directive: &Directive<Expression>) -> AtomicKind
    ensures { result ≡ atomic_kind (view_directive directive.now) }
{
    directive.atomic_kind()
}

// A `parallel` round a statement.
fn parallel_of(
    alloc: Global,
    directive: &Directive<Expression>,
    clauses: Vec<ResolvedClause>,
    inner: ResolvedStatement,
) -> SourceResult<ResolvedStatement>
    ensures checked { Checks result [] }
    ensures made { IfOk result (IsParallel directive.now clauses inner) }
{
    let at = directive.hash;
    let body = boxed(alloc, inner)?;
    let captures = captures_of_parallel(alloc, at.start, clauses.as_slice(), &body)?;
    Ok(ResolvedStatement::Region {
        at,
        kind: RegionKind::Parallel,
        clauses,
        captures,
        body,
    })
}

// The name of a `critical`, if it has one.
fn critical_name(alloc: Global, name: &Option<(Span, Name, Span)>) -> AllocResult<Option<Seq<u8>>>
    ensures { IfOk result (λ found. found ≡ critical_name name.now) }
{
    let Some((_, name, _)) = name else {
        return Ok(None);
    };
    Ok(Some(copy_of(alloc, name)?))
}

/// What a construct puts round its statement, beside its clauses.
#[derive(Drop)]
pub(crate) enum Around {
    /// A `parallel` or a `task`, with what it takes from outside.
    Region(RegionKind, Seq<Capture>),
    Construct(ConstructKind),
    /// An `atomic` that updates; its statement has the target on this side.
    Update(Side),
}

// What a `task` in the `parallel` that begins there puts round a statement.
fn around_task(
    alloc: Global,
    parallel: Option<u32>,
    directive: &Directive<Expression>,
    clauses: &[ResolvedClause],
    body: &ResolvedStatement,
) -> AllocResult<Around>
    ensures { IfOk result (MakesTask parallel directive.now clauses.now body.now) }
{
    let sharing = TaskSharing {
        has_default: has_default(directive),
        parallel,
    };
    let captures = captures_of_task(alloc, sharing, directive.hash.start, clauses, body)?;
    Ok(Around::Region(RegionKind::Task, captures))
}

// What a `parallel` puts round a statement.
fn around_parallel(
    alloc: Global,
    directive: &Directive<Expression>,
    clauses: &[ResolvedClause],
    body: &ResolvedStatement,
) -> AllocResult<Around>
    ensures { IfOk result (MakesParallel directive.now clauses.now body.now) }
{
    let captures = captures_of_parallel(alloc, directive.hash.start, clauses, body)?;
    Ok(Around::Region(RegionKind::Parallel, captures))
}

// What a `critical` of this name puts round a statement.
fn around_critical(alloc: Global, name: &Option<(Span, Name, Span)>) -> AllocResult<Around>
    ensures { IfOk result (λ around. around ≡ critical_around name.now) }
{
    let name = critical_name(alloc, name)?;
    Ok(Around::Construct(ConstructKind::Critical { name }))
}

// What an `atomic` puts round its statement, which has the target on that side.
fn around_atomic(kind: AtomicKind, side: Side) -> Around
    ensures { MakesAtomic kind side result }
{
    match kind {
        AtomicKind::Update => Around::Update(side),
        AtomicKind::Read => Around::Construct(ConstructKind::Atomic {
            access: AtomicAccess::Read,
        }),
        AtomicKind::Write => Around::Construct(ConstructKind::Atomic {
            access: AtomicAccess::Write,
        }),
    }
}

/// What a construct depends on besides its clauses and its statement.
#[derive(Clone, Copy)]
pub(crate) struct Setting {
    /// The byte of the source where the innermost `parallel` round it begins.
    pub(crate) parallel: Option<u32>,
    /// On which side an atomic update has its target.
    pub(crate) side: Side,
}

// What a construct puts round its statement.
fn around_of(
    alloc: Global,
    setting: Setting,
    directive: &Directive<Expression>,
    clauses: &[ResolvedClause],
    body: &ResolvedStatement,
) -> AllocResult<Around>
    requires is_there { IsSome (construct_round setting directive.now clauses.now body.now) }
    ensures { IfOk result (MakesConstruct setting directive.now clauses.now body.now) }
{
    match &directive.name {
        DirectiveName::Parallel(_) => around_parallel(alloc, directive, clauses, body),
        DirectiveName::Task(_) => around_task(alloc, setting.parallel, directive, clauses, body),
        DirectiveName::Single(_) => {
            let kind = ConstructKind::Single {
                nowait: has_nowait(directive),
            };
            Ok(Around::Construct(kind))
        }
        DirectiveName::Masked(_) => Ok(Around::Construct(ConstructKind::Masked)),
        DirectiveName::Master(_) => Ok(Around::Construct(ConstructKind::Masked)),
        DirectiveName::Critical(_, name) => around_critical(alloc, name),
        DirectiveName::Taskgroup(_) => Ok(Around::Construct(ConstructKind::Taskgroup)),
        DirectiveName::Atomic(_) => Ok(around_atomic(atomic_kind(directive), setting.side)),
        _ => unreachable!(),
    }
}

// A statement with what is put round it.
fn with_around(
    alloc: Global,
    around: Around,
    at: Span,
    clauses: Vec<ResolvedClause>,
    body: Box<ResolvedStatement>,
) -> AllocResult<ResolvedStatement>
    requires is_there { IsSome (with_around around at (view_clauses clauses) (view_body body)) }
    ensures { IfOk result (IsTree (with_around around at (view_clauses clauses) (view_body body))) }
{
    match around {
        Around::Region(kind, captures) => Ok(ResolvedStatement::Region {
            at,
            kind,
            clauses,
            captures,
            body,
        }),
        Around::Construct(kind) => Ok(ResolvedStatement::Construct {
            at,
            kind,
            clauses,
            body,
        }),
        Around::Update(side) => with_update(alloc, at, side, body),
    }
}

// An `atomic` round the update that a statement is, whose target stands on that side.
fn with_update(
    alloc: Global,
    at: Span,
    side: Side,
    body: Box<ResolvedStatement>,
) -> AllocResult<ResolvedStatement>
    requires is_update { IsSome (update_of side (view_body body)) }
    ensures { IfOk result (IsTree (with_update at (update_of side (view_body body)))) }
{
    let mut body = body;
    let Some(update) = update_of(side, &mut body) else {
        unreachable!()
    };
    let update = boxed(alloc, update)?;
    Ok(ResolvedStatement::Update { at, update })
}

/// A construct round a statement, which is one that it may have.
pub(crate) fn construct_of(
    alloc: Global,
    setting: Setting,
    directive: &Directive<Expression>,
    clauses: Vec<ResolvedClause>,
    body: Box<ResolvedStatement>,
) -> SourceResult<ResolvedStatement>
    requires is_there { IsSome (construct_round setting directive.now clauses.items body.value) }
    ensures { Makes result (construct_round setting directive.now clauses.items body.value) }
{
    let around = around_of(alloc, setting, directive, clauses.as_slice(), &body)?;
    Ok(with_around(alloc, around, directive.hash, clauses, body)?)
}

/// A construct that is for a loop, and what the loop repeats.
pub(crate) fn loop_construct_of(
    alloc: Global,
    directive: &Directive<Expression>,
    clauses: Vec<ResolvedClause>,
    repeated: Box<ResolvedLoop>,
    body: Box<ResolvedStatement>,
) -> SourceResult<ResolvedStatement>
    ensures checked { Checks result [] }
    ensures made { IfOk result (IsLoopConstruct directive.now clauses repeated body) }
{
    let at = directive.hash;
    if is_parallel(traits_of(&directive.name).region) {
        let inner = shared_loop(at, Vec::new(alloc), true, repeated, body);
        return parallel_of(alloc, directive, clauses, inner);
    }
    let nowait = has_nowait(directive);
    Ok(shared_loop(at, clauses, nowait, repeated, body))
}

// A loop whose iterations threads share, and whether they do not wait behind it.
fn shared_loop(
    at: Span,
    clauses: Vec<ResolvedClause>,
    nowait: bool,
    repeated: Box<ResolvedLoop>,
    body: Box<ResolvedStatement>,
) -> ResolvedStatement
    ensures { IsLoop at clauses nowait repeated body result }
{
    ResolvedStatement::Loop {
        at,
        clauses,
        nowait,
        repeated,
        body,
    }
}

/// A construct of parts.
pub(crate) fn sections_construct_of(
    alloc: Global,
    directive: &Directive<Expression>,
    clauses: Vec<ResolvedClause>,
    parts: Vec<ResolvedPart>,
) -> SourceResult<ResolvedStatement>
    ensures checked { Checks result [] }
    ensures made { IfOk result (IsSectionsConstruct directive.now clauses parts) }
{
    let at = directive.hash;
    if is_parallel(traits_of(&directive.name).region) {
        let inner = shared_parts(at, Vec::new(alloc), true, parts);
        return parallel_of(alloc, directive, clauses, inner);
    }
    let nowait = has_nowait(directive);
    Ok(shared_parts(at, clauses, nowait, parts))
}

// Parts that threads share, and whether they do not wait behind them.
fn shared_parts(
    at: Span,
    clauses: Vec<ResolvedClause>,
    nowait: bool,
    parts: Vec<ResolvedPart>,
) -> ResolvedStatement
    ensures { IsSections at clauses nowait parts result }
{
    ResolvedStatement::Sections {
        at,
        clauses,
        nowait,
        parts,
    }
}

// What a clause `schedule` asks for.
fn schedule_in(schedule: &Schedule) -> ResolvedSchedule
    ensures { result ≡ schedule_in schedule.now }
{
    ResolvedSchedule {
        kind: schedule.kind,
        chunk: schedule.chunk.map(|chunk| chunk.1.value),
    }
}

// What a clause asks for, where it is a `schedule`.
fn clause_schedule(otherwise: ResolvedSchedule, clause: &Clause<Expression>) -> ResolvedSchedule
    ensures { result ≡ clause_schedule otherwise (map_clause view_expression clause.now) }
{
    match clause {
        Clause::Schedule(_, schedule) => schedule_in(schedule),
        _ => otherwise,
    }
}

/// The schedule that clauses ask for: static where none does.
pub(crate) fn schedule_of(items: &[ClauseItem<Expression>]) -> ResolvedSchedule
    ensures { result ≡ schedule_of (map (map_item view_expression) items.now) }
{
    match items {
        [] => ResolvedSchedule {
            kind: ScheduleKind::Static,
            chunk: None,
        },
        [item, rest @ ..] => clause_schedule(schedule_of(rest), &item.clause),
    }
}
