//! The begins and the ends of worksharing loops and of `sections`. Their comparisons and schedules become
//! those of instructions.

ghost use Rattle.std.specs.Prelude.{◌<◌, ◌≤◌, length, ◌≡◌};
ghost use Rattle.om_scope_tree.specs.ResolvedView as view;
ghost use Rattle.om_lower.specs.Words.{BeginsSharedLoop, BeginsParts, EndsWorksharing, LoopHasCode, ScopesSharedLoop};
ghost use Rattle.om_lower.specs.Words.{ScopesParts, comparison_of, form_with, schedule_in};

use om_code::instruction::{Comparison, LoopForm, Schedule};
use om_code::{Instr, Sharing};
use om_lower_emit::alone::worksharing_end;
use om_lower_emit::clause::{reductions, starts};
use om_lower_emit::draft::{Draft, Jump};
use om_lower_emit::spot::LoopLabels;
use om_lower_emit::writing::Writing;
use om_lower_emit::{Here, value};
use om_lower_rules::Numbers;
use om_parser_tree::BinaryOperator;
use om_pragma::ScheduleKind;
use om_scope_tree::{ResolvedClause, ResolvedLoop, ResolvedPart, ResolvedSchedule};
use om_seq::AllocResult;
use std::alloc::Global;

/// A `sections`, where it stands: the numbers of the next body and of its own list of PICK.
#[derive(Clone, Copy)]
pub(crate) struct SectionsHead<'a> {
    pub(crate) numbers: Numbers,
    pub(crate) clauses: &'a [ResolvedClause],
}

/// Where the parts of a `sections` are written.
#[derive(Clone, Copy)]
pub(crate) struct PartsSpot {
    pub(crate) line: u32,
    /// The numbers of the next body and of the next list of PICK.
    pub(crate) numbers: Numbers,
    /// The label at which the next part is taken.
    pub(crate) again: usize,
    /// The label behind all parts.
    pub(crate) over: usize,
    /// The label of the first part. Those of the others follow it.
    pub(crate) first: usize,
}

/// Writes the begin of a worksharing loop (OpenMP API 5.2, section 11.5): chunks of iterations are
/// taken, and each iteration puts its value into the loop's variable, which is in scope from there on.
/// The bounds stand on the line of the `for`.
pub(crate) fn begin_worksharing(
    writing: &mut Writing,
    here: &Here<'_>,
    clauses: &[ResolvedClause],
    repeated: &ResolvedLoop,
) -> AllocResult<LoopLabels>
    requires { LoopHasCode (view.loop repeated.now) }
    ensures code { BeginsSharedLoop result here.now clauses.now repeated.now writing.old writing.new }
    ensures scopes { ScopesSharedLoop result here.now clauses.now repeated.now writing.old writing.new }
{
    let Some(comparison) = comparison_of(repeated.comparison) else {
        unreachable!();
    };
    let line = here.at.line;
    let chunk = writing.draft.fresh()?;
    let again = writing.draft.fresh()?;
    let over = writing.draft.fresh()?;
    let bounds = Here {
        tables: here.tables,
        at: repeated.at,
    };
    value(&mut writing.draft, &bounds, &repeated.from)?;
    value(&mut writing.draft, &bounds, &repeated.to)?;
    starts(writing, here, clauses)?;
    let from = writing.draft.place();
    writing.scopes.begin(from, None, &repeated.variable)?;
    let draft = &mut writing.draft;
    draft.put(
        line,
        Instr::Sharing(Sharing::Loop(form_with(repeated, comparison))),
    )?;
    draft.define(chunk);
    draft.put_jump(line, Jump::Grab, over)?;
    draft.define(again);
    let slot = here.tables.slot(&repeated.variable);
    draft.put_jump(line, Jump::Iterate { slot }, chunk)?;
    Ok(LoopLabels { again, over })
}

/// Writes what stands behind a worksharing loop or the parts of `sections`: the copies of reductions
/// are combined, and all threads wait for each other, unless it is `nowait`.
pub(crate) fn end_worksharing(
    draft: &mut Draft,
    here: &Here<'_>,
    clauses: &[ResolvedClause],
    nowait: bool,
) -> AllocResult<()>
    ensures { EndsWorksharing result here.now clauses.now nowait draft.old draft.new }
{
    reductions(draft, here, clauses)?;
    worksharing_end(draft, here.at.line, nowait)?;
    Ok(())
}

/// Writes what stands before the parts of a `sections` (OpenMP API 5.2, section 11.3), and makes the
/// labels at which they begin.
pub(crate) fn begin_parts(
    alloc: Global,
    writing: &mut Writing,
    here: &Here<'_>,
    head: &SectionsHead<'_>,
    parts: &[ResolvedPart],
) -> AllocResult<PartsSpot>
    requires few { length parts.now ≤ 256 }
    requires numbered { head.now.numbers.picks < 4294967295 }
    ensures code { BeginsParts result here.now head.now (length parts.now) writing.old writing.new }
    ensures scopes { ScopesParts result here.now head.now writing.old writing.new }
{
    let line = here.at.line;
    let number = head.numbers.picks;
    let count = parts.len() as u32;
    let again = writing.draft.fresh()?;
    let over = writing.draft.fresh()?;
    starts(writing, here, head.clauses)?;
    let draft = &mut writing.draft;
    draft.put(line, Instr::Sharing(Sharing::Sections(count)))?;
    draft.define(again);
    draft.put_jump(line, Jump::Grab, over)?;
    draft.put(line, Instr::Sharing(Sharing::Pick(number)))?;
    let first = draft.fresh_list(alloc, number, count)?;
    let numbers = head.numbers.next_pick();
    Ok(PartsSpot {
        line,
        numbers,
        again,
        over,
        first,
    })
}

/// The comparison of a canonical loop (OpenMP API 5.2, section 4.4.1), whose `!=` is unsupported.
pub(crate) fn comparison_of(operator: BinaryOperator) -> Option<Comparison>
    ensures { result ≡ comparison_of operator }
{
    Some(match operator {
        BinaryOperator::Less => Comparison::Less,
        BinaryOperator::LessEqual => Comparison::LessOrEqual,
        BinaryOperator::Greater => Comparison::Greater,
        BinaryOperator::GreaterEqual => Comparison::GreaterOrEqual,
        _ => return None,
    })
}

// How iterations are shared out. A dynamic chunk has one iteration where no size is given (OpenMP API
// 5.2, section 11.5.3).
fn schedule_in(kind: ScheduleKind, chunk: Option<u32>) -> Schedule
    ensures { result ≡ schedule_in kind chunk }
{
    match kind {
        ScheduleKind::Static => match chunk {
            None => Schedule::Static,
            Some(chunk) => Schedule::StaticChunk(chunk),
        },
        ScheduleKind::Dynamic => match chunk {
            None => Schedule::Dynamic(1),
            Some(chunk) => Schedule::Dynamic(chunk),
        },
    }
}

/// What LOOP opens for a loop that compares so.
pub(crate) fn form_with(repeated: &ResolvedLoop, comparison: Comparison) -> LoopForm
    ensures { result ≡ form_with (view.loop repeated.now) comparison }
{
    let ResolvedSchedule { kind, chunk } = repeated.schedule;
    LoopForm {
        comparison,
        step: repeated.step,
        schedule: schedule_in(kind, chunk),
    }
}
