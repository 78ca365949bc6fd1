//! The code of a body, within the limit on instructions.

ghost use Rattle.std.specs.Prelude.{◌≡◌, ◌≤◌, IfOk, false, length};
ghost use Rattle.om_lower.specs.Words.{BodyHasCode, FitsSite, FunctionBody, HasEnds, HasOwnEnds, HasSiteCode};
ghost use Rattle.om_lower.specs.Words.{HasSiteEnds, StatementHasCode, WritesOwnBody, WritesOwnScopes};
ghost use Rattle.om_lower.specs.Words.{WritesParallelBody, WritesParallelScopes, WritesRegionBody};
ghost use Rattle.om_lower.specs.Words.{WritesRegionScopes, WritesSiteBody, WritesSiteScopes};
ghost use Rattle.om_lower.specs.Words.{WritesTaskBody, WritesTaskScopes, known_in, numbers_of, settled_code};
ghost use Rattle.om_lower.specs.Words.{settled_lists, statement_of};
ghost use Rattle.om_scope_tree.specs.ResolvedView as view;

use crate::functions::INSTRUCTION_LIMIT;
use crate::statement::{inner, statements};
use om_code::instruction::Barrier;
use om_code::raw::Line;
use om_code::{Instr, Task, Team};
use om_lower_emit::Here;
use om_lower_emit::clause::{reduction_starts, reductions, task_copies};
use om_lower_emit::declaration::{begin_parameters, last_instruction};
use om_lower_emit::draft::PickList;
use om_lower_emit::spot::Spot;
use om_lower_emit::writing::Writing;
use om_lower_rules::{BodyTables, Numbers, Region, VariableScope};
use om_lower_tables::{BodyPart, Site};
use om_scope_tree::{RegionKind, ResolvedFunction};
use om_seq::{AllocResult, Seq};
use std::alloc::Global;

/// The code of a body, the lists of the PICKs in it, and the scopes of names, the innermost first.
#[derive(Drop)]
pub(crate) struct Emitted {
    pub(crate) code: Seq<Line>,
    pub(crate) lists: Vec<PickList>,
    pub(crate) scopes: Vec<VariableScope>,
}

/// The code of a body; `None` where it has too many instructions. Its only error is out of memory.
///
/// Places have 32 bits once they stand for labels, so only code within the limit is settled.
pub(crate) fn emitted_in(
    alloc: Global,
    tables: &BodyTables<'_>,
    site: &Site<'_>,
) -> AllocResult<Option<Emitted>>
    requires code { HasSiteCode site.now }
    requires regions { HasSiteEnds tables.now site.now }
    ensures { IfOk result (FitsSite tables.now site.now) }
{
    let mut writing = Writing::new(alloc);
    write(alloc, &mut writing, tables, site)?;
    if writing.draft.place() > INSTRUCTION_LIMIT {
        return Ok(None);
    }
    Ok(Some(settled(alloc, writing)?))
}

// Writes all that stands in a body.
fn write(
    alloc: Global,
    writing: &mut Writing,
    tables: &BodyTables<'_>,
    site: &Site<'_>,
) -> AllocResult<()>
    requires code { HasSiteCode site.now }
    requires regions { HasSiteEnds tables.now site.now }
    ensures code { WritesSiteBody result tables.now site.now writing.old writing.new }
    ensures scopes { WritesSiteScopes result tables.now site.now writing.old writing.new }
{
    match &site.part {
        BodyPart::Function => write_function(alloc, writing, tables, site.numbers, site.function),
        BodyPart::Region(region) => write_region(alloc, writing, tables, site.numbers, region),
    }
}

// Writes the statements of a function, and its end.
fn write_function(
    alloc: Global,
    writing: &mut Writing,
    tables: &BodyTables<'_>,
    numbers: Numbers,
    function: &ResolvedFunction,
) -> AllocResult<()>
    requires code { BodyHasCode (view.function function.now) FunctionBody }
    requires ends { HasOwnEnds tables.now numbers function.now }
    ensures code { WritesOwnBody result tables.now numbers function.now writing.old writing.new }
    ensures scopes { WritesOwnScopes result tables.now function.now writing.old writing.new }
{
    let height = writing.scopes.height();
    begin_parameters(&mut writing.scopes, function.parameters.as_slice())?;
    let spot = Spot::outside(numbers);
    statements(alloc, writing, tables, spot, function.body.as_slice())?;
    let last = last_instruction(tables.is_main, false);
    writing.draft.put(function.closing_line, last)?;
    let to = writing.draft.place();
    writing.scopes.end(height, to)
}

// Writes the statement of a region, and what stands around it.
fn write_region(
    alloc: Global,
    writing: &mut Writing,
    tables: &BodyTables<'_>,
    numbers: Numbers,
    region: &Region<'_>,
) -> AllocResult<()>
    requires code { StatementHasCode false false (statement_of region.now) }
    requires ends { HasEnds (known_in tables.now) (numbers_of numbers)
        (statement_of region.now) }
    ensures code { WritesRegionBody result tables.now numbers region.now writing.old writing.new }
    ensures scopes { WritesRegionScopes result tables.now region.now writing.old writing.new }
{
    match region.kind {
        RegionKind::Parallel => write_parallel(alloc, writing, tables, numbers, region),
        RegionKind::Task => write_task(alloc, writing, tables, numbers, region),
    }
}

// Writes what each thread of a team does (OpenMP API 5.2, section 10.1): its implicit task begins,
// its copies are combined behind the statement, and all threads wait for each other.
fn write_parallel(
    alloc: Global,
    writing: &mut Writing,
    tables: &BodyTables<'_>,
    numbers: Numbers,
    region: &Region<'_>,
) -> AllocResult<()>
    requires code { StatementHasCode false false (statement_of region.now) }
    requires ends { HasEnds (known_in tables.now) (numbers_of numbers)
        (statement_of region.now) }
    ensures code { WritesParallelBody result tables.now numbers region.now writing.old writing.new }
    ensures scopes { WritesParallelScopes result tables.now region.now writing.old writing.new }
{
    let at = region.at;
    let here = Here { tables, at };
    let line = at.line;
    let height = writing.scopes.height();
    writing.draft.put(line, Instr::Team(Team::Begin))?;
    reduction_starts(writing, &here, region.clauses)?;
    let spot = Spot::outside(numbers);
    inner(alloc, writing, tables, spot, region.statement)?;
    reductions(&mut writing.draft, &here, region.clauses)?;
    writing
        .draft
        .put(line, Instr::Team(Team::Arrive(Barrier::Parallel)))?;
    writing.draft.put(line, Instr::Team(Team::Leave))?;
    let to = writing.draft.place();
    writing.scopes.end(height, to)
}

// Writes what a task does (OpenMP API 5.2, section 12.5), and its end.
fn write_task(
    alloc: Global,
    writing: &mut Writing,
    tables: &BodyTables<'_>,
    numbers: Numbers,
    region: &Region<'_>,
) -> AllocResult<()>
    requires code { StatementHasCode false false (statement_of region.now) }
    requires ends { HasEnds (known_in tables.now) (numbers_of numbers)
        (statement_of region.now) }
    ensures code { WritesTaskBody result tables.now numbers region.now writing.old writing.new }
    ensures scopes { WritesTaskScopes result tables.now region.now writing.old writing.new }
{
    let height = writing.scopes.height();
    task_copies(&mut writing.scopes, region.clauses)?;
    let spot = Spot::outside(numbers);
    inner(alloc, writing, tables, spot, region.statement)?;
    writing
        .draft
        .put(region.at.line, Instr::Task(Task::TaskEnd))?;
    let to = writing.draft.place();
    writing.scopes.end(height, to)
}

// What is written of a body, with the place of each label in its stead, and the scopes that have ended.
fn settled(alloc: Global, writing: Writing) -> AllocResult<Emitted>
    requires { length writing.draft.code ≤ 65536 }
    ensures code { IfOk result (λ made. made.code ≡ settled_code writing.draft) }
    ensures lists { IfOk result (λ made. made.lists.items ≡ settled_lists writing.draft) }
    ensures scopes { IfOk result (λ made. made.scopes.items ≡ writing.scopes.closed.items) }
{
    let Writing { draft, scopes } = writing;
    let code = draft.settle(alloc)?;
    let lists = draft.lists(alloc)?;
    Ok(Emitted {
        code,
        lists,
        scopes: scopes.closed,
    })
}
