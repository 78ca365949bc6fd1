//! A `parallel` and a `task`, in the body that meets them. Their own bodies stand by themselves.

ghost use Rattle.std.specs.Prelude.{◌≡◌, ◌≤◌, IfOk, IfSome, OnOk, is_some, length};
ghost use Rattle.om_lower.specs.Regions.{AppendsTeamSize, EmitsRegion, IsKnownThere, LoadsGiven, LoadsOriginals};
ghost use Rattle.om_lower.specs.Regions.{RegionHasCode, given_to, parallel_of, region_statement, slots_of};
ghost use Rattle.om_lower.specs.Regions.{task_of};
ghost use Rattle.om_lower.specs.Words.{GivesBehind, ValueHasCode, value_in};

use om_code::{Instr, Serial, Task, Team};
use om_lower_emit::clause::clause_value;
use om_lower_emit::draft::Draft;
use om_lower_emit::{Here, value};
use om_lower_rules::{BodyTables, FirstCopy, Numbers, Region, Variables, given_copies};
use om_scope_tree::{RegionKind, ResolvedClause};
use om_seq::AllocResult;
use std::alloc::Global;

/// Writes what stands in the place of a region, and gives the numbers behind it. Its body gets the
/// number of the next one.
pub(crate) fn region_there(
    alloc: Global,
    draft: &mut Draft,
    tables: &BodyTables<'_>,
    numbers: Numbers,
    region: &Region<'_>,
) -> AllocResult<Numbers>
    requires code { RegionHasCode region.now }
    requires known { IsKnownThere tables.now numbers region.now }
    ensures behind { GivesBehind result numbers (region_statement region.now) }
    ensures emitted { EmitsRegion result tables.now numbers (region_statement region.now) draft.old draft.new }
{
    match region.kind {
        RegionKind::Parallel => parallel(alloc, draft, tables, numbers, region),
        RegionKind::Task => task(alloc, draft, tables, numbers, region),
    }
}

// Writes what stands in the place of a `parallel`.
fn parallel(
    alloc: Global,
    draft: &mut Draft,
    tables: &BodyTables<'_>,
    numbers: Numbers,
    region: &Region<'_>,
) -> AllocResult<Numbers>
    requires code { IfSome (value_in region.now.clauses.now) ValueHasCode }
    requires known { IsKnownThere tables.now numbers region.now }
    ensures behind { GivesBehind result numbers (parallel_of region.now) }
    ensures emitted { EmitsRegion result tables.now numbers (parallel_of region.now) draft.old draft.new }
{
    let at = region.at;
    let sized = team_size(draft, &Here { tables, at }, region.clauses)?;
    let variables = tables.region_variables(numbers.bodies);
    let count = load_given(alloc, draft, tables, region, variables)?;
    // At most 256: one for a slot.
    let values = count as u16;
    let body = numbers.bodies;
    draft.put(
        at.line,
        Instr::Team(Team::Fork {
            body,
            sized,
            values,
        }),
    )?;
    Ok(tables.behind_region(numbers.bodies))
}

// Writes what stands in the place of a `task`.
fn task(
    alloc: Global,
    draft: &mut Draft,
    tables: &BodyTables<'_>,
    numbers: Numbers,
    region: &Region<'_>,
) -> AllocResult<Numbers>
    requires known { IsKnownThere tables.now numbers region.now }
    ensures behind { GivesBehind result numbers (task_of region.now) }
    ensures emitted { EmitsRegion result tables.now numbers (task_of region.now) draft.old draft.new }
{
    let variables = tables.region_variables(numbers.bodies);
    let count = load_given(alloc, draft, tables, region, variables)?;
    // At most 256: one for a slot.
    let values = count as u16;
    let body = numbers.bodies;
    draft.put(region.at.line, Instr::Task(Task::Spawn { body, values }))?;
    Ok(tables.behind_region(numbers.bodies))
}

// Loads the originals of the firstprivate copies of a region whose body has these variables, and says how
// many there are.
fn load_given(
    alloc: Global,
    draft: &mut Draft,
    tables: &BodyTables<'_>,
    region: &Region<'_>,
    variables: &Variables,
) -> AllocResult<usize>
    requires variables { variables.now ≡ slots_of region.now }
    requires few { length variables.now ≤ 256 }
    ensures few { IfOk result (λ count. count ≤ 256) }
    ensures count { IfOk result (λ count. count ≡ length (given_to region.now)) }
    ensures emitted { OnOk result (LoadsGiven tables.now region.now draft.old draft.new) }
{
    let copies = given_copies(alloc, region.clauses, region.captures, variables)?;
    let at = region.at;
    load_originals(draft, &Here { tables, at }, copies.as_slice())?;
    Ok(copies.len())
}

// Writes the size that a `parallel` asks for, if one of its clauses does (OpenMP API 5.2, section
// 10.1.2), and says whether one does.
fn team_size(draft: &mut Draft, here: &Here<'_>, clauses: &[ResolvedClause]) -> AllocResult<bool>
    requires { IfSome (value_in clauses.now) ValueHasCode }
    ensures sized { IfOk result (λ sized. sized ≡ is_some (value_in clauses.now)) }
    ensures emitted { AppendsTeamSize result here.now clauses.now draft.old draft.new }
{
    match clause_value(clauses) {
        None => Ok(false),
        Some(size) => {
            value(draft, here, size)?;
            Ok(true)
        }
    }
}

// Loads the originals of the firstprivate copies of a region, by the slots of the copies.
fn load_originals(draft: &mut Draft, here: &Here<'_>, copies: &[FirstCopy]) -> AllocResult<()>
    ensures { LoadsOriginals result here.now copies.now draft.old draft.new }
{
    for copy in copies {
        draft.put(
            here.at.line,
            Instr::Serial(Serial::Load(here.tables.place(copy.original))),
        )?;
    }
    Ok(())
}
