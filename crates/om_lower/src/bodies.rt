//! The bodies of a function, each within its limits, and the slots of their frames.

ghost use Rattle.std.specs.Prelude.{◌≡◌, ◌≤◌, ◌∷◌, ◌++◌, [], All, Any, IfOk, OnOk, false, length, true};
ghost use Rattle.om_lower.specs.Regions.{given_to, slots_of};
ghost use Rattle.om_lower.specs.Words.{AddsAllVariables, AddsBody, AddsSite, AddsVariables, AreAdded, FitsCode};
ghost use Rattle.om_lower.specs.Words.{FitsSlots, GivesSlots, HasFewSlots, HasManySlots, HasSlots, IsInput, IsListed};
ghost use Rattle.om_lower.specs.Words.{IsReadyIn, IsSeen, bodies_in, body_in, body_round, captures_of};
ghost use Rattle.om_lower.specs.Words.{copied_variables, given_of, innermost, known_tree, part_tree, round_with};
ghost use Rattle.om_lower.specs.Words.{seen_body, seen_round, seen_tree, site_variables, variables_of, FitsVariables};
ghost use Rattle.om_lower.specs.Words.{frame_cells, own_cells};

use crate::atomics::atomic_places;
use crate::body::{Emitted, emitted_in};
use crate::functions::{Known, SeenBody, is_main};
use crate::names::names_with;
use om_code::Body;
use om_code::raw::{Slot, Source};
use om_lower_emit::draft::PickList;
use om_lower_rules::{
    BodyTables, Extents, Region, Variables, copy_slots, given_copies, parameter_slots, slots_with,
};
use om_lower_tables::{BodyPart, Site, function_variables, region_variables};
use om_scope_tree::Capture;
use om_seq::{AllocResult, Seq};
use std::alloc::Global;

/// Adds the variables of these bodies behind those of other ones; false where a body has more than 256 slots.
pub(crate) fn add_slots(
    slots: &mut Vec<Variables>,
    alloc: Global,
    sites: &[Site<'_>],
) -> AllocResult<bool>
    ensures few { IfOk result (λ few. few ≡ true → All HasFewSlots (bodies_in [] sites.now)) }
    ensures added { IfOk result (AddsAllVariables (bodies_in [] sites.now) slots.old slots.new) }
    ensures many { IfOk result (λ few.
        few ≡ false → Any HasManySlots (bodies_in [] sites.now)) }
{
    for site in sites {
        if !add_variables(slots, alloc, site)? {
            return Ok(false);
        }
    }
    Ok(true)
}

// Adds the variables of a body; false where it has more than 256 slots.
fn add_variables(slots: &mut Vec<Variables>, alloc: Global, site: &Site<'_>) -> AllocResult<bool>
    ensures few { IfOk result (λ few. HasSlots few (body_in [] site.now)) }
    ensures added { OnOk result (AddsVariables (body_in [] site.now) slots.old slots.new) }
{
    let variables = variables_in(alloc, site)?;
    let few = variables.len() <= SLOT_LIMIT;
    slots.push(variables)?;
    Ok(few)
}

// The variables of a body, by their slots.
fn variables_in(alloc: Global, site: &Site<'_>) -> AllocResult<Variables>
    ensures { IfOk result (λ made. made ≡ site_variables site.now) }
{
    match &site.part {
        BodyPart::Function => function_variables(alloc, site.function),
        BodyPart::Region(region) => { region_variables(alloc, region.clauses, region.statement) }
    }
}

/// Bodies, and the lists of the PICKs in them.
#[derive(Drop)]
pub(crate) struct Bodies {
    pub(crate) bodies: Seq<Body>,
    pub(crate) lists: Seq<PickList>,
}

/// Adds these bodies of a function to none; false where one passes a limit on cells or instructions.
pub(crate) fn add_sites<'a>(
    made: &mut Bodies,
    known: &'a Known<'a>,
    sites: &'a [Site<'a>],
) -> AllocResult<bool>
    requires given { IsInput known.now.input.now }
    requires ready { All (IsReadyIn known.now) (bodies_in [] sites.now) }
    requires bodies { made.old.bodies ≡ [] }
    requires lists { made.old.lists ≡ [] }
    ensures { IfOk result (AreAdded (known_tree known.now) (bodies_in [] sites.now) made.new) }
{
    let mut round = Vec::new(known.input.alloc);
    for site in sites {
        if !add_next(made, &mut round, known, site)? {
            return Ok(false);
        }
    }
    Ok(true)
}

// Adds the next body; false where it passes a limit on cells or instructions. The variables of the
// bodies that are not yet over stand in `round`, from the outermost in.
fn add_next<'a>(
    made: &mut Bodies,
    round: &mut Vec<&'a Variables>,
    known: &'a Known<'a>,
    site: &'a Site<'a>,
) -> AllocResult<bool>
    requires given { IsInput known.now.input.now }
    requires ready { IsReadyIn known.now (body_round (seen_round round.old.items) site.now) }
    ensures adds { IfOk result (AddsSite known.now round.old.items site.now made.old made.new) }
    ensures round { OnOk result
        (seen_round round.new.items ≡ round_with (seen_round round.old.items) site.now) }
{
    round.truncate(site.depth);
    let variables = own_variables(known, site);
    let added = {
        let none = Variables::new(known.input.alloc);
        let outer = innermost(round.as_slice(), &none);
        let seen = SeenBody {
            known,
            site,
            variables,
            outer,
        };
        add_body(made, &seen)
    };
    let fits = added?;
    round.push(variables)?;
    Ok(fits)
}

// The variables of the innermost body, if there is one, and these otherwise.
fn innermost<'a>(round: &[&'a Variables], none: &'a Variables) -> &'a Variables
    requires { none.now ≡ [] }
    ensures { result.now ≡ innermost (seen_round round.now) }
{
    match round.last() {
        None => none,
        Some(variables) => *variables,
    }
}

// The variables of a body, which stand at its number.
fn own_variables<'a>(known: &Known<'a>, site: &Site<'_>) -> &'a Variables
    requires { IsListed known.now.slots.now (body_in [] site.now) }
    ensures { result.now ≡ variables_of (body_in [] site.now) }
{
    let number = site.numbers.bodies - 1;
    &known.slots[number as usize]
}

// Adds a body; false where it passes a limit on cells or instructions.
fn add_body(made: &mut Bodies, seen: &SeenBody<'_>) -> AllocResult<bool>
    requires seen { IsSeen seen.now }
    ensures { IfOk result (AddsBody (seen_tree seen.now) (seen_body seen.now) made.old made.new) }
{
    let Some(slots) = frame_in(seen)? else {
        return Ok(false);
    };
    add_with(made, seen, slots)
}

// The slots of a body; `None` where it passes a limit.
fn frame_in(seen: &SeenBody<'_>) -> AllocResult<Option<Seq<Slot>>>
    requires seen { IsSeen seen.now }
    ensures { IfOk result (FitsSlots (seen_body seen.now)) }
{
    let alloc = seen.known.input.alloc;
    let extents = seen.known.extents;
    let captures = captures_in(&seen.site.part);
    frame_of(alloc, extents, seen.outer, captures, seen.variables)
}

// What a body takes from the body round it.
fn captures_in<'a>(part: &BodyPart<'a>) -> &'a [Capture]
    ensures { result.now ≡ captures_of (part_tree part.now) }
{
    match part {
        BodyPart::Function => &[],
        BodyPart::Region(region) => region.captures,
    }
}

// Adds a body that has these slots; false where it has too many instructions.
fn add_with(made: &mut Bodies, seen: &SeenBody<'_>, slots: Seq<Slot>) -> AllocResult<bool>
    requires seen { IsSeen seen.now }
    requires slots { FitsSlots (seen_body seen.now) (Some slots) }
    ensures { IfOk result (AddsBody (seen_tree seen.now) (seen_body seen.now) made.old made.new) }
{
    let Some(emitted) = code_in(seen)? else {
        return Ok(false);
    };
    let given = given_in(seen)?;
    let Emitted {
        code,
        lists,
        scopes,
    } = emitted;
    let alloc = seen.known.input.alloc;
    let function = seen.site.function.name.as_slice();
    let names = names_with(alloc, function, scopes, seen.variables, seen.outer)?;
    let atomic = atomic_places(alloc, &seen.known.input.tables.atomics, code.as_slice())?;
    let body = Body {
        code,
        slots,
        given,
        names,
        atomic,
    };
    put_body(made, body, lists)?;
    Ok(true)
}

// Puts a body and its lists behind those that are there.
fn put_body(made: &mut Bodies, body: Body, lists: Vec<PickList>) -> AllocResult<()>
    ensures bodies { OnOk result (made.new.bodies ≡ made.old.bodies ++ body ∷ []) }
    ensures lists { OnOk result (made.new.lists ≡ made.old.lists ++ lists.items) }
{
    put_both(&mut made.bodies, &mut made.lists, body, Seq::of(lists))
}

/// Puts an item behind others, and lists behind theirs.
pub(crate) fn put_both<T: Drop, L: Drop>(
    items: &mut Seq<T>,
    lists: &mut Seq<L>,
    item: T,
    more: Seq<L>,
) -> AllocResult<()>
    ensures items { OnOk result (items.new ≡ items.old ++ item ∷ []) }
    ensures lists { OnOk result (lists.new ≡ lists.old ++ more) }
{
    lists.append(more)?;
    items.push(item)
}

// The code of a body; `None` where it has too many instructions.
fn code_in(seen: &SeenBody<'_>) -> AllocResult<Option<Emitted>>
    requires seen { IsSeen seen.now }
    ensures { IfOk result (λ code. FitsCode (seen_tree seen.now) (seen_body seen.now) code) }
{
    let input = seen.known.input;
    let slots = seen.known.slots;
    let is_main = is_main(seen.site.function);
    let tables = BodyTables::new(input.resolved, input.tables, slots, seen.variables, is_main);
    emitted_in(input.alloc, &tables, seen.site)
}

// The slots that get the values with which a frame of a body begins.
fn given_in(seen: &SeenBody<'_>) -> AllocResult<Seq<u32>>
    requires seen { IsSeen seen.now }
    ensures { IfOk result (λ slots. slots ≡ given_of (seen_body seen.now)) }
{
    let alloc = seen.known.input.alloc;
    let parameters = seen.site.function.parameters.as_slice();
    match &seen.site.part {
        BodyPart::Function => parameter_slots(alloc, seen.variables, parameters),
        BodyPart::Region(region) => { copies_given(alloc, region, seen.variables) }
    }
}

// The slots of the firstprivate copies of a region.
fn copies_given(alloc: Global, region: &Region<'_>, variables: &Variables) -> AllocResult<Seq<u32>>
    requires few { length variables.now ≤ 256 }
    requires variables { variables.now ≡ slots_of region.now }
    ensures { GivesSlots result variables.now (copied_variables (given_to region.now)) }
{
    let copies = given_copies(alloc, region.clauses, region.captures, variables)?;
    copy_slots(alloc, variables, copies.as_slice())
}

/// How many slots a body may have.
pub const SLOT_LIMIT: usize = 256;

/// How many cells of its own a body may have.
pub const CELL_LIMIT: u64 = 4_096;

/// The slots of a body with these variables, in the body round it; `None` where it passes a limit.
pub(crate) fn frame_of(
    alloc: Global,
    extents: &Extents,
    outer: &Variables,
    captures: &[Capture],
    variables: &Variables,
) -> AllocResult<Option<Seq<Slot>>>
    requires { length outer.now ≤ 256 }
    ensures { IfOk result (FitsVariables extents.now outer.now captures.now variables.now) }
{
    if variables.len() > SLOT_LIMIT {
        return Ok(None);
    }
    let slots = slots_with(alloc, extents, outer, captures, variables)?;
    if frame_cells(slots.as_slice()) > CELL_LIMIT {
        return Ok(None);
    }
    Ok(Some(slots))
}

// How many cells of its own a frame with these slots has.
fn frame_cells(slots: &[Slot]) -> u64
    requires { length slots.now ≤ 256 }
    ensures { result ≡ frame_cells slots.now }
{
    let mut cells = 0;
    for slot in slots {
        cells += u64::from(own_cells(*slot));
    }
    cells
}

// How many cells of its own a frame has for a slot.
fn own_cells(slot: Slot) -> u32
    ensures { result ≡ own_cells slot }
{
    match slot.source {
        Source::Own => slot.cells,
        Source::Outer(_) => 0,
    }
}
