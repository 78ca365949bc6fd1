//! What is lowered, a program and a body of it, and the bodies of functions, each within its limits.

ghost use Rattle.std.specs.Prelude.{◌≡◌, ◌<◌, ◌∷◌, [], All, IfOk, Ok, OnOk, Some, length, slice_get};
ghost use Rattle.om_scope_tree.specs.ResolvedView as view;
ghost use Rattle.om_lower.specs.Words.{AddsAllVariables, AddsNext, AreGathered, IsInput, IsNext, IsPut, IsReadyIn};
ghost use Rattle.om_lower.specs.Words.{PutsBodies, PutsLists, bodies_in, ends_in, is_main_function, known_tree};
ghost use Rattle.om_lower.specs.Words.{next_bodies, numbers_of, tree_of};

use crate::bodies::{Bodies, add_sites, add_slots, put_both};
use om_code::Body;
use om_lower_emit::draft::PickList;
use om_lower_rules::{Extents, Numbers, Tables, Variables};
use om_lower_tables::{Site, sites_of};
use om_scope_tree::{Resolved, ResolvedFunction};
use om_seq::{AllocResult, Seq};
use std::alloc::Global;

/// A program that is lowered: its tree, and the tables of that.
#[derive(Drop)]
pub(crate) struct Input<'a> {
    pub(crate) alloc: Global,
    pub(crate) resolved: &'a Resolved,
    pub(crate) tables: &'a Tables,
}

/// What the bodies of a function are lowered with.
#[derive(Clone, Copy)]
pub(crate) struct Known<'a> {
    pub(crate) input: &'a Input<'a>,
    /// The variables of the first bodies of the program by their numbers, these bodies among them.
    pub(crate) slots: &'a [Variables],
    /// How many cells the variables of the function have.
    pub(crate) extents: &'a Extents,
}

/// A body that is lowered, with its variables and those of the body round it; a function's own body
/// has none round it.
#[derive(Clone, Copy)]
pub(crate) struct SeenBody<'a> {
    pub(crate) known: &'a Known<'a>,
    pub(crate) site: &'a Site<'a>,
    pub(crate) variables: &'a Variables,
    pub(crate) outer: &'a Variables,
}

/// How many instructions a body may have.
pub const INSTRUCTION_LIMIT: usize = 65_536;

/// The bodies of functions, function by function, up to the first function that passes a limit.
#[derive(Drop)]
pub(crate) struct Lowered {
    pub(crate) functions: Seq<Seq<Body>>,
    /// The lists of the PICKs in them.
    pub(crate) lists: Seq<PickList>,
    /// How many lists those functions have.
    pub(crate) count: u32,
    /// Whether no function passes a limit on slots, cells or instructions.
    pub(crate) is_whole: bool,
}

/// The bodies of functions, function by function, up to the first function that passes a limit, and
/// the lists of all PICKs in them.
#[derive(Drop)]
pub(crate) struct Placed {
    pub(crate) functions: Seq<Seq<Body>>,
    /// The places of each list, by its number.
    pub(crate) picks: Seq<Seq<u32>>,
    /// Whether no function passes a limit on slots, cells or instructions.
    pub(crate) is_whole: bool,
}

/// The bodies of all functions, or of those before the first that passes a limit on slots, cells or
/// instructions.
pub(crate) fn lower_functions(input: &Input<'_>) -> AllocResult<Lowered>
    requires given { IsInput input.now }
    ensures { IfOk result (AreGathered (tree_of input.now)) }
{
    let mut lowered = Lowered {
        functions: Seq::new(input.alloc),
        lists: Seq::new(input.alloc),
        count: 0,
        is_whole: true,
    };
    let mut slots = Vec::new(input.alloc);
    add_functions(&mut lowered, &mut slots, input)?;
    Ok(lowered)
}

/// A function that is lowered, how many cells its variables have, and the numbers before it.
#[derive(Clone, Copy)]
pub(crate) struct Next<'a> {
    pub(crate) function: &'a ResolvedFunction,
    pub(crate) extents: &'a Extents,
    pub(crate) numbers: Numbers,
}

// Adds the bodies of all functions, or of those before the first that passes a limit. The variables
// of each body are found once, and kept by its number.
fn add_functions(
    lowered: &mut Lowered,
    slots: &mut Vec<Variables>,
    input: &Input<'_>,
) -> AllocResult<()>
    requires given { IsInput input.now }
    requires functions { lowered.old.functions ≡ [] }
    requires lists { lowered.old.lists ≡ [] }
    requires slots { slots.old.items ≡ [] }
    ensures { OnOk result (AreGathered (tree_of input.now) lowered.new) }
{
    let mut numbers = Numbers::first();
    for (index, function) in input.resolved.functions.as_slice().iter().enumerate() {
        let next = Next {
            function,
            extents: extents_at(input.tables, index),
            numbers,
        };
        if !add_function(lowered, slots, input, &next)? {
            lowered.count = numbers.picks;
            lowered.is_whole = false;
            return Ok(());
        }
        numbers = numbers_behind(input.tables, numbers.bodies);
    }
    lowered.count = numbers.picks;
    lowered.is_whole = true;
    Ok(())
}

// How many cells the variables of the function at an index have.
fn extents_at<'a>(tables: &'a Tables, index: usize) -> &'a Extents
    requires { index < length tables.now.extents.items }
    ensures { slice_get tables.now.extents.items index ≡ Some result.now }
{
    &tables.extents[index]
}

// The numbers behind the body of this number.
fn numbers_behind(tables: &Tables, body: u32) -> Numbers
    requires { body < length (ends_in tables.now) }
    ensures { slice_get (ends_in tables.now) body ≡ Some (numbers_of result) }
{
    tables.ends[body as usize]
}

// Adds the bodies of a function; false where one passes a limit on slots, cells or instructions.
fn add_function(
    lowered: &mut Lowered,
    slots: &mut Vec<Variables>,
    input: &Input<'_>,
    next: &Next<'_>,
) -> AllocResult<bool>
    requires given { IsInput input.now }
    requires next { IsNext input.now.tables.now slots.old.items next.now }
    ensures adds { IfOk result (AddsNext (tree_of input.now) next.now lowered.old lowered.new) }
    ensures slots { IfOk result (AddsAllVariables (next_bodies next.now) slots.old slots.new) }
{
    let sites = sites_of(input.alloc, next.function, next.numbers)?;
    if !add_slots(slots, input.alloc, sites.as_slice())? {
        return Ok(false);
    }
    let known = Known {
        input,
        slots: slots.as_slice(),
        extents: next.extents,
    };
    add_bodies(lowered, &known, next, sites.as_slice())
}

// Adds the bodies of a function that stand at these sites, none of which has too many slots; false where
// one passes a limit on cells or instructions.
fn add_bodies<'a>(
    lowered: &mut Lowered,
    known: &'a Known<'a>,
    next: &Next<'a>,
    sites: &'a [Site<'a>],
) -> AllocResult<bool>
    requires given { IsInput known.now.input.now }
    requires sites { bodies_in [] sites.now ≡ next_bodies next.now }
    requires ready { All (IsReadyIn known.now) (next_bodies next.now) }
    ensures { IfOk result (AddsNext (known_tree known.now) next.now lowered.old lowered.new) }
{
    let alloc = known.input.alloc;
    let mut bodies = Bodies {
        bodies: Seq::new(alloc),
        lists: Seq::new(alloc),
    };
    let fits = add_sites(&mut bodies, known, sites);
    put_function(lowered, bodies, fits)
}

// Puts the bodies of a function and their lists behind those that are there, where they fit.
fn put_function(lowered: &mut Lowered, bodies: Bodies, fits: AllocResult<bool>) -> AllocResult<bool>
    ensures fits { IfOk result (λ put. fits ≡ Ok put) }
    ensures functions { IfOk result (PutsBodies bodies lowered.old lowered.new) }
    ensures lists { IfOk result (PutsLists bodies lowered.old lowered.new) }
{
    let Bodies { bodies, lists } = bodies;
    put_where(
        &mut lowered.functions,
        &mut lowered.lists,
        bodies,
        lists,
        fits,
    )
}

// Puts an item behind others, and lists behind theirs, where they fit.
fn put_where<T: Drop, L: Drop>(
    items: &mut Seq<T>,
    lists: &mut Seq<L>,
    item: T,
    more: Seq<L>,
    fits: AllocResult<bool>,
) -> AllocResult<bool>
    ensures fits { IfOk result (λ put. fits ≡ Ok put) }
    ensures items { IfOk result (λ put. IsPut put items.old (item ∷ []) items.new) }
    ensures lists { IfOk result (λ put. IsPut put lists.old more lists.new) }
{
    if !fits? {
        return Ok(false);
    }
    put_both(items, lists, item, more)?;
    Ok(true)
}

/// Whether a function is `main`.
pub(crate) fn is_main(function: &ResolvedFunction) -> bool
    ensures { result ≡ is_main_function (view.function function.now) }
{
    function.name.as_slice() == b"main".as_slice()
}
