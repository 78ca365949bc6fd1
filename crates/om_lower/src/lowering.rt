//! From a resolved tree to its code, and which functions have a body with more than 256 operands at once.

ghost use Rattle.std.specs.Prelude.{◌≡◌, ◌<◌, IfErr, IfOk, OnOk, length, map, slice_set, All, false, true};
ghost use Rattle.om_scope_tree.specs.ResolvedView as view;
ghost use Rattle.om_code.specs.Validity.{IsLow};
ghost use Rattle.om_lower.specs.Words.{ArePlaced, AreWithin, HasSmallWeight, HasTrueLayouts, IsCodeOf, IsEachOnce};
ghost use Rattle.om_lower.specs.Words.{IsIndexIn, IsInput, IsOverIn, IsRefusal, IsWholeTree, KeepsMeaning, ListsStand};
ghost use Rattle.om_lower.specs.Words.{TreeAtomicsAssign, TreeCopiesBehind, number_of, too_many, tree_of};
ghost use Rattle.om_lower.specs.Heights.{AreLevel, AreLow, IsFirstHigh, IsHigh, IsLevelBody};

use crate::functions::{Input, Lowered, Placed, lower_functions};
use crate::laws::each_once;
use crate::program::program_of;
use om_code::height::check_heights;
use om_code::{Body, CodeFault, Program};
use om_lexer::{FaultCode, SourceFault, SourceResult};
use om_lower_emit::draft::PickList;
use om_lower_rules::laws::{body_is_level, serial_meaning, true_layouts, whole_has_code};
use om_lower_tables::tables_of;
use om_scope_tree::{Resolved, ResolvedFunction};
use om_seq::{AllocResult, Seq};
use std::alloc::{AllocError, Global};

/// The program whose bodies are the code of the tree's functions.
///
/// The tree is whole, each `atomic` that reads or writes is about an assignment, each copy stands behind where
/// its region begins, and numbers of 32 bits are enough for its parts: `om_scope::resolve` and the laws of
/// om_scope_rules give that.
///
/// The body of each function without directives, and without calls but `printf`, does what the function
/// means. It ends with its value, its globals and its output exactly where the meaning does, and faults
/// exactly where that does.
///
/// In each body, two different variables that it names have two different places (C17 6.2.2p2), and a
/// global is the global of its number. Each has as many cells as its declaration says. What a body means
/// asks for no variables but those that it names.
///
/// Refusals:
/// - S0 at byte 0: no memory.
/// - S11 at a function's name: a body of it has more than 256 slots, more than 4,096 cells of its
///   own, more than 65,536 instructions, or more than 256 operands at once. Of several such functions
///   the first is named.
pub fn lower(alloc: Global, resolved: &Resolved) -> SourceResult<Program>
    requires whole { IsWholeTree (view.resolved resolved.now) }
    requires atomics { TreeAtomicsAssign (view.resolved resolved.now) }
    requires copies { TreeCopiesBehind (view.resolved resolved.now) }
    requires small { HasSmallWeight (view.resolved resolved.now) }
    ensures code { IfOk result (λ program. IsCodeOf (view.resolved resolved.now) program) }
    ensures means { IfOk result (λ program. KeepsMeaning (view.resolved resolved.now) program) }
    ensures layout { IfOk result (λ program. HasTrueLayouts (view.resolved resolved.now) program) }
    ensures within { OnOk result (AreWithin (view.resolved resolved.now)) }
    ensures refused { IfErr result (IsRefusal (view.resolved resolved.now)) }
{
    whole_has_code();
    serial_meaning();
    true_layouts();
    let tables = tables_of(alloc, resolved)?;
    lower_input(&Input {
        alloc,
        resolved,
        tables: &tables,
    })
}

// The program of a tree, where its tables are made.
fn lower_input(input: &Input<'_>) -> SourceResult<Program>
    requires given { IsInput input.now }
    ensures code { IfOk result (λ program. IsCodeOf (tree_of input.now) program) }
    ensures within { OnOk result (AreWithin (tree_of input.now)) }
    ensures refused { IfErr result (IsRefusal (tree_of input.now)) }
{
    let placed = placed_functions(input)?;
    within_limits(input, &placed)?;
    program_of(input, placed)
}

// The bodies of functions, with the lists of all PICKs in them at their numbers.
fn placed_functions(input: &Input<'_>) -> AllocResult<Placed>
    requires given { IsInput input.now }
    ensures { IfOk result (ArePlaced (tree_of input.now)) }
{
    each_once();
    let Lowered {
        functions,
        lists,
        count,
        is_whole,
    } = lower_functions(input)?;
    let picks = joined(input.alloc, count, lists.into_vec())?;
    Ok(Placed {
        functions,
        picks,
        is_whole,
    })
}

// S11 at the name of the first function that passes a limit, if one does.
fn within_limits(input: &Input<'_>, placed: &Placed) -> SourceResult<()>
    requires lowered { ArePlaced (tree_of input.now) placed.now }
    ensures low { OnOk result (IsOverIn placed.now None) }
    ensures refused { IfErr result (IsRefusal (tree_of input.now)) }
{
    let Some(index) = over_at(input, placed)? else {
        return Ok(());
    };
    Err(too_many(&input.resolved.functions.as_slice()[index]))
}

// The first function that passes a limit, if one does.
fn over_at(input: &Input<'_>, placed: &Placed) -> AllocResult<Option<usize>>
    requires { ArePlaced (tree_of input.now) placed.now }
    ensures over { IfOk result (IsOverIn placed.now) }
    ensures within { IfOk result (IsIndexIn input.now.resolved.now.functions.items) }
{
    body_is_level();
    let functions = placed.functions.as_slice();
    if let Some(index) = first_high(input.alloc, placed.picks.as_slice(), functions)? {
        return Ok(Some(index));
    }
    if placed.is_whole {
        return Ok(None);
    }
    Ok(Some(functions.len()))
}

// S11 at the function's name.
fn too_many(function: &ResolvedFunction) -> SourceFault
    ensures { result ≡ too_many (view.function function.now) }
{
    SourceFault {
        code: FaultCode::TooMany,
        at: function.name_at,
    }
}

// So many lists, each of these at its number. Their numbers are those below the count, each once.
fn joined(alloc: Global, count: u32, lists: Vec<PickList>) -> AllocResult<Seq<Seq<u32>>>
    requires { IsEachOnce count (map number_of lists.items) }
    ensures long { IfOk result (λ picks. length picks ≡ count) }
    ensures stand { IfOk result (λ picks. ListsStand lists.items picks) }
{
    let mut picks = empty_lists(alloc, count)?;
    for list in lists {
        put_list(&mut picks, list);
    }
    Ok(Seq::of(picks))
}

// So many lists without places.
fn empty_lists(alloc: Global, count: u32) -> AllocResult<Vec<Seq<u32>>>
    ensures { IfOk result (λ picks. length picks.items ≡ count) }
{
    let mut picks = Vec::new(alloc);
    for _ in 0..count {
        picks.push(Seq::new(alloc))?;
    }
    Ok(picks)
}

// Puts a list at its number.
fn put_list(picks: &mut Vec<Seq<u32>>, list: PickList)
    requires { list.number < length picks.old.items }
    ensures { picks.new.items ≡ slice_set picks.old.items list.number list.places }
{
    picks[list.number as usize] = list.places;
}

/// The first function that has a body with more than 256 operands at once; the bodies stand function
/// by function.
pub(crate) fn first_high(
    alloc: Global,
    picks: &[Seq<u32>],
    functions: &[Seq<Body>],
) -> AllocResult<Option<usize>>
    requires { All (λ bodies. AreLevel picks.now bodies) functions.now }
    ensures { IfOk result (λ index. IsFirstHigh picks.now functions.now index) }
{
    for (index, bodies) in functions.iter().enumerate() {
        if !are_low(alloc, picks, bodies.as_slice())? {
            return Ok(Some(index));
        }
    }
    Ok(None)
}

// Whether bodies have at most 256 operands at once.
fn are_low(alloc: Global, picks: &[Seq<u32>], bodies: &[Body]) -> AllocResult<bool>
    requires { AreLevel picks.now bodies.now }
    ensures low { IfOk result (λ low. low ≡ true → AreLow picks.now bodies.now) }
    ensures high { IfOk result (λ low. low ≡ false → IsHigh picks.now bodies.now) }
{
    for body in bodies {
        if !is_low(alloc, picks, body)? {
            return Ok(false);
        }
    }
    Ok(true)
}

// Whether a body has at most 256 operands at once.
fn is_low(alloc: Global, picks: &[Seq<u32>], body: &Body) -> AllocResult<bool>
    requires { IsLevelBody picks.now body.now }
    ensures low { IfOk result (λ low. low ≡ true → IsLow picks.now body.now.code) }
    ensures high { IfOk result (λ low. low ≡ false → ¬ (IsLow picks.now body.now.code)) }
{
    match check_heights(alloc, picks, body.code.as_slice()) {
        Ok(()) => Ok(true),
        Err(CodeFault::TooHigh) => Ok(false),
        Err(CodeFault::Memory) => Err(AllocError),
        Err(CodeFault::Heights) => unreachable!(),
        Err(CodeFault::JumpOut) => unreachable!(),
        Err(CodeFault::Unknown) => unreachable!(),
    }
}
