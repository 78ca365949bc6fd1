//! The slots of a body, and those that values are given to.

ghost use Rattle.std.specs.Prelude.{◌≡◌, ◌≤◌, length, map};
ghost use Rattle.std.specs.List.{list_any};
ghost use Rattle.om_lower_rules.specs.Slots.{MakesSlots, is_shared, parameter_sight, shares, source_of};
ghost use Rattle.om_lower_rules.specs.Copies.{GivesSlots, copied_variables, first_copies_of};

use crate::copies::FirstCopy;
use crate::extents::Extents;
use crate::variables::Variables;
use om_code::raw::{Slot, Source};
use om_scope_tree::{Capture, LocalVariable, Taking};
use om_seq::{AllocResult, Seq};
use std::alloc::Global;

/// The slots of a body with these variables, in the body round it.
pub fn slots_with(
    alloc: Global,
    extents: &Extents,
    outer: &Variables,
    captures: &[Capture],
    variables: &Variables,
) -> AllocResult<Seq<Slot>>
    requires { length outer.now ≤ 256 }
    ensures { MakesSlots result extents.now outer.now captures.now variables.now }
{
    let mut slots = Vec::new(alloc);
    for variable in variables.as_slice() {
        slots.push(Slot {
            cells: extents.cells(*variable),
            source: source_of(outer, captures, *variable),
        })?;
    }
    Ok(Seq::of(slots))
}

// Where a variable of a body has its cells.
fn source_of(outer: &Variables, captures: &[Capture], variable: u32) -> Source
    requires { length outer.now ≤ 256 }
    ensures { result ≡ source_of outer.now captures.now variable }
{
    if is_shared(captures, variable) {
        Source::Outer(outer.slot_of(variable) as u32)
    } else {
        Source::Own
    }
}

// Whether a region shares a variable from outside.
fn is_shared(captures: &[Capture], variable: u32) -> bool
    ensures { result ≡ list_any (shares variable) captures.now }
{
    captures.iter().any(|capture| shares(variable, *capture))
}

// Whether it is this variable that a region takes and shares.
fn shares(variable: u32, capture: Capture) -> bool
    ensures { result ≡ shares variable capture }
{
    capture.variable == variable && matches!(capture.taking, Taking::Shared)
}

/// The slots of parameters.
pub fn parameter_slots(
    alloc: Global,
    variables: &Variables,
    parameters: &[LocalVariable],
) -> AllocResult<Seq<u32>>
    requires { length variables.now ≤ 256 }
    ensures { GivesSlots result variables.now (map parameter_sight parameters.now) }
{
    let mut slots = Vec::new(alloc);
    for parameter in parameters {
        slots.push(variables.slot_of(parameter.at) as u32)?;
    }
    Ok(Seq::of(slots))
}

/// The slots of copies.
pub fn copy_slots(
    alloc: Global,
    variables: &Variables,
    copies: &[FirstCopy],
) -> AllocResult<Seq<u32>>
    requires { length variables.now ≤ 256 }
    ensures { GivesSlots result variables.now (copied_variables (first_copies_of copies.now)) }
{
    let mut slots = Vec::new(alloc);
    for copy in copies {
        slots.push(variables.slot_of(copy.variable) as u32)?;
    }
    Ok(Seq::of(slots))
}
