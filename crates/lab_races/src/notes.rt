//! The last accesses of each variable.

ghost use Rattle.std.specs.Prelude.{◌≡◌, filter, not, IfOk, OnOk};
ghost use Rattle.lab_races.specs.declared.made.Side.{Side};
ghost use Rattle.lab_races.specs.Races.{side_of};
ghost use Rattle.lab_races.specs.Sweeps.{ArePut, IsPut, is_again, items_at};

use crate::alike::is_same_side;
use crate::made::{Made, Side};
use om_foot::{SharedAccess, SharedObject};
use om_seq::AllocResult;
use std::alloc::Global;
use std::collections::BTreeMap;

/// For each variable the last of those accesses of it that read the same and that one worker made.
pub(crate) type Notes = BTreeMap<SharedObject, Vec<Side>>;

/// The notes of a variable.
pub(crate) fn notes_at<'a>(
    notes: &'a BTreeMap<SharedObject, Vec<Side>>,
    object: &SharedObject,
) -> &'a [Side]
    ensures { result.now ≡ items_at notes.now.entries object.now }
{
    match notes.get(object) {
        Some(sides) => sides.as_slice(),
        None => &[],
    }
}

// Whether one worker made two accesses that read the same.
fn is_again(a: &Side, b: &Side) -> bool
    ensures { result ≡ is_again a.now b.now }
{
    a.worker == b.worker && is_same_side(a, b)
}

// These accesses, without those that come again in another one. Its only error is out of memory.
fn without(alloc: Global, sides: &[Side], side: &Side) -> AllocResult<Vec<Side>>
    ensures { IfOk result
        (λ kept. kept.items ≡ filter (λ (s : Side). not (is_again s side.now)) sides.now) }
{
    let mut kept = Vec::new(alloc);
    for other in sides {
        if !is_again(other, side) {
            kept.push(*other)?;
        }
    }
    Ok(kept)
}

// Notes an access of a variable. When out of memory, nothing is said of the notes.
fn put(
    alloc: Global,
    notes: &mut BTreeMap<SharedObject, Vec<Side>>,
    object: &SharedObject,
    side: &Side,
) -> AllocResult<()>
    ensures { OnOk result (IsPut notes.old.entries notes.new.entries object.now side.now) }
{
    let mut sides = without(alloc, notes_at(notes, object), side)?;
    sides.push(*side)?;
    let key = object.copy()?;
    drop(notes.insert(key, sides)?);
    Ok(())
}

/// A step, as a side of a race at which it accesses the variable with this mode.
pub(crate) fn side_of(made: &Made<'_>, access: &SharedAccess) -> Side
    ensures { result ≡ side_of made.now access.now.mode }
{
    Side {
        serial: made.serial,
        worker: made.worker,
        line: made.line,
        manner: made.manner,
        mode: access.mode(),
    }
}

/// Notes a step's accesses of variables. When out of memory, nothing is said of the notes.
pub(crate) fn put_all(
    alloc: Global,
    notes: &mut BTreeMap<SharedObject, Vec<Side>>,
    made: &Made<'_>,
    variables: &[SharedAccess],
) -> AllocResult<()>
    ensures { OnOk result (ArePut notes.old.entries notes.new.entries made.now variables.now) }
{
    for access in variables {
        put(alloc, notes, access.object(), &side_of(made, access))?;
    }
    Ok(())
}
