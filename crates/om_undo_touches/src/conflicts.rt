//! Where the accesses of two steps conflict.

ghost use Rattle.std.specs.Prelude.{◌≡◌};
ghost use Rattle.om_foot.specs.Footprint.{conflicts_with_any, conflict_of};
ghost use Rattle.om_foot.specs.Cells.{cells_of, cells_listed};
ghost use Rattle.om_undo_touches.specs.Accesses.{accesses_of};

use crate::accesses::Accesses;
use om_foot::object::spot_of;
use om_foot::{Access, Cells, Mode, Obj, SharedAccess, SharedCells, is_in_conflict};

// Whether an access conflicts with one of these.
fn meets_one_of(access: &Access, others: &[SharedAccess]) -> bool
    ensures { result ≡ conflicts_with_any access.now others.now }
{
    for other in others {
        if is_in_conflict(access, &other.access()) {
            return true;
        }
    }
    false
}

// Whether an access conflicts with one of the first cells of a slot, written. That could be the cell of
// its own index alone, so no other one is looked at.
fn meets_slot(access: &Access, cells: &Cells) -> bool
    ensures { result ≡ conflicts_with_any access.now (cells_of cells.now) }
{
    let Some((_, index)) = spot_of(&access.object) else {
        return false;
    };
    let cell = Access {
        object: cells.slot.cell(index),
        mode: Mode::Write,
    };
    index < cells.count && is_in_conflict(access, &cell)
}

// Whether an access conflicts with one of these cells.
fn meets_cells(access: &Access, others: &[SharedCells]) -> bool
    ensures { result ≡ conflicts_with_any access.now (cells_listed others.now) }
{
    for other in others {
        if meets_slot(access, &other.cells()) {
            return true;
        }
    }
    false
}

// Whether an access conflicts with one of a footprint.
fn meets_any(access: &Access, others: &Accesses) -> bool
    ensures { result ≡ conflicts_with_any access.now (accesses_of others.now) }
{
    let (first, cells, last) = others.parts();
    is_in_conflict(access, &others.control())
        || (meets_one_of(access, first)
            || (meets_cells(access, cells) || meets_one_of(access, last)))
}

// The first object of `first` at which it conflicts with a footprint.
fn conflict_at(first: &[SharedAccess], others: &Accesses) -> Option<Obj>
    ensures { result ≡ conflict_of first.now (accesses_of others.now) }
{
    for shared in first {
        let access = shared.access();
        if meets_any(&access, others) {
            return Some(access.object);
        }
    }
    None
}

// The first of the first cells of a slot at which a footprint conflicts with a write of them.
fn conflict_in_slot(cells: &Cells, others: &Accesses) -> Option<Obj>
    ensures { result ≡ conflict_of (cells_of cells.now) (accesses_of others.now) }
{
    for index in 0..cells.count {
        let access = Access {
            object: cells.slot.cell(index),
            mode: Mode::Write,
        };
        if meets_any(&access, others) {
            return Some(access.object);
        }
    }
    None
}

// The first of these cells at which a footprint conflicts with a write of them.
fn conflict_in_cells(all: &[SharedCells], others: &Accesses) -> Option<Obj>
    ensures { result ≡ conflict_of (cells_listed all.now) (accesses_of others.now) }
{
    for cells in all {
        match conflict_in_slot(&cells.cells(), others) {
            Some(object) => return Some(object),
            None => {}
        }
    }
    None
}

/// The first object of `first` at which two footprints conflict, as `om_foot::conflict` has it; `None`
/// where they don't. It takes no memory.
pub fn conflict(first: &Accesses, others: &Accesses) -> Option<Obj>
    ensures { result ≡ conflict_of (accesses_of first.now) (accesses_of others.now) }
{
    let control = first.control();
    if meets_any(&control, others) {
        return Some(control.object);
    }
    let (singles, cells, last) = first.parts();
    match conflict_at(singles, others) {
        Some(object) => Some(object),
        None => match conflict_in_cells(cells, others) {
            Some(object) => Some(object),
            None => conflict_at(last, others),
        },
    }
}
