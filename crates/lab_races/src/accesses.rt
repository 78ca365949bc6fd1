//! What a step touched, one by one.

ghost use Rattle.std.specs.Prelude.{◌≡◌, ◌++◌, filter, IfOk, OnOk};
ghost use Rattle.om_foot.specs.declared.footprint.Access.{Access};
ghost use Rattle.om_foot.specs.Cells.{cells_listed, cells_of};
ghost use Rattle.lab_races.specs.Orders.{accesses_of, does_order, is_atomic, is_data, orders_by};

use crate::made::{Made, Manner};
use om_foot::{Cells, Mode, Obj, SharedAccess, SharedCells, SharedObject};
use om_seq::AllocResult;
use std::alloc::Global;

// Adds copies of accesses. When out of memory, nothing is said of the list.
fn push_copies(all: &mut Vec<SharedAccess>, more: &[SharedAccess]) -> AllocResult<()>
    ensures { OnOk result (all.new.items ≡ all.old.items ++ more.now) }
{
    for access in more {
        all.push(access.copy()?)?;
    }
    Ok(())
}

// The write of an object. Its only error is out of memory.
fn write_of(alloc: Global, object: &Obj) -> AllocResult<SharedAccess>
    ensures { IfOk result (λ access. access ≡ record { object = object.now; mode = Mode.Write }) }
{
    let object = SharedObject::of(alloc, object)?;
    SharedAccess::of(alloc, object, Mode::Write)
}

// Adds the writes of these cells. When out of memory, nothing is said of the list.
fn push_slot(alloc: Global, all: &mut Vec<SharedAccess>, cells: &Cells) -> AllocResult<()>
    ensures { OnOk result (all.new.items ≡ all.old.items ++ cells_of cells.now) }
{
    for index in 0..cells.count {
        all.push(write_of(alloc, &cells.slot.cell(index))?)?;
    }
    Ok(())
}

// Adds the writes of cells that are named at once. When out of memory, nothing is said of the list.
fn push_cells(alloc: Global, all: &mut Vec<SharedAccess>, slots: &[SharedCells]) -> AllocResult<()>
    ensures { OnOk result (all.new.items ≡ all.old.items ++ cells_listed slots.now) }
{
    for slot in slots {
        push_slot(alloc, all, &slot.cells())?;
    }
    Ok(())
}

/// What a step touched: its worker's control first. Its only error is out of memory.
pub(crate) fn listed(alloc: Global, made: &Made<'_>) -> AllocResult<Vec<SharedAccess>>
    ensures { IfOk result (λ all. all.items ≡ accesses_of made.now) }
{
    let mut all = Vec::new(alloc);
    all.push(write_of(alloc, &Obj::Control(made.worker))?)?;
    push_copies(&mut all, made.first)?;
    push_cells(alloc, &mut all, made.cells)?;
    push_copies(&mut all, made.last)?;
    Ok(all)
}

// Whether an object is a cell of a variable.
fn is_data(object: &Obj) -> bool
    ensures { result ≡ is_data object.now }
{
    matches!(object, Obj::Cell { .. } | Obj::Global { .. })
}

// Whether an object orders the steps that touch it.
fn does_order(object: &Obj) -> bool
    ensures { result ≡ does_order object.now }
{
    match object {
        Obj::Control(_)
        | Obj::Task(_)
        | Obj::Kids(_)
        | Obj::Pending { .. }
        | Obj::Arrived { .. }
        | Obj::Lock(_)
        | Obj::Group(_) => true,
        Obj::Cell { .. } | Obj::Global { .. } | Obj::Work { .. } | Obj::Output | Obj::Events(_) =>
            false,
    }
}

/// Whether accesses of this manner are under `atomic`.
pub(crate) fn is_atomic(manner: Manner) -> bool
    ensures { result ≡ is_atomic manner }
{
    match manner {
        Manner::Atomic => true,
        Manner::Plain | Manner::Reduction | Manner::Ending => false,
    }
}

// Whether an access may order a step.
fn orders_by(manner: Manner, access: &SharedAccess) -> bool
    ensures { result ≡ orders_by manner access.now }
{
    let object = access.object().get();
    does_order(object) || (is_atomic(manner) && is_data(object))
}

/// Those of a step's accesses that may order it. Its only error is out of memory.
pub(crate) fn ordering_of(
    alloc: Global,
    manner: Manner,
    all: &[SharedAccess],
) -> AllocResult<Vec<SharedAccess>>
    ensures { IfOk result (λ some. some.items ≡ filter (orders_by manner) all.now) }
{
    let mut some = Vec::new(alloc);
    for access in all {
        if orders_by(manner, access) {
            some.push(access.copy()?)?;
        }
    }
    Ok(some)
}

/// Those of a step's accesses that are of variables. Its only error is out of memory.
pub(crate) fn data_of(alloc: Global, all: &[SharedAccess]) -> AllocResult<Vec<SharedAccess>>
    ensures { IfOk result
        (λ some. some.items ≡ filter (λ (a : Access). is_data a.object) all.now) }
{
    let mut some = Vec::new(alloc);
    for access in all {
        if is_data(access.object().get()) {
            some.push(access.copy()?)?;
        }
    }
    Ok(some)
}
