//! What is put at the objects that instructions name.

ghost use Rattle.std.specs.Prelude.{◌≡◌, ◌++◌, ◌∷◌, [], IfOk, OnOk};
ghost use Rattle.om_foot.specs.Cells.{cells_listed};
ghost use Rattle.om_team_serial.specs.Objects.{puts, same_puts, deaths, event};
ghost use Rattle.om_state.specs.declared.value.Val.TheVariants as value;

use om_code::frame::Cell;
use om_events::Record;
use om_foot::{Access, Cells, Names};
use om_seq::{AllocResult, Seq};
use om_state::{Puts, Run, Tail, Update, Val};
use std::alloc::Global;

/// Appends a put of a cell.
pub fn put_cell(updates: &mut Puts, cell: Cell) -> AllocResult<()>
    ensures { OnOk result (updates.new ≡ updates.old ++ Update.Put (value.Cell cell) ∷ []) }
{
    updates.push(Update::Put(Val::Cell(cell)))
}

/// Appends puts of ints.
pub fn put_ints(updates: &mut Puts, ints: &[i32]) -> AllocResult<()>
    ensures { OnOk result (updates.new ≡ updates.old ++ puts ints.now) }
{
    for value in ints {
        put_cell(updates, Cell::Int(*value))?;
    }
    Ok(())
}

// Appends puts of a cell, one for each of these accesses.
fn put_single(updates: &mut Puts, cell: Cell, names: &[Access]) -> AllocResult<()>
    ensures { OnOk result (updates.new ≡ updates.old ++ same_puts cell names.now) }
{
    for _name in names {
        updates.push(Update::Put(Val::Cell(cell)))?;
    }
    Ok(())
}

// Appends runs of puts of a cell, one for the cells of each of these.
fn put_runs(updates: &mut Puts, cell: Cell, names: &[Cells]) -> AllocResult<()>
    ensures { OnOk result (updates.new ≡ updates.old ++ same_puts cell (cells_listed names.now)) }
{
    for cells in names {
        updates.push_run(Run {
            cell,
            count: cells.count,
        })?;
    }
    Ok(())
}

/// Appends puts of a cell, one for each of these names, at once for those that are named at once. Its only
/// error is out of memory.
pub(crate) fn put_each(updates: &mut Puts, cell: Cell, names: &Names) -> AllocResult<()>
    ensures { OnOk result (updates.new ≡ updates.old ++ same_puts cell names.now) }
{
    let (first, cells, last) = names.parts();
    put_single(updates, cell, first)?;
    put_runs(updates, cell, cells)?;
    put_single(updates, cell, last)
}

/// Appends the deaths of cells, one for each of these names.
pub fn put_deaths(updates: &mut Puts, names: &Names) -> AllocResult<()>
    ensures { OnOk result (updates.new ≡ updates.old ++ deaths names.now) }
{
    put_each(updates, Cell::Dead, names)
}

/// Appends that an event record is appended.
pub fn put_event(alloc: Global, updates: &mut Puts, entry: Record) -> AllocResult<()>
    ensures { OnOk result (updates.new ≡ updates.old ++ event entry ∷ []) }
{
    let records = Seq::one(alloc, entry)?;
    updates.push(Update::Append(Tail::Events(records)))
}
