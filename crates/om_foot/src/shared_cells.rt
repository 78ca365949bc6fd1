//! Cells of a slot that a store shares with what else names them.

ghost use Rattle.std.specs.Prelude.{◌≡◌, IfOk};
ghost use Rattle.om_foot.specs.SharedCells.{cell_in};

use crate::name::Name;
use crate::object::{Cells, SlotName, spot_of};
use crate::shared_object::SharedObject;
use om_seq::AllocResult;
use std::alloc::Global;
use std::marker::Model;

/// Cells of a slot, behind pointers: the first of them, and the one behind the last.
///
/// Contracts see the cells alone.
#[derive(Drop)]
pub struct SharedCells {
    first: SharedObject,
    end: SharedObject,
}

impl Model for SharedCells {
    ghost use Rattle.std.specs.Prelude.{◌≡◌};
    ghost use Rattle.om_foot.specs.SharedCells.{cell_in, cells_before};
    ghost use Rattle.om_foot.specs.declared.object.Cells.{Cells};

    ghost Value = { Cells };

    ghost view = { λ c. cells_before c.end };

    ghost invariant = { λ c. (c.first ≡ cell_in (cells_before c.end) 0)
        × (c.end ≡ cell_in (cells_before c.end) (cells_before c.end).count) };
}

impl SharedCells {
    /// Cells that nothing shares yet. Its only error is out of memory.
    pub fn of(alloc: Global, cells: &Cells) -> AllocResult<SharedCells>
        ensures { IfOk result (λ shared. shared ≡ cells.now) }
    {
        let first = SharedObject::of(alloc, &cells.slot.cell(0))?;
        let end = SharedObject::of(alloc, &cells.slot.cell(cells.count))?;
        Ok(SharedCells { first, end })
    }

    /// The cells.
    pub fn cells(&self) -> Cells
        ensures { result ≡ self.now }
    {
        match spot_of(self.end.get()) {
            Some((slot, count)) => Cells { slot, count },
            None => Cells {
                slot: SlotName {
                    task: Name::empty(),
                    frame: 0,
                    slot: 0,
                },
                count: 0,
            },
        }
    }

    /// The cell of index 0.
    pub fn first(&self) -> &SharedObject
        ensures { result.now ≡ cell_in self.now 0 }
    {
        &self.first
    }

    /// The cell behind the last.
    pub fn end(&self) -> &SharedObject
        ensures { result.now ≡ cell_in self.now self.now.count }
    {
        &self.end
    }

    /// The same cells for one owner more; its only error is out of memory.
    pub fn copy(&self) -> AllocResult<SharedCells>
        ensures { IfOk result (λ shared. shared ≡ self.now) }
    {
        Ok(SharedCells {
            first: self.first.copy()?,
            end: self.end.copy()?,
        })
    }

    /// The cells, shared with these where they are the same ones. Its only error is out of memory.
    pub fn share(&self, alloc: Global, cells: &Cells) -> AllocResult<SharedCells>
        ensures { IfOk result (λ shared. shared ≡ cells.now) }
    {
        let own = self.cells();
        if own.count == cells.count && own.slot == cells.slot {
            self.copy()
        } else {
            SharedCells::of(alloc, cells)
        }
    }
}
