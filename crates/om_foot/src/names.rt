//! What a step names beside its worker's control.

ghost use Rattle.std.specs.Prelude.{◌≡◌, ◌++◌, ◌∷◌, [], IfOk, OnOk};
ghost use Rattle.om_foot.specs.declared.footprint.Access.{Access};
ghost use Rattle.om_foot.specs.Cells.{cell_access, cells_of, cells_listed, boxed_list};

use crate::footprint::{Access, Mode};
use crate::object::{Cells, SlotName};
use om_seq::{AllocResult, Seq};
use std::alloc::Global;
use std::marker::Model;

// What is named behind the single objects in front: cells of slots that are named at once, and single
// objects behind those.
#[derive(Drop)]
struct Behind {
    cells: Seq<Cells>,
    last: Seq<Access>,
}

impl Model for Behind {
    ghost use Rattle.std.specs.Prelude.{List, ◌++◌};
    ghost use Rattle.om_foot.specs.declared.footprint.Access.{Access};
    ghost use Rattle.om_foot.specs.Cells.{cells_listed};

    ghost Value = { List Access };

    ghost view = { λ b. cells_listed b.cells ++ b.last };
}

/// What a step names beside its worker's control: single objects, then cells of slots that are named at
/// once, then single objects again.
///
/// Contracts see the accesses alone, those of named cells one by one.
pub struct Names {
    alloc: Global,
    first: Seq<Access>,
    // In a box, as most steps have none: what a step names is moved often.
    behind: Option<Box<Behind>>,
}

// By hand: other crates call this, and do not prove anew how each part is dropped.
impl Drop for Names {
    fn drop(self) {
        let Names {
            alloc: _,
            first,
            behind,
        } = self;
        drop(first);
        drop(behind);
    }
}

impl Model for Names {
    ghost use Rattle.std.specs.Prelude.{List, ◌++◌};
    ghost use Rattle.om_foot.specs.declared.footprint.Access.{Access};
    ghost use Rattle.om_foot.specs.Cells.{boxed_list};

    ghost Value = { List Access };

    ghost view = { λ n. n.first ++ boxed_list n.behind };
}

// From how many cells on those of a slot are named at once.
const MANY: u32 = 8;

// Appends an access. It is taken apart for the prover alone.
fn list_access(names: &mut Seq<Access>, access: &Access) -> AllocResult<()>
    ensures { OnOk result (names.new ≡ names.old ++ access.now ∷ []) }
{
    let Access { object, mode } = *access;
    names.push(Access { object, mode })
}

// Appends a cell of a slot. It stands apart, as an access is large.
#[inline(never)]
fn list_cell(names: &mut Seq<Access>, slot: &SlotName, index: u32) -> AllocResult<()>
    ensures { OnOk result (names.new ≡ names.old ++ cell_access slot.now index ∷ []) }
{
    names.push(Access {
        object: slot.cell(index),
        mode: Mode::Write,
    })
}

// Appends the access of each of these cells.
fn list_cells(names: &mut Seq<Access>, cells: &Cells) -> AllocResult<()>
    ensures { OnOk result (names.new ≡ names.old ++ cells_of cells.now) }
{
    for index in 0..cells.count {
        list_cell(names, &cells.slot, index)?;
    }
    Ok(())
}

// Appends the access of each cell of all of these.
fn list_each(names: &mut Seq<Access>, all: &[Cells]) -> AllocResult<()>
    ensures { OnOk result (names.new ≡ names.old ++ cells_listed all.now) }
{
    for cells in all {
        list_cells(names, cells)?;
    }
    Ok(())
}

impl Behind {
    // Appends an access. When out of memory, no more is said of the names.
    fn push(&mut self, access: &Access) -> AllocResult<()>
        ensures { OnOk result (self.new ≡ self.old ++ access.now ∷ []) }
    {
        list_access(&mut self.last, access)
    }

    // Appends cells of a slot, at once where no single object stands behind the others. When out of
    // memory, no more is said of the names.
    fn push_cells(&mut self, cells: &Cells) -> AllocResult<()>
        ensures { OnOk result (self.new ≡ self.old ++ cells_of cells.now) }
    {
        if self.last.is_empty() {
            self.cells.push(*cells)
        } else {
            list_cells(&mut self.last, cells)
        }
    }
}

// Appends cells of a slot to single objects, or answers what stands behind these where the cells are
// many.
fn begun(alloc: Global, first: &mut Seq<Access>, cells: &Cells) -> AllocResult<Option<Box<Behind>>>
    ensures { IfOk result
        (λ behind. first.new ++ boxed_list behind ≡ first.old ++ cells_of cells.now) }
{
    if cells.count < MANY {
        list_cells(first, cells)?;
        return Ok(None);
    }
    let cells = Seq::one(alloc, *cells)?;
    let last = Seq::new(alloc);
    Ok(Some(Box::new(alloc, Behind { cells, last })?))
}

impl Names {
    /// No objects. It takes no memory.
    pub fn new(alloc: Global) -> Names
        ensures { result ≡ [] }
    {
        Names::of(alloc, Seq::new(alloc))
    }

    /// These objects. It takes no memory.
    pub fn of(alloc: Global, first: Seq<Access>) -> Names
        ensures { result ≡ first }
    {
        Names {
            alloc,
            first,
            behind: None,
        }
    }

    /// The single objects in front, the cells behind them, and the single objects behind those.
    pub fn parts(&self) -> (&[Access], &[Cells], &[Access])
        ensures { self.now ≡ result.0.now ++ (cells_listed result.1.now ++ result.2.now) }
    {
        match &self.behind {
            None => (self.first.as_slice(), &[], &[]),
            Some(behind) => {
                let behind: &Behind = behind;
                let (cells, last) = (behind.cells.as_slice(), behind.last.as_slice());
                (self.first.as_slice(), cells, last)
            }
        }
    }

    /// Appends an access. Its only error is out of memory; then no more is said of the names.
    pub fn push(&mut self, access: &Access) -> AllocResult<()>
        ensures { OnOk result (self.new ≡ self.old ++ access.now ∷ []) }
    {
        match &mut self.behind {
            None => list_access(&mut self.first, access),
            Some(behind) => behind.push(access),
        }
    }

    /// Appends cells of a slot, at once where they are many or stand behind others that are. Its only
    /// error is out of memory; then no more is said of the names.
    pub fn push_cells(&mut self, cells: &Cells) -> AllocResult<()>
        ensures { OnOk result (self.new ≡ self.old ++ cells_of cells.now) }
    {
        match &mut self.behind {
            Some(behind) => behind.push_cells(cells),
            None => {
                self.behind = begun(self.alloc, &mut self.first, cells)?;
                Ok(())
            }
        }
    }

    // Appends these accesses.
    fn push_each(&mut self, others: &[Access]) -> AllocResult<()>
        ensures { OnOk result (self.new ≡ self.old ++ others.now) }
    {
        for access in others {
            self.push(access)?;
        }
        Ok(())
    }

    /// Appends all that other names name. Its only error is out of memory; then no more is said of the
    /// names.
    pub fn push_all(&mut self, others: &Names) -> AllocResult<()>
        ensures { OnOk result (self.new ≡ self.old ++ others.now) }
    {
        let (first, cells, last) = others.parts();
        self.push_each(first)?;
        self.push_each_of(cells)?;
        self.push_each(last)
    }

    // Appends the cells of each of these.
    fn push_each_of(&mut self, others: &[Cells]) -> AllocResult<()>
        ensures { OnOk result (self.new ≡ self.old ++ cells_listed others.now) }
    {
        for cells in others {
            self.push_cells(cells)?;
        }
        Ok(())
    }

    /// Each access by itself. Its only error is out of memory.
    pub fn into_seq(self) -> AllocResult<Seq<Access>>
        ensures { IfOk result (λ all. all ≡ self) }
    {
        let Names {
            alloc: _,
            first,
            behind,
        } = self;
        let mut all = first;
        if let Some(behind) = behind {
            let Behind { cells, last } = Box::into_inner(behind);
            list_each(&mut all, cells.as_slice())?;
            all.append(last)?;
        }
        Ok(all)
    }
}
