//! The accesses of a step, as its record keeps them and as the lists of touches take them.

ghost use Rattle.std.specs.Prelude.{◌≡◌, ◌∷◌, ◌++◌, [], IfOk};
ghost use Rattle.om_foot.specs.Cells.{cells_listed};
ghost use Rattle.om_undo_touches.specs.Accesses.{control_write, accesses_of};

use om_foot::{Access, Mode, Obj, SharedAccess, SharedCells};
use om_seq::{AllocResult, Seq};
use std::alloc::Global;
use std::marker::Model;
use std::slice::from_ref;

// Single accesses, then cells that are named at once, then single accesses again.
#[derive(Drop)]
struct InParts {
    first: Seq<SharedAccess>,
    cells: Seq<SharedCells>,
    last: Seq<SharedAccess>,
}

// What a step touches beside the control of its worker: nothing or one object nearly always, else any number
// of them and of cells that are named at once. The worker stands in each form: so they take 16 bytes.
#[derive(Drop)]
enum Forms {
    Nothing { worker: u8 },
    One { worker: u8, access: SharedAccess },
    Parts { worker: u8, parts: Box<InParts> },
}

/// The accesses of a step. The first one is always the write of its worker's control, so only the worker's
/// number is kept for it: a step that touches nothing else, or one object alone, takes no memory of its own.
/// The cells of an array are named at once, by their slot.
///
/// Contracts see the worker and the three parts behind its control; `accesses_of` has the accesses, those
/// of named cells one by one.
pub struct Accesses {
    forms: Forms,
}

// By hand: other crates call this, and do not prove anew how each part is dropped.
impl Drop for Accesses {
    fn drop(self) {
        let Accesses { forms } = self;
        drop(forms);
    }
}

impl Model for Accesses {
    ghost use Rattle.om_undo_touches.specs.Accesses.{Parts, parts_in};

    ghost Value = { Parts };

    ghost view = { λ a. parts_in a.forms };
}

impl Accesses {
    /// The write of a worker's control alone. It takes no memory.
    pub fn control_alone(worker: u8) -> Accesses
        ensures { result ≡ record { worker = worker; first = []; cells = []; last = [] } }
    {
        Accesses {
            forms: Forms::Nothing { worker },
        }
    }

    /// The write of a worker's control, and one access behind it. It takes no memory.
    pub fn one(worker: u8, access: SharedAccess) -> Accesses
        ensures { result ≡ record { worker = worker; first = access ∷ []; cells = []; last = [] } }
    {
        Accesses {
            forms: Forms::One { worker, access },
        }
    }

    /// The write of a worker's control, and behind it single accesses, then cells that are named at once,
    /// then single accesses again. Its only error is out of memory; then they are gone.
    pub fn of_parts(
        alloc: Global,
        worker: u8,
        first: Vec<SharedAccess>,
        cells: Seq<SharedCells>,
        last: Vec<SharedAccess>,
    ) -> AllocResult<Accesses>
        ensures { IfOk result
            (λ a. a ≡ record { worker = worker; first = first.items; cells = cells; last = last.items }) }
    {
        let parts = InParts {
            first: Seq::of(first),
            cells,
            last: Seq::of(last),
        };
        let parts = Box::new(alloc, parts)?;
        Ok(Accesses {
            forms: Forms::Parts { worker, parts },
        })
    }

    /// The worker whose control is written, from 0.
    pub fn worker(&self) -> u8
        ensures { result ≡ self.now.worker }
    {
        match &self.forms {
            Forms::Nothing { worker } => *worker,
            Forms::One { worker, .. } => *worker,
            Forms::Parts { worker, .. } => *worker,
        }
    }

    /// The write of the worker's control.
    pub(crate) fn control(&self) -> Access
        ensures { result ≡ control_write self.now.worker }
    {
        Access {
            object: Obj::Control(self.worker()),
            mode: Mode::Write,
        }
    }

    /// Behind the control: the single accesses in front, the cells behind them, and the single accesses
    /// behind those. It takes no memory.
    pub fn parts(&self) -> (&[SharedAccess], &[SharedCells], &[SharedAccess])
        ensures all { accesses_of self.now ≡ control_write self.now.worker
            ∷ (result.0.now ++ (cells_listed result.1.now ++ result.2.now)) }
        ensures first { result.0.now ≡ self.now.first }
        ensures cells { result.1.now ≡ self.now.cells }
        ensures last { result.2.now ≡ self.now.last }
    {
        match &self.forms {
            Forms::Nothing { .. } => (&[], &[], &[]),
            Forms::One { access, .. } => (from_ref(access), &[], &[]),
            Forms::Parts { parts, .. } => (
                parts.first.as_slice(),
                parts.cells.as_slice(),
                parts.last.as_slice(),
            ),
        }
    }
}
