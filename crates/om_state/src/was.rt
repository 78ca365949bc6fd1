//! The values that cells held, noted run by run.

ghost use Rattle.std.specs.Prelude.{◌≡◌, ◌++◌, ◌∷◌, [], IfOk, OnOk};
ghost use Rattle.om_state.specs.Runs.{were_listed};
ghost use Rattle.om_state.specs.declared.step.Update.TheVariants as update;
ghost use Rattle.om_state.specs.declared.value.Val.TheVariants as value;

use crate::value::{Run, Val, Was};
use om_code::frame::Cell;
use om_seq::{AllocResult, Seq};
use std::alloc::Global;
use std::marker::Model;

/// What cells held, noted one by one. Values that are alike are counted.
///
/// Contracts see the put of each value.
#[derive(Drop)]
pub struct Noted {
    was: Seq<Was>,
    run: Run,
}

impl Model for Noted {
    ghost use Rattle.std.specs.Prelude.{List, ◌++◌};
    ghost use Rattle.om_state.specs.Runs.{were_listed, run_puts};
    ghost use Rattle.om_state.specs.declared.step.Update.{Update};

    ghost Value = { List Update };

    ghost view = { λ n. were_listed n.was ++ run_puts n.run };
}

impl Noted {
    /// No values. It takes no memory.
    pub fn new(alloc: Global) -> Noted
        ensures { result ≡ [] }
    {
        Noted {
            was: Seq::new(alloc),
            run: Run {
                cell: Cell::Unset,
                count: 0,
            },
        }
    }

    /// Notes a value behind the others. Its only error is out of memory; then no more is said of them.
    pub fn note(&mut self, alloc: Global, value: &Val) -> AllocResult<()>
        ensures { OnOk result (self.new ≡ self.old ++ update.Put value.now ∷ []) }
    {
        if let Val::Cell(cell) = value {
            return self.note_cell(*cell);
        }
        let copy = value.copy(alloc)?;
        self.was.push(Was::Cells(self.run))?;
        self.run.count = 0;
        self.was.push(Was::Value(copy))
    }

    // Notes a cell behind the others.
    fn note_cell(&mut self, cell: Cell) -> AllocResult<()>
        ensures { OnOk result (self.new ≡ self.old ++ update.Put (value.Cell cell) ∷ []) }
    {
        if self.run.cell == cell && self.run.count < u32::MAX {
            self.run.count += 1;
            return Ok(());
        }
        self.was.push(Was::Cells(self.run))?;
        self.run = Run { cell, count: 1 };
        Ok(())
    }

    /// What is noted. Its only error is out of memory.
    pub fn into_seq(self) -> AllocResult<Seq<Was>>
        ensures { IfOk result (λ was. were_listed was ≡ self) }
    {
        let Noted { was, run } = self;
        let mut all = was;
        all.push(Was::Cells(run))?;
        Ok(all)
    }
}
