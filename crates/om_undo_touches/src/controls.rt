//! The touches of workers' controls.

ghost use Rattle.std.specs.Prelude.{◌≡◌, ℕ, ◌<◌, false, length, slice_get, OnOk, OnErr};
ghost use Rattle.std.specs.Option.{option_copied};
ghost use Rattle.om_foot.specs.declared.footprint.Mode.{Mode};
ghost use Rattle.om_foot.specs.Firsts.{IsFirst};
ghost use Rattle.om_undo_touches.specs.Touches.{meets_at, has_control_touch, SameControls, ControlsWith, ControlsWithout};

use crate::by_mode::Touches;
use om_foot::Mode;
use om_seq::AllocResult;
use std::alloc::Global;

/// For each worker the touches of its control.
///
/// Contracts see which entry touches a worker's control, and how (`has_control_touch`).
#[derive(Drop)]
pub struct ControlTouches {
    // Those of the first workers; the others have none. Each step touches a control, so these are found
    // by an index.
    workers: Vec<Touches>,
}

// The touches of a worker's control, if it is one of the first workers.
fn touches_of(workers: &[Touches], worker: u8) -> Option<&Touches>
    ensures { option_copied result ≡ slice_get workers.now worker }
{
    workers.get(worker as usize)
}

impl ControlTouches {
    /// No touches. It takes no memory.
    pub(crate) fn new(alloc: Global) -> ControlTouches
        ensures { (w : ℕ) (m : Mode) (s : ℕ) → has_control_touch result w m s ≡ false }
    {
        ControlTouches {
            workers: Vec::new(alloc),
        }
    }

    // Has a place for each worker up to this one. No touch changes, also when out of memory.
    fn know(&mut self, worker: u8) -> AllocResult<()>
        ensures same { SameControls self.old self.new }
        ensures known { OnOk result (worker < length self.new.workers.items) }
    {
        'grow: while self.workers.len() <= worker as usize {
            self.workers.push(Touches::new())?;
        }
        Ok(())
    }

    // Adds a touch of a known worker's control. When out of memory, no touch changes.
    fn add_known(&mut self, alloc: Global, worker: u8, mode: Mode, serial: u64) -> AllocResult<()>
        requires { worker < length self.old.workers.items }
        ensures added { OnOk result (ControlsWith worker mode serial self.old self.new) }
        ensures unchanged_on_error { OnErr result (SameControls self.old self.new) }
    {
        self.workers[worker as usize].add(alloc, mode, serial)
    }

    // Makes a worker known, and adds the first touch of its control. When out of memory, no touch
    // changes.
    fn add_first(&mut self, alloc: Global, worker: u8, mode: Mode, serial: u64) -> AllocResult<()>
        ensures added { OnOk result (ControlsWith worker mode serial self.old self.new) }
        ensures unchanged_on_error { OnErr result (SameControls self.old self.new) }
    {
        self.know(worker)?;
        self.add_known(alloc, worker, mode, serial)
    }

    /// Adds a touch of a worker's control. When out of memory, no touch changes.
    pub(crate) fn add(
        &mut self,
        alloc: Global,
        worker: u8,
        mode: Mode,
        serial: u64,
    ) -> AllocResult<()>
        ensures added { OnOk result (ControlsWith worker mode serial self.old self.new) }
        ensures unchanged_on_error { OnErr result (SameControls self.old self.new) }
    {
        if (worker as usize) < self.workers.len() {
            self.add_known(alloc, worker, mode, serial)
        } else {
            self.add_first(alloc, worker, mode, serial)
        }
    }

    // Takes a touch of a known worker's control out, if it is there. It takes no memory.
    fn remove_known(&mut self, worker: u8, mode: Mode, serial: u64)
        requires { worker < length self.old.workers.items }
        ensures { ControlsWithout worker mode serial self.old self.new }
    {
        self.workers[worker as usize].remove(mode, serial);
    }

    /// Takes a touch of a worker's control out, if it is there. It takes no memory.
    pub(crate) fn remove(&mut self, worker: u8, mode: Mode, serial: u64)
        ensures { ControlsWithout worker mode serial self.old self.new }
    {
        if (worker as usize) < self.workers.len() {
            self.remove_known(worker, mode, serial);
        }
    }

    /// The first touch of a worker's control after a serial that conflicts with an access of the
    /// mode.
    pub(crate) fn first_at(&self, worker: u8, mode: Mode, serial: u64) -> Option<u64>
        ensures { IsFirst (meets_at (has_control_touch self.now worker) mode) serial result }
    {
        match touches_of(&self.workers, worker) {
            Some(touches) => touches.first_conflict(mode, serial),
            None => None,
        }
    }
}
