//! A machine that makes given steps again.

ghost use Rattle.std.specs.Prelude.{◌≡◌, ◌≤◌, ◌+◌, ◌^◌, IfOk};
ghost use Rattle.om_undo.specs.Machines.{at_start};
ghost use Rattle.lab_explore_ways.specs.Ways.{IsOfSame};

use om_code::Program;
use om_seq::AllocResult;
use om_state::Choice;
use om_undo::{Entry, Machine};
use std::alloc::Global;

// How many steps a machine makes in its life. There are far more serials.
const MOST_STEPS: u64 = 1 << 62;

/// A machine that makes given steps again, from its start.
#[derive(Drop)]
pub struct Retracer {
    machine: Machine,
    // How many further steps there may be, so that serials fit.
    left: u64,
    ghost few_made: { machine.history.made + left ≤ 2 ^ 63 },
}

impl Retracer {
    /// A machine at the start of a program, with 1 to 32 workers. Its only error is out of memory.
    pub fn new(alloc: Global, program: Program, workers: u8) -> AllocResult<Retracer>
        requires at_least_one { 1 ≤ workers }
        requires at_most_32 { workers ≤ 32 }
        ensures { IfOk result (λ it. it.machine ≡ at_start program workers) }
    {
        let machine = Machine::new(alloc, program, workers)?;
        Ok(Retracer {
            machine,
            left: MOST_STEPS,
        })
    }

    /// The machine.
    pub fn machine(&self) -> &Machine
        ensures { result.now ≡ self.now.machine }
    {
        &self.machine
    }

    /// Makes these steps from the start, as far as each can be made: one that can't be is left out. It stays a machine
    /// of the same program and workers, also when out of memory, which is the only error.
    pub fn follow(&mut self, alloc: Global, steps: &[Entry]) -> AllocResult<()>
        ensures { IsOfSame self.old.machine self.new.machine }
    {
        self.rewind(alloc)?;
        for step in steps {
            self.make(alloc, step.worker, step.choice)?;
        }
        Ok(())
    }

    /// Makes a step of a worker, where it can be made. It stays a machine of the same program and workers, also when out
    /// of memory, which is the only error.
    pub fn make(&mut self, alloc: Global, worker: u8, choice: Choice) -> AllocResult<()>
        ensures { IsOfSame self.old.machine self.new.machine }
    {
        if self.left == 0 || worker >= self.machine.workers() {
            return Ok(());
        }
        self.left -= 1;
        let _ = self.machine.step(alloc, worker, choice)?;
        Ok(())
    }

    // Takes all steps back, the last first.
    fn rewind(&mut self, alloc: Global) -> AllocResult<()>
        ensures { IsOfSame self.old.machine self.new.machine }
    {
        let mut entries = self.machine.history(alloc)?;
        while let Some(entry) = entries.pop() {
            if entry.worker < self.machine.workers() {
                let _ = self.machine.undo(entry.worker);
            }
        }
        Ok(())
    }
}
