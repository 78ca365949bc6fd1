//! A machine of two workers, whose steps are counted.

ghost use Rattle.std.specs.Prelude.{◌≡◌, ◌<◌, ◌≤◌};

use om_frontend::program_of;
use om_seq::{AllocResult, Seq};
use om_state::Label;
use om_undo::{Machine, RollReply, StepReply, UndoReply};
use std::alloc::{AllocError, Global};

// How many steps are asked for at most.
const MOST_STEPS: u64 = 1_000_000;

/// A machine of two workers.
#[derive(Drop)]
pub(crate) struct MachineOfTwo {
    machine: Machine,
    // How many steps were asked for.
    asked: u64,
    ghost two: { machine.workers ≡ 2 },
    ghost few: { machine.history.made ≤ asked },
}

impl MachineOfTwo {
    /// The machine at the start of a source; `None` where it is refused, or there is no memory.
    pub(crate) fn of(alloc: Global, source: &[u8]) -> Option<MachineOfTwo> {
        let program = program_of(alloc, source).ok()?;
        let machine = Machine::new(alloc, program, 2).ok()?;
        Some(MachineOfTwo { machine, asked: 0 })
    }

    /// The machine.
    pub(crate) fn machine(&self) -> &Machine {
        &self.machine
    }

    /// The step of a label.
    pub(crate) fn step(&mut self, alloc: Global, label: &Label) -> AllocResult<StepReply>
        requires { label.now.worker < 2 }
    {
        if self.asked >= MOST_STEPS {
            return Err(AllocError);
        }
        self.asked += 1;
        self.machine.step(alloc, label.worker, label.choice)
    }

    /// The undo of a worker's last step.
    pub(crate) fn undo(&mut self, worker: u8) -> UndoReply
        requires { worker < 2 }
    {
        self.machine.undo(worker)
    }

    /// The roll of an entry, by `roll`.
    pub(crate) fn roll(&mut self, alloc: Global, serial: u64) -> AllocResult<RollReply> {
        self.machine.roll(alloc, serial)
    }

    /// The roll of an entry, by `cone` and `take_out`.
    pub(crate) fn roll_by_cone(&mut self, alloc: Global, serial: u64) -> AllocResult<RollReply> {
        let Some(cone) = self.machine.cone(alloc, serial)? else {
            return Ok(RollReply::NoEntry);
        };
        self.machine.take_out(&cone);
        Ok(RollReply::Rolled(Seq::of(cone)))
    }
}
