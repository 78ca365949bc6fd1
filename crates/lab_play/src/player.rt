//! A machine that is played forwards, and wound back to its start.

ghost use Rattle.std.specs.Prelude.{◌≡◌, ◌<◌, ◌≤◌, ◌+◌, ◌^◌, [], slice_index, EachIndex, IfOk};
ghost use Rattle.lab_play.specs.Entries.{workers_of};
ghost use Rattle.om_undo.specs.Machines.{at_start};

use crate::sought::Finish;
use om_code::Program;
use om_foot::Name;
use om_seq::AllocResult;
use om_state::{Choice, Label};
use om_undo::{Machine, StepReply};
use std::alloc::{AllocError, Global};

// How many steps a player makes in its life. There are far more serials.
const MOST_STEPS: u64 = 1 << 62;

/// What came of a step that was tried.
#[derive(Clone, Copy, PartialEq)]
pub(crate) enum Attempt {
    /// It can't be made.
    Not,
    /// It was made.
    Made,
    /// It was made, and its worker met a fault.
    Faulted,
}

/// A machine that is played forwards, and wound back to its start.
#[derive(Drop)]
pub(crate) struct Player {
    pub(crate) machine: Machine,
    // The workers of the steps that stand, in their order.
    made: Vec<u8>,
    // How many further steps there may be, so that serials fit.
    left: u64,
    ghost few_made: { machine.history.made + left ≤ 2 ^ 63 },
    ghost stand: { made.items ≡ workers_of machine.history.entries },
    ghost in_range: { EachIndex made.items (λ k. slice_index made.items k < machine.workers) },
}

impl Player {
    /// A player at the start of a program, with 1 to 32 workers. Its only error is out of memory.
    pub(crate) fn new(alloc: Global, program: Program, workers: u8) -> AllocResult<Player>
        requires at_least_one { 1 ≤ workers }
        requires at_most_32 { workers ≤ 32 }
        ensures { IfOk result (λ player. player.machine ≡ at_start program workers) }
    {
        let machine = Machine::new(alloc, program, workers)?;
        Ok(Player {
            machine,
            made: Vec::new(alloc),
            left: MOST_STEPS,
        })
    }

    /// How many workers there are, 1 to 32.
    pub(crate) fn workers(&self) -> u8
        ensures at_least_one { 1 ≤ result }
        ensures at_most_32 { result ≤ 32 }
    {
        self.machine.workers()
    }

    /// How many steps stand.
    pub(crate) fn steps(&self) -> usize {
        self.made.len()
    }

    /// Makes a step, where it can be made and there is memory to note it.
    pub(crate) fn attempt(&mut self, alloc: Global, label: &Label) -> AllocResult<Attempt> {
        if self.left == 0 || label.worker >= self.machine.workers() {
            return Ok(Attempt::Not);
        }
        self.left -= 1;
        let reply = self.machine.step(alloc, label.worker, label.choice)?;
        match reply {
            StepReply::Done { fault, .. } => {
                if self.made.push(label.worker).is_err() {
                    let _ = self.machine.undo(label.worker);
                    return Err(AllocError);
                }
                Ok(if fault.is_some() {
                    Attempt::Faulted
                } else {
                    Attempt::Made
                })
            }
            StepReply::Blocked(_) | StepReply::Ended => Ok(Attempt::Not),
        }
    }

    // Whether a worker may start a task.
    fn may_start(&self, worker: u8) -> bool {
        worker < self.machine.workers() && self.machine.is_at_scheduling_point(worker)
    }

    /// The names of the tasks that are ready, where a worker may start one; else none.
    pub(crate) fn ready(&self, alloc: Global, worker: u8) -> AllocResult<Vec<Name>> {
        if self.may_start(worker) {
            self.machine.ready(alloc)
        } else {
            Ok(Vec::new(alloc))
        }
    }

    // Starts the least ready task that a worker can begin. Each start that is tried takes one of the
    // steps that there may be.
    fn start_first(&mut self, alloc: Global, worker: u8) -> AllocResult<Attempt> {
        if !self.may_start(worker) {
            return Ok(Attempt::Not);
        }
        let mut after = None;
        for _ in 0..self.left {
            let Some(name) = self.machine.next_ready(after.as_ref()) else {
                return Ok(Attempt::Not);
            };
            let label = Label {
                worker,
                choice: Choice::Start(name),
            };
            let attempt = self.attempt(alloc, &label)?;
            if attempt != Attempt::Not {
                return Ok(attempt);
            }
            after = Some(name);
        }
        Ok(Attempt::Not)
    }

    // Makes a worker's next step, else the start of the least ready task that it can begin.
    fn move_worker(&mut self, alloc: Global, worker: u8) -> AllocResult<Attempt> {
        let next = Label {
            worker,
            choice: Choice::Next,
        };
        let attempt = self.attempt(alloc, &next)?;
        if attempt != Attempt::Not {
            return Ok(attempt);
        }
        self.start_first(alloc, worker)
    }

    // Makes the move of the least worker that has one.
    fn move_first(&mut self, alloc: Global) -> AllocResult<Attempt> {
        for worker in 0..self.machine.workers() {
            let attempt = self.move_worker(alloc, worker)?;
            if attempt != Attempt::Not {
                return Ok(attempt);
            }
        }
        Ok(Attempt::Not)
    }

    /// Makes so many moves at most as `run` makes them, each by the least worker that has one, up to a fault.
    pub(crate) fn run(&mut self, alloc: Global, steps: u32) -> AllocResult<()> {
        'steps: for _ in 0..steps {
            if self.move_first(alloc)? != Attempt::Made {
                return Ok(());
            }
        }
        Ok(())
    }

    // Makes so many moves at most, each by the least worker that has one, past faults.
    fn run_past_faults(&mut self, alloc: Global, steps: u32) -> AllocResult<()> {
        'steps: for _ in 0..steps {
            if self.move_first(alloc)? == Attempt::Not {
                return Ok(());
            }
        }
        Ok(())
    }

    /// Finishes a schedule, by so many steps at most.
    pub(crate) fn finish(&mut self, alloc: Global, finish: Finish, steps: u32) -> AllocResult<()> {
        match finish {
            Finish::Nowhere => Ok(()),
            Finish::UpToFault => self.run(alloc, steps),
            Finish::PastFaults => self.run_past_faults(alloc, steps),
        }
    }

    /// Takes all steps back, to the start.
    pub(crate) fn rewind(&mut self)
        ensures { self.new.machine.history.entries ≡ [] }
    {
        while let Some(worker) = self.made.pop() {
            let _ = self.machine.undo(worker);
        }
    }
}
