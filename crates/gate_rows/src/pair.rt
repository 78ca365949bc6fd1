//! Two machines at one place of a session. Their rolls are made in two ways.

ghost use Rattle.std.specs.Prelude.{◌<◌};

use crate::asked::asked_at;
use crate::compared::push_compared;
use crate::machine_of_two::MachineOfTwo;
use om_foot::{Access, Mode, Names, Obj};
use om_seq::{AllocResult, Seq};
use om_shell_commands::{push_history, push_roll, push_step, push_undo};
use om_state::Label;
use om_undo::{Machine, RollReply, StepReply};
use om_undo_touches::Accesses;
use std::alloc::Global;

/// Two machines that take the same steps. The first one rolls by `cone` and `take_out`, and the
/// second one by `roll`.
#[derive(Drop)]
pub(crate) struct Pair {
    first: MachineOfTwo,
    second: MachineOfTwo,
}

// The accesses of an entry, each by itself.
fn listed(alloc: Global, accesses: &Accesses) -> AllocResult<Seq<Access>> {
    let (first, cells, last) = accesses.parts();
    let mut names = Names::new(alloc);
    names.push(&Access {
        object: Obj::Control(accesses.worker()),
        mode: Mode::Write,
    })?;
    for shared in first {
        names.push(&shared.access())?;
    }
    for shared in cells {
        names.push_cells(&shared.cells())?;
    }
    for shared in last {
        names.push(&shared.access())?;
    }
    names.into_seq()
}

// What the entry of a step with this reply touches; `None` where there is none.
fn touched(alloc: Global, machine: &Machine, reply: StepReply) -> AllocResult<Option<Seq<Access>>> {
    let StepReply::Done { serial, .. } = reply else {
        return Ok(None);
    };
    match machine.footprint(serial) {
        Some(accesses) => Ok(Some(listed(alloc, accesses)?)),
        None => Ok(None),
    }
}

// Appends the reply to a roll, and the history after it.
fn push_rolled(
    alloc: Global,
    text: &mut Vec<u8>,
    serial: u64,
    reply: &RollReply,
    machine: &Machine,
) -> AllocResult<()> {
    push_roll(text, serial, reply)?;
    push_history(text, &machine.history(alloc)?)
}

impl Pair {
    /// Two machines at the start of a source; `None` where it is refused, or there is no memory.
    pub(crate) fn of(alloc: Global, source: &[u8]) -> Option<Pair> {
        let first = MachineOfTwo::of(alloc, source)?;
        let second = MachineOfTwo::of(alloc, source)?;
        Some(Pair { first, second })
    }

    /// Asks what the step of a label touches and comes to, takes it, and appends its reply and what
    /// was compared. The errors are out of memory, and more steps than a session has.
    pub(crate) fn step(
        &mut self,
        alloc: Global,
        label: &Label,
        text: &mut Vec<u8>,
    ) -> AllocResult<()>
        requires { label.now.worker < 2 }
    {
        let asked = asked_at(alloc, self.first.machine(), label)?;
        let _also = self.second.step(alloc, label)?;
        let reply = self.first.step(alloc, label)?;
        let touched = touched(alloc, self.first.machine(), reply)?;
        push_step(text, label.worker, reply)?;
        push_compared(text, &asked, &touched, reply)
    }

    /// Takes back the last step of a worker, and appends the reply.
    pub(crate) fn undo(&mut self, worker: u8, text: &mut Vec<u8>) -> AllocResult<()>
        requires { worker < 2 }
    {
        let _also = self.second.undo(worker);
        let reply = self.first.undo(worker);
        push_undo(text, self.first.machine().program(), worker, &reply)
    }

    /// Rolls an entry. It appends what the first machine took out, its history then, and whether
    /// those of the second one are the same.
    pub(crate) fn roll(
        &mut self,
        alloc: Global,
        serial: u64,
        text: &mut Vec<u8>,
    ) -> AllocResult<()> {
        let mut one = Vec::new(alloc);
        let mut other = Vec::new(alloc);
        let taken = self.first.roll_by_cone(alloc, serial)?;
        push_rolled(alloc, &mut one, serial, &taken, self.first.machine())?;
        let rolled = self.second.roll(alloc, serial)?;
        push_rolled(alloc, &mut other, serial, &rolled, self.second.machine())?;
        text.extend_from_slice(&one)?;
        text.extend_from_slice(if one.as_slice() == other.as_slice() {
            b"  take_out and roll leave the same history\n"
        } else {
            b"  take_out WRONG\n"
        })
    }
}
