//! What a session took back, and where it could not: by its journal.

use lab_graph::{Arrow, End, StepBox, Traced};
use om_book_journal::{Command, JournalRecord, Reply, ReplyIn};
use om_foot::Obj;
use om_seq::{AllocResult, Seq};
use om_undo_history::{RollReply, StepReply, Taken, UndoReply};
use std::alloc::Global;
use std::collections::BTreeMap;

/// What a session did beside the steps that stand.
#[derive(Drop)]
pub(crate) struct Story<'a> {
    /// The steps that `undo` and `roll` took out.
    pub(crate) gone: Vec<StepBox>,
    /// For each undo that was refused an arrow from the step in the way to the one that stayed.
    pub(crate) refused: Vec<Arrow>,
    // The serials of each worker's steps that stand, the last one last.
    standing: Vec<Vec<u64>>,
    // The local variable that each step names that stands at the end, by its serial; no bytes where it
    // names none.
    variables: BTreeMap<u64, &'a [u8]>,
}

/// The story of the calls of a journal that leave these steps. The only error is out of memory.
pub(crate) fn story_of<'a>(
    alloc: Global,
    journal: &[JournalRecord],
    steps: &'a [Traced<'_>],
) -> AllocResult<Story<'a>> {
    let mut story = Story {
        gone: Vec::new(alloc),
        refused: Vec::new(alloc),
        standing: Vec::new(alloc),
        variables: BTreeMap::new(alloc),
    };
    for step in steps {
        let variable = step.variable.as_slice();
        let _ = story.variables.insert(step.entry.serial, variable)?;
    }
    for record in journal {
        story.follow(alloc, record)?;
    }
    Ok(story)
}

// The worker that a command is for, if it is for one.
fn worker_of(command: &Command) -> Option<u8> {
    match command {
        Command::Step { worker, choice: _ } => Some(*worker),
        Command::Undo(worker) => Some(*worker),
        Command::Roll(_) | Command::Look(_) => None,
    }
}

impl Story<'_> {
    // Takes one more call in.
    fn follow(&mut self, alloc: Global, record: &JournalRecord) -> AllocResult<()> {
        let worker = worker_of(&record.command());
        match record.reply() {
            ReplyIn::Step(StepReply::Done { serial, .. }) => self.stand(alloc, serial, worker),
            ReplyIn::Other(Reply::Step(StepReply::Done { serial, .. })) => {
                self.stand(alloc, *serial, worker)
            }
            ReplyIn::Undo(reply) => self.undo(alloc, worker, &reply.get()),
            ReplyIn::Other(Reply::Roll(RollReply::Rolled(members))) => {
                self.roll(alloc, members.as_slice())
            }
            _ => Ok(()),
        }
    }

    // A step was made.
    fn stand(&mut self, alloc: Global, serial: u64, worker: Option<u8>) -> AllocResult<()> {
        let Some(worker) = worker else {
            return Ok(());
        };
        for _ in self.standing.len()..usize::from(worker) + 1 {
            self.standing.push(Vec::new(alloc))?;
        }
        if let Some(serials) = self.standing.get_mut(usize::from(worker)) {
            serials.push(serial)?;
        }
        Ok(())
    }

    // An undo was answered.
    fn undo(&mut self, alloc: Global, worker: Option<u8>, reply: &UndoReply) -> AllocResult<()> {
        let Some(worker) = worker else {
            return Ok(());
        };
        match reply {
            UndoReply::Undone { serial, line } => self.leave(
                alloc,
                &Taken {
                    serial: *serial,
                    worker,
                    line: *line,
                },
            ),
            UndoReply::Conflict {
                serial,
                worker: other,
                object,
            } => self.refuse(
                alloc,
                worker,
                End {
                    serial: *serial,
                    worker: *other,
                },
                object,
            ),
            UndoReply::Nothing => Ok(()),
        }
    }

    // A roll took these out.
    fn roll(&mut self, alloc: Global, members: &[Taken]) -> AllocResult<()> {
        for member in members {
            self.leave(alloc, member)?;
        }
        Ok(())
    }

    // A step was taken out: the last one of its worker.
    fn leave(&mut self, alloc: Global, taken: &Taken) -> AllocResult<()> {
        if let Some(serials) = self.standing.get_mut(usize::from(taken.worker)) {
            let _ = serials.pop();
        }
        let value = Seq::of(Vec::from_slice(alloc, b"taken out")?);
        self.gone.push(StepBox {
            serial: taken.serial,
            worker: taken.worker,
            line: taken.line,
            instruction: Seq::new(alloc),
            value,
            is_fault: false,
        })?;
        Ok(())
    }

    // The local variable that a step names, if it stands at the end and names one.
    fn variable_of(&self, serial: u64) -> &[u8] {
        match self.variables.get(&serial) {
            Some(variable) => variable,
            None => &[],
        }
    }

    // The local variable that the first of two steps names, or else the second.
    fn variable_between(&self, from: u64, to: u64) -> &[u8] {
        match self.variable_of(from) {
            [] => self.variable_of(to),
            named => named,
        }
    }

    // An undo of a worker's last step was refused, for a step in the way.
    fn refuse(
        &mut self,
        alloc: Global,
        worker: u8,
        in_the_way: End,
        object: &Obj,
    ) -> AllocResult<()> {
        let Some(serials) = self.standing.get(usize::from(worker)) else {
            return Ok(());
        };
        let Some(serial) = serials.last() else {
            return Ok(());
        };
        let serial = *serial;
        let variable = self.variable_between(in_the_way.serial, serial);
        let variable = Seq::of(Vec::from_slice(alloc, variable)?);
        self.refused.push(Arrow {
            from: in_the_way,
            to: End { serial, worker },
            object: *object,
            variable,
        })?;
        Ok(())
    }
}
