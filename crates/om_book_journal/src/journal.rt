//! Records of a journal: calls that were answered.

ghost use Rattle.std.specs.Prelude.{◌≡◌, ◌≤◌, ◌+◌, ◌↔◌, length, IfOk, IfNone, IfSome, IsTrue, true};
ghost use Rattle.om_undo.specs.Machines.{MachineView};
ghost use Rattle.om_book_journal.specs.Journals.{done_in};
ghost use Rattle.om_book_journal.specs.Records.{asked_in, record_in, reply_in};
ghost use Rattle.om_book_journal.specs.Runs.{IsReply, asks_for_list, is_step_made};

use crate::command::Command;
use crate::kept::{KeptCommand, KeptUndoReply};
use crate::reply::Reply;
use crate::same::Same;
use om_seq::AllocResult;
use om_task::Choice;
use om_undo::StepReply;
use std::alloc::Global;
use std::marker::Model;
use std::mem::size_of;

// A call that is neither a worker's next step nor an undo. It is large, and lies apart.
#[derive(Drop)]
struct OtherCall {
    command: KeptCommand,
    reply: Reply,
}

// A command of which a record is to come, with the memory that the record takes.
#[derive(Drop)]
enum AskedForms {
    Next(u8),
    Undo(u8),
    Other(Box<OtherCall>),
}

/// A command of which a record is to come, with all the memory that the record takes but for what its reply
/// holds. So a call asks for this memory before it changes anything.
///
/// Contracts see the command alone.
#[derive(Drop)]
pub struct Asked {
    forms: AskedForms,
}

impl Model for Asked {
    ghost use Rattle.om_book_journal.specs.declared.command.Command.{Command};
    ghost use Rattle.om_book_journal.specs.Records.{asked_in};

    ghost Value = { Command };

    ghost view = { λ a. asked_in a.forms };
}

// A call whose record has memory of its own. What it is answered is not known yet. Its only error is out of
// memory.
fn apart(alloc: Global, command: KeptCommand) -> AllocResult<AskedForms>
    ensures { IfOk result (λ forms. asked_in forms ≡ command) }
{
    let reply = Reply::Step(StepReply::Ended);
    Ok(AskedForms::Other(Box::new(alloc, OtherCall { command, reply })?))
}

impl Asked {
    /// A command; its only error is out of memory.
    pub fn of(alloc: Global, command: &Command) -> AllocResult<Asked>
        ensures { IfOk result (λ asked. asked ≡ command.now) }
    {
        let forms = match command {
            Command::Step {
                worker,
                choice: Choice::Next,
            } => AskedForms::Next(*worker),
            Command::Undo(worker) => AskedForms::Undo(*worker),
            _ => apart(alloc, KeptCommand::of(alloc, command)?)?,
        };
        Ok(Asked { forms })
    }

    /// The step of a worker by its choice; its only error is out of memory.
    pub fn of_step(alloc: Global, worker: u8, choice: &Choice) -> AllocResult<Asked>
        ensures { IfOk result (λ asked. asked ≡ Command.Step worker choice.now) }
    {
        let forms = match choice {
            Choice::Next => AskedForms::Next(worker),
            Choice::Start(_) => apart(alloc, KeptCommand::of_step(alloc, worker, choice)?)?,
        };
        Ok(Asked { forms })
    }
}

// What is kept of a record. Steps and undos, which are nearly all, lie in the record itself. Only the conflict of
// an undo that is refused lies apart.
#[derive(Drop)]
enum RecordForms {
    Step {
        seat: u8,
        worker: u8,
        reply: StepReply,
    },
    Undo {
        seat: u8,
        worker: u8,
        reply: KeptUndoReply,
    },
    Other {
        seat: u8,
        call: Box<OtherCall>,
    },
}

/// A reply, read where it lies. Contracts see the reply as `reply_in`.
#[derive(Clone, Copy)]
pub enum ReplyIn<'a> {
    /// Of a step by the next choice.
    Step(StepReply),
    /// Of an undo.
    Undo(&'a KeptUndoReply),
    /// Of any other call.
    Other(&'a Reply),
}

/// A call that was answered: the number of the seat that made it, from 0, what was asked, and what was
/// answered.
///
/// Contracts see these three.
pub struct JournalRecord {
    forms: RecordForms,
}

// There are up to 200,000 of them.
const _: () = prove!(size_of::<JournalRecord>() <= 32);

impl Model for JournalRecord {
    ghost use Rattle.om_book_journal.specs.Records.{JournalRecord, record_in};

    ghost Value = { JournalRecord };

    ghost view = { λ r. record_in r.forms };
}

// By hand: other crates call this, and do not prove anew how each part is dropped.
impl Drop for JournalRecord {
    fn drop(self) {
        let JournalRecord { forms } = self;
        drop(forms);
    }
}

impl JournalRecord {
    /// The record of a seat's step by the answer that it got. It takes no memory.
    pub fn of_step(seat: u8, asked: Asked, reply: StepReply) -> JournalRecord
        requires { (m : MachineView) × IsReply m asked (Reply.Step reply) }
        ensures { result ≡ record { seat = seat; command = asked; reply = Reply.Step reply } }
    {
        let forms = match asked.forms {
            AskedForms::Next(worker) => RecordForms::Step {
                seat,
                worker,
                reply,
            },
            AskedForms::Undo(_) => unreachable!(),
            AskedForms::Other(mut call) => {
                call.reply = Reply::Step(reply);
                RecordForms::Other { seat, call }
            }
        };
        JournalRecord { forms }
    }

    /// The record of a seat's undo by the answer that it got. It takes no memory.
    pub fn of_undo(seat: u8, worker: u8, reply: KeptUndoReply) -> JournalRecord
        ensures { result ≡ record { seat = seat; command = Command.Undo worker; reply = Reply.Undo reply } }
    {
        JournalRecord {
            forms: RecordForms::Undo {
                seat,
                worker,
                reply,
            },
        }
    }

    /// The record of a seat's call by the answer that it got. It takes no memory.
    pub fn of(seat: u8, asked: Asked, reply: Reply) -> JournalRecord
        requires { (m : MachineView) × IsReply m asked reply }
        ensures { result ≡ record { seat = seat; command = asked; reply = reply } }
    {
        let forms = match asked.forms {
            AskedForms::Next(worker) => RecordForms::Step {
                seat,
                worker,
                reply: reply.into_step(),
            },
            AskedForms::Undo(worker) => RecordForms::Undo {
                seat,
                worker,
                reply: reply.into_undo(),
            },
            AskedForms::Other(mut call) => {
                call.reply = reply;
                RecordForms::Other { seat, call }
            }
        };
        JournalRecord { forms }
    }

    /// The number of the seat that made the call, from 0.
    pub fn seat(&self) -> u8
        ensures { result ≡ self.now.seat }
    {
        match &self.forms {
            RecordForms::Step { seat, .. } => *seat,
            RecordForms::Undo { seat, .. } => *seat,
            RecordForms::Other { seat, .. } => *seat,
        }
    }

    /// What was asked.
    pub fn command(&self) -> Command
        ensures { result ≡ self.now.command }
    {
        match &self.forms {
            RecordForms::Step { worker, .. } => Command::Step {
                worker: *worker,
                choice: Choice::Next,
            },
            RecordForms::Undo { worker, .. } => Command::Undo(*worker),
            RecordForms::Other { call, .. } => call.command.get(),
        }
    }

    /// What was answered.
    pub fn reply(&self) -> ReplyIn<'_>
        ensures { reply_in result ≡ self.now.reply }
    {
        match &self.forms {
            RecordForms::Step { reply, .. } => ReplyIn::Step(*reply),
            RecordForms::Undo { reply, .. } => ReplyIn::Undo(reply),
            RecordForms::Other { call, .. } => ReplyIn::Other(&call.reply),
        }
    }

    /// Whether the call was a step that was made.
    pub fn is_step_made(&self) -> bool
        ensures { result ≡ is_step_made self.now.reply }
    {
        match &self.forms {
            RecordForms::Step { reply, .. } => matches!(reply, StepReply::Done { .. }),
            RecordForms::Undo { .. } => false,
            RecordForms::Other { call, .. } => call.reply.is_step_made(),
        }
    }

    /// The reply, where this command asks for a list and is what was asked.
    pub fn told_again(&self, command: &Command) -> Option<&Reply>
        ensures told { IfSome result (λ x. x.now ≡ self.now.reply) }
        ensures asked { IfSome result (λ x. self.now.command ≡ command.now) }
        ensures list { IfSome result (λ x. asks_for_list command.now ≡ true) }
        ensures none { IfNone result (asks_for_list command.now ≡ true
            → self.now.command ≡ command.now → ⊥) }
    {
        let RecordForms::Other { call, .. } = &self.forms else {
            return None;
        };
        if command.asks_for_list() && call.command.get().is_same(command) {
            return Some(&call.reply);
        }
        None
    }

    /// Whether this reply was given.
    pub fn has_reply(&self, other: &Reply) -> bool
        ensures { IsTrue result ↔ (self.now.reply ≡ other.now) }
    {
        match (&self.forms, other) {
            (RecordForms::Step { reply, .. }, Reply::Step(other)) => reply.is_same(other),
            (RecordForms::Undo { reply, .. }, Reply::Undo(other)) => reply.is_same(other),
            (RecordForms::Other { call, .. }, other) => call.reply.is_same(other),
            _ => false,
        }
    }
}

/// How many steps the calls of a journal made.
pub fn done_in(journal: &[JournalRecord]) -> u64
    ensures made { result ≡ done_in journal.now }
    ensures most { result ≤ length journal.now }
{
    let mut made = 0;
    for answered in journal {
        if answered.is_step_made() {
            made += 1;
        }
    }
    made
}
