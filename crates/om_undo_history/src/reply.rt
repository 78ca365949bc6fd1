//! What a history answers to a step, to an undo and to a roll.

use om_code::frame::Fault;
use om_foot::Obj;
use om_seq::Seq;
use om_state::Blocked;

/// What a step answers. Only `Done` changes anything.
#[derive(Clone, Copy, PartialEq, Eq)]
pub enum StepReply {
    /// It was made.
    Done {
        /// Its number among all steps ever made, from 1.
        serial: u64,
        /// The line in the source of its instruction, from 1.
        line: u32,
        /// The fault that it ended with, if it did.
        fault: Option<Fault>,
    },
    /// It can't be made now.
    Blocked(Blocked),
    /// The worker has nothing more to do: its program has ended, it is at a fault, or its instruction
    /// lacks something (`om_task Rules.outcome_after`).
    Ended,
}

/// What an undo answers. Only `Undone` changes anything.
#[derive(Clone, Copy, PartialEq, Eq)]
pub enum UndoReply {
    /// The worker's last step was taken out.
    Undone {
        /// Its serial, from 1.
        serial: u64,
        /// The line in the source of its instruction, from 1.
        line: u32,
    },
    /// A later step conflicts with the worker's last step.
    Conflict {
        /// The serial of the first such step, from 1.
        serial: u64,
        /// The worker that made it, from 0.
        worker: u8,
        /// The first object of the worker's last step at which the two conflict.
        object: Obj,
    },
    /// The worker has no step in the history.
    Nothing,
}

/// An entry that a roll takes out.
#[derive(Clone, Copy, PartialEq, Eq)]
pub struct Taken {
    /// Its serial, from 1.
    pub serial: u64,
    /// The worker that made it, from 0.
    pub worker: u8,
    /// The line in the source of its instruction, from 1.
    pub line: u32,
}

/// What a roll answers. Only `Rolled` changes anything.
#[derive(Drop)]
pub enum RollReply {
    /// The members of the entry's cone were taken out, the latest first.
    Rolled(Seq<Taken>),
    /// No entry has that serial.
    NoEntry,
}
