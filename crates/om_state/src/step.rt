//! Steps: which one, what it touches, what comes of it, and its entry in the history.

ghost use Rattle.std.specs.Prelude.{◌≡◌};
ghost use Rattle.om_state.specs.Values.{blocked_number};

use crate::control::Edit;
use crate::footprint::Footprint;
use crate::puts::Puts;
use crate::value::Val;
use om_events::Record;
use om_foot::{Access, Name};
use om_seq::Seq;

/// Which of its possible steps a worker takes.
#[derive(Clone, Copy, PartialEq, Eq)]
pub enum Choice {
    /// The next instruction.
    Next,
    /// The start of the ready task of this name, at a scheduling point.
    Start(Name),
}

/// A step's name: the worker that takes it, and its choice.
#[derive(Clone, Copy)]
pub struct Label {
    /// The worker, from 0.
    pub worker: u8,
    pub choice: Choice,
}

/// What is appended to an object that only grows.
#[derive(Drop)]
pub enum Tail {
    /// Bytes that are printed.
    Bytes(Seq<u8>),
    /// Event records, the earliest first.
    Events(Seq<Record>),
}

/// What a step does at one access of its footprint. It acts only where the mode admits it.
#[derive(Drop)]
pub enum Update {
    /// It leaves the value.
    Keep,
    /// It puts a value, at a `Write`.
    Put(Val),
    /// It adds to a count, at an `Add`.
    Add(i128),
    /// It appends to the output or to events, at a `Write`.
    Append(Tail),
    /// What takes an append back, at a `Write`: so many items stay. Made forwards, it changes nothing.
    Cut(usize),
}

/// Why a step can't be taken now, though a later one may be.
#[derive(Clone, Copy, PartialEq, Eq)]
pub enum Blocked {
    /// B1: not all members have reached the barrier, or tasks of its phase are unfinished.
    Barrier,
    /// B2: this worker holds the lock of the critical region.
    Critical(u8),
    /// B3: children of the task, or at the end of `main` tasks, are unfinished.
    Children,
    /// B4: this worker, which the team needs, isn't idle.
    Busy(u8),
    /// B5: the worker is idle.
    Idle,
    /// B6: the task isn't ready, of another team, or no descendant.
    Task,
    /// B7: the worker is at no scheduling point.
    Place,
    /// B8: tasks of the group are unfinished.
    Group,
}

impl Blocked {
    /// Its number: 5 for B5.
    pub fn number(self) -> u8
        ensures { result ≡ blocked_number self }
    {
        match self {
            Blocked::Barrier => 1,
            Blocked::Critical(_) => 2,
            Blocked::Children => 3,
            Blocked::Busy(_) => 4,
            Blocked::Idle => 5,
            Blocked::Task => 6,
            Blocked::Place => 7,
            Blocked::Group => 8,
        }
    }
}

/// What comes of a step.
#[derive(Drop)]
pub enum Outcome {
    /// It can be taken: an update for each access of its footprint, or for as many as it changes.
    Updates(Seq<Update>),
    /// It can't be taken now.
    Blocked(Blocked),
    /// The worker has nothing more to do: its program has ended, it met a fault, or its code
    /// lacks what the instruction needs.
    Ended,
}

/// A step at its place in a run: what it touches, what comes of it, and its line.
#[derive(Drop)]
pub struct Step {
    /// The objects that it touches, its worker's control first.
    pub footprint: Seq<Access>,
    pub outcome: Outcome,
    /// The line in the source of its instruction, from 1; 0 where there is none.
    pub line: u32,
}

/// A step that can be taken at its place in a run: the edits of its worker's control, and what else it
/// changes.
///
/// Contracts read the edits together with the control before them, as the put of the control that they
/// come to (`step_of`).
#[derive(Drop)]
pub struct Change {
    /// The objects that it touches, its worker's control first.
    pub footprint: Footprint,
    /// The edits of its worker's control, in their order.
    pub edits: Seq<Edit>,
    /// An update for each access behind the first, or for as many as it changes.
    pub updates: Puts,
    /// The line in the source of its instruction, from 1.
    pub line: u32,
}

/// A step that was made and stands in the history.
#[derive(Clone, Copy)]
pub struct Entry {
    /// Its number among all steps ever made, from 1. A serial is never given again.
    pub serial: u64,
    pub worker: u8,
    pub choice: Choice,
    /// The line in the source of its instruction, from 1.
    pub line: u32,
}
