//! A worker's control in the form that is changed in place, and what takes a change back.

use crate::tape::Tape;
use om_code::frame::{Fault, Operand};
use om_foot::{Name, Shared};
use om_seq::Seq;
use om_state::{Construct, Home, Kind, SharedTeam};

/// A body that is being run.
#[derive(Drop)]
pub struct Frame {
    /// The number of the body in its program.
    pub body: u32,
    /// The index in the body of the next instruction.
    pub next: u32,
    /// Its number among the frames of its task, from 0. It is never used again, but where its
    /// beginning was taken back.
    pub ordinal: u64,
    /// Its operands, the last one that was pushed on top.
    pub operands: Tape<Operand>,
    /// Where the cells of its slots lie.
    pub homes: Shared<Seq<Home>>,
}

/// A task that a worker has begun and not ended. One frame of it runs; the others wait for it.
#[derive(Drop)]
pub struct Context {
    /// Its name.
    pub task: Shared<Name>,
    /// Whether it is initial, implicit or explicit.
    pub kind: Kind,
    /// Its place in its team: the team's name and size, the thread number and the active level.
    pub team: SharedTeam,
    /// How many barriers of its team are behind it; of an explicit task, the phase of the team in
    /// which it was made.
    pub phase: u64,
    /// How many teams, tasks and groups were born of it.
    pub births: u64,
    /// How many worksharing regions it has met.
    pub regions: u64,
    /// How many frames it has made.
    pub frames: u64,
    /// The task group that it began in.
    pub group: Shared<Option<Name>>,
    /// The regions that it is in, the innermost on top.
    pub constructs: Tape<Shared<Construct>>,
    /// The frame that runs.
    pub frame: Box<Frame>,
    /// The frames that wait, the one that called the running one on top.
    pub callers: Tape<Box<Frame>>,
}

/// The tasks of a worker that runs: the one that runs, and those that it left for it.
#[derive(Drop)]
pub struct Stack {
    /// The context that runs.
    pub top: Box<Context>,
    /// The contexts below, the one next to the top first.
    pub below: Tape<Box<Context>>,
}

/// What a worker is doing.
#[derive(Drop)]
pub enum Control {
    /// It has no task.
    Idle,
    /// It runs.
    Running(Stack),
    /// It met a fault; the stack is as before the step that met it.
    Faulted(Fault, Stack),
    /// The initial task has ended, with the value that `main` returned.
    Ended(i32),
}

/// Where a frame went on from, and how many operands it took.
#[derive(Clone, Copy)]
pub struct Passed {
    /// The index of the instruction at which it was.
    pub from: u32,
    /// How many operands it took.
    pub took: u32,
}

/// Whether an operand was pushed, and over which one that was taken.
#[derive(Clone, Copy)]
pub enum Laid {
    /// None was pushed.
    Nothing,
    /// One was pushed, over this one if over any.
    Pushed(Option<Operand>),
}

/// What takes a frame back that went to a place.
#[derive(Clone, Copy)]
pub struct Went {
    pub passed: Passed,
    pub laid: Laid,
}

/// What takes an edit back.
///
/// What an edit takes, leaves or ends stays above the top of its tape, and moves in here only when
/// something is pushed over it.
#[derive(Drop)]
pub enum Inverse {
    /// The edit changed nothing.
    Same,
    /// The running frame went to a place.
    Went(Went),
    /// A frame began. Here is how the one that waits went on, and the ended frame that it was
    /// pushed over, if over any.
    BeganFrame(Passed, Option<Box<Frame>>),
    /// A frame ended. Here is the operand that its value was pushed over, if over any.
    EndedFrame(Option<Operand>),
    /// A context began. Here is the ended one that the context below was pushed over, if over any.
    BeganContext(Option<Box<Context>>),
    /// A context ended above another one.
    EndedContext,
    /// A region was entered. Here is the left one that it was pushed over, if over any.
    Opened(Option<Shared<Construct>>),
    /// A region was left.
    Closed,
    /// The innermost region was this one.
    Replaced(Shared<Construct>),
    /// A team, a task or a group was born.
    CountedBirth,
    /// A worksharing region was met.
    CountedRegion,
    /// The context went on from a barrier.
    CountedPhase,
    /// The worker met a fault.
    Failed,
    /// The worker was idle.
    WasIdle,
    /// The control that was there before, whole.
    Was(Box<Control>),
}

/// What takes an edit back, as a trail keeps it.
#[derive(Drop)]
pub struct Logged {
    pub inverse: Inverse,
    /// Whether a change began with this edit.
    pub begins: bool,
}
