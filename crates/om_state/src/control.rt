//! Control: all that one worker alone owns. Edits are what a step makes of it, as data as small as what
//! changes.

ghost use Rattle.std.specs.Prelude.{◌≡◌, IfOk};
ghost use Rattle.om_state.specs.Homes.{cell_of};

use crate::open_share::OpenShare;
use crate::shared_pile::SharedPile;
use crate::shared_team::SharedTeam;
use om_code::frame::{Fault, Operand};
use om_code::instruction::Schedule;
use om_foot::{Name, Obj, Shared};
use om_seq::{AllocResult, Pile, Seq};
use std::alloc::Global;

/// Where the cells of a frame's slot lie.
#[derive(Drop)]
pub enum Home {
    /// In the frame itself.
    Own,
    /// In this slot of the frame with this ordinal, of this task.
    Elsewhere {
        task: Shared<Name>,
        frame: u64,
        slot: u32,
    },
}

impl Home {
    /// A copy; its only error is out of memory.
    pub fn copy(&self) -> AllocResult<Home>
        ensures { IfOk result (λ home. home ≡ self.now) }
    {
        match self {
            Home::Own => Ok(Home::Own),
            Home::Elsewhere { task, frame, slot } => Ok(Home::Elsewhere {
                task: task.copy()?,
                frame: *frame,
                slot: *slot,
            }),
        }
    }

    /// The cell at an index of the slot of this number, in the frame of this task with this ordinal.
    pub fn cell(&self, task: &Name, frame: u64, slot: u32, index: u32) -> Obj
        ensures { result ≡ cell_of task.now frame slot index self.now }
    {
        match self {
            Home::Own => Obj::Cell {
                task: *task,
                frame,
                slot,
                index,
            },
            Home::Elsewhere { task, frame, slot } => Obj::Cell {
                task: *task.get(),
                frame: *frame,
                slot: *slot,
                index,
            },
        }
    }
}

/// A body that is being run.
#[derive(Drop)]
pub struct Frame {
    /// The number of the body in its program.
    pub body: u32,
    /// The index in the body of the next instruction.
    pub next: u32,
    /// Its number among the frames of its task, from 0. It is never used again.
    pub ordinal: u64,
    pub operands: Pile<Operand>,
    /// Where the cells of its slots lie.
    pub homes: Shared<Seq<Home>>,
}

impl Frame {
    /// A copy, with room for one more operand; its only error is out of memory.
    pub fn copy(&self, alloc: Global) -> AllocResult<Frame>
        ensures { IfOk result (λ frame. frame ≡ self.now) }
    {
        let mut operands = Vec::with_capacity(alloc, self.operands.len().saturating_add(1))?;
        operands.extend_from_slice(self.operands.as_slice())?;
        Ok(Frame {
            body: self.body,
            next: self.next,
            ordinal: self.ordinal,
            operands: Pile::of(operands),
            homes: self.homes.copy()?,
        })
    }
}

/// A member's place in its team.
#[derive(Drop)]
pub struct Team {
    /// The team's name; the initial task's team is the name without numbers.
    pub name: Shared<Name>,
    /// The thread number of the member, from 0.
    pub number: u8,
    pub size: u8,
    /// How many active regions it stands in: 0 or 1.
    pub level: u8,
}

impl Team {
    /// The same place; its only error is out of memory.
    pub fn copy(&self) -> AllocResult<Team>
        ensures { IfOk result (λ team. team ≡ self.now) }
    {
        Ok(Team {
            name: self.name.copy()?,
            number: self.number,
            size: self.size,
            level: self.level,
        })
    }
}

/// What kind of task a context runs.
#[derive(Clone, Copy, PartialEq, Eq)]
pub enum Kind {
    Initial,
    Implicit,
    Explicit,
}

/// What a worksharing region shares out.
#[derive(Clone, Copy, PartialEq, Eq)]
pub enum Sharing {
    /// The iterations of a loop.
    Loop,
    /// Sections.
    Sections,
}

/// A member's place in a loop or in sections.
///
/// Iterations are numbered from 0. Iteration j of a loop has the value `lower + j * step`, and a
/// section its number.
#[derive(Clone, Copy)]
pub struct Share {
    pub sharing: Sharing,
    /// Its number among the worksharing regions that the member has met, from 0.
    pub region: u64,
    /// How many iterations there are in all.
    pub count: u64,
    pub lower: i32,
    pub step: i32,
    pub schedule: Schedule,
    /// How many chunks of a static schedule the member has taken.
    pub taken: u64,
    /// The next iteration of its chunk.
    pub next: u64,
    /// The iteration behind the last one of its chunk.
    pub end: u64,
}

/// A region that a task has entered and not left.
#[derive(Clone, Copy)]
pub enum Construct {
    /// A worksharing loop, or sections.
    Share(OpenShare),
    /// A `single` region, and whether this member runs it.
    Single { runs: bool },
    Masked,
    /// A critical region, by the number of its lock.
    Critical(u32),
    /// A task group.
    Group(Name),
}

/// A task that a worker has begun and not ended. One frame of it runs; the others wait for it.
#[derive(Drop)]
pub struct Context {
    pub task: Shared<Name>,
    pub kind: Kind,
    pub team: SharedTeam,
    /// How many barriers of its team are behind it; of an explicit task, the phase of the team in
    /// which it was made.
    pub phase: u64,
    /// How many teams, tasks and groups were born of it.
    pub births: u64,
    /// How many worksharing regions it has met.
    pub regions: u64,
    /// How many frames it has made.
    pub frames: u64,
    /// The task group that it began in.
    pub group: Shared<Option<Name>>,
    /// The regions that it is in, the innermost on top.
    pub constructs: SharedPile<Construct>,
    /// The frame that runs.
    pub frame: Frame,
    /// The frames that wait, the one that called the running one on top.
    pub callers: SharedPile<Frame>,
}

/// The tasks of a worker that runs: the one that runs, and those that it left for it.
#[derive(Drop)]
pub struct Stack {
    pub top: Context,
    /// The contexts below, the one next to the top first.
    pub below: SharedPile<Context>,
}

/// What a worker is doing.
#[derive(Drop)]
pub enum Control {
    /// It has no task.
    Idle,
    /// It runs.
    Running(Stack),
    /// It met a fault; the stack is as before the step that met it.
    Faulted(Fault, Stack),
    /// The initial task has ended, with the value that `main` returned.
    Ended(i32),
}

/// A change of a running control. Elsewhere it changes nothing.
#[derive(Drop)]
pub enum Edit {
    /// The running frame goes to a place, with so many operands taken and then one pushed.
    Go {
        to: u32,
        takes: u32,
        pushed: Option<Operand>,
    },
    /// The running frame goes to a place, with so many operands taken, and waits there for the
    /// value of a new frame, which runs.
    BeginFrame {
        to: u32,
        takes: u32,
        body: u32,
        homes: Shared<Seq<Home>>,
    },
    /// The running frame ends, with a value for the frame that waits for it.
    EndFrame(Operand),
    /// A context begins, and runs.
    BeginContext(Shared<Context>),
    /// The running context ends. The one below runs on; where there is none, the worker is idle.
    EndContext,
    /// The running context enters a region.
    Open(Shared<Construct>),
    /// The running context leaves its innermost region.
    Close,
    /// The running context's innermost region becomes this one.
    Replace(Shared<Construct>),
    /// A team, a task or a group is born of the running context.
    CountBirth,
    /// The running context meets a worksharing region.
    CountRegion,
    /// The running context goes on from a barrier.
    CountPhase,
    /// The worker meets a fault.
    Fail(Fault),
    /// The initial task ends, with a value.
    End(i32),
}
