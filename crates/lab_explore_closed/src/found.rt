//! What an exploration finds.

ghost use Rattle.std.specs.Prelude.{◌≡◌};
ghost use Rattle.lab_explore_closed.specs.Races.{kind_number};

use om_code::frame::Fault;
use om_foot::Obj;
use om_seq::Seq;
use om_state::{Blocked, Entry};

/// A fault that a worker met.
#[derive(Clone, Copy)]
pub struct Met {
    pub fault: Fault,
    /// The worker, from 0.
    pub worker: u8,
    /// The line in the source of the instruction that met it, from 1.
    pub line: u32,
}

/// A worker that runs where no step can be made.
#[derive(Clone, Copy)]
pub struct Wait {
    /// The worker, from 0.
    pub worker: u8,
    /// The line in the source of its next instruction, from 1.
    pub line: u32,
    /// What it waits for; `None` where its instruction lacks what it needs.
    pub blocked: Option<Blocked>,
}

/// What is left where no step can be made.
#[derive(Drop)]
pub enum Ending {
    /// Workers have met faults: these, by worker, and this was printed.
    Faults(Seq<Met>, Seq<u8>),
    /// The program has ended with this value, and this was printed.
    Ends(i32, Seq<u8>),
    /// The program has not ended. This was printed, and these workers wait, by worker.
    Sticks(Seq<u8>, Seq<Wait>),
}

/// An ending, and how a run comes to it.
#[derive(Drop)]
pub struct FoundEnd {
    /// The steps from the start that lead there. Their serials are those that the search gave them.
    pub path: Seq<Entry>,
    pub ending: Ending,
}

/// A fault, and how a run comes to it.
#[derive(Drop)]
pub struct FoundFault {
    /// The steps from the start that lead to where it was met.
    pub path: Seq<Entry>,
    pub met: Met,
}

/// How the access of a variable by a step is atomic.
#[derive(Clone, Copy)]
pub enum Atomicity {
    /// It is not.
    Plain,
    /// It is that of an `atomic`, which reads, writes or updates.
    Atomic,
    /// It is a reduction's update of the original variable, which is atomic with others of its kind alone.
    Reduction,
}

/// How a step accesses a variable.
#[derive(Clone, Copy, PartialEq, Eq)]
pub enum AccessKind {
    /// It reads its value.
    Reads,
    /// It may put a value.
    Writes,
    /// It ends its life, or makes it unset where it is declared.
    Ends,
}

impl AccessKind {
    /// Its number among the kinds, from 0, by which pairs of accesses of one line are ordered.
    pub fn number(self) -> u8
        ensures { result ≡ kind_number self }
    {
        match self {
            AccessKind::Reads => 0,
            AccessKind::Writes => 1,
            AccessKind::Ends => 2,
        }
    }
}

/// A worker's next step, and how it accesses a variable.
#[derive(Clone, Copy)]
pub struct Place {
    /// The line in the source of the step, from 1.
    pub line: u32,
    pub kind: AccessKind,
}

/// Two accesses of one cell or global that meet. That of the lesser line stands first; of one line, that which reads
/// stands before that which writes, and this before that which ends the life of the variable.
#[derive(Clone, Copy)]
pub struct Pair {
    pub first: Place,
    pub second: Place,
    /// The cell or global, with its index.
    pub object: Obj,
}

/// A worker that stands before an access.
#[derive(Drop)]
pub struct Racer {
    /// The worker, from 0.
    pub worker: u8,
    /// The locks of critical regions that it holds there, by their numbers in the program, ascending.
    pub locks: Seq<u32>,
}

/// A race, and how a run comes to it.
#[derive(Drop)]
pub struct FoundRace {
    /// The steps from the start that lead to where both accesses are next.
    pub path: Seq<Entry>,
    pub pair: Pair,
    /// Who stands before the first access of the pair.
    pub first: Racer,
    /// Who stands before the second one.
    pub second: Racer,
}

/// Whether what was found is all that there is.
#[derive(Clone, Copy, PartialEq, Eq)]
pub enum Verdict {
    /// It is: all schedules were looked at.
    Complete,
    /// There are more states than may be stored.
    NotComplete,
    /// As many steps were made as may be.
    Stopped,
    /// There was no memory to go on, or 2^62 things were done. No clause says that it was so.
    OutOfMemory,
}

/// What an exploration may take.
#[derive(Clone, Copy)]
pub struct Limits {
    /// How many states may be stored.
    pub states: u64,
    /// How many steps may be made, where that is limited.
    pub steps: Option<u64>,
}

/// What an exploration answers.
#[derive(Drop)]
pub struct Explored {
    pub ends: Seq<FoundEnd>,
    pub faults: Seq<FoundFault>,
    pub races: Seq<FoundRace>,
    pub verdict: Verdict,
    /// Whether it was seen that a run comes to a state and back to it. Where it was not seen, some may do so all the
    /// same.
    pub goes_round: bool,
    /// How many states were stored, the start among them: that many different ones are reached at least. Where there
    /// are more than may be stored, it is one more than that.
    pub states: u64,
    /// How many steps were made.
    pub steps: u64,
}
