//! Schedules: lists of blocks of steps.

ghost use Rattle.std.specs.Prelude.{◌≡◌};
ghost use Rattle.lab_schedules.specs.Schedules.{steps_of};

use om_foot::Name;

/// A part of a schedule.
#[derive(Clone, Copy)]
pub enum Block {
    /// A worker makes its next step so many times, at least once.
    Steps { worker: u8, count: u32 },
    /// A worker begins the ready task of this name.
    Start { worker: u8, task: Name },
}

impl Block {
    /// How many steps it is.
    pub fn steps(&self) -> u32
        ensures { result ≡ steps_of self.now }
    {
        match self {
            Block::Steps { count, .. } => *count,
            Block::Start { .. } => 1,
        }
    }
}
