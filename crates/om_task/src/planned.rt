//! Plans: what comes of a worker's choice.

use om_state::{Blocked, Change};

/// What comes of a worker's choice: the plan of its step.
#[derive(Drop)]
pub enum Plan {
    /// It can be taken.
    Updates(Change),
    /// It can't be taken now.
    Blocked(Blocked),
    /// The worker has nothing more to do: its program has ended, it met a fault, or its code lacks
    /// what the instruction needs.
    Ended,
}
