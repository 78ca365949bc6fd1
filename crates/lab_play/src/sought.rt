//! What is sought of where a schedule leads.

use lab_judge::Wanted;
use om_seq::AllocResult;
use om_undo::Machine;
use std::alloc::Global;

/// How a schedule goes on after its blocks.
#[derive(Clone, Copy)]
pub enum Finish {
    /// It does not.
    Nowhere,
    /// As `run` makes steps: the least worker that has a move makes it, up to a fault.
    UpToFault,
    /// So, but after a fault the other workers go on.
    PastFaults,
}

/// What is sought of where a schedule leads.
pub trait Sought {
    /// How a schedule goes on after its blocks, before it is looked at.
    fn finish(&self) -> Finish;

    /// Whether a machine stands at what is sought. Nothing changes; the only error is out of memory.
    fn is_at(&self, alloc: Global, machine: &Machine) -> AllocResult<bool>;
}

// A hunt seeks what is bad.
impl Sought for Wanted {
    fn finish(&self) -> Finish {
        Finish::UpToFault
    }

    fn is_at(&self, alloc: Global, machine: &Machine) -> AllocResult<bool> {
        let badness = self.judge(alloc, machine)?;
        Ok(badness.is_some())
    }
}
