//! Where a worker carries an instruction out.

ghost use Rattle.std.specs.Prelude.{◌≤◌};

use om_code::Program;
use om_memory::{Memory, Stack};
use std::alloc::Global;

/// Where a worker carries an instruction out: in which program, at which state of all objects, and on which
/// stack.
///
/// Contracts see it as `site_of`.
#[derive(Clone, Copy)]
pub struct Here<'a> {
    pub alloc: Global,
    pub store: &'a Memory,
    pub program: &'a Program,
    /// The stack that the worker runs.
    pub stack: &'a Stack,
    /// The worker, from 0.
    pub worker: u8,
    /// How many workers there are.
    pub workers: u8,
    /// There is at least one.
    pub ghost some: { 1 ≤ workers },
}
