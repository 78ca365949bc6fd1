//! The steps that stand in a history, and what is told of two that race.

use om_foot::{Mode, SharedAccess, SharedCells, SharedObject};

/// How the instruction of a step accesses variables.
#[derive(Clone, Copy)]
pub enum Manner {
    /// As any instruction does.
    Plain,
    /// Under `atomic`.
    Atomic,
    /// It updates the original variable of a reduction.
    Reduction,
    /// It ends the lives of variables, or makes one unset where it is declared.
    Ending,
}

/// A step that stands in a history, with what it touched.
#[derive(Clone, Copy)]
pub struct Made<'a> {
    /// Its number among all steps ever made, from 1.
    pub serial: u64,
    /// The worker that made it, from 0. It wrote its control.
    pub worker: u8,
    /// The line in the source of its instruction, from 1.
    pub line: u32,
    pub manner: Manner,
    /// What it touched behind the control: single accesses first,
    pub first: &'a [SharedAccess],
    /// then cells that it wrote,
    pub cells: &'a [SharedCells],
    /// then single accesses again.
    pub last: &'a [SharedAccess],
}

/// One of two steps that race.
#[derive(Clone, Copy)]
pub struct Side {
    /// Its number among all steps ever made, from 1.
    pub serial: u64,
    /// The worker that made it, from 0.
    pub worker: u8,
    /// The line in the source of its instruction, from 1.
    pub line: u32,
    pub manner: Manner,
    /// How it touched the variable.
    pub mode: Mode,
}

/// Two steps of a history that race.
#[derive(Drop)]
pub struct Race {
    /// The cell or global that both access.
    pub object: SharedObject,
    /// The step that was made first.
    pub earlier: Side,
    pub later: Side,
}
