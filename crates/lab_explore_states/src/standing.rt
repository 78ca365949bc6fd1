//! Where a set of states stands.

use lab_explore_rows::Row;
use om_undo::Machine;
use std::snapshot::Snapshot;

/// A row, with a machine at its state.
#[derive(Drop)]
pub(crate) struct Standing {
    pub(crate) row: Row,
    pub(crate) machine: Snapshot<Machine>,
}
