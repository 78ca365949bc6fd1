//! How a run comes to where a machine stands.

ghost use Rattle.std.specs.Prelude.{◌≡◌, IfOk};

use om_seq::{AllocResult, Seq};
use om_state::Entry;
use om_undo::Machine;
use std::alloc::Global;

/// The steps that led to where a machine stands. Its only error is out of memory.
pub(crate) fn path(alloc: Global, machine: &Machine) -> AllocResult<Seq<Entry>>
    ensures { IfOk result (λ entries. entries ≡ machine.now.history.entries) }
{
    let entries = machine.history(alloc)?;
    Ok(Seq::of(entries))
}
