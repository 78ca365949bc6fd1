//! The entries of a history, each with what its step touched and what it did.

use lab_races::Manner;
use om_seq::Seq;
use om_state::Entry;
use om_undo_touches::Accesses;

/// An entry of a history, with the footprint of its step at its place in the replay.
#[derive(Drop)]
pub struct Traced<'a> {
    pub entry: Entry,
    /// What the step touched, its worker's control first, as the machine's record of it has it.
    pub footprint: &'a Accesses,
    /// The name of its instruction.
    pub instruction: Seq<u8>,
    /// The cell of a local variable that the instruction names, as `x` or `a[2]`; no bytes where it
    /// names none.
    pub variable: Seq<u8>,
    /// The variable that the instruction names and a value, as far as it has them, as `x = 1` or
    /// `a[2] = 1`: what the step put there, or else what it left on its stack. Where it met a fault, that
    /// stands in place of the value, as `x: F4 a variable is read in which nothing was stored`.
    pub value: Seq<u8>,
    /// Whether it met a fault.
    pub is_fault: bool,
    /// How its instruction accesses variables.
    pub manner: Manner,
}
