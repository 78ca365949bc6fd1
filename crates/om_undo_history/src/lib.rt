//! History: the steps that stand, each with its choice and undo record: step, undo, roll, cones, under any rules; laws.
//!
//! A `History` is a `Memory` with the entries that led to it. It makes a step (`take`), takes one back
//! (`undo`), and takes a causal cone back (`cone`, `roll`). It serves every program: om_undo hands it the
//! rules of one.
//!
//! - `history` has the calls, `reply` their answers, and `laws` the laws over any rules.
//! - `records` has the undo records by serial, with the touch lists beside them; that these are those of the
//!   entries is an invariant of `Records`. `by_serial` is the list in which they stand. `kept` is the form in
//!   which one is kept, and `Backs` what takes it back.
//! - `planning` has a step that is about to be made, and keeps its objects in the memory. `steps` makes its
//!   change with its record, and takes the change of a record back. `updates` changes single values,
//!   `further` those of a step in parts.
//! - Where memory ends on the way of a step, what was done is taken back. An undo takes no memory.
//! - `undo` first asks whether a later entry conflicts (`free_line`). It makes the whole reply, which holds
//!   an object and is large, only then (`undo_by_reply`).
//! - A record keeps a mark in the place of a control, whose old value is in the trail of the memory.
//!   `specs/Fills` computes the undo records that the small ones stand for (`full_all`), of which the
//!   contracts speak.
#![tactic(auto)]

mod by_serial;
mod further;
pub mod history;
mod kept;
pub mod laws;
mod planning;
pub mod records;
pub mod reply;
mod steps;
mod updates;

pub use history::History;
pub use records::UndoRecord;
pub use reply::{RollReply, StepReply, Taken, UndoReply};
