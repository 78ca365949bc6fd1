//! State: the event records of a run: their kinds, numbers and texts, after OMPT, OpenMP's interface for tools.
//!
//! - `event` has the records (`Record`). `kind` has the values of a record's kind, endpoint and status, with
//!   their numbers.
//! - `text_of` writes a record as `events W` shows it, and `words` writes the words of such a text.
//! - `specs/Records` says which text a record has, and `Numbers` which numbers OMPT gives. `Words` has the
//!   words of a text as the code has them.
//! - The row of an instruction, which says what a step touches and changes, makes the records too
//!   (om_team_serial). A new record adds a variant of `Record`, and its text in `text` and in
//!   `specs/Records`.
#![tactic(auto)]

pub mod event;
pub mod kind;
mod text;
mod words;

pub use event::Record;
pub use kind::{Endpoint, Sync, TaskFlag, TaskStatus, Thread, Work};
pub use text::text_of;
