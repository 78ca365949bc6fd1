//! Sessions: commands, replies and records of a journal of machine calls; whether two values are the same.
//!
//! - `journal` has the records (`JournalRecord`), and what is asked for before a call. `command`, `reply` and
//!   `replies` have the calls and their answers; `replies` makes a machine's reply once or three times.
//!   `kept` has small forms of them, `entry` of entries, and `name` of names of tasks.
//! - `Same` is the question whether two values are the same. `same` answers it for numbers, options and
//!   lists, `event` for event records, and `value` for what objects hold.
//! - `specs/Growing` says what one more record leaves, and `RunLeft` that a journal leaves a run. They are
//!   matter of proofs, for om_book.
#![tactic(auto)]

mod command;
mod entry;
mod event;
mod journal;
mod kept;
mod name;
pub mod replies;
mod reply;
mod same;
mod value;

pub use command::{Command, Query};
pub use entry::KeptEntry;
pub use journal::{Asked, JournalRecord, ReplyIn, done_in};
pub use kept::{KeptCommand, KeptUndoReply, UndoneStep};
pub use name::KeptName;
pub use reply::Reply;
pub use same::{Same, same_items};
