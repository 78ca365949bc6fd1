//! History: an index of which entries touch which object: it finds the first later entry that conflicts.
//!
//! A touch is an access of an object by an entry: the entry's serial and the mode. `TouchLists` has the
//! touches of each object, by mode. It knows serials and accesses, and no entries.
//!
//! - `touches` has all lists. `singles` has those of objects that are named singly: the controls of workers
//!   (`controls`, a vector by worker) and all others (`objects`). `by_mode` has the touches of one object.
//! - `slots` has the touches of cells that were named at once, by slot, and `spans` those of one slot. So a
//!   step that names 4,096 cells of an array adds one touch. A search at a single cell asks the spans of its
//!   slot too.
//! - `own` has the serials of each worker's own entries (`OwnEntries`).
//! - `accesses` are those of a step as its record keeps them. `conflicts` finds the first object at which the
//!   accesses of two steps conflict.
//! - `specs/Touches` says what a list has, with the touches of a footprint and without them.
//!   `specs/Searches`, `Lists` and `Workers` are lemmas for om_undo_history too.
#![tactic(auto)]

pub mod accesses;
mod by_mode;
pub mod conflicts;
mod controls;
mod objects;
pub mod own;
mod singles;
mod slots;
mod spans;
pub mod touches;

pub use accesses::Accesses;
pub use conflicts::conflict;
pub use own::OwnEntries;
pub use touches::TouchLists;
