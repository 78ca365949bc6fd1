//! State: the memory of a run: the store with the workers' controls (stacks, frames), edited in place and taken back.
//!
//! It is a total map from objects to values. The workers' controls are here, each in a `Trail`; the other
//! values are in the `Store` of om_cells. An edit is made in place, and taken back exactly and without
//! memory.
//!
//! - `control` has a control in the form that is changed in place, and what takes an edit of it back
//!   (`Inverse`). `frame`, `context` and `edit` make the edits, each of the least part that it changes.
//! - `tape` is a stack in which what is taken stays above the top until something is pushed over it.
//! - `trail` is a control with what takes its changes back, up to its first. `live` makes such a control of a
//!   plain one, and `copy` a plain one of it.
//! - `fault_after` finds the fault to which edits would lead, without making them.
//! - `specs/Plain` says which plain control such a control stands for. So what an edit does is said by
//!   `om_state/specs/Edits` alone. `specs/Inverses` says what an inverse makes of a control, and
//!   `specs/Memories` which state a memory is.
#![tactic(auto)]

pub mod context;
pub mod control;
pub mod copy;
pub mod edit;
pub mod frame;
pub mod live;
pub mod memory;
pub mod tape;
pub mod trail;

pub use control::{Context, Control, Frame, Inverse, Stack};
pub use copy::plain_of;
pub use edit::fault_after;
pub use live::control_of;
pub use memory::{Memory, worker_of};
pub use tape::Tape;
pub use trail::Trail;
