//! State: plain types: values, controls (stacks, frames, teams, open loops), edits, updates, steps; shared forms.
//!
//! What an object holds is a `Val`. A `Control` is all that one worker alone owns: its stack, a fault, its
//! end. An `Edit` changes a control, and an `Update` one other object. `Change`, `Label`, `Choice` and
//! `Entry` say which step it is and what it does.
//!
//! - `specs/State` (states and updates) and `specs/Rules` (the rules of a program, step, replay) are what all
//!   of the machine depends on. `Edits` says what edits make of a control, and `Changes` which step a change
//!   stands for. `Values` has the defaults of objects, and `Homes` says where the cells of a slot lie.
//! - `footprint` is what a step touches, as a plan has it. The worker stands in the place of the access of
//!   its control.
//! - `puts` is what a step changes beside its control, in three parts as the `names` of om_foot. A `Run` is
//!   one value for several cells of a slot, and a `Was` the values that cells held, which `was` notes.
//!   Contracts see one plain list.
//! - `shared_control`, `shared_pile` and `shared_team` are such values that several owners share.
//!   `open_share` is a place in a loop or in sections. What holds of each is an invariant of its type.
//! - `specs/Ready` says which names of tasks are ready, and which is the next one after a name.
#![tactic(auto)]

pub mod control;
pub mod footprint;
pub mod open_share;
pub mod puts;
pub mod shared_control;
pub mod shared_pile;
pub mod shared_team;
pub mod step;
pub mod value;
pub mod was;

pub use control::{
    Construct, Context, Control, Edit, Frame, Home, Kind, Share, Sharing, Stack, Team,
};
pub use footprint::Footprint;
pub use open_share::OpenShare;
pub use puts::{PutParts, Puts};
pub use shared_control::SharedControl;
pub use shared_pile::SharedPile;
pub use shared_team::SharedTeam;
pub use step::{Blocked, Change, Choice, Entry, Label, Outcome, Step, Tail, Update};
pub use value::{Ready, Run, Task, Val, Was};
pub use was::Noted;
