//! omplab hunt: the search itself: tries seed after seed, and has the debugger show the first bad schedule.
//!
//! - `hunting` judges `run` alone, and says with what outputs are compared.
//! - `tries` makes one machine, on which lab_play plays its schedules. Of each that is bad it judges the
//!   book that the debugger leaves, and answers what the debugger wrote.
#![tactic(auto)]

mod hunting;
mod tries;

pub use hunting::hunt;
pub use lab_judge::{Badness, Standard};
pub use lab_schedules::{Aims, Block, Found, Hunted, Progress, Seeds, push_report};
