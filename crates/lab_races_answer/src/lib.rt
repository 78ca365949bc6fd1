//! omplab races --session, omplab hunt: the races of one history in words, of a session or of a schedule.
//!
//! - `judged` runs a session by lab_draw, and finds the races of its history. `watch` finds those of the histories of a
//!   hunt.
//! - lab_races_words has the words.
#![tactic(auto)]

mod judged;
mod watch;

pub use judged::{Judged, judge};
pub use watch::Watch;
