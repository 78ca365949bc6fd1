//! omplab draw: a history as a graph: a box for each step, and an arrow where two conflict.
//!
//! - `picture_of` makes a `Picture` of `Traced` steps. `arrows` finds the arrows: to each step from the last
//!   earlier step of each other worker that conflicts with it.
//! - `lanes` has the touches of each worker's steps, in the lists of om_undo_touches, the last step first. So
//!   one search finds the last step before another one, and the time is that of the steps and arrows.
#![tactic(auto)]

mod arrows;
mod lanes;
mod picture;
mod traced;

pub use picture::{Arrow, End, Picture, StepBox, picture_of};
pub use traced::Traced;
