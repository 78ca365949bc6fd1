//! omplab hunt: schedules: their commands, their words, and the report on a bad one.
//!
//! A schedule is a list of blocks, each of some steps of one worker (`Block`).
//!
//! - `commands` writes a schedule as commands of ompback. `report` writes the report of what was found (`hunted`).
//! - lab_play plays schedules.
#![tactic(auto)]

mod block;
mod commands;
mod hunted;
mod report;

pub use block::Block;
pub use commands::{FINISH, MOST_STEPS, script};
pub use hunted::{Aims, Found, Hunted, Progress, Seeds};
pub use report::{first_line, push_report, push_schedule};
