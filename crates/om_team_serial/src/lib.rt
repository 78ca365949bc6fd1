//! Rows: what serial code, calls, returns and reductions touch and change; what rows are made of: names, updates.
//!
//! A row is a function. It answers which objects an instruction names beside its worker's control, in which
//! mode, and what comes of their values (`Answer`, `Row`). That is edits of the control with updates, a fault,
//! why the worker is blocked, or that something is missing. It changes nothing, and its only error is out of
//! memory.
//!
//! - `Here` is where a worker carries an instruction out, and `site` has what the instruction finds there;
//!   `specs/Sites` says the same of a state. `table` has
//!   the row of each serial instruction (`serial_answer`), and of each one of functions (`function_answer`).
//! - `specs/Rows` has that form, and `specs/SerialRows` the rows of serial code. `acts` has the rows of the
//!   frame machine of om_code; `frames` has calls, returns, reductions and the numbers of threads, and `ends`
//!   the end of the program.
//! - What several rows are made of: `names` finds the objects that instructions name, and `updates` makes
//!   what is put there. `parts` has edits, names and updates, and `begin` what a task begins with. `count_at`
//!   and `is_zero` read the counts of unfinished tasks.
//! - om_team_worksharing has the rows of what members of a team share, om_team those of teams, and om_task
//!   those of tasks.
#![tactic(auto)]

pub mod acts;
pub mod begin;
pub mod ends;
pub mod frames;
pub mod here;
pub mod names;
pub mod parts;
pub mod row;
mod site;
pub mod table;
pub mod updates;

pub use frames::{Combining, number, reduce};
pub use here::Here;
pub use parts::At;
pub use row::{Answer, Launch, Row};
pub use table::{function_answer, serial_answer};
