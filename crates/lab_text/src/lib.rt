//! omplab: what subcommands share: texts that they write, a session's answers, commands turned down; exit statuses.
//!
//! Each of these is its text, to the byte (`specs/Heads`, `Commands`, `Tails`). Which commands of a session were
//! turned down is said in words alone.
//!
//! - `report` puts a report together (`Report`): the verdict with its place, and what stands after it.
//! - `commands` writes steps as commands of the debugger (`commands_for`).
//! - `tail` puts a mark and words after a line, or nothing where they would end the line (`noted`).
//! - `line_by_line` and `answers` are a reader and a writer for a run of the debugger: so each answer is known
//!   by itself. `turning_down` lists the commands that were answered by H1, H2, `full`, `blocked` or `refused`
//!   (`turned_down`).
//! - `status` has the exit statuses.
#![tactic(auto)]

mod answers;
mod commands;
mod line_by_line;
mod report;
pub mod status;
mod tail;
mod turning_down;

pub use answers::Answers;
pub use commands::commands_for;
pub use line_by_line::LineByLine;
pub use report::{Report, accepted_report, push_place, refused_report};
pub use tail::noted;
pub use turning_down::{first_line, turned_down};
