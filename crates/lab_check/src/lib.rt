//! omplab check: the report on a source, as compilers write it: its line, a mark under a token, help, notes on teams.
//!
//! `report` runs the front end, and says whether the source is accepted, or why not and where.
//!
//! - `verdict` makes the report. `excerpt` writes the line with its mark, and the words and help of lab_help.
//!   `token_at` finds the text of the token at a place. `team` has the notes on `num_threads`.
#![tactic(auto)]

mod excerpt;
mod team;
mod verdict;

pub use lab_text::Report;
pub use verdict::report;
