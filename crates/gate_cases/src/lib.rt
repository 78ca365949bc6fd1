//! Cases and checks: cases as text: sources with verdicts, sessions with answers, free runs; books left.
//!
//! Cases are the sections of a text, and what is said of them is text. The program `gate` reads the first and prints
//! the second. A section `== STAGE
//! TITLE` has sources, each with the verdict that is wanted of that stage of the front end: `lexer`, `line`,
//! `parser`, `resolver` or `code`. In a section `== beginnings TITLE` each beginning of a source is tried.
//! Any other section is a session of several workers.
//!
//! - `written` reads sources as cases have them. `stage` has the stages, `beginnings` the beginnings of a
//!   source, and `sessions` runs the sessions. `verdicts` goes through all sections.
//! - Where the last line is `== checks`, `checks` then asks what no text says: `books`, `ends` and
//!   `free_tasks` ask it; `memory` has the streams of `ends`. `call_laws` calls the laws of the front end and
//!   of scripts.
#![tactic(auto)]

mod beginnings;
mod books;
mod checks;
mod ends;
mod free_tasks;
mod memory;
mod sessions;
mod stage;
mod verdicts;
mod written;

pub use crate::verdicts::{Report, judge};
