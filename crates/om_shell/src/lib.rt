//! Commands and answers: a session over streams: reads files, source, lines; writes answers, refusals; exit status.
//!
//! `run` reads a source and then commands, and writes each answer before it reads on. It answers how the run
//! ended (`Ended`), or what broke it off (`ShellFault`).
//!
//! - `source` reads up to the line `%%`, and keeps as much of a source as suffices to refuse it. `serve` tells
//!   a refusal or opens a session, and `conversation` answers each line. `session` holds the debugger and the
//!   answers that are not written yet. `refusal` writes the line of a refusal.
//! - `output` alone writes, and `input` alone reads a session.
//! - Both programs use `file`, which reads a source in a file, or a reader whole. They use `Outcome`, which
//!   names how a program ends, and `words_of`, the words that it was called with. omplab uses `session_bytes`,
//!   which cuts a session that was read whole into its source and its commands. It uses `line_behind` and
//!   `column_behind`, which count lines and columns.
//!
//! Cases: the sessions of gate_cases.
#![tactic(auto)]

mod conversation;
mod ended;
mod file;
mod input;
pub mod laws;
mod output;
mod refusal;
mod serve;
mod session;
mod shell;
mod source;

pub use ended::{Ended, Outcome, ShellFault, status};
pub use file::{read_all, read_named, words_of};
pub use input::{Input, first_line_end};
pub use output::send;
pub use refusal::{column_behind, front_of, line_behind};
pub use shell::{Options, run};
pub use source::{SessionBytes, session_bytes};
