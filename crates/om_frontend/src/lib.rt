//! The front end: all passes in turn, from the bytes of a source to its program or its refusal.
//!
//! `program_of` runs the lexer, the parser, resolving and lowering. `specs/Verdict` says what a source comes
//! to by the definitions of these passes. `laws` says that this is at most one program or one refusal, and
//! not both. The shell, the reports of omplab, gate_cases and gate_checks take their programs from here.
//!
//! Cases: gate_cases, "== code" and "== beginnings".
#![tactic(auto)]

pub mod laws;
mod program;

pub use program::program_of;
