//! Sessions: threads: free runs, where each worker steps in a thread of its own; drives, rounds of orders for seats.
//!
//! - `free_run` opens a session over a book, lets its workers make their rounds, and closes it
//!   (`run_freely`). `freely` does that over the seats of a session (`free`). `runner` is a worker that makes
//!   its rounds, and `sitter` a seat beside its session.
//! - `worker` answers orders after its gate said yes (`Gate`, `Debuggee`, `Worker`). `rounds` asks and
//!   gathers, `driving` starts and joins the threads, and `seats` drives the seats of a session, and has the
//!   answers compared. Free runs use `Gate` and `Debuggee` too. No command starts a drive, but gate_checks
//!   does.
//!
//! Checks: gate_checks, of drives, gates and free runs.
#![tactic(auto)]

mod driving;
mod free_run;
mod freely;
mod rounds;
mod runner;
mod seats;
mod sitter;
mod worker;

pub use driving::{DrivenOver, drive_over};
pub use free_run::{Count, Errand, run_freely};
pub use freely::{Freed, free};
pub use om_book::{Answer, Fault, KeptAnswers, Order, Rows, keep_backed, numbers_differ};
pub use rounds::{Gathered, gather};
pub use seats::{Driven, drive};
pub use worker::{Debuggee, Gate, Worker};
