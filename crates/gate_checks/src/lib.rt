//! Cases and checks: checks of machine, books, seats, threads and the validator, as no session can make them.
//!
//! It reads nothing, and tells one line for each check, which ends with ` is WRONG` where it failed. The program
//! `gate` prints these lines.
//!
//! - `checks` lists the checks: each is a function of a module of its own, as `undos`, `full`, `gates` or
//!   `late`. `valid` has those of the validator.
//! - `machine_of_two` and `table` make what they are over. `call_laws` calls the laws of the machine.
#![tactic(auto)]

mod checks;
mod driven;
mod free_runs;
mod full;
mod gates;
mod gathered;
mod holding;
mod late;
mod machine_of_two;
mod orders;
mod table;
mod unbacked;
mod undos;
mod valid;

pub use crate::checks::checked;
