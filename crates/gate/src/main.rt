//! Cases and checks: the program that makes all of them. It prints what each crate of checks tells of its text in `data`.
//!
//! Above each part stands a line `#### NAME`. What is printed is compared with `stdout`. With the name of a part as its
//! word, as in `gate port < my.c`, it prints what that part tells of the standard input. One program does all, since
//! each program costs the gate minutes beside its proofs: two compilers build it, with all that it stands on.
#![tactic(auto)]

mod parts;
mod statuses;

use crate::parts::{print_all, print_part};
use anyhow::Result;
use om_parser::STACK_SIZE;
use om_shell::words_of;
use std::alloc::Global;
use std::io;
use std::rt::Runtime;
use std::sync::Wait;
use std::thread::{Builder, Threads};

// Makes the part that the command line names over the standard input, or all parts.
fn program<R: Runtime + AllocGlobal + Threads + Wait + Sync>(rt: &R, alloc: Global) -> Result<()> {
    let words = words_of(rt, alloc)?;
    let name = words.as_ref().and_then(|words| words.get(1));
    match name {
        Some(name) => {
            let input = io::read_to_string(alloc, rt.reader())?;
            print_part(rt, alloc, name.as_str(), input.as_str())
        }
        None => print_all(rt, alloc),
    }
}

fn main(rt: HostRuntime) -> Result<()> {
    let alloc = rt.alloc();
    let thread = Builder::new()
        .stack_size(STACK_SIZE)
        .spawn(&rt, move || program(&rt, alloc))?;
    thread.join(&rt)
}
