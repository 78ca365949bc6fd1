//! Commands and answers: ompback, the debugger as a program: it runs om_shell_program on a thread, and exits.
//!
//! The thread has the stack that the parser asks for (`STACK_SIZE` of om_parser).
#![tactic(auto)]

use om_parser::STACK_SIZE;
use om_shell::{Outcome, ShellFault, status};
use om_shell_program::program;
use std::process::ExitCode;
use std::thread::Builder;

fn main(rt: HostRuntime) -> ExitCode {
    let alloc = rt.alloc();
    let thread = Builder::new()
        .stack_size(STACK_SIZE)
        .spawn(&rt, move || program(&rt, alloc));
    let outcome = match thread.map(|thread| thread.join(&rt)) {
        Ok(Ok(outcome)) => outcome,
        _ => Outcome::Fault(ShellFault::Memory),
    };
    if let Outcome::Fault(fault) = outcome {
        let _ = rt.eprintln(fault);
    }
    ExitCode::from(status(outcome))
}
