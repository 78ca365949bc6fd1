//! Why there is no answer, on standard error.

use lab_text::status::FAULT;
use om_shell::{ShellFault, read_named};
use std::alloc::Global;
use std::io::ErrorKind;
use std::rt::{Files, Runtime};

/// Tells a fault on standard error, and answers the exit status that goes with it.
pub(crate) fn told<R: Runtime>(rt: &R, fault: ShellFault) -> u8 {
    let _ = rt.eprintln(fault);
    FAULT
}

/// The bytes of the file that is named, if one is. `None` where they can't be had; standard error tells why.
pub(crate) fn source_in<R: Runtime>(
    rt: &R,
    alloc: Global,
    file: Option<&str>,
) -> Option<Option<Vec<u8>>> {
    match read_named(rt, alloc, file) {
        Ok(source) => Some(source),
        Err(fault) => {
            tell_of_file(rt, fault, file.unwrap_or(""));
            None
        }
    }
}

// Tells that a file could not be read: `H3 my.c: no such file`.
fn tell_of_file<R: Runtime>(rt: &R, fault: ShellFault, file: &str) {
    if fault != ShellFault::Read {
        let _ = rt.eprintln(fault);
        return;
    }
    let reason = reason(rt, file);
    let _ = rt.eprintln(format_args!("{fault} {file}: {reason}"));
}

// Why a file can't be read.
fn reason<R: Files>(rt: &R, file: &str) -> &'static str {
    match std::fs::open(rt, file) {
        Ok(_) => "a read failed",
        Err(error) => reason_of(error.kind()),
    }
}

fn reason_of(kind: ErrorKind) -> &'static str {
    match kind {
        ErrorKind::NotFound => "no such file",
        ErrorKind::PermissionDenied => "permission denied",
        _ => "it can't be opened",
    }
}
