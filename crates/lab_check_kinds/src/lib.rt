//! omplab check: the report on a source, and behind a refusal all kinds of places of it that are not accepted.
//!
//! `checked` joins the report of lab_check and the kinds of lab_port_kinds.
#![tactic(auto)]

ghost use Rattle.std.specs.Prelude.{◌≡◌, ◌++◌, IfOk};
ghost use Rattle.lab_check_kinds.specs.Checks.{Checks, TellsKinds};

use lab_check::{Report, report};
use lab_port::port;
use lab_port_kinds::kinds;
use om_seq::AllocResult;
use std::alloc::Global;

/// The report on a source that stands in this file, where there are so many workers, as lab_check has it.
///
/// Behind the report on a refused source stands a line for each kind of place of it where a rule of the port applies or
/// that has no form. The only error is out of memory.
pub fn checked(alloc: Global, file: &str, source: &[u8], workers: u8) -> AllocResult<Report>
    ensures { IfOk result (Checks file.now source.now) }
{
    let before = report(alloc, file, source, workers)?;
    if before.status == 0 {
        return Ok(before);
    }
    let Report { text, status } = before;
    let text = with_kinds(alloc, source, &text)?;
    Ok(Report { text, status })
}

// A report on a refused source, and its kinds of places.
fn with_kinds(alloc: Global, source: &[u8], report: &[u8]) -> AllocResult<Vec<u8>>
    ensures { IfOk result (λ text. TellsKinds source.now report.now text.items) }
{
    let ported = port(alloc, source)?;
    let kinds = kinds(alloc, source, &ported)?;
    let mut text = Vec::from_slice(alloc, report)?;
    text.extend_from_slice(&kinds)?;
    Ok(text)
}
