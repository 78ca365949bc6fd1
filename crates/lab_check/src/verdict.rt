//! The report on a source, by its verdict.

ghost use Rattle.std.specs.Prelude.{◌≡◌, IfOk};
ghost use Rattle.lab_text.specs.Heads.{accepted_head, refused_head};
ghost use Rattle.lab_check.specs.Reports.{HasHead, Reports};

use crate::excerpt::explanation;
use crate::team::{Checked, team_notes};
use lab_text::{Report, accepted_report, refused_report};
use om_frontend::program_of;
use om_lexer::{FaultCode, SourceFault};
use om_seq::AllocResult;
use std::alloc::{AllocError, Global};

// The report on an accepted source.
fn accepted(alloc: Global, checked: Checked<'_>) -> AllocResult<Report>
    ensures begins { IfOk result (HasHead (accepted_head checked.entry.file.now)) }
    ensures status { IfOk result (λ report. report.status ≡ 0) }
{
    let notes = team_notes(alloc, checked)?;
    accepted_report(alloc, checked.file, &notes)
}

// The report on a refused source.
fn refused(alloc: Global, file: &str, source: &[u8], fault: SourceFault) -> AllocResult<Report>
    ensures begins { IfOk result (HasHead (refused_head file.now source.now fault)) }
    ensures status { IfOk result (λ report. report.status ≡ 1) }
{
    let explanation = explanation(alloc, source, fault)?;
    refused_report(alloc, file, source, fault, &explanation)
}

/// The report on a source that stands in this file, as compilers write it.
///
/// Of a refused source it is `FILE:LINE:COLUMN: error: S3: `, words, the line with a mark under the token,
/// and help where there is some. Of an accepted one it is `FILE: accepted`, and a note for each `num_threads`
/// whose constant is above the number of workers, with the `--threads` that gives the team more. Columns
/// count bytes from 1. The only error is out of memory.
pub fn report(alloc: Global, file: &str, source: &[u8], workers: u8) -> AllocResult<Report>
    ensures { IfOk result
        (λ report. Reports file.now source.now report.text.items report.status) }
{
    match program_of(alloc, source) {
        Ok(program) => {
            drop(program);
            let checked = Checked {
                file,
                source,
                workers,
            };
            accepted(alloc, checked)
        }
        Err(fault) => {
            if fault.code == FaultCode::Memory {
                return Err(AllocError);
            }
            refused(alloc, file, source, fault)
        }
    }
}
