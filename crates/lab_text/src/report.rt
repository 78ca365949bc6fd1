//! A report as it is written: the head, which is the verdict with its place, and what stands after it.

ghost use Rattle.std.specs.Prelude.{◌≡◌, IfOk, ◌++◌, OnOk};
ghost use Rattle.om_shell_commands.specs.Texts.{Writes};
ghost use Rattle.lab_text.specs.Heads.{HasText, accepted_head, refused_head, place_text};

use om_lexer::SourceFault;
use om_seq::AllocResult;
use om_shell::{column_behind, front_of, line_behind};
use om_shell_commands::push_numbered;
use std::alloc::Global;

/// A report: lines of text, and the exit status that goes with it.
#[derive(Drop)]
pub struct Report {
    /// Whole lines. Their first bytes are the verdict.
    pub text: Vec<u8>,
    /// 0, or 1 where the source is refused.
    pub status: u8,
}

/// The report on the accepted source of a file, with notes behind its head. The only error is out of memory.
pub fn accepted_report(alloc: Global, file: &str, notes: &[u8]) -> AllocResult<Report>
    ensures text { IfOk result (HasText (accepted_head file.now) notes.now) }
    ensures status { IfOk result (λ report. report.status ≡ 0) }
{
    let mut text = Vec::new(alloc);
    push_accepted(&mut text, file)?;
    text.extend_from_slice(notes)?;
    Ok(Report { text, status: 0 })
}

/// The report on the refused source of a file, with an explanation behind its head. The only error is out of
/// memory.
pub fn refused_report(
    alloc: Global,
    file: &str,
    source: &[u8],
    fault: SourceFault,
    explanation: &[u8],
) -> AllocResult<Report>
    ensures text { IfOk result (HasText (refused_head file.now source.now fault) explanation.now) }
    ensures status { IfOk result (λ report. report.status ≡ 1) }
{
    let mut text = Vec::new(alloc);
    push_refused(&mut text, file, source, fault)?;
    text.extend_from_slice(explanation)?;
    Ok(Report { text, status: 1 })
}

/// Appends `FILE:LINE:COLUMN` of a byte of the source.
pub fn push_place(text: &mut Vec<u8>, file: &str, source: &[u8], at: u32) -> AllocResult<()>
    ensures { OnOk result
        (text.new.items ≡ text.old.items ++ place_text file.now source.now at) }
{
    let front = front_of(source, at);
    text.extend_from_slice(file.as_bytes())?;
    push_numbered(text, b":", line_behind(front))?;
    push_numbered(text, b":", column_behind(front))
}

/// Appends `FILE: accepted`, and a line end.
pub(crate) fn push_accepted(text: &mut Vec<u8>, file: &str) -> AllocResult<()>
    ensures { OnOk result (text.new.items ≡ text.old.items ++ accepted_head file.now) }
{
    text.extend_from_slice(file.as_bytes())?;
    text.extend_from_slice(b": accepted\n")
}

/// Appends `FILE:LINE:COLUMN: error: S3: `.
pub(crate) fn push_refused(
    text: &mut Vec<u8>,
    file: &str,
    source: &[u8],
    fault: SourceFault,
) -> AllocResult<()>
    ensures { OnOk result (Writes (refused_head file.now source.now fault) text.old text.new) }
{
    push_place(text, file, source, fault.at)?;
    push_numbered(text, b": error: S", fault.code.number())?;
    text.extend_from_slice(b": ")
}
