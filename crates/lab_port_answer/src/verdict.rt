//! What is answered for a source: the text, the verdict on it, and the list.

ghost use Rattle.std.specs.Prelude.{◌≡◌, ◌++◌, IfOk, OnOk};
ghost use Rattle.lab_port.specs.Portings.{Ports};
ghost use Rattle.lab_port_answer.specs.Answers.{left_words, accepted_words, accepted_list, Tells, TellsRefused, IsKept, IsPorted, Answers};

use crate::answered::Answer;
use crate::summary::{push_accepted, push_refused};
use lab_check::{Report, report};
use lab_port::{Ported, change_count, change_list, port, refusal_list, warning_count};
use om_seq::AllocResult;
use std::alloc::Global;

/// What is answered for a source that stands in this file, where there are so many workers.
///
/// An accepted source is left as it is. The only error is out of memory.
pub fn answer(alloc: Global, file: &str, source: &[u8], workers: u8) -> AllocResult<Answer>
    ensures { IfOk result (λ answer. Answers file.now source.now answer) }
{
    let before = report(alloc, file, source, workers)?;
    let accepted = before.status == 0;
    drop(before);
    if accepted {
        unchanged(alloc, source)
    } else {
        changed(alloc, file, source, workers)
    }
}

// The answer for a source that is accepted.
fn unchanged(alloc: Global, source: &[u8]) -> AllocResult<Answer>
    ensures text { IfOk result (λ answer. answer.text.items ≡ source.now) }
    ensures list { IfOk result (λ answer. answer.list.items ≡ accepted_words 0 0) }
    ensures warnings { IfOk result (λ answer. answer.warnings ≡ 0) }
    ensures status { IfOk result (λ answer. answer.status ≡ 0) }
{
    let mut list = Vec::new(alloc);
    push_accepted(&mut list, 0, 0)?;
    Ok(Answer {
        text: Vec::from_slice(alloc, source)?,
        list,
        warnings: 0,
        status: 0,
    })
}

// The answer for a source that is refused.
fn changed(alloc: Global, file: &str, source: &[u8], workers: u8) -> AllocResult<Answer>
    ensures { IfOk result (λ answer. IsPorted file.now source.now answer) }
{
    let ported = port(alloc, source)?;
    let after = report(alloc, file, &ported.rules.text, workers)?;
    let warnings = warning_count(&ported);
    let list = list_of(alloc, file, source, &ported, &after)?;
    let status = after.status;
    drop(after);
    let rules = ported.rules;
    Ok(Answer {
        text: rules.text,
        list,
        warnings,
        status,
    })
}

// The list of the changes of a source, and the verdict on its text.
fn list_of(
    alloc: Global,
    file: &str,
    source: &[u8],
    ported: &Ported,
    after: &Report,
) -> AllocResult<Vec<u8>>
    ensures { IfOk result (λ list. Tells file.now source.now ported.now after.now.text.items
        after.now.status list.items) }
{
    if after.status == 0 {
        return accepted_list(alloc, file, source, ported);
    }
    refused_list(alloc, file, source, ported, &after.text)
}

// The list of the changes of a source whose text is accepted.
fn accepted_list(alloc: Global, file: &str, source: &[u8], ported: &Ported) -> AllocResult<Vec<u8>>
    ensures { IfOk result (λ list. list.items ≡ accepted_list file.now source.now ported.now) }
{
    let mut list = change_list(alloc, file, source, ported)?;
    push_accepted(&mut list, change_count(ported), warning_count(ported))?;
    Ok(list)
}

// The list of the changes of a source whose text is refused by this report.
fn refused_list(
    alloc: Global,
    file: &str,
    source: &[u8],
    ported: &Ported,
    report: &[u8],
) -> AllocResult<Vec<u8>>
    ensures { IfOk result
        (λ list. TellsRefused file.now source.now ported.now report.now list.items) }
{
    let again = port(alloc, &ported.rules.text)?;
    let refusals = refusal_list(alloc, file, ported)?;
    let mut list = change_list(alloc, file, source, ported)?;
    list.extend_from_slice(&refusals)?;
    list.extend_from_slice(left_words(&again))?;
    list.extend_from_slice(report)?;
    push_refused(
        &mut list,
        change_count(ported),
        warning_count(ported),
        ported.refusals.len() as u128,
    )?;
    Ok(list)
}

// Says whether a rule has a place in the text still, of which the port makes this.
fn left_words(again: &Ported) -> &'static [u8]
    ensures { result.now ≡ left_words again.now }
{
    if change_count(again) == 0 {
        return b"";
    }
    b"a rule has a place in the text still: port it once more\n"
}
