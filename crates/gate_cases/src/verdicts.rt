//! The judgement of all sections, and the verdicts on the sources of one.

use crate::beginnings::add_beginnings;
use crate::checks::{add_checks, call_laws};
use crate::sessions::add_session;
use crate::stage::{Stage, case_refusal, stage_of};
use crate::written::{cut, divider, parts, write_out};
use om_lexer::{FaultCode, SourceFault};
use om_seq::AllocResult;
use std::alloc::{AllocError, Global};
use std::sync::Wait;
use std::thread::Threads;

/// What is said of the sections.
#[derive(Drop)]
pub struct Report {
    /// What is said of each section, and the count of the sources.
    pub text: String,
    /// How many sources there are.
    pub sources: u64,
    /// Of how many of them the front end says something else than is wanted.
    pub wrong: u64,
}

/// Judges the sections of an input, and calls each law of the front end and of scripts. Its only error is out of memory.
pub fn judge<R: Threads + Wait + Sync>(rt: &R, alloc: Global, input: &str) -> AllocResult<Report> {
    call_laws();
    let mut report = Report {
        text: String::new(alloc),
        sources: 0,
        wrong: 0,
    };
    match add_sections(rt, alloc, &mut report, input) {
        Ok(()) => Ok(report),
        Err(error) => Err(error),
    }
}

// Adds what is said of all sections, and the count of the sources.
fn add_sections<R: Threads + Wait + Sync>(
    rt: &R,
    alloc: Global,
    report: &mut Report,
    input: &str,
) -> AllocResult<()> {
    for section in input.split("\n== ").skip(1) {
        add_section(rt, alloc, report, section)?;
    }
    let sources = report.sources;
    let wrong = report.wrong;
    write!(report.text, "{sources} sources, {wrong} wrong\n")
}

// Adds what is said of a section.
fn add_section<R: Threads + Wait + Sync>(
    rt: &R,
    alloc: Global,
    report: &mut Report,
    section: &str,
) -> AllocResult<()> {
    let (head, body) = cut(section, '\n');
    let (word, _) = cut(head, ' ');
    match stage_of(word) {
        Some(stage) => add_table(alloc, report, stage, head, body),
        None if head == "checks" => add_checks(rt, alloc, &mut report.text),
        None if word == "beginnings" => add_beginnings(rt, alloc, &mut report.text, head, body),
        None => add_session(rt, alloc, &mut report.text, head, body),
    }
}

/// Judges the sources of a table. After those that are judged wrongly it adds the head of the section, with
/// the count of its sources.
pub(crate) fn add_table(
    alloc: Global,
    report: &mut Report,
    stage: Stage,
    head: &str,
    table: &str,
) -> AllocResult<()> {
    let before = report.sources;
    for case in table.split(divider(table)) {
        if !case.trim_end().is_empty() {
            add_case(alloc, report, stage, case)?;
        }
    }
    let count = report.sources.saturating_sub(before);
    write!(report.text, "{head}: {count} sources\n")
}

// Judges a case, and adds its source where it has another verdict than is wanted.
fn add_case(alloc: Global, report: &mut Report, stage: Stage, case: &str) -> AllocResult<()> {
    let (text, wanted) = parts(case);
    let mut source = String::new(alloc);
    write_out(&mut source, text)?;
    report.sources = report.sources.saturating_add(1);
    let found = verdict(alloc, stage, source.as_str())?;
    if found.as_str() == wanted {
        return Ok(());
    }
    report.wrong = report.wrong.saturating_add(1);
    write!(
        report.text,
        "WRONG: {found}, not {wanted}, is said of\n{source}\n"
    )
}

// What the front end says of a source: `accepted`, or the refusal, as `S3 1:36`. Being out of memory is no
// verdict.
fn verdict(alloc: Global, stage: Stage, source: &str) -> AllocResult<String> {
    match case_refusal(alloc, stage, source.as_bytes()) {
        Some(fault) if fault.code == FaultCode::Memory => Err(AllocError),
        Some(fault) => refusal_text(alloc, source, fault),
        None => String::from_str(alloc, "accepted"),
    }
}

// The text of a refusal, by line and column, both counted from 1.
fn refusal_text(alloc: Global, source: &str, fault: SourceFault) -> AllocResult<String> {
    let number = fault.code.number();
    let before = source.get(..fault.at as usize).unwrap_or(source);
    let (_, behind_line) = before.rsplit_once('\n').unwrap_or(("", before));
    let line = before.split('\n').count();
    let column = behind_line.len().saturating_add(1);
    format!(in alloc; "S{number} {line}:{column}")
}
