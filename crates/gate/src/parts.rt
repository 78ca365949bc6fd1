//! The parts, each of which prints what is told of its text.

use crate::statuses::statuses_are_right;
use anyhow::{Result, ensure};
use std::alloc::Global;
use std::fs::read_to_string;
use std::rt::Runtime;
use std::sync::Wait;
use std::thread::Threads;

// The parts that read a text, in their order. In `data` it has the part's name, and ends in `.txt`.
const READERS: [&str; 4] = ["cases", "lab", "rows", "port"];

/// Prints what is told of all parts, below a line with the name of each. A part of which a source is judged wrongly is
/// the last one. Its errors are those of the part, of a read and of a write.
pub(crate) fn print_all<R: Runtime + AllocGlobal + Threads + Wait + Sync>(
    rt: &R,
    alloc: Global,
) -> Result<()> {
    println!(rt; "#### statuses")?;
    print!(rt; "{}", statuses_are_right(rt, alloc)?)?;
    println!(rt; "#### checks")?;
    print!(rt; "{}", gate_checks::checked(rt, alloc)?)?;
    for name in READERS {
        let file = format!(in alloc; "{name}.txt")?;
        let input = read_to_string(rt, file.as_str())?;
        println!(rt; "#### {name}")?;
        print_part(rt, alloc, name, input.as_str())?;
    }
    Ok(())
}

/// Prints what the part of a name tells of a text. No other part reads one.
pub(crate) fn print_part<R: Runtime + AllocGlobal + Threads + Wait + Sync>(
    rt: &R,
    alloc: Global,
    name: &str,
    input: &str,
) -> Result<()> {
    match name {
        "cases" => print_cases(rt, alloc, input),
        "lab" => {
            print!(rt; "{}", gate_lab::told(rt, alloc, input)?)?;
            Ok(())
        }
        "rows" => print_bytes(rt, &gate_rows::told(alloc, input)?),
        "port" => print_bytes(rt, &gate_port::told(alloc, input.as_bytes())?),
        _ => {
            println!(rt; "no part reads a text by this name: cases, lab, rows, port do")?;
            Ok(())
        }
    }
}

// Sources with their verdicts, and sessions with their answers.
fn print_cases<R: Runtime + AllocGlobal + Threads + Wait + Sync>(
    rt: &R,
    alloc: Global,
    input: &str,
) -> Result<()> {
    let report = gate_cases::judge(rt, alloc, input)?;
    print!(rt; "{}", report.text)?;
    ensure!(
        report.wrong == 0,
        "{} sources are judged wrongly",
        report.wrong
    );
    Ok(())
}

// Prints bytes that are a text.
fn print_bytes<R: Runtime>(rt: &R, bytes: &[u8]) -> Result<()> {
    print!(rt; "{}", str::from_utf8(bytes).unwrap_or("no text"))?;
    Ok(())
}
