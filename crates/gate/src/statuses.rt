//! The exit status of each way to end, and what words ask for.

use om_seq::AllocResult;
use om_shell::{Options, Outcome, ShellFault, status};
use om_shell_program::{ask_for_version, outcome_for, run_over, version, words_in};
use std::alloc::Global;
use std::io;
use std::io::{ErrorKind, Read, Write};
use std::rt::Runtime;
use std::sync::Wait;
use std::thread::Threads;

// A source that is accepted, and its mark.
const ACCEPTED: &str = "int x; int main(void){ x = 1; }\n%%\n";

// An end of which each read and each write fails.
#[derive(Drop)]
struct Broken;

impl Read for Broken {
    fn read(&mut self, _buf: &mut [u8]) -> io::Result<usize> {
        Err(io::Error::from(ErrorKind::BrokenPipe))
    }
}

impl Write for Broken {
    fn write(&mut self, _buf: &[u8]) -> io::Result<usize> {
        Err(io::Error::from(ErrorKind::BrokenPipe))
    }

    fn flush(&mut self) -> io::Result<()> {
        Ok(())
    }
}

// Two workers, and the source at the front of the input.
const OPTIONS: Options<'static> = Options {
    workers: 2,
    source: None,
};

/// Tells of each way to end whether its exit status is right, and whether words are understood: a line each, which ends
/// with ` is WRONG` where it is not. Its only error is out of memory.
pub(crate) fn statuses_are_right<R: Runtime + AllocGlobal + Threads + Wait + Sync>(
    rt: &R,
    alloc: Global,
) -> AllocResult<String> {
    let checks = [
        (
            "0 at quit and at the end of the input",
            is_0_at_the_end(rt, alloc)?,
        ),
        (
            "1 where the source is refused",
            is_1_where_refused(rt, alloc)?,
        ),
        ("0 for the version", is_0_for_the_version(alloc)),
        ("2 for wrong words and for help", is_2_for_words(rt, alloc)?),
        ("3 for each fault", is_3_for_faults(rt, alloc)?),
        ("words are understood", takes_words(alloc)?),
        ("the version is asked for", asks_for_the_version()),
    ];
    let mut told = String::new(alloc);
    for (check, is_right) in checks {
        let verdict = if is_right { "" } else { " is WRONG" };
        write!(told, "{check}{verdict}\n")?;
    }
    Ok(told)
}

// The outcome of a session over this input, whose answers are dropped.
fn outcome_of<R: Threads + Wait + Sync>(rt: &R, alloc: Global, input: &str) -> Outcome {
    let mut reader = input.as_bytes();
    run_over(rt, alloc, &mut reader, &mut Vec::new(alloc), OPTIONS)
}

fn is_0_at_the_end<R: Threads + Wait + Sync>(rt: &R, alloc: Global) -> AllocResult<bool> {
    for commands in ["", "step 0\n", "quit\n", "quit\nfoo\n", "foo\nprint x"] {
        let input = format!(in alloc; "{ACCEPTED}{commands}")?;
        if !matches!(outcome_of(rt, alloc, input.as_str()), Outcome::Ran(0)) {
            return Ok(false);
        }
    }
    Ok(true)
}

fn is_1_where_refused<R: Threads + Wait + Sync>(rt: &R, alloc: Global) -> AllocResult<bool> {
    for input in ["", "int main(void){ y = 1; }\n%%\nquit\n", "int x; /* a"] {
        let outcome = outcome_of(rt, alloc, input);
        if !matches!(outcome, Outcome::Ran(_)) || status(outcome) != 1 {
            return Ok(false);
        }
    }
    Ok(true)
}

fn is_0_for_the_version(alloc: Global) -> bool {
    let mut text = Vec::new(alloc);
    let is_told = matches!(version(&mut text), Outcome::Ran(0));
    is_told
        && text.as_slice() == b"ompback 0.9.0\n".as_slice()
        && matches!(version(&mut Broken), Outcome::Fault(ShellFault::Write))
}

fn is_2_for_words<R: Runtime + AllocGlobal + Threads + Wait + Sync>(
    rt: &R,
    alloc: Global,
) -> AllocResult<bool> {
    for word in [
        "--threads=0",
        "--threads=33",
        "--threads=x",
        "--what",
        "-V",
        "--help",
    ] {
        if status(outcome_for(rt, alloc, ["ompback", word].as_slice())?) != 2 {
            return Ok(false);
        }
    }
    let two_files = outcome_for(rt, alloc, ["ompback", "a.c", "b.c"].as_slice())?;
    Ok(status(two_files) == 2)
}

fn is_3_for_faults<R: Runtime + AllocGlobal + Threads + Wait + Sync>(
    rt: &R,
    alloc: Global,
) -> AllocResult<bool> {
    let read = run_over(rt, alloc, &mut Broken, &mut Vec::new(alloc), OPTIONS);
    let mut reader = "int x; /* a".as_bytes();
    let write = run_over(rt, alloc, &mut reader, &mut Broken, OPTIONS);
    let words = ["ompback", "there/is no/such file.c"];
    let file = outcome_for(rt, alloc, words.as_slice())?;
    Ok(
        matches!(read, Outcome::Fault(ShellFault::Read))
            && matches!(write, Outcome::Fault(ShellFault::Write))
            && matches!(file, Outcome::Fault(ShellFault::Read))
            && [read, write, file, Outcome::Fault(ShellFault::Memory)]
                .iter()
                .all(|outcome| status(*outcome) == 3),
    )
}

// What words ask for, as `WORKERS FILE`, with `-` for no file; `wrong` where they ask for no run.
fn told(alloc: Global, words: &[&str]) -> AllocResult<String> {
    match words_in(alloc, words) {
        Ok(asked) => {
            let file = asked.file.unwrap_or("-");
            format!(in alloc; "{} {file}", asked.workers)
        }
        Err(error) => {
            drop(error);
            String::from_str(alloc, "wrong")
        }
    }
}

fn takes_words(alloc: Global) -> AllocResult<bool> {
    for (words, wanted) in [
        (["ompback"].as_slice(), "2 -"),
        (["ompback", "--threads", "32", "a.c"].as_slice(), "32 a.c"),
        (["ompback", "--threads=0"].as_slice(), "wrong"),
        (["ompback", "--threads=33"].as_slice(), "wrong"),
        (["ompback", "--threads=x"].as_slice(), "wrong"),
        (["ompback", "--what"].as_slice(), "wrong"),
        (["ompback", "--help"].as_slice(), "wrong"),
    ] {
        if told(alloc, words)?.as_str() != wanted {
            return Ok(false);
        }
    }
    Ok(true)
}

fn asks_for_the_version() -> bool {
    [
        (["ompback", "--version"].as_slice(), true),
        (["ompback"].as_slice(), false),
        (["--version"].as_slice(), false),
        (["ompback", "-V"].as_slice(), false),
        (["ompback", "--version", "a.c"].as_slice(), false),
        (["ompback", "a.c", "--version"].as_slice(), false),
    ]
    .iter()
    .all(|(words, wanted)| ask_for_version(words) == *wanted)
}
