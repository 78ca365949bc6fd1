//! The book that a session leaves.

use om_book::Book;
use om_seq::AllocResult;
use om_shell::{Ended, Options, run};
use std::alloc::Global;
use std::sync::Wait;
use std::thread::Threads;

// A program of eight steps by one worker: two for the first statement, four for the second, two to return.
const SOURCE: &str = "int x; int main(void){ x = 1; x = x + 2; return x; }";

// How many looks leave room for two records.
const LOOKS: u32 = 199_998;

/// Whether a journal that gets full in the middle of a run has the two steps that found room.
pub(crate) fn full_book_has_two_steps<R: Threads + Wait + Sync>(
    rt: &R,
    alloc: Global,
) -> AllocResult<bool> {
    let mut commands = String::new(alloc);
    for _ in 0..LOOKS {
        commands.push_str("print x\n")?;
    }
    commands.push_str("run 8\n")?;
    let Some(book) = book_behind(rt, alloc, commands.as_str()) else {
        return Ok(false);
    };
    let entries = book.machine().history(alloc)?;
    let has_both = matches!(
        entries.as_slice(),
        [first, second] if first.serial == 1 && second.serial == 2
    );
    Ok(has_both && book.journal().len() == 200_000)
}

/// Whether a free run's calls are in the book with those before and after it: each of two workers
/// makes eight rounds, and each round is one call.
pub(crate) fn book_has_a_free_run<R: Threads + Wait + Sync>(
    rt: &R,
    alloc: Global,
) -> AllocResult<bool> {
    let Some(book) = book_behind(rt, alloc, "step 0\nfree 8\nprint x\n") else {
        return Ok(false);
    };
    let entries = book.machine().history(alloc)?;
    let seconds = book
        .journal()
        .iter()
        .filter(|answered| answered.seat() == 1)
        .count();
    Ok(entries.len() == 8 && book.journal().len() == 18 && seconds == 8)
}

// The book that commands leave, by two workers.
fn book_behind<R: Threads + Wait + Sync>(rt: &R, alloc: Global, commands: &str) -> Option<Book> {
    let mut reader = commands.as_bytes();
    let mut writer = Vec::new(alloc);
    let options = Options {
        workers: 2,
        source: Some(SOURCE.as_bytes()),
    };
    let Ended { book, .. } = run(rt, alloc, &mut reader, &mut writer, options).ok()?;
    book
}
