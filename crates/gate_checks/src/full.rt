//! A journal without room for another record.

use crate::machine_of_two::BookOfTwo;
use om_book::{CallError, Command, Query, Reply};
use om_foot::Obj;
use om_seq::AllocResult;
use om_state::Val;
use om_task::Choice;
use std::alloc::Global;

// A program of six steps.
const SOURCE: &str = "int x; int main(void){ x = 1; x = x + 2; return x; }";

// How many records there are at most.
const MOST: usize = 200_000;

/// Whether 200,000 looks are answered, and then no further call: a look and a step leave history and journal as they
/// are.
pub(crate) fn journal_gets_full(alloc: Global) -> AllocResult<bool> {
    let Some(mut book) = BookOfTwo::of(alloc, SOURCE) else {
        return Ok(false);
    };
    let answered = looks_are_answered(alloc, &mut book);
    let refused = refuses_look(alloc, &mut book) && refuses_step(alloc, &mut book);
    let lengths = book.lengths(alloc)?;
    Ok(answered && refused && lengths.records == MOST && lengths.entries == 0)
}

// Whether so many looks at what was printed are answered as there are records at most.
fn looks_are_answered(alloc: Global, book: &mut BookOfTwo) -> bool {
    for _ in 0..MOST {
        let answer = book.apply(alloc, Command::Look(Query::Value(Obj::Output)));
        if !matches!(&answer, Ok(Reply::Value(Val::Output(_)))) {
            return false;
        }
    }
    true
}

// Whether a look is refused as the journal is full.
fn refuses_look(alloc: Global, book: &mut BookOfTwo) -> bool {
    let answer = book.apply(alloc, Command::Look(Query::Value(Obj::Output)));
    matches!(answer, Err(CallError::Full))
}

// Whether a step is refused as the journal is full.
fn refuses_step(alloc: Global, book: &mut BookOfTwo) -> bool {
    let answer = book.apply(
        alloc,
        Command::Step {
            worker: 0,
            choice: Choice::Next,
        },
    );
    matches!(answer, Err(CallError::Full))
}
