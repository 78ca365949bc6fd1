//! The answers of a round, taken from channels.

ghost use Rattle.std.specs.Prelude.{◌≡◌, length};

use crate::orders::{answer, are_answers};
use crossbeam_channel::{Receiver, bounded};
use om_book::Reply;
use om_drive::{Answer, Fault, Gathered, gather};
use om_seq::AllocResult;
use om_undo::StepReply;
use std::alloc::{AllocError, Global};
use std::sync::Wait;

/// Whether a round of answers is taken in order, and ends at a channel whose other end is gone, and at an answer of
/// another number than is awaited.
pub(crate) fn faults_are_told<R: Wait>(rt: &R, alloc: Global) -> AllocResult<bool> {
    Ok(
        takes_none(rt, alloc)
            && takes_all(rt, alloc)?
            && tells_closed(rt, alloc)?
            && tells_strange(rt, alloc)?,
    )
}

// Whether two empty lists give no answers and no fault.
fn takes_none<R: Wait>(rt: &R, alloc: Global) -> bool {
    let gathered = gather(rt, alloc, &[], &[]);
    gathered.answers.is_empty() && gathered.fault.is_none()
}

// Whether two answers that are awaited are taken.
fn takes_all<R: Wait>(rt: &R, alloc: Global) -> AllocResult<bool> {
    let receivers = [sent(rt, alloc, 7)?, sent(rt, alloc, 8)?];
    let gathered = gather(rt, alloc, &receivers, &[7, 8]);
    Ok(gathered.fault.is_none() && are_answers(gathered.answers.as_slice(), &[7, 8]))
}

// Whether an answer is taken, and a channel after it whose other end was dropped is V2.
fn tells_closed<R: Wait>(rt: &R, alloc: Global) -> AllocResult<bool> {
    let (sender, receiver) = bounded(alloc, 1)?;
    drop(sender);
    let receivers = [sent(rt, alloc, 7)?, receiver];
    let gathered = gather(rt, alloc, &receivers, &[7, 8]);
    Ok(
        matches!(gathered.fault, Some(Fault::Closed))
            && are_answers(gathered.answers.as_slice(), &[7]),
    )
}

// Whether an answer is taken, and one after it of a strange number is V1.
fn tells_strange<R: Wait>(rt: &R, alloc: Global) -> AllocResult<bool> {
    let receivers = [sent(rt, alloc, 7)?, sent(rt, alloc, 9)?];
    let gathered = gather(rt, alloc, &receivers, &[7, 8]);
    Ok(
        matches!(gathered.fault, Some(Fault::Strange))
            && are_answers(gathered.answers.as_slice(), &[7]),
    )
}

// A channel in which the answer to the order of this number lies.
fn sent<R: Wait>(rt: &R, alloc: Global, number: u64) -> AllocResult<Receiver<Answer>> {
    let (sender, receiver) = bounded(alloc, 1)?;
    match sender.send(rt, answer(number, 0, Reply::Step(StepReply::Ended))) {
        Ok(()) => Ok(receiver),
        Err(_) => Err(AllocError),
    }
}
