//! Orders for the seats of a session, answers to them, and the places of answers in the journal.

ghost use Rattle.std.specs.Prelude.{◌≡◌, IfOk, vec_len};

use om_book::{Command, Query, Reply};
use om_drive::{Answer, Order};
use om_foot::Obj;
use om_seq::AllocResult;
use om_task::Choice;
use std::alloc::Global;

/// Looks at what was printed, as orders of these numbers.
pub(crate) fn looks(alloc: Global, numbers: &[u64]) -> AllocResult<Vec<Order>> {
    numbers
        .iter()
        .map(|number| Order {
            number: *number,
            command: Command::Look(Query::Value(Obj::Output)),
        })
        .collect(alloc)
}

/// Looks at what was printed for each of two seats, as orders of these numbers.
pub(crate) fn two_lists_of_looks(
    alloc: Global,
    first: &[u64],
    other: &[u64],
) -> AllocResult<Vec<Vec<Order>>>
    ensures { IfOk result (λ lists. vec_len lists ≡ 2) }
{
    let mut lists = Vec::new(alloc);
    lists.push(looks(alloc, first)?)?;
    lists.push(looks(alloc, other)?)?;
    Ok(lists)
}

/// The steps of a worker as orders of these numbers.
pub(crate) fn steps_of(alloc: Global, worker: u8, first: u64, end: u64) -> AllocResult<Vec<Order>> {
    (first..end)
        .map(|number| Order {
            number,
            command: Command::Step {
                worker,
                choice: Choice::Next,
            },
        })
        .collect(alloc)
}

/// An answer in time, which tells the place of its record.
pub(crate) fn answer(number: u64, place: u64, reply: Reply) -> Answer {
    Answer {
        number,
        reply: Ok(reply),
        late: false,
        place: Some(place),
    }
}

/// Whether these are the answers to the orders of these numbers, in this order.
pub(crate) fn are_answers(answers: &[Answer], numbers: &[u64]) -> bool {
    answers.len() == numbers.len()
        && answers
            .iter()
            .zip(numbers)
            .all(|(answer, number)| answer.number == *number)
}

/// Whether the places of two seats' answers are together 0 to 2 `count` - 1, each once, and those of each seat rise.
/// The orders of the first seat are numbered below `count`, and those of the second from there on.
pub(crate) fn are_places(alloc: Global, answers: &[Answer], count: u32) -> AllocResult<bool> {
    let (count, all) = (u64::from(count), 2 * u64::from(count));
    let first = places_of(alloc, answers, 0, count)?;
    let second = places_of(alloc, answers, count, all)?;
    let mut both = places_of(alloc, answers, 0, all)?;
    both.sort_unstable();
    Ok(rise(first.as_slice()) && rise(second.as_slice()) && counts_to(both.as_slice(), all))
}

// The places of the answers whose orders are numbered from `first` on, up to but not including `end`.
fn places_of(alloc: Global, answers: &[Answer], first: u64, end: u64) -> AllocResult<Vec<u64>> {
    let mut places = Vec::new(alloc);
    for answer in answers {
        if let Some(place) = answer.place {
            if first <= answer.number && answer.number < end {
                places.push(place)?;
            }
        }
    }
    Ok(places)
}

// Whether each place is above the one before.
fn rise(places: &[u64]) -> bool {
    let mut low = 0;
    for place in places {
        if *place < low {
            return false;
        }
        low = place.saturating_add(1);
    }
    true
}

// Whether these are the numbers from 0 up to but not including `end`, in their order.
fn counts_to(places: &[u64], end: u64) -> bool {
    let mut wanted = 0u64;
    for place in places {
        if *place != wanted {
            return false;
        }
        wanted = wanted.saturating_add(1);
    }
    wanted == end
}
