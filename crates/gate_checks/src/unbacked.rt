//! Answers of two seats that are compared with the receipts of the seats.

ghost use Rattle.std.specs.Prelude.{◌≡◌, length};

use crate::driven::ADDING;
use crate::machine_of_two::BookOfTwo;
use crate::orders::{answer, are_answers, two_lists_of_looks};
use om_book::{Blank, Command, Query, Reply, Seat, Session, Sitting};
use om_drive::{Answer, KeptAnswers, Order, Rows, keep_backed};
use om_foot::Obj;
use om_seq::AllocResult;
use std::alloc::{AllocError, Global};
use std::marker::Brand;
use std::sync::Wait;

/// Whether four answers are kept that tell the places of their records; and of four answers, of which the third tells
/// the place of the other seat's record, the three others.
pub(crate) fn unbacked_answers_are_left_out<R: Wait>(rt: &R, alloc: Global) -> AllocResult<bool> {
    let all = compared(rt, alloc, [0, 1, 2, 3])?;
    let fewer = compared(rt, alloc, [0, 1, 1, 3])?;
    Ok(
        are_answers(all.answers.as_slice(), &[10, 20, 11, 21])
            && !all.strange
            && are_answers(fewer.answers.as_slice(), &[10, 20, 21])
            && fewer.strange,
    )
}

// What is kept of the answers to two orders for each of two seats, where the answers tell these places.
fn compared<R: Wait>(rt: &R, alloc: Global, places: [u64; 4]) -> AllocResult<KeptAnswers> {
    let Some(book) = BookOfTwo::of(alloc, ADDING) else {
        return Err(AllocError);
    };
    let orders = two_lists_of_looks(alloc, &[10, 11], &[20, 21])?;
    let told = Told {
        orders: orders.as_slice(),
        places,
    };
    compared_in::<Brand, _>(rt, alloc, Blank::new(2), book, told)
}

// Orders for each seat, and the places that the answers to them tell.
#[derive(Clone, Copy)]
struct Told<'a> {
    orders: &'a [Vec<Order>],
    places: [u64; 4],
}

// Compares the answers to the orders of the session that is meant.
fn compared_in<L: Sitting, R: Wait>(
    rt: &R,
    alloc: Global,
    blank: Blank,
    book: BookOfTwo,
    told: Told<'_>,
) -> AllocResult<KeptAnswers>
    requires name { blank.ledger.name ≡ L.name }
    requires parts { blank.ledger.parts ≡ L.parts }
    requires opened { book.book ≡ L.opened }
    requires workers { L.workers ≡ 2 }
    requires two { blank.seats ≡ 2 }
    requires lists { length told.orders.now ≡ 2 }
{
    let BookOfTwo { book } = book;
    let Ok((session, mut seats)) = Session::<L>::new(alloc, blank, book) else {
        return Err(AllocError);
    };
    let Told { orders, places } = told;
    let answers = answered(rt, alloc, &session, seats.as_mut_slice(), &places)?;
    let rows = Rows {
        seats: seats.as_slice(),
        orders,
    };
    Ok(keep_backed(&rows, &mut [0, 0], answers))
}

// The answers to the orders, round by round: each seat looks in its turn.
fn answered<L: Sitting, R: Wait>(
    rt: &R,
    alloc: Global,
    session: &Session<L>,
    seats: &mut [Seat<L>],
    places: &[u64; 4],
) -> AllocResult<Vec<Answer>>
    requires { length seats.old ≡ 2 }
    ensures { length seats.new ≡ 2 }
{
    let mut answers = Vec::new(alloc);
    answers.push(answer(10, places[0], look(rt, alloc, session, &mut seats[0])?))?;
    answers.push(answer(20, places[1], look(rt, alloc, session, &mut seats[1])?))?;
    answers.push(answer(11, places[2], look(rt, alloc, session, &mut seats[0])?))?;
    answers.push(answer(21, places[3], look(rt, alloc, session, &mut seats[1])?))?;
    Ok(answers)
}

// What a seat is answered that looks at what was printed.
fn look<L: Sitting, R: Wait>(
    rt: &R,
    alloc: Global,
    session: &Session<L>,
    seat: &mut Seat<L>,
) -> AllocResult<Reply> {
    match session.call(rt, alloc, seat, Command::Look(Query::Value(Obj::Output))) {
        Ok(reply) => Ok(reply),
        Err(_) => Err(AllocError),
    }
}
