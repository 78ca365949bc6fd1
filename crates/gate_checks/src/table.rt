//! Sessions of two seats over a machine of two workers.

ghost use Rattle.std.specs.Prelude.{◌≡◌, ◌≢◌, length, vec_len};
ghost use Rattle.std.specs.List.{AllPairs};
ghost use Rattle.om_book.specs.Rounds.{in_rounds};

use crate::machine_of_two::BookOfTwo;
use om_book::{Blank, Closed, Session, Sitting};
use om_drive::{Answer, Driven, Errand, Fault, Freed, Gate, Order, drive, free, numbers_differ};
use std::alloc::Global;
use std::marker::Brand;
use std::sync::Wait;
use std::thread::Threads;

/// A book for a session, and a gate for each of its two seats.
#[derive(Drop)]
pub(crate) struct Table<G> {
    pub(crate) book: BookOfTwo,
    pub(crate) gates: Vec<G>,
    pub(crate) ghost two: { vec_len gates ≡ 2 },
}

/// What came of a drive, and of its session when it was closed.
#[derive(Drop)]
pub(crate) struct Drove {
    pub(crate) answers: Vec<Answer>,
    pub(crate) fault: Option<Fault>,
    pub(crate) book: BookOfTwo,
    pub(crate) calls: usize,
    pub(crate) standing: usize,
}

/// What came of a free run, and of its session when it was closed.
#[derive(Drop)]
pub(crate) struct Ran {
    pub(crate) done: u64,
    pub(crate) full: bool,
    pub(crate) fault: Option<Fault>,
    pub(crate) book: BookOfTwo,
    pub(crate) calls: usize,
}

impl<G: Gate + Drop + Send> Table<G> {
    /// Drives both seats; `None` where the session can't be opened or closed, or two orders have one
    /// number.
    pub(crate) fn drive<R: Threads + Wait + Sync>(
        self,
        rt: &R,
        alloc: Global,
        orders: &[Vec<Order>],
    ) -> Option<Drove>
        requires { length orders.now ≡ 2 }
    {
        let Ok(true) = numbers_differ(alloc, orders) else {
            return None;
        };
        drive_in::<Brand, _, _>(rt, alloc, Blank::new(2), self, orders)
    }

    /// Lets both workers run freely; `None` where the session can't be opened or closed.
    pub(crate) fn free<R: Threads + Wait + Sync>(self, errand: Errand<'_, R>) -> Option<Ran> {
        free_in::<Brand, _, _>(errand, Blank::new(2), self)
    }
}

// Drives both seats of the session that is meant.
fn drive_in<L: Sitting + Send + Sync, G: Gate + Drop + Send, R: Threads + Wait + Sync>(
    rt: &R,
    alloc: Global,
    blank: Blank,
    table: Table<G>,
    orders: &[Vec<Order>],
) -> Option<Drove>
    requires name { blank.ledger.name ≡ L.name }
    requires parts { blank.ledger.parts ≡ L.parts }
    requires opened { table.book.book ≡ L.opened }
    requires workers { L.workers ≡ 2 }
    requires two { blank.seats ≡ 2 }
    requires lists { length orders.now ≡ 2 }
    requires differ { AllPairs (λ n m. n ≢ m) (in_rounds (λ o. o.items) orders.now) }
{
    let Table { book, gates } = table;
    let BookOfTwo { book } = book;
    let Ok((session, seats)) = Session::<L>::new(alloc, blank, book) else {
        return None;
    };
    let Driven {
        seats,
        answers,
        fault,
    } = drive(&session, rt, seats, gates, orders);
    let Ok(closed) = session.close(seats) else {
        return None;
    };
    let Closed {
        book,
        calls,
        seats: _,
        standing,
    } = closed;
    Some(Drove {
        answers,
        fault,
        book: BookOfTwo { book },
        calls,
        standing,
    })
}

// Lets both workers of the session that is meant run freely.
fn free_in<L: Sitting + Send + Sync, G: Gate + Drop + Send, R: Threads + Wait + Sync>(
    errand: Errand<'_, R>,
    blank: Blank,
    table: Table<G>,
) -> Option<Ran>
    requires name { blank.ledger.name ≡ L.name }
    requires parts { blank.ledger.parts ≡ L.parts }
    requires opened { table.book.book ≡ L.opened }
    requires workers { L.workers ≡ 2 }
    requires two { blank.seats ≡ 2 }
{
    let Table { book, gates } = table;
    let BookOfTwo { book } = book;
    let Ok((session, seats)) = Session::<L>::new(errand.alloc, blank, book) else {
        return None;
    };
    let Freed {
        seats,
        done,
        full,
        fault,
    } = free(&session, errand.rt, seats, gates, errand.rounds);
    let Ok(closed) = session.close(seats) else {
        return None;
    };
    let Closed {
        book,
        calls,
        seats: _,
        standing: _,
    } = closed;
    Some(Ran {
        done,
        full,
        fault,
        book: BookOfTwo { book },
        calls,
    })
}
