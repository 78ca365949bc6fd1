//! Sessions: seats that call one book, which lies under one lock.

ghost use Rattle.std.specs.Prelude.{◌≡◌, ℕ, ◌<◌, ◌≤◌, ◌+◌, [], ◌↔◌, IfOk, IfErr, OnOk, OnErr, IsOk, length, vec_len, sum_by, ◌^◌};
ghost use Rattle.om_book_journal.specs.Runs.{IsInRange};
ghost use Rattle.om_book.specs.Books.{BookView, records_of, with_record, IsGrown};
ghost use Rattle.om_book.specs.Seats.{GetsReceipt, IsAnsweredBy, IsAnsweredSince, seats_below};
ghost use Rattle.om_book.specs.Standing.{CountsAll, CountsSince, CoversSince, AllDiffer, receipts_in};

use crate::book::{Book, CallError};
use crate::receipt::{Receipt, standing};
use om_book_journal::{Command, JournalRecord, KeptCommand, Reply};
use om_seq::AllocResult;
use std::alloc::{AllocError, Global};
use std::marker::{Brand, Model};
use std::sync::ledger::{Ledger, Share};
use std::sync::{Mutex, Wait, ledger};

/// Which session it is: its ledger, with a part for each seat, and its book at the opening.
///
/// A function over a type with this bound opens, uses and closes a session; its caller passes
/// `Brand`. So a seat of another session doesn't fit by its type.
pub trait Sitting: Ledger {
    /// The book.
    ghost opened: { BookView };

    /// How many workers the book has.
    ghost workers: { ℕ };
}

// A caller that passes `Brand` picks these members for its own book. What stands here is for a call that picks
// none.
impl Sitting for Brand {
    ghost use Rattle.om_book.specs.Books.{no_book};

    ghost opened = { no_book };

    ghost workers = { 0 };
}

/// What a session is opened with: how many seats it has, 1 to 64, and a ledger of as many parts.
#[derive(Drop)]
pub struct Blank {
    pub seats: u8,
    pub ledger: ledger::Blank,
    pub ghost some: { 0 < seats },
    pub ghost few: { seats ≤ 64 },
    pub ghost one_part_each: { ledger.parts ≡ seats },
}

impl Blank {
    /// A blank for so many seats.
    pub fn new(seats: u8) -> Blank
        requires { (0 < seats) × (seats ≤ 64) }
        ensures { result.seats ≡ seats }
    {
        Blank {
            seats,
            ledger: ledger::Blank::new(u64::from(seats)),
        }
    }
}

// What lies under the lock: the book, and the total of the seats' calls.
#[derive(Drop)]
struct Desk<L: Sitting> {
    book: Book,
    calls: ledger::Book<L>,
    // What is left of the ledger's shares when each seat has its own.
    none: Share<L>,
    ghost grown: { IsGrown L.opened book calls.total },
    ghost workers: { book.start.workers ≡ L.workers },
    ghost no_part: { none.parts ≡ 0 },
    ghost no_amount: { none.amount ≡ 0 },
}

/// The right to call, for one thread at a time. A seat can't be copied.
///
/// Contracts see its number and its receipts.
#[derive(Drop)]
pub struct Seat<L: Sitting> {
    number: u8,
    receipts: Vec<Receipt>,
    share: Share<L>,
}

impl<L: Sitting> Model for Seat<L> {
    ghost use Rattle.std.specs.Prelude.{◌≡◌, length};
    ghost use Rattle.om_book.specs.Seats.{SeatView};

    ghost Value = { SeatView };

    ghost view = { λ s. record { number = s.number; receipts = s.receipts.items } };

    ghost invariant = { λ s. (s.share.parts ≡ 1) × (s.share.amount ≡ length s.receipts.items) };
}

impl<L: Sitting> Seat<L> {
    // A seat that has not called.
    fn new(alloc: Global, number: u8, share: Share<L>) -> Seat<L>
        requires { (share.parts ≡ 1) × (share.amount ≡ 0) }
        ensures { result ≡ record { number = number; receipts = [] } }
    {
        Seat {
            number,
            receipts: Vec::new(alloc),
            share,
        }
    }

    /// Its number among the seats of its session, from 0.
    pub fn number(&self) -> u8
        ensures { result ≡ self.now.number }
    {
        self.number
    }

    /// Its calls that were answered, in their order.
    pub fn receipts(&self) -> &[Receipt]
        ensures { result.now ≡ self.now.receipts }
    {
        self.receipts.as_slice()
    }
}

impl<L: Sitting> Desk<L> {
    // Applies a seat's command, and counts the call where it was answered.
    fn call(
        &mut self,
        alloc: Global,
        seat: &mut Seat<L>,
        command: Command,
    ) -> Result<Reply, CallError>
        requires { IsInRange L.workers command }
        ensures answered { IfOk result (IsAnsweredBy self.old.book seat.old seat.new command) }
        ensures counted { OnOk result (length seat.old.receipts ≤ self.old.calls.total) }
        ensures recorded { IfOk result (λ x. self.new.book
            ≡ with_record self.old.book seat.old.number command x) }
        ensures same_seat_on_error { OnErr result (seat.new ≡ seat.old) }
        ensures same_book_on_error { OnErr result (self.new.book ≡ self.old.book) }
    {
        let Desk {
            book,
            calls,
            none: _,
        } = self;
        let place = book.journal().len();
        if seat.receipts.reserve(1).is_err() {
            return Err(CallError::OutOfMemory);
        }
        let Ok(asked) = KeptCommand::of(alloc, &command) else {
            return Err(CallError::OutOfMemory);
        };
        let (reply, copy) = book.apply_with_copy(alloc, seat.number, command)?;
        // The seat's calls are among those of the total.
        calls.audit(&mut seat.share);
        calls.add(&mut seat.share, 1);
        seat.receipts.push_reserved(Receipt {
            place: place as u64,
            command: asked,
            reply: copy,
        });
        Ok(reply)
    }
}

/// A book that threads call through seats, one call at a time.
///
/// Contracts see how many seats it has, and how many calls the journal had at the opening.
#[derive(Drop)]
pub struct Session<L: Sitting> {
    desk: Mutex<Desk<L>>,
    seats: u8,
    workers: u8,
    opened: usize,
}

impl<L: Sitting> Model for Session<L> {
    ghost use Rattle.std.specs.Prelude.{◌≡◌};
    ghost use Rattle.om_book.specs.Books.{records_of};
    ghost use Rattle.om_book.specs.Seats.{SessionView};

    ghost Value = { SessionView };

    ghost view = { λ s. record { seats = s.seats; opened = s.opened } };

    ghost invariant = { λ s. (s.seats ≡ L.parts) × (s.workers ≡ L.workers) × (s.opened ≡ records_of L.opened) };
}

/// There was no memory for the seats. The book comes back.
#[derive(Drop)]
pub struct NotOpened {
    pub book: Book,
}

/// A session that has ended.
#[derive(Drop)]
pub struct Closed<L: Sitting> {
    pub book: Book,
    /// How many calls were answered in the session.
    pub calls: usize,
    /// The seats, as they were given. Their receipts can still be read.
    pub seats: Vec<Seat<L>>,
    /// How many receipts were found to stand in the journal.
    pub standing: usize,
}

/// Not all seats were given. The session goes on.
#[derive(Drop)]
pub struct Unclosed<L: Sitting> {
    pub session: Session<L>,
    pub seats: Vec<Seat<L>>,
}

impl<L: Sitting> Session<L> {
    /// Opens a session over a book. Its seats are numbered from 0, in their order. It is refused
    /// only for memory.
    pub fn new(
        alloc: Global,
        blank: Blank,
        book: Book,
    ) -> Result<(Session<L>, Vec<Seat<L>>), NotOpened>
        requires name { blank.ledger.name ≡ L.name }
        requires parts { blank.ledger.parts ≡ L.parts }
        requires opened { book ≡ L.opened }
        requires workers { book.start.workers ≡ L.workers }
        ensures seats { IfOk result (λ r. r.1.items ≡ seats_below L.parts) }
        ensures back { IfErr result (λ e. e.book ≡ book) }
    {
        let Blank {
            seats: count,
            ledger,
        } = blank;
        let (calls, mut rest) = ledger.open::<L>();
        let mut seats = Vec::new(alloc);
        if seat_all(alloc, count, &mut rest, &mut seats).is_err() {
            return Err(NotOpened { book });
        }
        let workers = book.machine().workers();
        let opened = book.journal().len();
        let desk = Desk {
            book,
            calls,
            none: rest,
        };
        Ok((
            Session {
                desk: Mutex::new(desk),
                seats: count,
                workers,
                opened,
            },
            seats,
        ))
    }

    /// How many workers its book has, 1 to 32.
    pub fn workers(&self) -> u8
        ensures { result ≡ L.workers }
    {
        self.workers
    }

    /// Calls through a seat, once the lock is free.
    ///
    /// The reply is the one that a book gives. That book is the opened one with more records, at
    /// least as many as the seat has receipts. The seat gets a receipt, whose place is the number of
    /// the book's records before this call. On an error (`Full` or out of memory, and no clause says
    /// which) the seat is unchanged. That the book then has no record of the call either is known at
    /// the close (`total`, `counted`).
    pub fn call<R: Wait>(
        &self,
        rt: &R,
        alloc: Global,
        seat: &mut Seat<L>,
        command: Command,
    ) -> Result<Reply, CallError>
        requires { IsInRange L.workers command }
        ensures answered { IfOk result (IsAnsweredSince L.opened seat.old seat.new command) }
        ensures receipt { IfOk result (GetsReceipt seat.old seat.new command) }
        ensures unchanged_on_error { OnErr result (seat.new ≡ seat.old) }
    {
        self.desk.lock(rt).call(alloc, seat, command)
    }

    /// Ends the session where all its seats are given, and counts the receipts that stand.
    ///
    /// The journal has grown by one record for each receipt. Where all receipts stand, each seat's
    /// receipts are its records since the opening, in their order, and there are no others. It
    /// takes no memory. Where fewer seats are given it is refused, and the session and these seats
    /// come back as they were. The caller shows that no two seats have one number.
    pub fn close(self, mut seats: Vec<Seat<L>>) -> Result<Closed<L>, Unclosed<L>>
        requires { AllDiffer seats.items }
        ensures all { IsOk result ↔ (vec_len seats ≡ L.parts) }
        ensures total { IfOk result (λ c. IsGrown L.opened c.book c.calls) }
        ensures counted { IfOk result (λ c. c.calls ≡ sum_by receipts_in seats.items) }
        ensures seats { IfOk result (λ c. c.seats.items ≡ seats.items) }
        ensures standing { IfOk result (λ c. CountsSince L.opened c.book seats.items c.standing) }
        ensures covers { IfOk result (λ c. c.standing ≡ c.calls
            → CoversSince L.opened c.book seats.items) }
        ensures workers { IfOk result (λ c. c.book.start.workers ≡ L.workers) }
        ensures fewer { IfErr result (λ u. (u.session ≡ self) × (u.seats.items ≡ seats.items)) }
    {
        if seats.len() < usize::from(self.seats) {
            return Err(Unclosed {
                session: self,
                seats,
            });
        }
        let Session {
            desk,
            seats: _,
            workers: _,
            opened,
        } = self;
        let Desk {
            book,
            mut calls,
            mut none,
        } = desk.into_inner();
        audit(&mut calls, seats.as_mut_slice(), &mut none);
        let standing = standing_in_all(book.journal(), opened, seats.as_slice());
        let calls = book.journal().len() - opened;
        Ok(Closed {
            book,
            calls,
            seats,
            standing,
        })
    }
}

// Makes so many seats, numbered from 0, each with one part of a share. When out of memory, some of
// them are made.
fn seat_all<L: Sitting>(
    alloc: Global,
    count: u8,
    rest: &mut Share<L>,
    seats: &mut Vec<Seat<L>>,
) -> AllocResult<()>
    requires parts { rest.old.parts ≡ count }
    requires amount { rest.old.amount ≡ 0 }
    requires none { seats.old.items ≡ [] }
    ensures seats { OnOk result (seats.new.items ≡ seats_below count) }
    ensures no_part { OnOk result (rest.new.parts ≡ 0) }
    ensures no_amount { OnOk result (rest.new.amount ≡ 0) }
{
    seats.reserve(usize::from(count))?;
    for number in 0..count {
        let share = rest.split_off(1, 0);
        if seats.push(Seat::new(alloc, number, share)).is_err() {
            return Err(AllocError);
        }
    }
    Ok(())
}

// With all parts together, the seats' receipts are the total of the calls. Changes nothing.
fn audit<L: Sitting>(calls: &mut ledger::Book<L>, seats: &mut [Seat<L>], seen: &mut Share<L>)
    requires all { L.parts ≤ seen.old.parts + length seats.old }
    requires apart { seen.old.parts ≤ L.parts }
    requires backed { seen.old.parts ≡ 0 → seen.old.amount ≡ 0 }
    ensures whole { seen.old.amount + sum_by receipts_in seats.old ≡ calls.old.total }
    ensures parts { L.parts ≡ seen.old.parts + length seats.old }
    ensures seats { seats.new ≡ seats.old }
    ensures seen { (seen.new.parts ≡ seen.old.parts) × (seen.new.amount ≡ seen.old.amount) }
    ensures total { calls.new.total ≡ calls.old.total }
{
    match seats.split_first_mut() {
        None => calls.audit(seen),
        Some((first, rest)) => {
            let amount = first.receipts.len() as u64;
            first.share.give(seen, 1, amount);
            audit(calls, rest, seen);
            seen.give(&mut first.share, 1, amount);
        }
    }
}

// How many receipts of all seats stand.
fn standing_in_all<L: Sitting>(journal: &[JournalRecord], opened: usize, seats: &[Seat<L>]) -> usize
    requires journal { length journal.now ≤ 200000 }
    requires receipts { sum_by receipts_in seats.now < 2 ^ 64 }
    ensures counts { CountsAll journal.now opened seats.now result }
    ensures most { result ≤ sum_by receipts_in seats.now }
{
    match seats.split_first() {
        None => 0,
        Some((first, rest)) => {
            let mine = standing(journal, first.number, opened, first.receipts.as_slice());
            mine + standing_in_all(journal, opened, rest)
        }
    }
}
