//! Free runs over a book: all workers step at once, each in a thread and through a seat of its own.

ghost use Rattle.std.specs.Prelude.{◌≡◌, ◌≤◌, IfOk, IfErr, true, drop, length, vec_len};
ghost use Rattle.om_book.specs.Books.{is_full};
ghost use Rattle.om_book.specs.Seats.{seats_below};
ghost use Rattle.om_book_journal.specs.Journals.{IsLegal, done_in};
ghost use Rattle.om_drive.specs.FreeRuns.{GoesOn, gained};
ghost use Rattle.om_drive.specs.OwnCalls.{AreOwnCalls};
ghost use Rattle.om_drive.specs.Turns.{GainsInTurn};

use crate::{Fault, Freed, Gate, free};
use core::mem::replace_with;
use om_book::{Blank, Book, Closed, NotOpened, Seat, Session, Sitting};
use om_seq::AllocResult;
use std::alloc::{AllocError, Global};
use std::marker::Brand;
use std::sync::Wait;
use std::thread::Threads;

/// What a free run needs.
#[derive(Drop)]
pub struct Errand<'a, R> {
    /// The handle by which it starts its threads and waits for them.
    pub rt: &'a R,
    /// Where its memory comes from.
    pub alloc: Global,
    /// How many rounds each worker makes.
    pub rounds: u32,
}

/// What a free run came to.
#[derive(Clone, Copy)]
pub struct Count {
    /// How many steps were made.
    pub done: u64,
    /// Whether a worker found no room for a record. The book is full then.
    pub full: bool,
}

/// Lets all workers of a book step at once: opens a session over it, lets its seats run freely and
/// closes it. Their calls are added to the journal: of each its own steps, and its questions which
/// task is the first that is ready.
///
/// Without an error each call that was added is a worker's own, and the calls of each worker are in
/// turn (`call_after`): its next step. Where that waits at a barrier or for tasks (B1, B3, B8), it
/// asks which task is the first that is ready, and then starts this task, if there is one.
/// `AllocError` stands for three things: no memory, no thread, or a receipt that does not stand.
/// Then the book still has only legal records more (`goes_on`), but of whom they are is not said.
pub fn run_freely<R: Threads + Wait + Sync>(
    book: &mut Book,
    errand: Errand<'_, R>,
) -> AllocResult<Count>
    ensures goes_on { GoesOn book.old book.new }
    ensures done { IfOk result (λ count. count.done ≡ done_in (gained book.old book.new)) }
    ensures own { IfOk result (λ count. AreOwnCalls (gained book.old book.new)) }
    ensures in_turn { IfOk result (λ count. GainsInTurn book.old book.new) }
    ensures full { IfOk result (λ count. count.full ≡ true → is_full book.new ≡ true) }
{
    replace_with(
        book,
        errand,
        |book, errand| -> (Book, AllocResult<Count>)
            ensures goes_on { GoesOn book result.0 }
            ensures done { IfOk result.1 (λ count. count.done ≡ done_in (gained book result.0)) }
            ensures own { IfOk result.1 (λ count. AreOwnCalls (gained book result.0)) }
            ensures in_turn { IfOk result.1 (λ count. GainsInTurn book result.0) }
            ensures full { IfOk result.1 (λ count. count.full ≡ true → is_full result.0 ≡ true) }
        { ran_freely(errand, book) },
    )
}

// The book after a free run, and what the run came to.
fn ran_freely<R: Threads + Wait + Sync>(
    errand: Errand<'_, R>,
    book: Book,
) -> (Book, AllocResult<Count>)
    ensures goes_on { GoesOn book result.0 }
    ensures done { IfOk result.1 (λ count. count.done ≡ done_in (gained book result.0)) }
    ensures own { IfOk result.1 (λ count. AreOwnCalls (gained book result.0)) }
    ensures in_turn { IfOk result.1 (λ count. GainsInTurn book result.0) }
    ensures full { IfOk result.1 (λ count. count.full ≡ true → is_full result.0 ≡ true) }
{
    let workers = book.machine().workers();
    let Ok(gates) = open_gates(errand.alloc, workers) else {
        return (book, Err(AllocError));
    };
    run_through::<Brand, _>(errand, gates, Blank::new(workers), book)
}

// A gate that holds nobody back.
#[derive(Clone, Copy, Drop)]
struct Open;

impl Gate for Open {
    fn may_answer(&mut self, _order: u64) -> bool {
        true
    }
}

// So many gates that are open.
fn open_gates(alloc: Global, workers: u8) -> AllocResult<Vec<Open>>
    ensures { IfOk result (λ gates. vec_len gates ≡ workers) }
{
    let mut gates = Vec::new(alloc);
    while gates.len() < usize::from(workers) {
        gates.push(Open)?;
    }
    Ok(gates)
}

// Opens a session over a book. It has as many seats as parts.
fn opened<L: Sitting>(
    alloc: Global,
    blank: Blank,
    book: Book,
) -> Result<(Session<L>, Vec<Seat<L>>), NotOpened>
    requires name { blank.ledger.name ≡ L.name }
    requires parts { blank.ledger.parts ≡ L.parts }
    requires opened { book ≡ L.opened }
    requires workers { book.start.workers ≡ L.workers }
    ensures seats { IfOk result (λ r. r.1.items ≡ seats_below L.parts) }
    ensures many { IfOk result (λ r. vec_len r.1 ≡ L.parts) }
    ensures back { IfErr result (λ e. e.book ≡ book) }
{
    Session::<L>::new(alloc, blank, book)
}

// Runs freely through a session over a book.
fn run_through<L: Sitting + Send + Sync, R: Threads + Wait + Sync>(
    errand: Errand<'_, R>,
    gates: Vec<Open>,
    blank: Blank,
    book: Book,
) -> (Book, AllocResult<Count>)
    requires name { blank.ledger.name ≡ L.name }
    requires parts { blank.ledger.parts ≡ L.parts }
    requires opened { book ≡ L.opened }
    requires workers { book.start.workers ≡ L.workers }
    requires seats { blank.seats ≡ book.start.workers }
    requires gates { vec_len gates ≡ blank.seats }
    ensures goes_on { GoesOn book result.0 }
    ensures done { IfOk result.1 (λ count. count.done ≡ done_in (gained book result.0)) }
    ensures own { IfOk result.1 (λ count. AreOwnCalls (gained book result.0)) }
    ensures in_turn { IfOk result.1 (λ count. GainsInTurn book result.0) }
    ensures full { IfOk result.1 (λ count. count.full ≡ true → is_full result.0 ≡ true) }
{
    let before = book.journal().len();
    let (session, seats) = match opened::<L>(errand.alloc, blank, book) {
        Ok(opened) => opened,
        Err(NotOpened { book }) => return (book, Err(AllocError)),
    };
    let Freed {
        seats,
        full,
        fault,
        ..
    } = free(&session, errand.rt, seats, gates, errand.rounds);
    match session.close(seats) {
        Ok(
            Closed {
                book,
                calls,
                standing,
                ..
            },
        ) => counted(book, before, full, is_whole(standing == calls, fault)),
        Err(_) => unreachable!(),
    }
}

// Whether nothing broke off a run: neither a fault, nor a receipt that does not stand. The clause
// speaks of the receipts alone.
fn is_whole(all_stand: bool, fault: Option<Fault>) -> bool
    ensures { result ≡ true → all_stand ≡ true }
{
    all_stand && fault.is_none()
}

// A book after a free run that found it with so many calls, and what the run came to. It is out of
// memory where the run is not whole.
//
// A book keeps its records. So one in which a worker found no room is still full.
fn counted(book: Book, before: usize, full: bool, whole: bool) -> (Book, AllocResult<Count>)
    requires { before ≤ length book.journal }
    ensures book { result.0 ≡ book }
    ensures legal { IsLegal book.start book.journal }
    ensures done { IfOk result.1 (λ count. count.done ≡ done_in (drop before book.journal)) }
    ensures whole { IfOk result.1 (λ count. whole ≡ true) }
    ensures full { IfOk result.1 (λ count. count.full ≡ true → is_full result.0 ≡ true) }
{
    // Each reply in it is that of its command.
    let _answered = book.journal();
    if !whole {
        return (book, Err(AllocError));
    }
    let done = book.steps_behind(before);
    let full = full & book.is_full();
    (book, Ok(Count { done, full }))
}
