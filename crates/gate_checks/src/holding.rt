//! Two workers, each of which waits in its gate until the other's gate was asked.

ghost use Rattle.std.specs.Prelude.{◌≡◌, IfOk, vec_len};

use crate::driven::ADDING;
use crate::machine_of_two::BookOfTwo;
use crate::orders::two_lists_of_looks;
use crate::table::{Drove, Ran, Table};
use om_drive::{Errand, Gate, Order};
use om_seq::AllocResult;
use std::alloc::Global;
use std::sync::Wait;
use std::sync::atomic::{AtomicU64, Ordering};
use std::thread::{Threads, yield_now};

// How often a gate looks for the other's at most.
const LOOKS: u32 = 1_000_000;

// What the gates of two workers tell each other.
#[derive(Drop)]
struct Board {
    // The last order that the gate of worker 0 was asked for. Orders are numbered from 1; 0 is none.
    zero: AtomicU64,
    // The last order that the gate of worker 1 was asked for.
    one: AtomicU64,
    // How many gates saw what they waited for.
    seen: AtomicU64,
}

impl Board {
    // A board before any gate is asked.
    fn new() -> Board {
        Board {
            zero: AtomicU64::new(0),
            one: AtomicU64::new(0),
            seen: AtomicU64::new(0),
        }
    }

    // Whether both gates saw what they waited for.
    fn both_saw(&self) -> bool {
        self.seen.load(Ordering::SeqCst) == 2
    }
}

// A gate that always says yes. At one of its orders it waits first, until the other gate was asked for one of its own.
#[derive(Drop)]
struct Holding<'a> {
    mine: &'a AtomicU64,
    other: &'a AtomicU64,
    seen: &'a AtomicU64,
    // The order at which it waits.
    at: u64,
    // The order of the other gate for which it waits.
    until: u64,
}

impl<'a> Gate for Holding<'a> {
    fn may_answer(&mut self, order: u64) -> bool {
        self.mine.store(order, Ordering::SeqCst);
        if order == self.at && is_reached(self.other, self.until) {
            self.seen.fetch_add(1, Ordering::SeqCst);
        }
        true
    }
}

// Whether a number gets so high in time.
fn is_reached(number: &AtomicU64, wanted: u64) -> bool {
    for _ in 0..LOOKS {
        if number.load(Ordering::SeqCst) >= wanted {
            return true;
        }
        yield_now();
    }
    false
}

// Gates of worker 0, which waits at its order 1, and of worker 1, which waits at its order 2: each until the other
// was asked for this order.
fn gates(alloc: Global, board: &Board, until: (u64, u64)) -> AllocResult<Vec<Holding<'_>>>
    ensures { IfOk result (λ gates. vec_len gates ≡ 2) }
{
    let mut gates = Vec::new(alloc);
    gates.push(Holding {
        mine: &board.zero,
        other: &board.one,
        seen: &board.seen,
        at: 1,
        until: until.0,
    })?;
    gates.push(Holding {
        mine: &board.one,
        other: &board.zero,
        seen: &board.seen,
        at: 2,
        until: until.1,
    })?;
    Ok(gates)
}

/// Whether one round of a drive asks both gates side by side: each is held until the other is asked.
pub(crate) fn drives_are_side_by_side<R: Threads + Wait + Sync>(
    rt: &R,
    alloc: Global,
) -> AllocResult<bool> {
    let board = Board::new();
    let gates = gates(alloc, &board, (2, 1))?;
    let orders = two_lists_of_looks(alloc, &[1], &[2])?;
    let Some(book) = BookOfTwo::of(alloc, ADDING) else {
        return Ok(false);
    };
    let Some(drove) = (Table { book, gates }).drive(rt, alloc, orders.as_slice()) else {
        return Ok(false);
    };
    Ok(are_in_time(&drove) && board.both_saw())
}

// Whether both answers came, and none was late.
fn are_in_time(drove: &Drove) -> bool {
    let in_time = drove
        .answers
        .iter()
        .filter(|answer| !answer.late && answer.reply.is_ok())
        .count();
    drove.fault.is_none() && drove.answers.len() == 2 && in_time == 2
}

/// Whether two rounds of a free run go on side by side: worker 0 is held in its first round until worker 1 comes to
/// its second, and worker 1 there until worker 0 comes to its second.
pub(crate) fn free_runs_are_side_by_side<R: Threads + Wait + Sync>(
    rt: &R,
    alloc: Global,
) -> AllocResult<bool> {
    let board = Board::new();
    let gates = gates(alloc, &board, (2, 2))?;
    let Some(book) = BookOfTwo::of(alloc, ADDING) else {
        return Ok(false);
    };
    let errand = Errand {
        rt,
        alloc,
        rounds: 2,
    };
    let Some(ran) = (Table { book, gates }).free(errand) else {
        return Ok(false);
    };
    Ok(is_run_so(&ran) && board.both_saw())
}

// Whether the one order of calls was made that the gates leave: worker 1 is idle, worker 0 forks, and then both begin
// their tasks.
fn is_run_so(ran: &Ran) -> bool {
    ran.fault.is_none() && !ran.full && ran.done == 3 && ran.calls == 4
}
