//! Drives over the seats of a session. No command needs it: gate_checks alone drives seats.

ghost use Rattle.std.specs.Prelude.{◌≡◌, [], None, Some, IfOk, length, vec_len, map};
ghost use Rattle.om_book.specs.Standing.{number_of};
ghost use Rattle.om_book.specs.Rounds.{numbers_of, NumbersDiffer};
ghost use Rattle.om_book.specs.Backing.{AllBacked, KeepsBacked, KeptOfOrders};
ghost use Rattle.om_drive.specs.Answered.{AnswerAll};

use crate::driving::{DrivenOver, drive_over};
use crate::rounds::Gathered;
use crate::sitter::{sit_down, stand_up};
use crate::worker::Gate;
use om_book::{Answer, Fault, KeptAnswers, Order, Rows, Seat, Session, Sitting, keep_backed};
use om_seq::AllocResult;
use std::alloc::Global;
use std::sync::Wait;
use std::thread::Threads;

/// The seats that were driven, and what came of it.
#[derive(Drop)]
pub struct Driven<L: Sitting> {
    /// The seats, each in its place.
    pub seats: Vec<Seat<L>>,
    pub answers: Vec<Answer>,
    /// What broke it off, if something did.
    pub fault: Option<Fault>,
}

/// Carries orders to the seats of a session, each in a thread of its own, and brings the answers
/// back. There is a gate and a list of orders for each seat, and no two orders have one number
/// (`numbers_differ`).
///
/// Without a fault each order has one answer, round by round. A fault breaks off the answers that
/// come. Each answer with a reply has its receipt: its seat was told the order of its number, and
/// has the receipt of the order's command with that reply, at the answer's place. An answer without
/// its receipt is left out (V1). That no other one is left out is promised by `keep_backed`, and not
/// here, where the answers that came are not seen. `back` speaks of numbers alone: that a seat keeps
/// the receipts that it had is promised by each of its calls, and not here.
pub fn drive<L: Sitting + Send + Sync, G: Gate + Drop + Send, R: Threads + Wait + Sync>(
    session: &Session<L>,
    rt: &R,
    mut seats: Vec<Seat<L>>,
    gates: Vec<G>,
    orders: &[Vec<Order>],
) -> Driven<L>
    requires gates { vec_len gates ≡ vec_len seats }
    requires lists { length orders.now ≡ vec_len seats }
    requires differ { NumbersDiffer (numbers_of orders.now) }
    ensures back { map number_of result.seats.items ≡ map number_of seats.items }
    ensures kept { KeptOfOrders result.seats.items orders.now result.answers }
    ensures all { result.fault ≡ None → AnswerAll (numbers_of orders.now) result.answers }
    ensures backed { AllBacked result.seats.items orders.now result.answers }
{
    let alloc = *seats.allocator();
    let Ok(mut sitters) = Vec::with_capacity(alloc, seats.len()) else {
        return undriven(seats);
    };
    let Ok(marks) = zeros(alloc, seats.len()) else {
        return undriven(seats);
    };
    sit_down(session, alloc, &mut seats, &mut sitters);
    let DrivenOver {
        debuggees: mut sitters,
        answers,
        fault,
    } = drive_over(rt, sitters, gates, orders);
    stand_up(&mut sitters, &mut seats);
    compared(seats, orders, marks, Gathered { answers, fault })
}

// Seats that were told no order, since there was no memory.
fn undriven<L: Sitting>(seats: Vec<Seat<L>>) -> Driven<L>
    ensures seats { result.seats.items ≡ seats.items }
    ensures none { result.answers.items ≡ [] }
    ensures fault { result.fault ≡ Some Fault.Memory }
{
    let alloc = *seats.allocator();
    Driven {
        seats,
        answers: Vec::new(alloc),
        fault: Some(Fault::Memory),
    }
}

// So many zeros.
fn zeros(alloc: Global, count: usize) -> AllocResult<Vec<usize>>
    ensures { IfOk result (λ zeros. vec_len zeros ≡ count) }
{
    let mut zeros = Vec::new(alloc);
    while zeros.len() < count {
        zeros.push(0)?;
    }
    Ok(zeros)
}

// Compares the answers with the receipts. An answer without its receipt is left out, which is a
// fault.
fn compared<L: Sitting>(
    seats: Vec<Seat<L>>,
    orders: &[Vec<Order>],
    mut marks: Vec<usize>,
    came: Gathered,
) -> Driven<L>
    requires lists { length orders.now ≡ vec_len seats }
    requires marks { vec_len marks ≡ vec_len seats }
    ensures seats { result.seats.items ≡ seats.items }
    ensures kept { KeepsBacked result.seats.items orders.now came.answers result.answers }
    ensures backed { AllBacked result.seats.items orders.now result.answers }
    ensures none { result.fault ≡ None → came.fault ≡ None }
    ensures all { result.fault ≡ None → result.answers.items ≡ came.answers.items }
{
    let Gathered { answers, fault } = came;
    let rows = Rows {
        seats: seats.as_slice(),
        orders,
    };
    let KeptAnswers { answers, strange } = keep_backed(&rows, marks.as_mut_slice(), answers);
    Driven {
        seats,
        answers,
        fault: if strange { Some(Fault::Strange) } else { fault },
    }
}
