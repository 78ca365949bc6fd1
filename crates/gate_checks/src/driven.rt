//! Two seats of a session, with many orders for each.

ghost use Rattle.std.specs.Prelude.{◌≡◌, IfOk, length, vec_len};

use crate::machine_of_two::BookOfTwo;
use crate::orders::{are_places, steps_of};
use crate::table::{Drove, Table};
use om_drive::{Answer, Gate, Order};
use om_seq::AllocResult;
use std::alloc::Global;
use std::sync::Wait;
use std::thread::Threads;

/// Two threads that add 1 to one variable.
pub(crate) const ADDING: &str = "int x;
int main(void){
#pragma omp parallel
x = x + 1;
}
";

/// Whether each of 400 orders of two seats is answered, with a record and a receipt that stands.
pub(crate) fn all_are_answered<R: Threads + Wait + Sync>(
    rt: &R,
    alloc: Global,
) -> AllocResult<bool> {
    let orders = two_lists(alloc, 200)?;
    let Some(drove) = drive_two(rt, alloc, orders.as_slice())? else {
        return Ok(false);
    };
    Ok(are_answered(&drove, 400))
}

/// Whether each of 200 orders of two seats is answered with the place of its record: together those of the journal,
/// each once, and within each seat they rise.
pub(crate) fn places_are_those_of_the_journal<R: Threads + Wait + Sync>(
    rt: &R,
    alloc: Global,
) -> AllocResult<bool> {
    let orders = two_lists(alloc, 100)?;
    let Some(drove) = drive_two(rt, alloc, orders.as_slice())? else {
        return Ok(false);
    };
    Ok(are_answered(&drove, 200) && are_places(alloc, drove.answers.as_slice(), 100)?)
}

// Drives two seats over a book without records.
fn drive_two<R: Threads + Wait + Sync>(
    rt: &R,
    alloc: Global,
    orders: &[Vec<Order>],
) -> AllocResult<Option<Drove>>
    requires { length orders.now ≡ 2 }
{
    let gates = two_gates(alloc)?;
    let Some(book) = BookOfTwo::of(alloc, ADDING) else {
        return Ok(None);
    };
    Ok(Table { book, gates }.drive(rt, alloc, orders))
}

// Whether there is an answer with a reply for each of so many orders, its record, and a receipt that stands.
fn are_answered(drove: &Drove, orders: usize) -> bool {
    let replied = drove
        .answers
        .iter()
        .filter(|answer| is_replied(answer))
        .count();
    drove.fault.is_none()
        && drove.answers.len() == orders
        && replied == orders
        && drove.calls == orders
        && drove.standing == orders
        && drove.book.book.journal().len() == orders
}

// Whether an answer has a reply in time.
fn is_replied(answer: &Answer) -> bool {
    answer.reply.is_ok() && !answer.late
}

/// A gate that holds nobody back.
#[derive(Clone, Copy, Drop)]
pub(crate) struct Open;

impl Gate for Open {
    fn may_answer(&mut self, _order: u64) -> bool {
        true
    }
}

/// A gate for each of two seats.
pub(crate) fn two_gates(alloc: Global) -> AllocResult<Vec<Open>>
    ensures { IfOk result (λ gates. vec_len gates ≡ 2) }
{
    let mut gates = Vec::new(alloc);
    gates.push(Open)?;
    gates.push(Open)?;
    Ok(gates)
}

// So many orders for each of two seats. They are numbered from 0, those of the first seat first.
fn two_lists(alloc: Global, count: u32) -> AllocResult<Vec<Vec<Order>>>
    ensures { IfOk result (λ lists. vec_len lists ≡ 2) }
{
    let count = u64::from(count);
    let mut lists = Vec::new(alloc);
    lists.push(steps_of(alloc, 0, 0, count)?)?;
    lists.push(steps_of(alloc, 1, count, 2 * count)?)?;
    Ok(lists)
}
