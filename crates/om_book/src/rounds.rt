//! Rounds: in each, every list that still has an order gives its next. The numbers of orders are told round
//! by round. No command needs it: gate_checks alone drives seats.

ghost use Rattle.std.specs.Prelude.{◌≡◌, slice_get, ◌↔◌, ◌++◌, IsTrue, IfOk, OnOk};
ghost use Rattle.std.specs.Ordering.{nat_cmp};
ghost use Rattle.std.specs.BTreeSet.{IsFromIterResult};
ghost use Rattle.om_book.specs.Rounds.{longest, listed, numbers_at, numbers_of, NumbersDiffer};

use crate::order::Order;
use om_seq::AllocResult;
use std::alloc::Global;
use std::collections::BTreeSet;

/// The order that a list has in a round.
pub fn order_at(list: &Vec<Order>, round: usize) -> Option<Order>
    ensures { result ≡ slice_get list.now.items round }
{
    list.get(round).copied()
}

/// How many rounds there are: the length of the longest list.
pub fn most_rounds(orders: &[Vec<Order>]) -> usize
    ensures { result ≡ longest (λ o. o.items) orders.now }
{
    let mut most = 0;
    for list in orders {
        most = most.max(list.len());
    }
    most
}

/// Whether no two orders have one number. Its only error is out of memory.
pub fn numbers_differ(alloc: Global, orders: &[Vec<Order>]) -> AllocResult<bool>
    ensures { IfOk result (λ differ. IsTrue differ ↔ NumbersDiffer (numbers_of orders.now)) }
{
    let numbers = numbers_in(alloc, orders)?;
    are_distinct(alloc, numbers.as_slice())
}

// The numbers of all orders, round by round.
fn numbers_in(alloc: Global, orders: &[Vec<Order>]) -> AllocResult<Vec<u64>>
    ensures { IfOk result (λ numbers. numbers.items ≡ numbers_of orders.now) }
{
    let mut numbers = Vec::new(alloc);
    let most = most_rounds(orders);
    for round in 0..most {
        add_round(&mut numbers, orders, round)?;
    }
    Ok(numbers)
}

// Adds the numbers of a round.
fn add_round(numbers: &mut Vec<u64>, orders: &[Vec<Order>], round: usize) -> AllocResult<()>
    ensures { OnOk result (numbers.new.items ≡ numbers.old.items ++ numbers_at round orders.now) }
{
    for i in 0..orders.len() {
        add_number(numbers, order_at(&orders[i], round))?;
    }
    Ok(())
}

// Adds the number of an order, where there is one.
fn add_number(numbers: &mut Vec<u64>, order: Option<Order>) -> AllocResult<()>
    ensures { OnOk result (numbers.new.items ≡ numbers.old.items ++ listed order) }
{
    if let Some(order) = order {
        numbers.push(order.number)?;
    }
    Ok(())
}

// Whether no two of these numbers are the same: then a set of them has as many.
fn are_distinct(alloc: Global, numbers: &[u64]) -> AllocResult<bool>
    ensures { IfOk result (λ differ. IsTrue differ ↔ NumbersDiffer numbers.now) }
{
    let different = set_of(alloc, numbers)?;
    Ok(different.len() == numbers.len())
}

// The set of these numbers.
fn set_of(alloc: Global, numbers: &[u64]) -> AllocResult<BTreeSet<u64>>
    ensures { IfOk result (IsFromIterResult nat_cmp numbers.now) }
{
    numbers.iter().copied().collect(alloc)
}
