//! Rounds: in each, every list that still has an order gets its next one asked and answered. No command needs
//! it: gate_checks alone drives workers.

ghost use Rattle.std.specs.Prelude.{◌≡◌, ℕ, ◌<◌, ◌≤◌, ◌+◌, ◌++◌, ◌∷◌, [], IfOk, OnOk, OnErr, None, length, vec_len, vec_capacity, take};
ghost use Rattle.om_book.specs.Rounds.{listed, numbers_at, numbers_of};
ghost use Rattle.om_drive.specs.Answered.{AddsAll, AddsSome, AnswerAll};

use crossbeam_channel::{Receiver, SendError, Sender};
use om_book::{Answer, Fault, Order, most_rounds, order_at};
use om_seq::AllocResult;
use std::alloc::Global;
use std::sync::Wait;

/// The answers that came, of a round or of a drive.
#[derive(Drop)]
pub struct Gathered {
    pub answers: Vec<Answer>,
    /// What broke it off, if something did.
    pub fault: Option<Fault>,
}

/// Takes one answer from each receiver, in their order, of the number that is awaited there.
///
/// The first answer of another number ends it (V1), and so do a closed channel (V2) and a lack of
/// memory (V3).
pub fn gather<R: Wait>(
    rt: &R,
    alloc: Global,
    receivers: &[Receiver<Answer>],
    numbers: &[u64],
) -> Gathered
    requires { length receivers.now ≡ length numbers.now }
    ensures answered { AnswerAll (take (vec_len result.answers) numbers.now) result.answers }
    ensures most { vec_len result.answers ≤ length numbers.now }
    ensures all { result.fault ≡ None → vec_len result.answers ≡ length numbers.now }
{
    let mut answers = Vec::new(alloc);
    for i in 0..numbers.len() {
        if let Err(fault) = await_one(rt, &receivers[i], numbers[i], &mut answers) {
            return Gathered {
                answers,
                fault: Some(fault),
            };
        }
    }
    Gathered {
        answers,
        fault: None,
    }
}

// Takes the awaited answer.
fn await_one<R: Wait>(
    rt: &R,
    receiver: &Receiver<Answer>,
    number: u64,
    answers: &mut Vec<Answer>,
) -> Result<(), Fault>
    ensures ok { OnOk result (AddsAll (number ∷ []) answers.old answers.new) }
    ensures one_more { OnOk result (vec_len answers.new ≡ vec_len answers.old + 1) }
    ensures err { OnErr result (answers.new.items ≡ answers.old.items) }
{
    if answers.reserve(1).is_err() {
        return Err(Fault::Memory);
    }
    let Ok(answer) = receiver.recv(rt) else {
        return Err(Fault::Closed);
    };
    if answer.number != number {
        drop(answer);
        return Err(Fault::Strange);
    }
    push_driven(answers, answer);
    Ok(())
}

/// Adds an answer or what was driven where there is room for it.
pub(crate) fn push_driven<T: Drop>(items: &mut Vec<T>, item: T)
    requires { vec_len items.old < vec_capacity items.old }
    ensures items { items.new.items ≡ items.old.items ++ item ∷ [] }
    ensures one_more { vec_len items.new ≡ vec_len items.old + 1 }
    ensures capacity { vec_capacity items.old ≤ vec_capacity items.new }
{
    let Ok(()) = items.push(item) else {
        unreachable!();
    };
}

// Where the answers of a round are awaited, and their numbers.
#[derive(Drop)]
struct Awaited {
    receivers: Vec<Receiver<Answer>>,
    numbers: Vec<u64>,
}

// What is awaited of the lists that have an order in this round.
fn awaited_in(
    alloc: Global,
    receivers: &[Receiver<Answer>],
    orders: &[Vec<Order>],
    round: usize,
) -> AllocResult<Awaited>
    requires { length receivers.now ≡ length orders.now }
    ensures numbers { IfOk result (λ awaited. awaited.numbers.items ≡ numbers_at round orders.now) }
    ensures paired { IfOk result (λ awaited. vec_len awaited.receivers
        ≡ vec_len awaited.numbers) }
{
    let mut awaited = Awaited {
        receivers: Vec::new(alloc),
        numbers: Vec::new(alloc),
    };
    for i in 0..orders.len() {
        awaited.add(&receivers[i], order_at(&orders[i], round))?;
    }
    Ok(awaited)
}

impl Awaited {
    // Awaits the answer of an order, where there is one.
    fn add(&mut self, receiver: &Receiver<Answer>, order: Option<Order>) -> AllocResult<()>
        requires { vec_len self.old.receivers ≡ vec_len self.old.numbers }
        ensures numbers { OnOk result (self.new.numbers.items
            ≡ self.old.numbers.items ++ listed order) }
        ensures paired { OnOk result (vec_len self.new.receivers ≡ vec_len self.new.numbers) }
    {
        let Some(order) = order else {
            return Ok(());
        };
        self.receivers.push(receiver.clone()?)?;
        self.numbers.push(order.number)?;
        Ok(())
    }
}

// Takes an answer for each list that has an order in this round.
fn take_round<R: Wait>(
    rt: &R,
    receivers: &[Receiver<Answer>],
    orders: &[Vec<Order>],
    round: usize,
    answers: &mut Vec<Answer>,
) -> Result<(), Fault>
    requires { length receivers.now ≡ length orders.now }
    ensures ok { OnOk result (AddsAll (numbers_at round orders.now) answers.old answers.new) }
    ensures err { OnErr result (AddsSome (numbers_at round orders.now) answers.old answers.new) }
{
    let Ok(awaited) = awaited_in(*answers.allocator(), receivers, orders, round) else {
        return Err(Fault::Memory);
    };
    take_all(rt, awaited, answers)
}

// Takes all answers that are awaited.
fn take_all<R: Wait>(rt: &R, awaited: Awaited, answers: &mut Vec<Answer>) -> Result<(), Fault>
    requires { vec_len awaited.receivers ≡ vec_len awaited.numbers }
    ensures ok { OnOk result (AddsAll awaited.numbers.items answers.old answers.new) }
    ensures err { OnErr result (AddsSome awaited.numbers.items answers.old answers.new) }
{
    if answers.reserve(awaited.numbers.len()).is_err() {
        return Err(Fault::Memory);
    }
    let Gathered {
        answers: taken,
        fault,
    } = gather(
        rt,
        *answers.allocator(),
        awaited.receivers.as_slice(),
        awaited.numbers.as_slice(),
    );
    add_all(answers, taken);
    match fault {
        None => Ok(()),
        Some(fault) => Err(fault),
    }
}

// Adds answers where there is room for them.
fn add_all(answers: &mut Vec<Answer>, mut taken: Vec<Answer>)
    requires { vec_len answers.old + vec_len taken ≤ vec_capacity answers.old }
    ensures { answers.new.items ≡ answers.old.items ++ taken.items }
{
    let Ok(()) = answers.append(&mut taken) else {
        unreachable!();
    };
}

// Sends the order that each list has in this round.
fn send_round<R: Wait>(
    rt: &R,
    senders: &[Sender<Order>],
    orders: &[Vec<Order>],
    round: usize,
) -> Result<(), Fault>
    requires { length senders.now ≡ length orders.now }
{
    for i in 0..orders.len() {
        if let Some(order) = orders[i].get(round) {
            match senders[i].send(rt, *order) {
                Ok(()) => {}
                Err(SendError::OutOfMemory(_)) => return Err(Fault::Memory),
                Err(_) => return Err(Fault::Closed),
            }
        }
    }
    Ok(())
}

/// Asks round by round, until all orders are answered or something breaks off.
pub(crate) fn ask_all<R: Wait>(
    rt: &R,
    senders: &[Sender<Order>],
    receivers: &[Receiver<Answer>],
    orders: &[Vec<Order>],
    answers: &mut Vec<Answer>,
) -> Result<(), Fault>
    requires { (length senders.now ≡ length orders.now)
        × (length receivers.now ≡ length orders.now) }
    ensures ok { OnOk result (AddsAll (numbers_of orders.now) answers.old answers.new) }
    ensures err { OnErr result (AddsSome (numbers_of orders.now) answers.old answers.new) }
{
    let most = most_rounds(orders);
    for round in 0..most {
        send_round(rt, senders, orders, round)?;
        take_round(rt, receivers, orders, round, answers)?;
    }
    Ok(())
}
