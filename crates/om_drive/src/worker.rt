//! Workers: each answers orders over one debuggee, behind a gate. Free runs use `Gate` and `Debuggee`. No
//! command starts a `Worker`, but gate_checks does.

ghost use Rattle.std.specs.Prelude.{◌≡◌, ℕ, ◌++◌, ◌∷◌, [], List, IfOk, OnErr, None, Some};
ghost use Rattle.om_book_journal.specs.Runs.{IsInRange};
ghost use Rattle.om_book.specs.declared.receipt.Receipt.{Receipt};
ghost use Rattle.om_drive.specs.Calls.{AddsReceipt, Place, last_place_in};

use crossbeam_channel::{Receiver, Sender};
use om_book::{Answer, CallError, Command, Order, Reply};
use std::sync::Wait;

/// What is driven: a session with a seat, or a fake.
pub trait Debuggee {
    /// What no call changes: its number, and how many workers its commands may name.
    ghost place: { Self → Place };

    /// The calls that were answered, in their order.
    ghost made: { Self → List Receipt };

    /// How many workers its commands may name.
    fn workers(&self) -> u8
        ensures { result ≡ (place self.now).workers };

    /// Makes a call.
    fn call<R: Wait>(&mut self, rt: &R, command: Command) -> Result<Reply, CallError>
        requires { IsInRange (place self.old).workers command }
        ensures place { place self.new ≡ place self.old }
        ensures made { IfOk result (AddsReceipt (made self.old) (made self.new) command) }
        ensures none { OnErr result (made self.new ≡ made self.old) };

    /// The place in the journal of its last call that was answered, if there was one.
    fn last_place(&self) -> Option<u64>
        ensures { result ≡ last_place_in (made self.now) };
}

/// Asked before each order, so that a test can hold a worker back.
pub trait Gate {
    /// Whether the order of this number may be answered now.
    fn may_answer(&mut self, order: u64) -> bool;
}

// How often a gate is asked at most. Then the worker goes on, and the answer is late.
const MAX_ASKED: u32 = 1_000_000;

/// A debuggee behind its gate.
#[derive(Drop)]
pub struct Worker<G: Gate + Drop, D: Debuggee + Drop> {
    gate: G,
    debuggee: D,
}

impl<G: Gate + Drop, D: Debuggee + Drop> Worker<G, D> {
    /// A worker that has answered no order.
    pub fn new(gate: G, debuggee: D) -> Worker<G, D>
        ensures { result.debuggee ≡ debuggee }
    {
        Worker { gate, debuggee }
    }

    /// Asks the gate, makes the order's call, once, and says what came of it.
    pub fn answer<R: Wait>(&mut self, rt: &R, order: Order) -> Answer
        requires { IsInRange (D.place self.old.debuggee).workers order.command }
        ensures number { result.number ≡ order.number }
        ensures same { D.place self.new.debuggee ≡ D.place self.old.debuggee }
        ensures made { IfOk result.reply (λ x. (at : ℕ) × (result.place ≡ Some at)
            × (D.made self.new.debuggee ≡ D.made self.old.debuggee
            ++ record { place = at; command = order.command; reply = x } ∷ [])) }
        ensures none { OnErr result.reply (D.made self.new.debuggee ≡ D.made self.old.debuggee) }
    {
        let late = !says_yes(&mut self.gate, order.number);
        let number = order.number;
        match self.debuggee.call(rt, order.command) {
            Ok(reply) => Answer {
                number,
                reply: Ok(reply),
                late,
                place: self.debuggee.last_place(),
            },
            Err(error) => Answer {
                number,
                reply: Err(error),
                late,
                place: None,
            },
        }
    }

    /// Answers orders until no more can come, and gives the debuggee back. An order whose worker
    /// is out of range ends it, and whoever waits for the answer meets a closed channel (V2).
    pub fn work<R: Wait>(mut self, rt: &R, orders: &Receiver<Order>, answers: &Sender<Answer>) -> D
        ensures { D.place result ≡ D.place self.debuggee }
    {
        for _ in rt.forever() {
            if !self.answer_next(rt, orders, answers) {
                break;
            }
        }
        let Worker { gate: _, debuggee } = self;
        debuggee
    }

    // Waits for an order and answers it. Whether it goes on: not where no order can come, where
    // its worker is out of range, or where nobody takes the answer.
    fn answer_next<R: Wait>(
        &mut self,
        rt: &R,
        orders: &Receiver<Order>,
        answers: &Sender<Answer>,
    ) -> bool
        ensures { D.place self.new.debuggee ≡ D.place self.old.debuggee }
    {
        let Ok(order) = orders.recv(rt) else {
            return false;
        };
        if !order.command.is_in_range(self.debuggee.workers()) {
            return false;
        }
        let answer = self.answer(rt, order);
        is_taken(rt, answers, answer)
    }
}

// Whether somebody takes an item that is sent.
fn is_taken<T: Drop, R: Wait>(rt: &R, sender: &Sender<T>, item: T) -> bool {
    sender.send(rt, item).is_ok()
}

/// Asks a gate again and again; whether it said yes in the end.
pub(crate) fn says_yes<G: Gate>(gate: &mut G, number: u64) -> bool {
    for _ in 0..MAX_ASKED {
        if gate.may_answer(number) {
            return true;
        }
    }
    false
}
