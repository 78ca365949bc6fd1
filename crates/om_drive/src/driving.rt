//! Workers in threads of their own, asked round by round. No command needs it: gate_checks alone drives workers.

ghost use Rattle.std.specs.Prelude.{◌≡◌, ◌≤◌, [], IfOk, IfErr, None, Some, length, vec_len, vec_capacity, map};
ghost use Rattle.om_book.specs.Rounds.{numbers_of};
ghost use Rattle.om_drive.specs.Answered.{AddsAll, AddsSome, AnswerAll, AnswerSome};
ghost use Rattle.om_drive.specs.Calls.{ComeBack, HasRoomFor};

use crate::rounds::{ask_all, push_driven};
use crate::worker::{Debuggee, Gate, Worker};
use crossbeam_channel::{Receiver, Sender, bounded};
use om_book::{Answer, Fault, Order};
use std::alloc::Global;
use std::snapshot::Snapshot;
use std::sync::Wait;
use std::thread::{Promise, PromisedHandle, Scope, Threads, scope, scope_env};

/// What was driven, and what came of it.
#[derive(Drop)]
pub struct DrivenOver<D: Debuggee + Drop> {
    /// The debuggees, each in its place.
    pub debuggees: Vec<D>,
    pub answers: Vec<Answer>,
    /// What broke it off, if something did.
    pub fault: Option<Fault>,
}

/// Carries orders to debuggees, each in a thread of its own, and brings the answers back.
///
/// There is a gate and a list of orders for each debuggee. In a round each debuggee gets the next
/// order of its list, and then one answer comes from each.
/// Without a fault each order has one answer, in this order; with one, those before the fault. The
/// debuggees always come back in their places, of which alone `back` speaks. That a debuggee keeps the
/// calls that it had is promised by each of its calls, and not here.
pub fn drive_over<G: Gate + Drop + Send, D: Debuggee + Drop + Send, R: Threads + Wait + Sync>(
    rt: &R,
    debuggees: Vec<D>,
    gates: Vec<G>,
    orders: &[Vec<Order>],
) -> DrivenOver<D>
    requires gates { vec_len gates ≡ vec_len debuggees }
    requires lists { length orders.now ≡ vec_len debuggees }
    ensures back { map D.place result.debuggees.items ≡ map D.place debuggees.items }
    ensures part { AnswerSome (numbers_of orders.now) result.answers }
    ensures all { result.fault ≡ None → AnswerAll (numbers_of orders.now) result.answers }
{
    let alloc = *debuggees.allocator();
    let Ok(back) = Vec::with_capacity(alloc, debuggees.len()) else {
        return DrivenOver {
            debuggees,
            answers: Vec::new(alloc),
            fault: Some(Fault::Memory),
        };
    };
    let drive = Drive {
        ring: Ring::new(alloc, gates),
        ranks: Ranks {
            waiting: debuggees,
            back,
        },
    };
    scope(
        scope_env(),
        rt,
        move |scope| -> DrivenOver<D>
            requires room { HasRoomFor (vec_len drive.ranks.waiting) drive.ranks.back }
            requires none { drive.ranks.back.items ≡ [] }
            requires new { drive.ring.answers.items ≡ [] }
            ensures back { map D.place result.debuggees.items
                ≡ map D.place drive.ranks.waiting.items }
            ensures part { AnswerSome (numbers_of orders.entry.now) result.answers }
            ensures all { result.fault ≡ None
                → AnswerAll (numbers_of orders.entry.now) result.answers }
        { drive_in(scope, rt, orders, drive) },
    )
}

// Drives within a scope.
fn drive_in<
    's,
    E,
    G: Gate + Drop + Send + 's,
    D: Debuggee + Drop + Send + 's,
    R: Threads + Wait + Sync,
>(scope: &Scope<'s, E>, rt: &'s R, orders: &[Vec<Order>], drive: Drive<G, D>) -> DrivenOver<D>
    requires room { HasRoomFor (vec_len drive.ranks.waiting) drive.ranks.back }
    requires none { drive.ranks.back.items ≡ [] }
    requires new { drive.ring.answers.items ≡ [] }
    ensures back { map D.place result.debuggees.items ≡ map D.place drive.ranks.waiting.items }
    ensures part { AnswerSome (numbers_of orders.now) result.answers }
    ensures all { result.fault ≡ None → AnswerAll (numbers_of orders.now) result.answers }
{
    let Drive {
        mut ring,
        mut ranks,
    } = drive;
    drive_from(scope, rt, orders, &mut ring, &mut ranks);
    let Ring { answers, fault, .. } = ring;
    let Ranks { waiting: _, back } = ranks;
    DrivenOver {
        debuggees: back,
        answers,
        fault,
    }
}

// The two sides of a drive.
#[derive(Drop)]
struct Drive<G, D> {
    ring: Ring<G>,
    ranks: Ranks<D>,
}

// The debuggees that wait for their threads, and those that came back.
#[derive(Drop)]
struct Ranks<D> {
    waiting: Vec<D>,
    back: Vec<D>,
}

// Starts the last debuggee's thread, then those before it, asks all, and joins them on the way
// back.
fn drive_from<
    's,
    E,
    G: Gate + Drop + Send + 's,
    D: Debuggee + Drop + Send + 's,
    R: Threads + Wait + Sync,
>(scope: &Scope<'s, E>, rt: &'s R, orders: &[Vec<Order>], ring: &mut Ring<G>, ranks: &mut Ranks<D>)
    requires { HasRoomFor (vec_len ranks.old.waiting) ranks.old.back }
    ensures back { ComeBack D.place ranks.old.waiting ranks.old.back ranks.new.back }
    ensures capacity { vec_capacity ranks.old.back ≤ vec_capacity ranks.new.back }
    ensures part { AddsSome (numbers_of orders.now) ring.old.answers ring.new.answers }
    ensures all { ring.new.fault ≡ None
        → AddsAll (numbers_of orders.now) ring.old.answers ring.new.answers }
{
    let Some(debuggee) = ranks.waiting.pop() else {
        ring.ask(rt, orders);
        return;
    };
    let debuggee = match start_if(scope, rt, ring, debuggee) {
        Ok(
            Started {
                thread,
                orders: sender,
                answers: receiver,
            },
        ) => {
            ring.add(sender, receiver);
            drive_from(scope, rt, orders, ring, ranks);
            thread.join(rt)
        }
        Err(debuggee) => {
            ring.break_off();
            drive_from(scope, rt, orders, ring, ranks);
            debuggee
        }
    };
    push_driven(&mut ranks.back, debuggee);
}

// That a debuggee comes back as the one that it was.
#[derive(Drop)]
struct AsItWas<D: Debuggee>(Snapshot<D>);

impl<D: Debuggee> Promise<D> for AsItWas<D> {
    ghost use Rattle.std.specs.Prelude.{◌≡◌};

    ghost kept_by = { λ p d. D.place d ≡ D.place p.0.value };
}

// A worker's thread, with the two ends that are kept here.
struct Started<D: Debuggee> {
    thread: PromisedHandle<D, AsItWas<D>>,
    orders: Sender<Order>,
    answers: Receiver<Answer>,
}

// Starts a worker where there is a gate for it.
fn start_if<
    's,
    E,
    G: Gate + Drop + Send + 's,
    D: Debuggee + Drop + Send + 's,
    R: Threads + Wait + Sync,
>(scope: &Scope<'s, E>, rt: &'s R, ring: &mut Ring<G>, debuggee: D) -> Result<Started<D>, D>
    ensures answers { ring.new.answers ≡ ring.old.answers }
    ensures started { IfOk result (λ s. s.thread.promise.0.value ≡ debuggee) }
    ensures back { IfErr result (λ d. D.place d ≡ D.place debuggee) }
{
    let Some(gate) = ring.next_gate() else {
        return Err(debuggee);
    };
    start(scope, rt, ring.alloc, gate, debuggee)
}

// Starts a worker over a debuggee. Where there is no memory or no thread, the debuggee comes back.
fn start<
    's,
    E,
    G: Gate + Drop + Send + 's,
    D: Debuggee + Drop + Send + 's,
    R: Threads + Wait + Sync,
>(scope: &Scope<'s, E>, rt: &'s R, alloc: Global, gate: G, debuggee: D) -> Result<Started<D>, D>
    ensures started { IfOk result (λ s. s.thread.promise.0.value ≡ debuggee) }
    ensures back { IfErr result (λ d. D.place d ≡ D.place debuggee) }
{
    let Ok((orders, inbox)) = bounded(alloc, 1) else {
        return Err(debuggee);
    };
    let Ok((outbox, answers)) = bounded(alloc, 1) else {
        return Err(debuggee);
    };
    let promise = AsItWas(Snapshot::of(&debuggee));
    let worker = Worker::new(gate, debuggee);
    match scope.spawn_with(promise, move || worker.work(rt, &inbox, &outbox)) {
        Ok(thread) => Ok(Started {
            thread,
            orders,
            answers,
        }),
        Err(refused) => {
            // Without its sender the worker's loop ends at once, and gives the debuggee back.
            drop(orders);
            Err((refused.value)())
        }
    }
}

// What is kept on this side: the gates that wait for their threads, the ends of the channels, and
// what came of the orders.
#[derive(Drop)]
struct Ring<G> {
    alloc: Global,
    gates: Vec<G>,
    senders: Vec<Sender<Order>>,
    receivers: Vec<Receiver<Answer>>,
    answers: Vec<Answer>,
    fault: Option<Fault>,
}

impl<G: Drop> Ring<G> {
    fn new(alloc: Global, gates: Vec<G>) -> Ring<G>
        ensures { result.answers.items ≡ [] }
    {
        Ring {
            alloc,
            gates,
            senders: Vec::new(alloc),
            receivers: Vec::new(alloc),
            answers: Vec::new(alloc),
            fault: None,
        }
    }

    // The gate of the last debuggee that waits; none where something broke off.
    fn next_gate(&mut self) -> Option<G>
        ensures { self.new.answers ≡ self.old.answers }
    {
        if self.fault.is_some() {
            return None;
        }
        self.gates.pop()
    }

    // Puts a worker's ends before the others.
    fn add(&mut self, sender: Sender<Order>, receiver: Receiver<Answer>)
        ensures { self.new.answers ≡ self.old.answers }
    {
        if self.senders.insert(0, sender).is_err() || self.receivers.insert(0, receiver).is_err() {
            self.fault = Some(Fault::Memory);
        }
    }

    // Says that there was no memory, or no thread.
    fn break_off(&mut self)
        ensures { self.new.answers ≡ self.old.answers }
    {
        self.fault = Some(Fault::Memory);
    }

    // Asks all orders, and lets go of the ends, so that the workers end.
    fn ask<R: Wait>(&mut self, rt: &R, orders: &[Vec<Order>])
        ensures part { AddsSome (numbers_of orders.now) self.old.answers self.new.answers }
        ensures all { self.new.fault ≡ None
            → AddsAll (numbers_of orders.now) self.old.answers self.new.answers }
    {
        if self.fault.is_none() {
            self.fault = asked(
                rt,
                self.senders.as_slice(),
                self.receivers.as_slice(),
                orders,
                &mut self.answers,
            );
        }
        self.senders.clear();
        self.receivers.clear();
    }
}

// Asks all orders, and answers what broke off, if something did. There are as many ends of each kind
// as lists of orders. They differ only where there was no memory for an end.
fn asked<R: Wait>(
    rt: &R,
    senders: &[Sender<Order>],
    receivers: &[Receiver<Answer>],
    orders: &[Vec<Order>],
    answers: &mut Vec<Answer>,
) -> Option<Fault>
    ensures part { AddsSome (numbers_of orders.now) answers.old answers.new }
    ensures all { result ≡ None → AddsAll (numbers_of orders.now) answers.old answers.new }
{
    if senders.len() != orders.len() || receivers.len() != orders.len() {
        return Some(Fault::Memory);
    }
    ask_all(rt, senders, receivers, orders, answers).err()
}
