//! Free runs: each worker of a session makes its rounds in a thread of its own.

ghost use Rattle.std.specs.Prelude.{◌≡◌, ◌<◌, ◌≤◌, ◌+◌, ◌*◌, ◌^◌, ◌++◌, ◌∷◌, [], IfOk, IfErr, vec_len, vec_capacity, map, sum_by};
ghost use Rattle.om_book.specs.Standing.{number_of};
ghost use Rattle.om_drive.specs.Calls.{ComeBack, HasRoomFor};
ghost use Rattle.om_drive.specs.OwnCalls.{EachKeepsOtherCalls, KeepsOtherCalls, receipts_of};
ghost use Rattle.om_drive.specs.Steps.{AllMakeSteps, MakesSteps, steps_by, steps_of};
ghost use Rattle.om_drive.specs.Turns.{EachRunsInTurn, RunsInTurn};

use crate::rounds::push_driven;
use crate::runner::{Ran, Runner};
use crate::sitter::{sit_down, stand_up};
use crate::worker::{Debuggee, Gate};
use om_book::{CallError, Fault, Seat, Session, Sitting};
use std::snapshot::Snapshot;
use std::sync::Wait;
use std::thread::{Promise, PromisedHandle, Scope, Threads, scope, scope_env};

/// The seats that ran freely, and what came of it.
#[derive(Drop)]
pub struct Freed<L: Sitting> {
    /// The seats, each in its place.
    pub seats: Vec<Seat<L>>,
    /// How many steps they made.
    pub done: u64,
    /// Whether a worker met a full journal.
    pub full: bool,
    /// What broke it off, if something did: only that there was no memory, or no thread (V3).
    pub fault: Option<Fault>,
}

/// Lets the workers of a session run freely, each in a thread of its own through its seat: the
/// first seat drives worker 0, and so on. There is a gate for each seat.
///
/// In each of its rounds a worker makes its next step. Where that waits at a barrier or for tasks,
/// it asks which task is the first that is ready, and starts this task. A worker goes on after a
/// step that is not made, and stops where the journal is full. So each seat gains own calls of its worker alone, in
/// the order that `call_after` gives, and keeps those that it had. How many rounds they make is not
/// promised. The seats always come back in their places.
pub fn free<L: Sitting + Send + Sync, G: Gate + Drop + Send, R: Threads + Wait + Sync>(
    session: &Session<L>,
    rt: &R,
    mut seats: Vec<Seat<L>>,
    gates: Vec<G>,
    rounds: u32,
) -> Freed<L>
    requires gates { vec_len gates ≡ vec_len seats }
    requires few { vec_len seats ≤ 64 }
    ensures back { map number_of result.seats.items ≡ map number_of seats.items }
    ensures done { sum_by steps_of result.seats.items
        ≡ sum_by steps_of seats.items + result.done }
    ensures own { EachKeepsOtherCalls receipts_of seats.items result.seats.items }
    ensures in_turn { EachRunsInTurn 0 (map receipts_of seats.items)
        (map receipts_of result.seats.items) }
{
    let alloc = *seats.allocator();
    let Ok(mut sitters) = Vec::with_capacity(alloc, seats.len()) else {
        return Freed {
            seats,
            done: 0,
            full: false,
            fault: Some(Fault::Memory),
        };
    };
    sit_down(session, alloc, &mut seats, &mut sitters);
    let (mut sitters, tally) = free_over(rt, sitters, gates, rounds);
    stand_up(&mut sitters, &mut seats);
    let Tally { done, full, fault } = tally;
    Freed {
        seats,
        done,
        full,
        fault,
    }
}

// Lets a worker of each debuggee run freely, and gives the debuggees back in their places.
fn free_over<G: Gate + Drop + Send, D: Debuggee + Drop + Send, R: Threads + Wait + Sync>(
    rt: &R,
    debuggees: Vec<D>,
    gates: Vec<G>,
    rounds: u32,
) -> (Vec<D>, Tally)
    requires gates { vec_len gates ≡ vec_len debuggees }
    requires few { vec_len debuggees ≤ 64 }
    ensures back { map D.place result.0.items ≡ map D.place debuggees.items }
    ensures done { AllMakeSteps D.made debuggees.items result.0.items result.1.done }
    ensures own { EachKeepsOtherCalls D.made debuggees.items result.0.items }
    ensures in_turn { EachRunsInTurn 0 (map D.made debuggees.items)
        (map D.made result.0.items) }
{
    let tally = Tally {
        done: 0,
        full: false,
        fault: None,
    };
    let Ok(back) = Vec::with_capacity(*debuggees.allocator(), debuggees.len()) else {
        return (debuggees, tally.broken_off());
    };
    let line = Line {
        waiting: debuggees,
        gates,
        back,
        tally,
    };
    scope(
        scope_env(),
        rt,
        move |scope| -> (Vec<D>, Tally)
            requires room { HasRoomFor (vec_len line.waiting) line.back }
            requires paired { vec_len line.gates ≡ vec_len line.waiting }
            requires few { vec_len line.waiting ≤ 64 }
            requires none { line.back.items ≡ [] }
            requires nothing { line.tally.done ≡ 0 }
            ensures back { map D.place result.0.items ≡ map D.place line.waiting.items }
            ensures done { AllMakeSteps D.made line.waiting.items result.0.items result.1.done }
            ensures own { EachKeepsOtherCalls D.made line.waiting.items result.0.items }
            ensures in_turn { EachRunsInTurn 0 (map D.made line.waiting.items)
                (map D.made result.0.items) }
        { free_in(scope, rt, rounds, line) },
    )
}

// The debuggees that wait for their threads with their gates, those that came back, and what came
// of them.
#[derive(Drop)]
struct Line<D, G> {
    waiting: Vec<D>,
    gates: Vec<G>,
    back: Vec<D>,
    tally: Tally,
}

// What came of the workers that are back.
#[derive(Clone, Copy)]
struct Tally {
    done: u64,
    full: bool,
    fault: Option<Fault>,
}

// Runs freely within a scope.
fn free_in<
    's,
    E,
    G: Gate + Drop + Send + 's,
    D: Debuggee + Drop + Send + 's,
    R: Threads + Wait + Sync,
>(scope: &Scope<'s, E>, rt: &'s R, rounds: u32, mut line: Line<D, G>) -> (Vec<D>, Tally)
    requires room { HasRoomFor (vec_len line.waiting) line.back }
    requires paired { vec_len line.gates ≡ vec_len line.waiting }
    requires few { vec_len line.waiting ≤ 64 }
    requires none { line.back.items ≡ [] }
    requires nothing { line.tally.done ≡ 0 }
    ensures back { map D.place result.0.items ≡ map D.place line.waiting.items }
    ensures done { AllMakeSteps D.made line.waiting.items result.0.items result.1.done }
    ensures own { EachKeepsOtherCalls D.made line.waiting.items result.0.items }
    ensures in_turn { EachRunsInTurn 0 (map D.made line.waiting.items)
        (map D.made result.0.items) }
{
    free_from(scope, rt, rounds, &mut line);
    let Line { back, tally, .. } = line;
    (back, tally)
}

// Starts the last debuggee's thread, then those before it, and joins them on the way back.
fn free_from<
    's,
    E,
    G: Gate + Drop + Send + 's,
    D: Debuggee + Drop + Send + 's,
    R: Threads + Wait + Sync,
>(scope: &Scope<'s, E>, rt: &'s R, rounds: u32, line: &mut Line<D, G>)
    requires room { HasRoomFor (vec_len line.old.waiting) line.old.back }
    requires paired { vec_len line.old.gates ≡ vec_len line.old.waiting }
    requires few { vec_len line.old.waiting ≤ 64 }
    requires none { line.old.back.items ≡ [] }
    requires small { line.old.tally.done + vec_len line.old.waiting * 2 ^ 32 < 2 ^ 63 }
    ensures back { ComeBack D.place line.old.waiting line.old.back line.new.back }
    ensures done { steps_by D.made line.new.back.items + line.old.tally.done
        ≡ steps_by D.made line.old.back.items + steps_by D.made line.old.waiting.items
        + line.new.tally.done }
    ensures own { EachKeepsOtherCalls D.made line.old.waiting.items line.new.back.items }
    ensures in_turn { EachRunsInTurn 0 (map D.made line.old.waiting.items)
        (map D.made line.new.back.items) }
    ensures small { line.new.tally.done ≤ line.old.tally.done + vec_len line.old.waiting * 2 ^ 32 }
    ensures capacity { vec_capacity line.old.back ≤ vec_capacity line.new.back }
{
    let Some(debuggee) = line.waiting.pop() else {
        return;
    };
    let Some(gate) = line.gates.pop() else {
        unreachable!()
    };
    let worker = line.waiting.len() as u8;
    let runner = Runner {
        gate,
        debuggee,
        worker,
    };
    let started = start(scope, rt, rounds, runner);
    free_from(scope, rt, rounds, line);
    let ran = match started {
        Ok(thread) => thread.join(rt),
        Err(ran) => {
            line.tally = line.tally.broken_off();
            ran
        }
    };
    line.take_back(ran);
}

// That a runner's debuggee comes back as the one that it was, with as many further steps as are
// counted, and with no further call that is not its worker's own. Its further calls are in turn.
#[derive(Drop)]
struct Counted<G: Gate + Drop, D: Debuggee + Drop>(Snapshot<Runner<G, D>>);

impl<G: Gate + Drop, D: Debuggee + Drop> Promise<Ran<D>> for Counted<G, D> {
    ghost use Rattle.std.specs.Prelude.{◌≡◌};
    ghost use Rattle.om_drive.specs.OwnCalls.{KeepsOtherCalls};
    ghost use Rattle.om_drive.specs.Steps.{MakesSteps};
    ghost use Rattle.om_drive.specs.Turns.{RunsInTurn};

    ghost kept_by = { λ p r. (D.place r.debuggee ≡ D.place p.0.value.debuggee)
        × MakesSteps D.made p.0.value.debuggee r.debuggee r.done
        × KeepsOtherCalls p.0.value.worker D.made p.0.value.debuggee r.debuggee
        × RunsInTurn p.0.value.worker (D.made p.0.value.debuggee) (D.made r.debuggee) };
}

// Starts a worker's thread. Where there is none, the worker makes its rounds here.
fn start<
    's,
    E,
    G: Gate + Drop + Send + 's,
    D: Debuggee + Drop + Send + 's,
    R: Threads + Wait + Sync,
>(
    scope: &Scope<'s, E>,
    rt: &'s R,
    rounds: u32,
    runner: Runner<G, D>,
) -> Result<PromisedHandle<Ran<D>, Counted<G, D>>, Ran<D>>
    ensures started { IfOk result (λ thread. thread.promise.0.value ≡ runner) }
    ensures place { IfErr result (λ ran. D.place ran.debuggee ≡ D.place runner.debuggee) }
    ensures steps { IfErr result (λ ran. MakesSteps D.made runner.debuggee ran.debuggee ran.done) }
    ensures own { IfErr result (λ ran. KeepsOtherCalls runner.worker D.made runner.debuggee ran.debuggee) }
    ensures in_turn { IfErr result (λ ran. RunsInTurn runner.worker (D.made runner.debuggee)
        (D.made ran.debuggee)) }
{
    let promise = Counted(Snapshot::of(&runner));
    match scope.spawn_with(promise, move || runner.run(rt, rounds)) {
        Ok(thread) => Ok(thread),
        Err(refused) => Err((refused.value)()),
    }
}

impl<D: Debuggee + Drop, G> Line<D, G> {
    // Takes a debuggee back, and adds what came of it.
    fn take_back(&mut self, ran: Ran<D>)
        requires room { vec_len self.old.back < vec_capacity self.old.back }
        requires small { self.old.tally.done + 2 ^ 32 < 2 ^ 64 }
        ensures back { self.new.back.items ≡ self.old.back.items ++ ran.debuggee ∷ [] }
        ensures done { self.new.tally.done ≡ self.old.tally.done + ran.done }
        ensures capacity { vec_capacity self.old.back ≤ vec_capacity self.new.back }
    {
        let Ran {
            debuggee,
            done,
            error,
        } = ran;
        self.tally = self.tally.with(done, error);
        push_driven(&mut self.back, debuggee);
    }
}

impl Tally {
    // With a worker's steps, and why it stopped.
    fn with(self, done: u32, error: Option<CallError>) -> Tally
        requires { self.done + done < 2 ^ 64 }
        ensures { result.done ≡ self.done + done }
    {
        let done = self.done + u64::from(done);
        match error {
            None => Tally { done, ..self },
            Some(CallError::Full) => Tally {
                done,
                full: true,
                ..self
            },
            Some(CallError::OutOfMemory) => Tally { done, ..self }.broken_off(),
        }
    }

    // Broken off: there was no memory, or no thread.
    fn broken_off(self) -> Tally
        ensures { result.done ≡ self.done }
    {
        Tally {
            fault: Some(Fault::Memory),
            ..self
        }
    }
}
