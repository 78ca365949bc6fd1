//! A worker that runs freely: it makes its rounds over one debuggee, behind a gate.

ghost use Rattle.std.specs.Prelude.{◌≡◌, ◌<◌, IfOk, OnOk, OnErr};
ghost use Rattle.om_book_journal.specs.Runs.{IsInRange, is_step_made};
ghost use Rattle.om_book_journal.specs.declared.reply.Reply.{Reply as ReplyView};
ghost use Rattle.om_drive.specs.Calls.{AddsReceipt};
ghost use Rattle.om_drive.specs.OwnCalls.{KeepsOtherCalls};
ghost use Rattle.om_drive.specs.Steps.{MakesSteps, NoStep, StepIf};
ghost use Rattle.om_drive.specs.Turns.{waits, first_ready, next_step, ready_question, GoesInTurn, MakesRound, RunsInTurn};

use crate::worker::{Debuggee, Gate, says_yes};
use om_book::{CallError, Command, Query, Reply};
use om_foot::Name;
use om_state::Blocked;
use om_task::Choice;
use om_undo::StepReply;
use std::sync::Wait;

/// A debuggee of which one worker is driven.
#[derive(Drop)]
pub(crate) struct Runner<G: Gate + Drop, D: Debuggee + Drop> {
    pub(crate) gate: G,
    pub(crate) debuggee: D,
    pub(crate) worker: u8,
}

// What came of a step that was asked for.
#[derive(Clone, Copy)]
struct Tried {
    // Whether it was made.
    made: bool,
    // Whether it waits at a barrier or for tasks, so that another task may be begun there.
    waits: bool,
}

/// What came of a worker's rounds.
#[derive(Drop)]
pub(crate) struct Ran<D: Debuggee + Drop> {
    pub(crate) debuggee: D,
    /// How many steps it made.
    pub(crate) done: u32,
    /// Why it stopped before its last round, if it did.
    pub(crate) error: Option<CallError>,
}

impl<G: Gate + Drop, D: Debuggee + Drop> Runner<G, D> {
    /// Makes its rounds, each behind its gate, until a call is not answered. A worker that is out
    /// of range makes none. All calls are the worker's own, and in turn.
    pub(crate) fn run<R: Wait>(mut self, rt: &R, rounds: u32) -> Ran<D>
        ensures place { D.place result.debuggee ≡ D.place self.debuggee }
        ensures steps { MakesSteps D.made self.debuggee result.debuggee result.done }
        ensures own { KeepsOtherCalls self.worker D.made self.debuggee result.debuggee }
        ensures in_turn { RunsInTurn self.worker (D.made self.debuggee) (D.made result.debuggee) }
    {
        let mut done = 0;
        let mut error = None;
        if self.worker < self.debuggee.workers() {
            (done, error) = self.make_rounds(rt, rounds);
        }
        let Runner { debuggee, .. } = self;
        Ran {
            debuggee,
            done,
            error,
        }
    }

    // Makes rounds. How many steps were made, and why not all rounds.
    fn make_rounds<R: Wait>(&mut self, rt: &R, rounds: u32) -> (u32, Option<CallError>)
        requires { self.old.worker < (D.place self.old.debuggee).workers }
        ensures place { D.place self.new.debuggee ≡ D.place self.old.debuggee }
        ensures steps { MakesSteps D.made self.old.debuggee self.new.debuggee result.0 }
        ensures own { KeepsOtherCalls self.old.worker D.made self.old.debuggee self.new.debuggee }
        ensures in_turn { RunsInTurn self.old.worker (D.made self.old.debuggee)
            (D.made self.new.debuggee) }
    {
        let mut done = 0;
        for round in 0..rounds {
            let _ = says_yes(&mut self.gate, u64::from(round) + 1);
            match self.round(rt) {
                Ok(true) => done += 1,
                Ok(false) => {}
                Err(error) => return (done, Some(error)),
            }
        }
        (done, None)
    }

    // Makes the worker's next step, or where that waits for tasks, the start of the first that is
    // ready. Whether a step was made.
    fn round<R: Wait>(&mut self, rt: &R) -> Result<bool, CallError>
        requires { self.old.worker < (D.place self.old.debuggee).workers }
        ensures place { D.place self.new.debuggee ≡ D.place self.old.debuggee }
        ensures worker { self.new.worker ≡ self.old.worker }
        ensures steps { IfOk result (StepIf D.made self.old.debuggee self.new.debuggee) }
        ensures none_on_error { OnErr result (NoStep D.made self.old.debuggee self.new.debuggee) }
        ensures own { KeepsOtherCalls self.old.worker D.made self.old.debuggee self.new.debuggee }
        ensures in_turn { OnOk result (MakesRound self.old.worker (next_step self.old.worker)
            (D.made self.old.debuggee) (D.made self.new.debuggee)) }
        ensures begun_on_error { OnErr result (GoesInTurn self.old.worker
            (next_step self.old.worker) (D.made self.old.debuggee) (D.made self.new.debuggee)) }
    {
        let tried = self.step(rt, Choice::Next)?;
        if tried.made {
            return Ok(true);
        }
        if tried.waits {
            return self.start_first(rt);
        }
        Ok(false)
    }

    // Starts the first task that is ready, if there is one. Whether it was begun.
    fn start_first<R: Wait>(&mut self, rt: &R) -> Result<bool, CallError>
        requires { self.old.worker < (D.place self.old.debuggee).workers }
        ensures place { D.place self.new.debuggee ≡ D.place self.old.debuggee }
        ensures worker { self.new.worker ≡ self.old.worker }
        ensures steps { IfOk result (StepIf D.made self.old.debuggee self.new.debuggee) }
        ensures none_on_error { OnErr result (NoStep D.made self.old.debuggee self.new.debuggee) }
        ensures own { KeepsOtherCalls self.old.worker D.made self.old.debuggee self.new.debuggee }
        ensures in_turn { OnOk result (MakesRound self.old.worker ready_question
            (D.made self.old.debuggee) (D.made self.new.debuggee)) }
        ensures begun_on_error { OnErr result (GoesInTurn self.old.worker ready_question
            (D.made self.old.debuggee) (D.made self.new.debuggee)) }
    {
        let Some(task) = self.first_ready(rt)? else {
            return Ok(false);
        };
        let tried = self.step(rt, Choice::Start(task))?;
        Ok(tried.made)
    }

    // The first task that is ready.
    fn first_ready<R: Wait>(&mut self, rt: &R) -> Result<Option<Name>, CallError>
        ensures place { D.place self.new.debuggee ≡ D.place self.old.debuggee }
        ensures worker { self.new.worker ≡ self.old.worker }
        ensures steps { NoStep D.made self.old.debuggee self.new.debuggee }
        ensures own { KeepsOtherCalls self.old.worker D.made self.old.debuggee self.new.debuggee }
        ensures asked { IfOk result (λ first. (x : ReplyView) × (AddsReceipt
            (D.made self.old.debuggee) (D.made self.new.debuggee) ready_question x)
            × (first ≡ first_ready x)) }
        ensures same_on_error { OnErr result (D.made self.new.debuggee
            ≡ D.made self.old.debuggee) }
    {
        let reply = self.debuggee.call(rt, Command::Look(Query::FirstReady))?;
        let first = first_name(&reply);
        drop(reply);
        Ok(first)
    }

    // Steps by a choice.
    fn step<R: Wait>(&mut self, rt: &R, choice: Choice) -> Result<Tried, CallError>
        requires { self.old.worker < (D.place self.old.debuggee).workers }
        ensures place { D.place self.new.debuggee ≡ D.place self.old.debuggee }
        ensures worker { self.new.worker ≡ self.old.worker }
        ensures steps { IfOk result (λ tried. StepIf D.made self.old.debuggee self.new.debuggee
            tried.made) }
        ensures none_on_error { OnErr result (NoStep D.made self.old.debuggee self.new.debuggee) }
        ensures own { KeepsOtherCalls self.old.worker D.made self.old.debuggee self.new.debuggee }
        ensures called { IfOk result (λ tried. (x : ReplyView) × (AddsReceipt
            (D.made self.old.debuggee) (D.made self.new.debuggee)
            (Command.Step self.old.worker choice) x)
            × (tried.made ≡ is_step_made x) × (tried.waits ≡ waits x)) }
        ensures same_on_error { OnErr result (D.made self.new.debuggee
            ≡ D.made self.old.debuggee) }
    {
        let worker = self.worker;
        let reply = self.debuggee.call(rt, Command::Step { worker, choice })?;
        let tried = Tried {
            made: reply.is_step_made(),
            waits: waits_for_tasks(&reply),
        };
        drop(reply);
        Ok(tried)
    }
}

// The first of the tasks that are ready.
fn first_name(reply: &Reply) -> Option<Name>
    ensures { result ≡ first_ready reply.now }
{
    let Reply::FirstReady(Some(name)) = reply else {
        return None;
    };
    Some(name.get().get())
}

// Whether a step waits at a barrier or for tasks, so that another task may be begun there.
fn waits_for_tasks(reply: &Reply) -> bool
    ensures { result ≡ waits reply.now }
{
    matches!(
        reply,
        Reply::Step(StepReply::Blocked(Blocked::Barrier | Blocked::Children | Blocked::Group))
    )
}
