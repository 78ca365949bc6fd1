//! The search.

ghost use Rattle.std.specs.Prelude.{◌≡◌, ◌+◌, ◌<◌, ◌≤◌, ◌^◌, ◌⊎◌, ◌∷◌, List, true, Contains, IfOk, OnOk, OnErr};
ghost use Rattle.om_state.specs.State.{State};
ghost use Rattle.om_undo.specs.Machines.{step_reply, with_undo};
ghost use Rattle.om_undo.specs.PlannedSteps.{is_made};
ghost use Rattle.om_undo_history.specs.Choices.{label_by};
ghost use Rattle.lab_explore_states.specs.Sets.{GoesBack, seen};
ghost use Rattle.lab_explore.specs.Acts.{Back, Try};
ghost use Rattle.lab_explore.specs.Searches.{acts_of, IsSafe, IsSearch, HasArrived, Arrives, GoesOn};

use crate::todo::{Todo, choice_of, push_tries};
use lab_explore_closed::{Limits, Verdict};
use lab_explore_moves::possible_steps;
use lab_explore_notes::Notes;
use lab_explore_states::Stored;
use om_code::Program;
use om_foot::Name;
use om_seq::{AllocResult, Pile};
use om_undo::{Machine, PlannedStep};
use std::alloc::Global;

/// A search: a machine, the states that are stored, what is still to be done, and what was found.
#[derive(Drop)]
pub(crate) struct Search {
    pub(crate) machine: Machine,
    pub(crate) stored: Stored,
    pub(crate) todos: Pile<Todo>,
    pub(crate) notes: Notes,
    /// Whether it was seen that a run comes to a state and back to it.
    pub(crate) goes_round: bool,
    /// How many steps were made.
    pub(crate) steps: u64,
}

// Whether a run comes to a state and back to it: whether that was seen before, or the set stands where it stood before
// on its way.
fn goes_round(before: bool, stored: &Stored) -> bool
    ensures { result ≡ true
        → (before ≡ true) ⊎ Contains (seen stored.now).past (seen stored.now).at }
{
    before || stored.is_round()
}

impl Search {
    /// A search that has stored the start of a program with so many workers, and looked at it. Its only error is out
    /// of memory.
    pub(crate) fn begun(alloc: Global, program: Program, workers: u8) -> AllocResult<Search>
        requires at_least_one { 1 ≤ workers }
        requires at_most_32 { workers ≤ 32 }
        ensures search { IfOk result (λ x. IsSearch program workers (acts_of x) x) }
        ensures unmoved { IfOk result (λ x. x.machine.history.made ≡ 0) }
    {
        let mut search = Search::at_start(alloc, program, workers)?;
        search.look_around(alloc)?;
        Ok(search)
    }

    // A search that has stored the start.
    fn at_start(alloc: Global, program: Program, workers: u8) -> AllocResult<Search>
        requires at_least_one { 1 ≤ workers }
        requires at_most_32 { workers ≤ 32 }
        ensures arrived { IfOk result (λ x. HasArrived program workers (acts_of x) x) }
        ensures unmoved { IfOk result (λ x. x.machine.history.made ≡ 0) }
    {
        let machine = Machine::new(alloc, program, workers)?;
        let mut stored = Stored::new(alloc, &machine);
        stored.insert(alloc)?;
        Ok(Search {
            machine,
            stored,
            todos: Pile::new(alloc),
            notes: Notes::new(alloc),
            goes_round: false,
            steps: 0,
        })
    }

    /// Does the next thing that is to be done; answers a verdict where nothing is left, or a limit is met. When out of
    /// memory, what was found so far can be told.
    pub(crate) fn turn(&mut self, alloc: Global, limits: &Limits) -> AllocResult<Option<Verdict>>
        requires search { IsSearch self.old.machine.program self.old.machine.workers
            (acts_of self.old) self.old }
        requires few_made { self.old.machine.history.made < 2 ^ 63 }
        ensures goes_on { IfOk result (λ verdict. GoesOn self.old.machine.program
            self.old.machine.workers limits.now verdict self.new) }
        ensures same { OnOk result (self.new.machine.program ≡ self.old.machine.program) }
        ensures same_workers { OnOk result
            (self.new.machine.workers ≡ self.old.machine.workers) }
        ensures one_more { OnOk result
            (self.new.machine.history.made ≤ self.old.machine.history.made + 1) }
        ensures safe_on_error { OnErr result (IsSafe self.old.machine.program
            self.old.machine.workers self.new) }
    {
        match self.todos.pop() {
            None => Ok(Some(Verdict::Complete)),
            Some(Todo::Back(worker)) => {
                self.back(worker);
                Ok(None)
            }
            Some(Todo::Try { worker, start }) => self.try_step(alloc, worker, &start, limits),
        }
    }

    // Takes the last step back, which is this worker's.
    fn back(&mut self, worker: u8)
        requires { IsSearch self.old.machine.program self.old.machine.workers
            (Back worker ∷ acts_of self.old) self.old }
        ensures search { IsSearch self.old.machine.program self.old.machine.workers
            (acts_of self.new) self.new }
        ensures same { self.new.machine.program ≡ self.old.machine.program }
        ensures same_workers { self.new.machine.workers ≡ self.old.machine.workers }
        ensures no_more { self.new.machine.history.made ≡ self.old.machine.history.made }
    {
        self.undo_last(worker);
    }

    // Undoes the last step of a worker, and has the set of states go back.
    fn undo_last(&mut self, worker: u8)
        requires worker { worker < self.old.machine.workers }
        requires past { (s : State) × (before : List State)
            × ((seen self.old.stored).past ≡ s ∷ before) }
        ensures machine { self.new.machine ≡ with_undo self.old.machine worker }
        ensures stored { GoesBack (seen self.old.stored) (seen self.new.stored) }
        ensures notes { self.new.notes ≡ self.old.notes }
        ensures todos { self.new.todos ≡ self.old.todos }
        ensures round { self.new.goes_round ≡ self.old.goes_round }
        ensures steps { self.new.steps ≡ self.old.steps }
    {
        let _ = self.machine.undo(worker);
        self.stored.back();
    }

    // Tries a step, unless as many were made as may be. When out of memory, what was found so far can be told.
    fn try_step(
        &mut self,
        alloc: Global,
        worker: u8,
        start: &Option<Box<Name>>,
        limits: &Limits,
    ) -> AllocResult<Option<Verdict>>
        requires search { IsSearch self.old.machine.program self.old.machine.workers
            (Try (label_by worker start.now) ∷ acts_of self.old) self.old }
        requires few_made { self.old.machine.history.made < 2 ^ 63 }
        ensures goes_on { IfOk result (λ verdict. GoesOn self.old.machine.program
            self.old.machine.workers limits.now verdict self.new) }
        ensures same { OnOk result (self.new.machine.program ≡ self.old.machine.program) }
        ensures same_workers { OnOk result
            (self.new.machine.workers ≡ self.old.machine.workers) }
        ensures one_more { OnOk result
            (self.new.machine.history.made ≤ self.old.machine.history.made + 1) }
        ensures safe_on_error { OnErr result (IsSafe self.old.machine.program
            self.old.machine.workers self.new) }
    {
        if limits.steps == Some(self.steps) {
            return Ok(Some(Verdict::Stopped));
        }
        let step = self.machine.plan(alloc, worker, &choice_of(start))?;
        if !step.is_possible() {
            return Ok(None);
        }
        self.go(alloc, step, limits)
    }

    // Makes a step. A state that is stored already is left at once. When out of memory, what was found so far can be
    // told.
    fn go(
        &mut self,
        alloc: Global,
        step: PlannedStep,
        limits: &Limits,
    ) -> AllocResult<Option<Verdict>>
        requires planned { step.machine ≡ self.old.machine }
        requires possible { is_made (step_reply self.old.machine step.label) ≡ true }
        requires search { IsSearch self.old.machine.program self.old.machine.workers
            (Try step.label ∷ acts_of self.old) self.old }
        requires few_made { self.old.machine.history.made < 2 ^ 63 }
        ensures goes_on { IfOk result (λ verdict. GoesOn self.old.machine.program
            self.old.machine.workers limits.now verdict self.new) }
        ensures same { OnOk result (self.new.machine.program ≡ self.old.machine.program) }
        ensures same_workers { OnOk result
            (self.new.machine.workers ≡ self.old.machine.workers) }
        ensures one_more { OnOk result
            (self.new.machine.history.made ≤ self.old.machine.history.made + 1) }
        ensures safe_on_error { OnErr result (IsSafe self.old.machine.program
            self.old.machine.workers self.new) }
    {
        let worker = step.worker();
        if !self.arrive(alloc, step)? {
            return Ok(None);
        }
        if self.stored.len() as u64 > limits.states {
            return Ok(Some(Verdict::NotComplete));
        }
        self.todos.push(Todo::Back(worker))?;
        self.look_around(alloc)?;
        Ok(None)
    }

    // Makes a step, and stores the state where it leads; `false` where that was stored already: then the step is taken
    // back. When out of memory, what was found so far can be told.
    fn arrive(&mut self, alloc: Global, step: PlannedStep) -> AllocResult<bool>
        requires planned { step.machine ≡ self.old.machine }
        requires possible { is_made (step_reply self.old.machine step.label) ≡ true }
        requires search { IsSearch self.old.machine.program self.old.machine.workers
            (Try step.label ∷ acts_of self.old) self.old }
        requires few_made { self.old.machine.history.made < 2 ^ 63 }
        ensures arrives { IfOk result (λ is_new. Arrives self.old.machine.program
            self.old.machine.workers step.label is_new self.new) }
        ensures same { OnOk result (self.new.machine.program ≡ self.old.machine.program) }
        ensures same_workers { OnOk result
            (self.new.machine.workers ≡ self.old.machine.workers) }
        ensures one_more { OnOk result
            (self.new.machine.history.made ≤ self.old.machine.history.made + 1) }
        ensures safe_on_error { OnErr result (IsSafe self.old.machine.program
            self.old.machine.workers self.new) }
    {
        let worker = step.worker();
        self.stored.take(alloc, &mut self.machine, step)?;
        self.steps += 1;
        let is_new = self.stored.insert(alloc)?;
        if !is_new {
            self.goes_round = goes_round(self.goes_round, &self.stored);
            self.undo_last(worker);
        }
        Ok(is_new)
    }

    // Notes what is at a state that was stored last, and puts its steps on top of what is to be done. When out of
    // memory, what was found so far can be told.
    fn look_around(&mut self, alloc: Global) -> AllocResult<()>
        requires { HasArrived self.old.machine.program self.old.machine.workers
            (acts_of self.old) self.old }
        ensures search { OnOk result (IsSearch self.old.machine.program self.old.machine.workers
            (acts_of self.new) self.new) }
        ensures same { self.new.machine ≡ self.old.machine }
        ensures safe_on_error { OnErr result (IsSafe self.old.machine.program
            self.old.machine.workers self.new) }
    {
        let steps = possible_steps(alloc, &self.machine)?;
        self.notes.note(alloc, &self.machine, steps.as_slice())?;
        push_tries(alloc, steps.as_slice(), &mut self.todos)?;
        Ok(())
    }
}
