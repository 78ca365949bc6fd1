//! The machine: a program's run, which goes forwards by steps and backwards by undos and rolls.

ghost use Rattle.std.specs.Prelude.{◌≡◌, ◌<◌, ◌≤◌, ◌^◌, ℕ, IfOk, OnOk, OnErr, IsNone, IfSome, ◌↔◌, Some};
ghost use Rattle.std.specs.Option.{option_copied};
ghost use Rattle.om_state.specs.Ready.{first_behind, AreReady};
ghost use Rattle.om_state.specs.Rules.{Rules, replay};
ghost use Rattle.om_memory.specs.Memories.{plain_or_idle};
ghost use Rattle.om_task.specs.Plans.{label_at};
ghost use Rattle.om_task.specs.Rules.{rules_of, line_in, is_at_scheduling_point};
ghost use Rattle.om_undo_history.specs.Choices.{choice_of, label_by};
ghost use Rattle.om_undo_history.specs.Runs.{reply_to_step, reply_to_undo};
ghost use Rattle.om_undo_history.specs.Commands.{IsRun, IsGone, Rise};
ghost use Rattle.om_undo_history.specs.Pasts.{past_in, IsHeld, Stays};
ghost use Rattle.om_undo_history.specs.Standing.{accesses_in};
ghost use Rattle.om_undo.specs.Exactness.{IsExact, UndoesExactly};
ghost use Rattle.om_undo.specs.Machines.{rules_for, state_in, control_at, at_start, step_reply, with_step, with_undo, rolled_from, roll_reply, with_roll, TakesOut, TakesItsCone, footprint_in, IsPlan, RepliesToPlan, RepliesToWorker, TakesPlan};
ghost use Rattle.om_undo.specs.PlannedSteps.{is_made, planned_at, touched_if_made};
ghost use Rattle.om_undo.specs.ReadyNames.{ready_names};

use crate::laws::{exactly_where, headline, shaped_rules, steady_rules};
use om_code::Program;
use om_foot::{Name, Obj};
use om_memory::Control;
use om_seq::AllocResult;
use om_state::{Entry, Footprint, Label, Val};
use om_task::laws::low_counters;
use om_task::planning::{Planning, is_at_scheduling_point, line, plan_by};
use om_task::start::started;
use om_task::{Choice, Plan};
use om_undo_history::history::kept_choice;
use om_undo_history::{History, RollReply, StepReply, Taken, UndoReply};
use om_undo_touches::Accesses;
use std::alloc::Global;
use std::marker::Model;
use std::snapshot::Snapshot;

/// A program's run.
///
/// Contracts see its program, its number of workers, and its history: the entries that stand and
/// how many steps were ever made. Its state is always the replay of these entries from the start,
/// whatever steps, undos and rolls led to them.
pub struct Machine {
    program: Program,
    workers: u8,
    history: History,
}

// By hand: other crates call this, and do not prove anew how each part is dropped.
impl Drop for Machine {
    fn drop(self) {
        let Machine {
            program,
            workers: _,
            history,
        } = self;
        drop(program);
        drop(history);
    }
}

impl Model for Machine {
    ghost use Rattle.om_undo.specs.Machines.{MachineView};

    ghost Value = { MachineView };

    ghost use Rattle.om_undo_history.specs.Pasts.{history_in};
    ghost use Rattle.om_undo.specs.Machines.{IsSound};

    ghost view = { λ m. record { program = m.program; workers = m.workers; history = history_in m.history } };

    ghost invariant = { λ m. IsSound m.program m.workers m.history };
}

/// The step that a worker would take by a choice, as it was planned at a machine.
///
/// Contracts see that machine and the step's label. Its plan is always the one of that label at that
/// machine, so a machine that is the same one takes it without planning again.
#[derive(Drop)]
pub struct PlannedStep {
    worker: u8,
    // The name of the task that its choice starts, if it does: names are large, so it lies apart.
    start: Option<Box<Name>>,
    plan: Plan,
    at: Snapshot<Machine>,
}

impl Model for PlannedStep {
    ghost use Rattle.om_undo_history.specs.Choices.{label_by};
    ghost use Rattle.om_undo.specs.PlannedSteps.{PlannedView, IsPlanAt};

    ghost Value = { PlannedView };

    ghost view = { λ p. record { machine = p.at.value; label = label_by p.worker p.start } };

    ghost invariant = { λ p. IsPlanAt p.at.value (label_by p.worker p.start) p.plan };
}

// The choice that starts the task of this name, if there is one.
fn choice_of(start: &Option<Box<Name>>) -> Choice
    ensures { result ≡ choice_of start.now }
{
    match start {
        Some(name) => Choice::Start(**name),
        None => Choice::Next,
    }
}

impl PlannedStep {
    /// Its worker, from 0.
    pub fn worker(&self) -> u8
        ensures { result ≡ self.now.label.worker }
    {
        self.worker
    }

    /// The choice by which it is taken.
    pub fn choice(&self) -> Choice
        ensures { result ≡ self.now.label.choice }
    {
        choice_of(&self.start)
    }

    /// What it touches, its worker's control first; `None` where it can't be made. It takes no memory.
    pub fn footprint(&self) -> Option<&Footprint>
        ensures { option_copied result ≡ touched_if_made self.now.machine self.now.label }
    {
        match &self.plan {
            Plan::Updates(change) => Some(&change.footprint),
            Plan::Blocked(_) => None,
            Plan::Ended => None,
        }
    }

    /// Whether it can be made: it is neither blocked, nor has its worker ended.
    pub fn is_possible(&self) -> bool
        ensures { result ≡ is_made (step_reply self.now.machine self.now.label) }
    {
        match &self.plan {
            Plan::Updates(_) => true,
            Plan::Blocked(_) => false,
            Plan::Ended => false,
        }
    }
}

// The step that a worker would take by its choice.
fn label(worker: u8, choice: &Choice) -> Label
    ensures { result ≡ label_at worker choice.now }
{
    Label {
        worker,
        choice: *choice,
    }
}

// The plan of a choice's step where a history stands. Its only error is out of memory.
fn planned_by(
    alloc: Global,
    program: &Program,
    history: &History,
    planning: &Planning<'_>,
) -> AllocResult<Plan>
    requires { IsHeld (rules_of program.now planning.now.workers) history.now }
    ensures { IfOk result
        (λ plan. IsPlan (rules_of program.now planning.now.workers) history.now
        (label_at planning.now.worker planning.now.choice.now) plan) }
{
    low_counters();
    plan_by(alloc, program, history.store(), planning)
}

// The plan of a label's step where a history stands. Its only error is out of memory.
fn planned(
    alloc: Global,
    program: &Program,
    workers: u8,
    history: &History,
    label: &Label,
) -> AllocResult<Plan>
    requires held { IsHeld (rules_of program.now workers) history.now }
    requires some { 1 ≤ workers }
    ensures { IfOk result (IsPlan (rules_of program.now workers) history.now label.now) }
{
    let planning = &Planning {
        worker: label.worker,
        workers,
        choice: &label.choice,
    };
    planned_by(alloc, program, history, planning)
}

// What `taken` of a plan for a worker's label would answer now: the reply that the definition of a run
// gives (`reply_to_step`). Nothing changes.
fn replied(history: &History, worker: u8, plan: &Plan) -> StepReply
    requires { (r : Rules) × IsHeld r history.now }
    ensures { RepliesToWorker worker plan.now history.now result }
{
    match plan {
        Plan::Updates(change) => history.reply(worker, change),
        Plan::Blocked(why) => StepReply::Blocked(*why),
        Plan::Ended => StepReply::Ended,
    }
}

// Takes the step of a plan for a worker's label, or says why it can't be taken: the reply that the
// definition of a run gives (`reply_to_step`). When out of memory, nothing changes.
fn taken(
    history: &mut History,
    alloc: Global,
    worker: u8,
    start: Option<Box<Name>>,
    plan: Plan,
) -> AllocResult<StepReply>
    requires few_made { (past_in history.old).made < 2 ^ 63 }
    requires planned { (r : Rules) × IsPlan r history.old (label_by worker start) plan }
    ensures reply { IfOk result (RepliesToPlan (label_by worker start) plan history.old) }
    ensures after { OnOk result (TakesPlan (label_by worker start) plan history.old history.new) }
    ensures unchanged_on_error { OnErr result (Stays history.old history.new) }
{
    match plan {
        Plan::Updates(change) => history.take_by(alloc, worker, start, change),
        Plan::Blocked(why) => Ok(StepReply::Blocked(why)),
        Plan::Ended => Ok(StepReply::Ended),
    }
}

impl Machine {
    /// A machine at the start of a program, with 1 to 32 workers. Its only error is out of memory.
    pub fn new(alloc: Global, program: Program, workers: u8) -> AllocResult<Machine>
        requires at_least_one { 1 ≤ workers }
        requires at_most_32 { workers ≤ 32 }
        ensures { IfOk result (λ m. m ≡ at_start program workers) }
    {
        steady_rules();
        shaped_rules();
        let store = started(alloc, &program, workers)?;
        Ok(Machine {
            program,
            workers,
            history: History::new(alloc, store),
        })
    }

    /// Takes a worker's step, or says why it can't be taken: the reply that the definition of a run
    /// gives (`reply_to_step`).
    ///
    /// Only `Done` changes anything: an entry is added, whose serial is one above the number of
    /// steps ever made. When out of memory, nothing changes.
    pub fn step(&mut self, alloc: Global, worker: u8, choice: Choice) -> AllocResult<StepReply>
        requires in_range { worker < self.old.workers }
        requires few_made { self.old.history.made < 2 ^ 63 }
        ensures reply { IfOk result (λ x. x ≡ step_reply self.old (label_at worker choice)) }
        ensures after { OnOk result (self.new ≡ with_step self.old (label_at worker choice)) }
        ensures unchanged_on_error { OnErr result (self.new ≡ self.old) }
    {
        let label = label(worker, &choice);
        let start = kept_choice(alloc, &choice)?;
        let plan = planned(alloc, &self.program, self.workers, &self.history, &label)?;
        taken(&mut self.history, alloc, worker, start, plan)
    }

    /// What `step` would answer now. Nothing changes; the only error is out of memory.
    pub fn peek(&self, alloc: Global, worker: u8, choice: Choice) -> AllocResult<StepReply>
        requires { worker < self.now.workers }
        ensures { IfOk result (λ x. x ≡ step_reply self.now (label_at worker choice)) }
    {
        let label = label(worker, &choice);
        let plan = planned(alloc, &self.program, self.workers, &self.history, &label)?;
        let reply = replied(&self.history, worker, &plan);
        drop(plan);
        Ok(reply)
    }

    /// The step that a worker would take by a choice, planned and not taken. Nothing changes; the only
    /// error is out of memory.
    pub fn plan(&self, alloc: Global, worker: u8, choice: &Choice) -> AllocResult<PlannedStep>
        requires { worker < self.now.workers }
        ensures { IfOk result (λ p. p ≡ planned_at self.now (label_at worker choice.now)) }
    {
        let start = kept_choice(alloc, choice)?;
        let planning = &Planning {
            worker,
            workers: self.workers,
            choice,
        };
        let plan = planned_by(alloc, &self.program, &self.history, planning)?;
        Ok(PlannedStep {
            worker,
            start,
            plan,
            at: Snapshot::of(self),
        })
    }

    /// Takes a step that was planned at this very machine, or says why it can't be taken: what `step`
    /// does, which plans it first.
    ///
    /// Only `Done` changes anything. When out of memory, nothing changes.
    pub fn take(&mut self, alloc: Global, step: PlannedStep) -> AllocResult<StepReply>
        requires planned { step.machine ≡ self.old }
        requires few_made { self.old.history.made < 2 ^ 63 }
        ensures reply { IfOk result (λ x. x ≡ step_reply self.old step.label) }
        ensures after { OnOk result (self.new ≡ with_step self.old step.label) }
        ensures unchanged_on_error { OnErr result (self.new ≡ self.old) }
    {
        let PlannedStep {
            worker,
            start,
            plan,
            at: _,
        } = step;
        taken(&mut self.history, alloc, worker, start, plan)
    }

    /// Takes a worker's last step out of the history, wherever it stands, unless a later step
    /// conflicts with it: the reply that the definition of a run gives (`reply_to_undo`). It is refused
    /// exactly where a later step of this very history conflicts, and names the first.
    ///
    /// Only `Undone` changes anything, and the number of steps ever made stays even then, so no
    /// serial is given again. It takes no memory.
    pub fn undo(&mut self, worker: u8) -> UndoReply
        requires { worker < self.old.workers }
        ensures reply { result ≡ reply_to_undo (rules_for self.old) self.old.history worker }
        ensures exactly { UndoesExactly self.old worker }
        ensures after { self.new ≡ with_undo self.old worker }
    {
        exactly_where();
        self.history.undo(worker)
    }

    /// What a roll of the entry with a serial would take out, the latest first: its cone, the least
    /// set that holds it and, with each member, every later entry that conflicts with the member.
    /// `None` where no entry has that serial. Nothing changes; the only error is out of memory.
    pub fn cone(&self, alloc: Global, serial: u64) -> AllocResult<Option<Vec<Taken>>>
        ensures none { IfOk result (λ o. IsNone o ↔ IsGone serial self.now.history) }
        ensures members { IfOk result (λ o. IfSome o (λ v. v.items ≡ rolled_from self.now serial)) }
    {
        self.history.cone(alloc, serial)
    }

    /// Takes out the members of the cone that `cone` answered at this very history. The number of steps
    /// ever made stays. It takes no memory. `roll` does both at once, and this is for a debugger that shows
    /// the cone first.
    pub fn take_out(&mut self, taken: &[Taken])
        requires { (serial : ℕ) × (taken.now ≡ rolled_from self.old serial) }
        ensures { TakesOut taken.now self.old self.new }
    {
        self.history.take_out(taken)
    }

    /// Takes the entry with a serial and the rest of its cone out of the history: the reply that the
    /// definition of a run gives (`reply_to_roll`).
    ///
    /// Only `Rolled` changes anything, and the number of steps ever made stays even then. Where no
    /// entry has that serial the answer is `NoEntry`. When out of memory, nothing changes.
    pub fn roll(&mut self, alloc: Global, serial: u64) -> AllocResult<RollReply>
        ensures reply { IfOk result (λ x. x ≡ roll_reply self.old serial) }
        ensures after { OnOk result (self.new ≡ with_roll self.old serial) }
        ensures takes_cone { OnOk result (TakesItsCone serial self.old self.new) }
        ensures no_entry { IfOk result (λ x. (x ≡ RollReply.NoEntry) ↔ IsGone serial self.old.history) }
        ensures unchanged_without_entry { IfOk result
            (λ x. x ≡ RollReply.NoEntry → self.new ≡ self.old) }
        ensures unchanged_on_error { OnErr result (self.new ≡ self.old) }
    {
        self.history.roll(alloc, serial)
    }

    /// A copy of what an object holds: its value at the replay of the entries. Its only error is
    /// out of memory.
    pub fn look(&self, alloc: Global, object: &Obj) -> AllocResult<Val>
        ensures { IfOk result (λ v. v ≡ state_in self.now object.now) }
    {
        self.history.store().copy_at(alloc, object)
    }

    /// The names of all tasks that are ready to be begun at the replay of the entries, ascending.
    /// Its only error is out of memory.
    pub fn ready(&self, alloc: Global) -> AllocResult<Vec<Name>>
        ensures { IfOk result (λ v. AreReady (state_in self.now) v.items) }
    {
        self.history.store().ready(alloc)
    }

    /// The least name behind another one, or of all, whose task is ready to be begun at the replay
    /// of the entries; `None` where there is none. It takes no memory.
    pub fn next_ready(&self, after: Option<&Name>) -> Option<Name>
        ensures { result ≡ first_behind (option_copied after.entry) (ready_names self.now) }
    {
        self.history.store().next_ready(after)
    }

    /// A copy of the entries that stand, in their order. Their serials rise, to the number of steps
    /// ever made at most, and what is true after every run is true of them.
    ///
    /// The headline holds of this very machine. The entries can be made in turn from the start, and what they
    /// give is its state. A step that is done and then an undo of its worker restore that state. An undo is
    /// refused exactly where a later entry conflicts, and the refusal names the first. A step or an undo that
    /// is not done changes nothing. The only error is out of memory.
    pub fn history(&self, alloc: Global) -> AllocResult<Vec<Entry>>
        ensures entries { IfOk result (λ v. v.items ≡ self.now.history.entries) }
        ensures numbered { Rise 0 self.now.history.entries self.now.history.made }
        ensures reached { IsRun (rules_for self.now) self.now.history }
        ensures headline { IsExact self.now }
    {
        headline();
        self.history.entries(alloc)
    }

    /// What the step of the entry with a serial touches, its worker's control first: what the rules say in
    /// the state before it, which the entries before it lead to. `None` where no entry has that serial.
    /// It is what the entry's record keeps: nothing is made again, and it takes no memory.
    pub fn footprint(&self, serial: u64) -> Option<&Accesses>
        ensures { accesses_in (option_copied result) ≡ footprint_in self.now serial }
    {
        self.history.footprint(serial)
    }

    /// The control of a worker at the replay of the entries; `None` stands for an idle one. It takes
    /// no memory.
    pub fn control(&self, worker: u8) -> Option<&Control>
        ensures { plain_or_idle (option_copied result) ≡ control_at self.now worker }
    {
        self.history.store().control(worker)
    }

    /// The line in the source of a worker's next instruction, from 1; 0 where it is idle or has
    /// ended. At a fault it is the line of the instruction that met it.
    pub fn line(&self, worker: u8) -> u32
        requires { worker < self.now.workers }
        ensures { result ≡ line_in self.now.program (control_at self.now worker) }
    {
        match self.history.store().control(worker) {
            Some(control) => line(&self.program, control),
            None => line(&self.program, &Control::Idle),
        }
    }

    /// Whether a worker is at a scheduling point, where it may start a task (OpenMP 5.2, 12.9).
    pub fn is_at_scheduling_point(&self, worker: u8) -> bool
        requires { worker < self.now.workers }
        ensures { result ≡ is_at_scheduling_point self.now.program (control_at self.now worker) }
    {
        match self.history.store().control(worker) {
            Some(control) => is_at_scheduling_point(&self.program, control),
            None => false,
        }
    }

    /// The program that it runs.
    pub fn program(&self) -> &Program
        ensures { result.now ≡ self.now.program }
    {
        &self.program
    }

    /// How many workers it has, 1 to 32. They are numbered from 0.
    pub fn workers(&self) -> u8
        ensures same { result ≡ self.now.workers }
        ensures at_least_one { 1 ≤ self.now.workers }
        ensures at_most_32 { self.now.workers ≤ 32 }
    {
        self.workers
    }
}
