//! The steps of a history, with what each touched and did: what it touched stands in the machine, and what
//! it did is found as they are made again one by one.

ghost use Rattle.std.specs.Prelude.{◌≡◌, ◌<◌, ◌^◌, Some, length, IfOk, OnOk};
ghost use Rattle.om_undo_history.specs.Commands.{Rise};
ghost use Rattle.om_undo_history.specs.Runs.{label_of};
ghost use Rattle.om_undo_history.specs.Pasts.{past_in, IsHeld};
ghost use Rattle.om_undo.specs.Machines.{IsPlan, footprint_in, rules_for};
ghost use Rattle.lab_replay.specs.Said.{AreSaid, IsFaultOf, IsSaid};
ghost use Rattle.lab_replay.specs.Traces.{CanBeMade, CanReplay, HasStep, IsForStep, IsTraced, Remakes, footprint_for, replayed, traced, transitions_of};

use crate::manner::manner_at;
use crate::value::fault_in;
use crate::words::{Spoken, Words};
use lab_graph::Traced;
use om_code::frame::Fault;
use om_seq::AllocResult;
use om_state::Label;
use om_task::laws::low_counters;
use om_task::start::started;
use om_task::{Plan, plan};
use om_undo::laws::{shaped_rules, steady_rules};
use om_undo::{Entry, Machine};
use om_undo_history::History;
use std::alloc::Global;

/// The steps of a machine's history, each with what it touched and did at its place in the replay. What it
/// touched is what the machine keeps. For the words of what they did they are made again, each once. It is
/// said of each how its instruction accesses variables, whether it met a fault, and else the number that it
/// put into a variable, if it put one. The only error is out of memory.
pub fn trace<'m>(alloc: Global, machine: &'m Machine) -> AllocResult<Vec<Traced<'m>>>
    ensures touched { IfOk result (λ steps. traced steps.items ≡ transitions_of machine.now) }
    ensures said { IfOk result
        (λ steps. AreSaid machine.now machine.now.history.entries steps.items) }
{
    let entries = machine.history(alloc)?;
    retraced(alloc, machine, &entries)
}

// The steps of a machine's entries, which can be made in turn. The only error is out of memory.
fn retraced<'m>(
    alloc: Global,
    machine: &'m Machine,
    entries: &[Entry],
) -> AllocResult<Vec<Traced<'m>>>
    requires entries { entries.now ≡ machine.now.history.entries }
    requires numbered { Rise 0 machine.now.history.entries machine.now.history.made }
    requires few { length entries.now < 2 ^ 63 }
    requires replayed { CanReplay (rules_for machine.now) entries.now }
    ensures touched { IfOk result
        (λ steps. traced steps.items ≡ replayed machine.now entries.now) }
    ensures said { IfOk result (λ steps. AreSaid machine.now entries.now steps.items) }
{
    steady_rules();
    shaped_rules();
    let store = started(alloc, machine.program(), machine.workers())?;
    let mut history = History::new(alloc, store);
    let mut steps = Vec::new(alloc);
    for entry in entries {
        match traced(alloc, machine, &mut history, entry) {
            Ok(step) => steps.push(step)?,
            Err(error) => return Err(error),
        }
    }
    Ok(steps)
}

// Makes the step of an entry of a machine again where a history stands. The only error is out of memory.
fn traced<'m>(
    alloc: Global,
    machine: &'m Machine,
    history: &mut History,
    entry: &Entry,
) -> AllocResult<Traced<'m>>
    requires held { IsHeld (rules_for machine.now) history.old }
    requires few_made { (past_in history.old).made < 2 ^ 63 }
    requires made { CanBeMade (rules_for machine.now) history.old (label_of entry.now) }
    requires touched { footprint_in machine.now entry.now.serial
        ≡ Some (footprint_for (rules_for machine.now) history.old (label_of entry.now)) }
    ensures noted { IfOk result (IsTraced machine.now history.old entry.now) }
    ensures said { IfOk result (IsSaid machine.now history.old entry.now) }
    ensures longer { OnOk result (Remakes machine.now history.old history.new entry.now) }
{
    let Some(footprint) = machine.footprint(entry.serial) else {
        unreachable!()
    };
    let label = label_of(entry);
    let plan = planned(alloc, machine, history, &label)?;
    let words = Words::of(alloc, machine.program(), history.store(), &label, &plan)?;
    let manner = manner_at(machine.program(), history.store(), &label);
    match remade(alloc, history, &label, plan) {
        Ok(fault) => {
            let Spoken {
                instruction,
                variable,
                value,
                is_fault,
            } = words.spoken(history.store(), label.worker, fault)?;
            Ok(Traced {
                entry: *entry,
                footprint,
                instruction,
                variable,
                value,
                is_fault,
                manner,
            })
        }
        Err(error) => Err(error),
    }
}

// Which step an entry is of.
fn label_of(entry: &Entry) -> Label
    ensures { result ≡ label_of entry.now }
{
    Label {
        worker: entry.worker,
        choice: entry.choice,
    }
}

// The plan of a label's step of a machine's program where a history stands. The only error is out of
// memory.
fn planned(alloc: Global, machine: &Machine, history: &History, label: &Label) -> AllocResult<Plan>
    requires { IsHeld (rules_for machine.now) history.now }
    ensures { IfOk result (IsPlan (rules_for machine.now) history.now label.now) }
{
    low_counters();
    plan(
        alloc,
        machine.program(),
        history.store(),
        machine.workers(),
        label,
    )
}

// Takes the step of a plan, and answers the fault that it met. When out of memory, nothing is said of the
// history.
fn remade(
    alloc: Global,
    history: &mut History,
    label: &Label,
    plan: Plan,
) -> AllocResult<Option<Fault>>
    requires few_made { (past_in history.old).made < 2 ^ 63 }
    requires planned { IsForStep history.old label.now plan }
    ensures taken { OnOk result (HasStep history.old history.new label.now plan) }
    ensures fault { IfOk result (IsFaultOf history.old label.now plan) }
{
    match plan {
        Plan::Updates(change) => {
            let reply = history.take(alloc, label, change)?;
            Ok(fault_in(&reply))
        }
        Plan::Blocked(_) => unreachable!(),
        Plan::Ended => unreachable!(),
    }
}
