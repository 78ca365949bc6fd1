//! What is asked about a step before it is made: what it names, and what comes of it.

ghost use Rattle.std.specs.Prelude.{◌≤◌, ◌^◌, OnOk};
ghost use Rattle.om_memory.specs.Memories.{state_of};
ghost use Rattle.om_memory.specs.Plain.{plain_control};
ghost use Rattle.om_team.specs.Counters.{ControlWithin, StateWithin};
ghost use Rattle.om_undo.specs.Machines.{state_in};

use crate::held::held_at;
use om_code::Program;
use om_code::frame::Fault;
use om_foot::Access;
use om_memory::{Control, Memory};
use om_seq::{AllocResult, Seq};
use om_state::{Blocked, Label};
use om_task::laws::low_counters;
use om_team_serial::Row;
use om_undo::Machine;
use std::alloc::{AllocError, Global};

// How many steps of a session stand at most.
const MOST_ENTRIES: usize = 1_000_000;

/// What a step names, by `names` of om_task and of om_team.
#[derive(Drop)]
pub(crate) struct Named {
    pub(crate) all: Seq<Access>,
    /// `None` where om_team says that the row is one of tasks.
    pub(crate) of_team: Option<Seq<Access>>,
}

/// What comes of a step, of which the edits and updates are left out.
#[derive(Clone, Copy)]
pub(crate) enum Said {
    Goes,
    Faults(Fault),
    Blocked(Blocked),
    Lacks,
}

/// What comes of a step, by `effect` of om_task and of om_team.
#[derive(Clone, Copy)]
pub(crate) struct SaidOf {
    pub(crate) all: Said,
    /// `None` where om_team says that the row is one of tasks.
    pub(crate) of_team: Option<Said>,
}

/// What is asked about a step.
#[derive(Drop)]
pub(crate) struct Asked {
    pub(crate) named: Named,
    pub(crate) said: SaidOf,
}

// What a worker's choice names that has this control.
fn named_by(
    alloc: Global,
    program: &Program,
    workers: u8,
    control: &Control,
    label: &Label,
) -> AllocResult<Named>
    requires counters { ControlWithin (2 ^ 63) (plain_control control.now) }
    requires some { 1 ≤ workers }
{
    let all = om_task::names(alloc, program, workers, control, label)?;
    let of_team = om_team::names(alloc, program, workers, control, label)?;
    Ok(Named { all, of_team })
}

// What a label's step names at a machine.
fn named_at(alloc: Global, machine: &Machine, label: &Label) -> AllocResult<Named>
    requires { StateWithin (2 ^ 63) (state_in machine.now) }
{
    let (program, workers) = (machine.program(), machine.workers());
    match machine.control(label.worker) {
        Some(control) => named_by(alloc, program, workers, control, label),
        None => named_by(alloc, program, workers, &Control::Idle, label),
    }
}

// What a row says.
fn said_by(row: &Row) -> Said {
    match row {
        Row::Goes { .. } => Said::Goes,
        Row::Faults(fault) => Said::Faults(*fault),
        Row::Blocked(why) => Said::Blocked(*why),
        Row::Lacks => Said::Lacks,
    }
}

// What comes of a label's step at a memory.
fn said_at(
    alloc: Global,
    program: &Program,
    workers: u8,
    memory: &Memory,
    label: &Label,
) -> AllocResult<SaidOf>
    requires counters { StateWithin (2 ^ 63) (state_of memory.now) }
    requires some { 1 ≤ workers }
{
    let all = om_task::effect(alloc, program, memory, workers, label)?;
    let of_team = om_team::effect(alloc, program, memory, workers, label)?;
    Ok(SaidOf {
        all: said_by(&all),
        of_team: match &of_team {
            Some(row) => Some(said_by(row)),
            None => None,
        },
    })
}

// No counter is above 2^63 at a machine, since few of its steps stand. The errors are out of memory,
// and more steps than stand in a session.
fn has_low_counters(alloc: Global, machine: &Machine) -> AllocResult<()>
    ensures { OnOk result (StateWithin (2 ^ 63) (state_in machine.now)) }
{
    low_counters();
    let entries = machine.history(alloc)?;
    if entries.len() > MOST_ENTRIES {
        return Err(AllocError);
    }
    Ok(())
}

/// What a label's step names at a machine, and what comes of it. `effect` is given what the machine
/// holds at the objects that the step names, and nothing else. The errors are out of memory, and
/// more steps than stand in a session.
pub(crate) fn asked_at(alloc: Global, machine: &Machine, label: &Label) -> AllocResult<Asked> {
    has_low_counters(alloc, machine)?;
    let named = named_at(alloc, machine, label)?;
    let memory = held_at(alloc, machine, named.all.as_slice())?;
    let said = said_at(alloc, machine.program(), machine.workers(), &memory, label)?;
    Ok(Asked { named, said })
}
