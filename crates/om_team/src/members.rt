//! The members of a team: the workers that they need, and what they begin with.

ghost use Rattle.std.specs.Prelude.{◌≡◌, ◌++◌, ◌∷◌, [], ◌-◌, ◌<◌, ◌≤◌, OnOk, length};
ghost use Rattle.om_memory.specs.Memories.{state_of};
ghost use Rattle.om_state.specs.declared.value.Val.TheVariants as value;
ghost use Rattle.om_team_serial.specs.Answers.{Gives};
ghost use Rattle.om_team.specs.Teams.{member, workers_from, busy_in, member_controls, member_cells, member_puts};

use om_foot::{Mode, Name, Names, Obj};
use om_memory::Memory;
use om_seq::AllocResult;
use om_state::{
    Context, Control, Frame, Kind, Puts, SharedControl, SharedPile, Stack, Team, Update, Val,
};
use om_team_serial::begin::{in_no_group, new_context};
use om_team_serial::names::{name, name_given};
use om_team_serial::updates::put_ints;
use std::alloc::Global;

// The name of the task of a team's member.
fn member_name(team: &Name, number: u8) -> Name
    requires { length team.now ≤ 63 }
    ensures { result ≡ team.now ++ number ∷ [] }
{
    match team.child(u64::from(number)) {
        Some(name) => name,
        None => unreachable!(),
    }
}

/// Appends the controls of the workers that a team of this size needs, as what is written.
pub(crate) fn name_workers(names: &mut Names, size: u8) -> AllocResult<()>
    ensures { OnOk result (names.new ≡ names.old ++ workers_from 1 (size - 1)) }
{
    for worker in 1..size {
        name(names, Obj::Control(worker), Mode::Write)?;
    }
    Ok(())
}

/// The first of the workers that a team of this size needs that isn't idle.
pub(crate) fn busy(store: &Memory, size: u8) -> Option<u8>
    ensures { result ≡ busy_in (state_of store.now) 1 (size - 1) }
{
    for worker in 1..size {
        if !store.is_idle(worker) {
            return Some(worker);
        }
    }
    None
}

/// Appends the cells of the firstprivate copies of a team's members, as what is written.
pub(crate) fn name_members(
    names: &mut Names,
    team: &Name,
    given: &[u32],
    size: u8,
) -> AllocResult<()>
    requires { length team.now ≤ 63 }
    ensures { OnOk result (names.new ≡ names.old ++ member_cells team.now given.now 0 size) }
{
    for number in 0..size {
        let task = &member_name(team, number);
        name_given(names, task, 0, given)?;
    }
    Ok(())
}

/// A member of a team, at the start of a frame.
pub(crate) fn member(alloc: Global, team: &Team, frame: &Frame) -> AllocResult<Context>
    requires named { length team.now.name ≤ 63 }
    requires member { team.now.number < team.now.size }
    ensures { Gives result (member team.now frame.now) }
{
    let frame = frame.copy(alloc)?;
    let standing = in_no_group(alloc, &member_name(team.name.get(), team.number), team)?;
    new_context(alloc, Kind::Implicit, 0, standing, frame)
}

// Appends the control that another worker becomes: a member of a team.
fn put_member(alloc: Global, updates: &mut Puts, team: &Team, frame: &Frame) -> AllocResult<()>
    requires named { length team.now.name ≤ 63 }
    requires member { team.now.number < team.now.size }
    ensures { OnOk result
        (updates.new ≡ updates.old ++ Update.Put
        (value.Control (Control.Running (record { top = member team.now frame.now; below = [] })))
        ∷ []) }
{
    let top = member(alloc, team, frame)?;
    match SharedPile::new(alloc) {
        Ok(below) => {
            let control = Control::Running(Stack { top, below });
            updates.push(Update::Put(Val::Control(SharedControl::of(alloc, control)?)))
        }
        Err(error) => {
            drop(top);
            Err(error)
        }
    }
}

/// Appends the controls that the other workers of a team become.
pub(crate) fn put_members(
    alloc: Global,
    updates: &mut Puts,
    team: &Team,
    frame: &Frame,
) -> AllocResult<()>
    requires { length team.now.name ≤ 63 }
    ensures { OnOk result
        (updates.new ≡ updates.old ++ member_controls team.now frame.now 1 (team.now.size - 1)) }
{
    for number in 1..team.size {
        let place = &Team {
            name: team.name.copy()?,
            number,
            size: team.size,
            level: team.level,
        };
        put_member(alloc, updates, place, frame)?;
    }
    Ok(())
}

/// Appends what is put into the firstprivate copies of a team's members.
pub(crate) fn put_given(updates: &mut Puts, values: &[i32], size: u8) -> AllocResult<()>
    ensures { OnOk result (updates.new ≡ updates.old ++ member_puts values.now size) }
{
    for _number in 0..size {
        put_ints(updates, values)?;
    }
    Ok(())
}
