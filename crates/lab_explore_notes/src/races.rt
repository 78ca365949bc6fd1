//! Races, each pair of accesses once.

ghost use Rattle.std.specs.Prelude.{◌≡◌, false, true, map, OnOk, IfOk, Contains, All};
ghost use Rattle.om_undo.specs.Machines.{state_in};
ghost use Rattle.lab_explore_closed.specs.Explored.{pair_of_found};
ghost use Rattle.lab_explore_closed.specs.Races.{IsRace, are_atomic_together, place_at, pair_at, is_behind, racer_at};
ghost use Rattle.lab_explore_moves.specs.Possible.{IsPossible};
ghost use Rattle.lab_explore_notes.specs.Same.{same_pair, is_among};
ghost use Rattle.lab_explore_notes.specs.Notes.{AreRaces, Adds, AreAllNoted, AreNotedOf, AreConflictsNoted, AreMeetingsNoted, IsOnWay, IsRaceNoted, are_racing, can_race, meet};

use crate::kinds::{are_atomic_together, is_behind, is_data, kind_of};
use crate::same::is_same_pair;
use crate::way::path;
use lab_explore_closed::{FoundRace, Pair, Place, Racer};
use lab_explore_moves::{PossibleStep, held};
use om_foot::{Access, is_in_conflict};
use om_seq::{AllocResult, Seq};
use om_undo::Machine;
use std::alloc::Global;

/// Notes each race of two of these steps, which can be made at a machine, where it was not noted before. When out of
/// memory, some of them may be missing.
pub(crate) fn note_races(
    alloc: Global,
    machine: &Machine,
    steps: &[PossibleStep],
    races: &mut Seq<FoundRace>,
) -> AllocResult<()>
    requires way { IsOnWay machine.now }
    requires possible { All (IsPossible machine.now) steps.now }
    requires right { AreRaces machine.now.program machine.now.workers races.old }
    ensures adds { Adds machine.now races.old races.new }
    ensures noted { OnOk result (AreAllNoted machine.now races.new steps.now steps.now) }
{
    for step in steps {
        note_races_of(alloc, machine, step, steps, races)?;
    }
    Ok(())
}

// Notes each race of a step with one of these.
fn note_races_of(
    alloc: Global,
    machine: &Machine,
    step: &PossibleStep,
    others: &[PossibleStep],
    races: &mut Seq<FoundRace>,
) -> AllocResult<()>
    requires way { IsOnWay machine.now }
    requires step { IsPossible machine.now step.now }
    requires others { All (IsPossible machine.now) others.now }
    requires right { AreRaces machine.now.program machine.now.workers races.old }
    ensures adds { Adds machine.now races.old races.new }
    ensures noted { OnOk result (AreNotedOf machine.now races.new step.now others.now) }
{
    for other in others {
        note_pair(alloc, machine, step, other, races)?;
    }
    Ok(())
}

// Notes each race of two steps.
fn note_pair(
    alloc: Global,
    machine: &Machine,
    step: &PossibleStep,
    other: &PossibleStep,
    races: &mut Seq<FoundRace>,
) -> AllocResult<()>
    requires way { IsOnWay machine.now }
    requires step { IsPossible machine.now step.now }
    requires other { IsPossible machine.now other.now }
    requires right { AreRaces machine.now.program machine.now.workers races.old }
    ensures adds { Adds machine.now races.old races.new }
    ensures noted { OnOk result (AreMeetingsNoted machine.now races.new step.now.label
        other.now.label step.now.accesses other.now.accesses) }
{
    if !can_race(step, other) {
        return Ok(());
    }
    note_meetings(alloc, machine, step, other, races)?;
    Ok(())
}

// Whether two steps are of different workers.
fn can_race(step: &PossibleStep, other: &PossibleStep) -> bool
    ensures { result ≡ can_race step.now other.now }
{
    step.label.worker != other.label.worker
}

// A step that a worker can make, and an access of it.
#[derive(Clone, Copy)]
struct Stand<'a> {
    step: &'a PossibleStep,
    access: &'a Access,
}

// Notes each race of two steps of different workers.
fn note_meetings(
    alloc: Global,
    machine: &Machine,
    step: &PossibleStep,
    other: &PossibleStep,
    races: &mut Seq<FoundRace>,
) -> AllocResult<()>
    requires way { IsOnWay machine.now }
    requires step { IsPossible machine.now step.now }
    requires other { IsPossible machine.now other.now }
    requires can { can_race step.now other.now ≡ true }
    requires right { AreRaces machine.now.program machine.now.workers races.old }
    ensures adds { Adds machine.now races.old races.new }
    ensures noted { OnOk result (AreMeetingsNoted machine.now races.new step.now.label
        other.now.label step.now.accesses other.now.accesses) }
{
    for access in step.accesses.as_slice() {
        note_conflicts(alloc, machine, Stand { step, access }, other, races)?;
    }
    Ok(())
}

// Notes each race at an access with another step.
fn note_conflicts(
    alloc: Global,
    machine: &Machine,
    first: Stand<'_>,
    other: &PossibleStep,
    races: &mut Seq<FoundRace>,
) -> AllocResult<()>
    requires way { IsOnWay machine.now }
    requires step { IsPossible machine.now first.step.now }
    requires access { Contains first.step.now.accesses first.access.now }
    requires other { IsPossible machine.now other.now }
    requires can { can_race first.step.now other.now ≡ true }
    requires right { AreRaces machine.now.program machine.now.workers races.old }
    ensures adds { Adds machine.now races.old races.new }
    ensures noted { OnOk result (AreConflictsNoted machine.now races.new first.entry.step.now.label
        other.now.label first.entry.access.now other.now.accesses) }
{
    for access in other.accesses.as_slice() {
        let second = Stand {
            step: other,
            access,
        };
        note_conflict(alloc, machine, first, second, races)?;
    }
    Ok(())
}

// Notes a race, if two accesses are one.
fn note_conflict(
    alloc: Global,
    machine: &Machine,
    first: Stand<'_>,
    second: Stand<'_>,
    races: &mut Seq<FoundRace>,
) -> AllocResult<()>
    requires way { IsOnWay machine.now }
    requires step { IsPossible machine.now first.step.now }
    requires access { Contains first.step.now.accesses first.access.now }
    requires other { IsPossible machine.now second.step.now }
    requires other_access { Contains second.step.now.accesses second.access.now }
    requires can { can_race first.step.now second.step.now ≡ true }
    requires right { AreRaces machine.now.program machine.now.workers races.old }
    ensures adds { Adds machine.now races.old races.new }
    ensures noted { OnOk result (IsRaceNoted machine.now races.new first.entry.step.now.label
        second.entry.step.now.label first.entry.access.now second.entry.access.now) }
{
    if !are_racing(first, second) {
        return Ok(());
    }
    note_race(alloc, machine, first, second, races)?;
    Ok(())
}

// Whether accesses of two steps are of one variable, one of them writes it, and they are not atomic together.
fn are_racing(first: Stand<'_>, second: Stand<'_>) -> bool
    ensures { result ≡ are_racing first.entry.step.now first.entry.access.now
        second.entry.step.now second.entry.access.now }
{
    meet(first.access, second.access) && !are_atomic(first, second)
}

// Whether accesses of two steps are atomic together.
fn are_atomic(first: Stand<'_>, second: Stand<'_>) -> bool
    ensures { result ≡ are_atomic_together
        first.entry.step.now.atomicity first.entry.access.now.mode
        second.entry.step.now.atomicity second.entry.access.now.mode }
{
    are_atomic_together(
        first.step.atomicity,
        first.access.mode,
        second.step.atomicity,
        second.access.mode,
    )
}

// Whether two accesses are of one variable, and one of them writes it.
fn meet(first: &Access, second: &Access) -> bool
    ensures { result ≡ meet first.now second.now }
{
    is_data(&first.object) && is_in_conflict(first, second)
}

// Notes a race, unless its first access is behind the second: then it is noted the other way round.
fn note_race(
    alloc: Global,
    machine: &Machine,
    first: Stand<'_>,
    second: Stand<'_>,
    races: &mut Seq<FoundRace>,
) -> AllocResult<()>
    requires way { IsOnWay machine.now }
    requires step { IsPossible machine.now first.step.now }
    requires other { IsPossible machine.now second.step.now }
    requires race { IsRace machine.now.program machine.now.workers (state_in machine.now)
        first.step.now.label second.step.now.label first.access.now second.access.now }
    requires right { AreRaces machine.now.program machine.now.workers races.old }
    ensures adds { Adds machine.now races.old races.new }
    ensures noted { OnOk result (IsRaceNoted machine.now races.new first.entry.step.now.label
        second.entry.step.now.label first.entry.access.now second.entry.access.now) }
{
    let pair = Pair {
        first: place_of(first),
        second: place_of(second),
        object: first.access.object,
    };
    if is_behind(&pair.first, &pair.second) {
        return Ok(());
    }
    if is_listed(races.as_slice(), &pair) {
        return Ok(());
    }
    let path = path(alloc, machine)?;
    let first = racer(alloc, machine, first.step)?;
    let second = racer(alloc, machine, second.step)?;
    races.push(FoundRace {
        path,
        pair,
        first,
        second,
    })?;
    Ok(())
}

// The line before which a worker stands, and the kind of an access there.
fn place_of(stand: Stand<'_>) -> Place
    ensures { (m : _) → IsPossible m stand.entry.step.now
        → result ≡ place_at m.program (state_in m) stand.entry.step.now.label stand.entry.access.now }
{
    Place {
        line: stand.step.line,
        kind: kind_of(stand.step.instruction, stand.access.mode),
    }
}

// Who stands before a step, and what it holds.
fn racer(alloc: Global, machine: &Machine, step: &PossibleStep) -> AllocResult<Racer>
    ensures { IfOk result
        (λ racer. racer ≡ racer_at machine.now.program (state_in machine.now) step.now.label) }
{
    let worker = step.label.worker;
    let locks = held(alloc, machine, worker)?;
    Ok(Racer { worker, locks })
}

// Whether a pair is among these.
fn is_listed(races: &[FoundRace], pair: &Pair) -> bool
    ensures { result ≡ is_among same_pair (map pair_of_found races.now) pair.now }
{
    for found in races {
        if is_same_pair(&found.pair, pair) {
            return true;
        }
    }
    false
}
