//! The races of a history: its steps are gone over once.

ghost use Rattle.std.specs.Prelude.{◌≡◌, IfOk, OnOk};
ghost use Rattle.lab_races.specs.Orders.{accesses_of, ordering_of};
ghost use Rattle.lab_races.specs.Races.{AreRaces, RiseFrom, data_of};
ghost use Rattle.lab_races.specs.Sweeps.{Advances, AreMet, AreNoted, ArePut, do_race, items_at, race_at, with_all, with_race, with_races};

use crate::accesses::{data_of, listed, ordering_of};
use crate::alike::{are_atomic_together, is_conflict, is_told};
use crate::clocks::serial_in;
use crate::made::{Made, Race, Side};
use crate::notes::{notes_at, put_all, side_of};
use crate::strands::{Strands, clock_of, note_all};
use om_foot::{SharedAccess, SharedObject};
use om_seq::AllocResult;
use std::alloc::Global;
use std::collections::BTreeMap;

/// What is known behind the steps so far.
#[derive(Drop)]
pub(crate) struct Sweep {
    strands: Strands,
    // For each variable the last of those accesses of it that read the same and that one worker made.
    notes: BTreeMap<SharedObject, Vec<Side>>,
    races: Vec<Race>,
}

/// The races of a history, whose steps stand in the order of their serials. Of those that read the same one is told. The
/// only error is out of memory.
///
/// The time is that of the steps, times the accesses of one variable that read differently.
pub fn races(alloc: Global, history: &[Made<'_>]) -> AllocResult<Vec<Race>>
    requires { RiseFrom 0 history.now }
    ensures { IfOk result (λ races. AreRaces history.now races.items) }
{
    let mut sweep = Sweep {
        strands: Strands::new(alloc),
        notes: BTreeMap::new(alloc),
        races: Vec::new(alloc),
    };
    for made in history {
        advance(alloc, &mut sweep, made)?;
    }
    let Sweep {
        strands: _,
        notes: _,
        races,
    } = sweep;
    Ok(races)
}

// Goes on by a step. When out of memory, nothing is said of what is known.
fn advance(alloc: Global, sweep: &mut Sweep, made: &Made<'_>) -> AllocResult<()>
    ensures { OnOk result (Advances made.now sweep.old sweep.new) }
{
    let all = listed(alloc, made)?;
    let clock = order(alloc, &mut sweep.strands, made, &all)?;
    visit(alloc, sweep, made, &clock, &all)
}

// The clock of a step with these accesses, which is noted at what orders it. When out of memory, nothing is said of what
// is noted.
fn order(
    alloc: Global,
    strands: &mut Strands,
    made: &Made<'_>,
    all: &[SharedAccess],
) -> AllocResult<Vec<u64>>
    requires { all.now ≡ accesses_of made.now }
    ensures met { IfOk result
        (λ clock. AreMet strands.old (ordering_of made.now) made.now clock.items) }
    ensures noted { IfOk result
        (λ clock. AreNoted strands.old strands.new (ordering_of made.now) clock.items) }
{
    let ordering = ordering_of(alloc, made.manner, all)?;
    let clock = clock_of(alloc, strands, made, &ordering)?;
    note_all(alloc, strands, &ordering, &clock)?;
    Ok(clock)
}

// Finds the races of a step of this clock with those before it, and notes what it accesses of variables. When out of
// memory, nothing is said of either.
fn visit(
    alloc: Global,
    sweep: &mut Sweep,
    made: &Made<'_>,
    clock: &[u64],
    all: &[SharedAccess],
) -> AllocResult<()>
    requires { all.now ≡ accesses_of made.now }
    ensures put { OnOk result
        (ArePut sweep.old.notes.entries sweep.new.notes.entries made.now (data_of made.now)) }
    ensures raced { OnOk result (sweep.new.races.items ≡ with_all (data_of made.now)
        sweep.old.notes.entries made.now clock.now sweep.old.races.items) }
    ensures strands { sweep.new.strands ≡ sweep.old.strands }
{
    let variables = data_of(alloc, all)?;
    push_races(&mut sweep.races, &sweep.notes, made, clock, &variables)?;
    put_all(alloc, &mut sweep.notes, made, &variables)
}

// Adds the races of a step's accesses of variables with those that are noted. When out of memory, nothing is said of
// the races.
fn push_races(
    races: &mut Vec<Race>,
    notes: &BTreeMap<SharedObject, Vec<Side>>,
    made: &Made<'_>,
    clock: &[u64],
    variables: &[SharedAccess],
) -> AllocResult<()>
    ensures { OnOk result (races.new.items
        ≡ with_all variables.now notes.now.entries made.now clock.now races.old.items) }
{
    for access in variables {
        let object = access.object();
        push_races_with(
            races,
            object,
            notes_at(notes, object),
            &side_of(made, access),
            clock,
        )?;
    }
    Ok(())
}

// Adds the races of an access of a variable with these of it. When out of memory, nothing is said of the races.
fn push_races_with(
    races: &mut Vec<Race>,
    object: &SharedObject,
    sides: &[Side],
    later: &Side,
    clock: &[u64],
) -> AllocResult<()>
    ensures { OnOk result
        (races.new.items ≡ with_races sides.now object.now later.now clock.now races.old.items) }
{
    for earlier in sides {
        if do_race(earlier, later, clock) {
            push_race(races, object, earlier, later)?;
        }
    }
    Ok(())
}

// Whether two accesses of one variable race, by the clock of the later one.
fn do_race(earlier: &Side, later: &Side, clock: &[u64]) -> bool
    ensures { result ≡ do_race earlier.now later.now clock.now }
{
    earlier.worker != later.worker
        && (is_conflict(earlier.mode, later.mode)
            && (!are_atomic_together(earlier, later)
                && serial_in(clock, usize::from(earlier.worker)) < earlier.serial))
}

// Adds a race, unless one is told that reads the same. When out of memory, nothing is said of the races.
fn push_race(
    races: &mut Vec<Race>,
    object: &SharedObject,
    earlier: &Side,
    later: &Side,
) -> AllocResult<()>
    ensures { OnOk result
        (races.new.items ≡ with_race races.old.items (race_at object.now earlier.now later.now)) }
{
    let race = Race {
        object: object.copy()?,
        earlier: *earlier,
        later: *later,
    };
    if is_told(races, &race) {
        return Ok(());
    }
    races.push(race)?;
    Ok(())
}
