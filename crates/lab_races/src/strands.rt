//! The clocks at the objects that order steps.

ghost use Rattle.std.specs.Prelude.{◌≡◌, IfOk, OnOk};
ghost use Rattle.lab_races.specs.Sweeps.{AreEmpty, AreJoined, AreMet, AreNoted, IsMet, IsNoted, Joins, items_at};

use crate::clocks::{alone, joined};
use crate::made::Made;
use om_foot::{Mode, SharedAccess, SharedObject};
use om_seq::AllocResult;
use std::alloc::Global;
use std::collections::BTreeMap;

/// For each object and mode, the join of the clocks of the steps that touched it so.
#[derive(Drop)]
pub(crate) struct Strands {
    reads: BTreeMap<SharedObject, Vec<u64>>,
    writes: BTreeMap<SharedObject, Vec<u64>>,
    additions: BTreeMap<SharedObject, Vec<u64>>,
}

// The clock at an object.
fn clock_at<'a>(clocks: &'a BTreeMap<SharedObject, Vec<u64>>, object: &SharedObject) -> &'a [u64]
    ensures { result.now ≡ items_at clocks.now.entries object.now }
{
    match clocks.get(object) {
        Some(clock) => clock.as_slice(),
        None => &[],
    }
}

// Joins a clock to the one at an object. When out of memory, nothing is said of the clocks.
fn join_at(
    alloc: Global,
    clocks: &mut BTreeMap<SharedObject, Vec<u64>>,
    object: &SharedObject,
    clock: &[u64],
) -> AllocResult<()>
    ensures { OnOk result (AreJoined clocks.old.entries clocks.new.entries object.now clock.now) }
{
    let more = joined(alloc, clock_at(clocks, object), clock)?;
    let key = object.copy()?;
    drop(clocks.insert(key, more)?);
    Ok(())
}

// A clock, joined with that at an object. Its only error is out of memory.
fn with_clock_at(
    alloc: Global,
    clock: &[u64],
    clocks: &BTreeMap<SharedObject, Vec<u64>>,
    object: &SharedObject,
) -> AllocResult<Vec<u64>>
    ensures { IfOk result (λ c. Joins clock.now (items_at clocks.now.entries object.now) c.items) }
{
    joined(alloc, clock, clock_at(clocks, object))
}

impl Strands {
    /// Nothing was touched. It takes no memory.
    pub(crate) fn new(alloc: Global) -> Strands
        ensures { AreEmpty result }
    {
        Strands {
            reads: BTreeMap::new(alloc),
            writes: BTreeMap::new(alloc),
            additions: BTreeMap::new(alloc),
        }
    }
}

// A clock, joined with those at what an access conflicts with. Its only error is out of memory.
fn met(
    alloc: Global,
    strands: &Strands,
    clock: &[u64],
    access: &SharedAccess,
) -> AllocResult<Vec<u64>>
    ensures { IfOk result (λ c. IsMet strands.now access.now clock.now c.items) }
{
    let object = access.object();
    let clock = with_clock_at(alloc, clock, &strands.writes, object)?;
    match access.mode() {
        Mode::Read => with_clock_at(alloc, &clock, &strands.additions, object),
        Mode::Add => with_clock_at(alloc, &clock, &strands.reads, object),
        Mode::Write => {
            let clock = with_clock_at(alloc, &clock, &strands.reads, object)?;
            with_clock_at(alloc, &clock, &strands.additions, object)
        }
    }
}

/// The clock of a step, by what may order it: its own serial, and the clocks at what it meets there. Its only error is
/// out of memory.
pub(crate) fn clock_of(
    alloc: Global,
    strands: &Strands,
    made: &Made<'_>,
    ordering: &[SharedAccess],
) -> AllocResult<Vec<u64>>
    ensures { IfOk result (λ c. AreMet strands.now ordering.now made.now c.items) }
{
    let mut clock = alone(alloc, made.worker, made.serial)?;
    for access in ordering {
        clock = met(alloc, strands, &clock, access)?;
    }
    Ok(clock)
}

// Notes that a step of this clock touched an object. When out of memory, nothing is said of the clocks.
fn note(
    alloc: Global,
    strands: &mut Strands,
    access: &SharedAccess,
    clock: &[u64],
) -> AllocResult<()>
    ensures { OnOk result (IsNoted strands.old strands.new access.now clock.now) }
{
    let object = access.object();
    match access.mode() {
        Mode::Read => join_at(alloc, &mut strands.reads, object, clock),
        Mode::Write => join_at(alloc, &mut strands.writes, object, clock),
        Mode::Add => join_at(alloc, &mut strands.additions, object, clock),
    }
}

/// Notes that a step of this clock touched these objects. When out of memory, nothing is said of the clocks.
pub(crate) fn note_all(
    alloc: Global,
    strands: &mut Strands,
    ordering: &[SharedAccess],
    clock: &[u64],
) -> AllocResult<()>
    ensures { OnOk result (AreNoted strands.old strands.new ordering.now clock.now) }
{
    for access in ordering {
        note(alloc, strands, access, clock)?;
    }
    Ok(())
}
