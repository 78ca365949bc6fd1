//! Who made a step, and which critical regions it was in.

use lab_explore_closed::{AccessKind, Place, Racer};
use lab_graph::Traced;
use lab_races::{Manner, Side};
use om_foot::{Mode, Obj};
use om_seq::{AllocResult, Seq};
use std::alloc::Global;

/// Where a side of a race stands, and how it accesses the variable.
pub(crate) fn place_of(side: &Side) -> Place {
    Place {
        line: side.line,
        kind: kind_of(side.manner, side.mode),
    }
}

fn kind_of(manner: Manner, mode: Mode) -> AccessKind {
    match (mode, manner) {
        (Mode::Read | Mode::Add, _) => AccessKind::Reads,
        (Mode::Write, Manner::Ending) => AccessKind::Ends,
        (Mode::Write, _) => AccessKind::Writes,
    }
}

/// Whether a place stands behind another one in a pair: its line is greater, or of one line its kind is.
pub(crate) fn is_behind(place: &Place, other: &Place) -> bool {
    other.line < place.line
        || (place.line == other.line && other.kind.number() < place.kind.number())
}

/// Who made a side's step, and the critical regions that it was in, by the steps of its history. The only error is out of
/// memory.
pub(crate) fn racer_of(alloc: Global, steps: &[Traced<'_>], side: &Side) -> AllocResult<Racer> {
    let mut locks = Vec::new(alloc);
    for step in steps {
        if step.entry.serial >= side.serial {
            break;
        }
        if step.entry.worker == side.worker {
            follow(&mut locks, step)?;
        }
    }
    Ok(Racer {
        worker: side.worker,
        locks: Seq::of(locks),
    })
}

// Keeps which critical regions a worker is in, behind one of its steps.
fn follow(locks: &mut Vec<u32>, step: &Traced<'_>) -> AllocResult<()> {
    let Some(lock) = lock_of(step) else {
        return Ok(());
    };
    match step.instruction.as_slice() {
        b"CRIN" => {
            locks.push(lock)?;
        }
        b"CROUT" => locks.retain(move |held| *held != lock),
        _ => {}
    }
    Ok(())
}

// The lock that a step touches, if it touches one.
fn lock_of(step: &Traced<'_>) -> Option<u32> {
    let (first, _, _) = step.footprint.parts();
    for access in first {
        if let Obj::Lock(lock) = access.object().get() {
            return Some(*lock);
        }
    }
    None
}

/// The name of the local variable that a race is at, where one of its steps names it; else no bytes.
pub(crate) fn name_in<'a>(steps: &'a [Traced<'_>], earlier: &Side, later: &Side) -> &'a [u8] {
    match name_at(steps, earlier.serial) {
        [] => name_at(steps, later.serial),
        name => name,
    }
}

fn name_at<'a>(steps: &'a [Traced<'_>], serial: u64) -> &'a [u8] {
    let at = steps.partition_point(|step| step.entry.serial < serial);
    match steps.get(at) {
        Some(step) => step.variable.as_slice(),
        None => &[],
    }
}
