//! The arrows of a history: to each step from the last earlier step of each other worker that conflicts
//! with it.

ghost use Rattle.std.specs.Prelude.{◌≡◌, ◌<◌, ◌-◌, length, take, get_or, IfOk, OnOk};
ghost use Rattle.lab_graph.specs.Ranks.{AreByWorker, StandIn, StandsIn, AddsFrom, AddsInto};
ghost use Rattle.lab_graph.specs.Pictures.{first_named, arrow_at, arrows_of, AddsIf};

use crate::lanes::{is_of, last_meeting, touches_by_worker};
use crate::picture::{Arrow, end_of};
use crate::traced::Traced;
use om_foot::Obj;
use om_seq::{AllocResult, Seq};
use om_undo_touches::{TouchLists, conflict};
use std::alloc::Global;

// A step, with the steps before it and its rank: one more than there are steps after it.
#[derive(Clone, Copy)]
struct Spot<'a, 'm> {
    before: &'a [Traced<'m>],
    later: &'a Traced<'m>,
    rank: u64,
}

// The step at an index, with what stands before it.
fn spot_at<'a, 'm>(steps: &'a [Traced<'m>], at: usize) -> Spot<'a, 'm>
    requires { at < length steps.now }
    ensures before { result.before.now ≡ take at steps.now }
    ensures later { result.later.now ≡ get_or steps.now at result.later.now }
    ensures rank { result.rank ≡ length steps.now - at }
{
    Spot {
        before: &steps[..at],
        later: &steps[at],
        rank: (steps.len() - at) as u64,
    }
}

// The first of two names that has bytes.
fn first_named<'a>(earlier: &'a [u8], later: &'a [u8]) -> &'a [u8]
    ensures { result.now ≡ first_named earlier.now later.now }
{
    match earlier {
        [] => later,
        [_, ..] => earlier,
    }
}

// The arrow from a step to a later one at an object. Its only error is out of memory.
fn arrow_at(
    alloc: Global,
    earlier: &Traced<'_>,
    later: &Traced<'_>,
    object: Obj,
) -> AllocResult<Arrow>
    ensures { IfOk result (λ arrow. arrow ≡ arrow_at earlier.now later.now object) }
{
    let variable = first_named(earlier.variable.as_slice(), later.variable.as_slice());
    let variable = Vec::from_slice(alloc, variable)?;
    Ok(Arrow {
        from: end_of(earlier),
        to: end_of(later),
        object,
        variable: Seq::of(variable),
    })
}

// Adds the arrow from a step to a later one, where the two conflict. When out of memory, nothing changes.
fn push_arrow(
    alloc: Global,
    arrows: &mut Vec<Arrow>,
    earlier: &Traced<'_>,
    later: &Traced<'_>,
) -> AllocResult<()>
    ensures { OnOk result (AddsIf arrows.old arrows.new earlier.now later.now) }
{
    let Some(object) = conflict(earlier.footprint, later.footprint) else {
        return Ok(());
    };
    arrows.push(arrow_at(alloc, earlier, later, object)?)?;
    Ok(())
}

// Adds the arrow into a step from the steps of a worker, by their touches, if there is one.
fn push_arrow_from(
    alloc: Global,
    arrows: &mut Vec<Arrow>,
    worker: usize,
    touches: &TouchLists,
    spot: &Spot<'_, '_>,
) -> AllocResult<()>
    requires { StandsIn worker touches.now spot.now }
    ensures { OnOk result (AddsFrom arrows.old arrows.new worker spot.now) }
{
    if is_of(spot.later, worker) {
        return Ok(());
    }
    match last_meeting(touches, spot.before, spot.later, spot.rank) {
        Some(earlier) => push_arrow(alloc, arrows, earlier, spot.later),
        None => Ok(()),
    }
}

// Adds the arrows into a step, by the touches of each worker's steps.
fn push_arrows_into(
    alloc: Global,
    arrows: &mut Vec<Arrow>,
    lanes: &[TouchLists],
    spot: &Spot<'_, '_>,
) -> AllocResult<()>
    requires { StandIn lanes.now spot.now }
    ensures { OnOk result (AddsInto arrows.old arrows.new lanes.now spot.now) }
{
    for (worker, touches) in lanes.iter().enumerate() {
        push_arrow_from(alloc, arrows, worker, touches, spot)?;
    }
    Ok(())
}

// The arrows between steps, by the touches of each worker's steps.
fn arrows_between(
    alloc: Global,
    steps: &[Traced<'_>],
    lanes: &[TouchLists],
) -> AllocResult<Vec<Arrow>>
    requires { AreByWorker steps.now lanes.now }
    ensures { IfOk result (λ arrows. arrows.items ≡ arrows_of steps.now) }
{
    let mut arrows = Vec::new(alloc);
    for at in 0..steps.len() {
        let spot = spot_at(steps, at);
        push_arrows_into(alloc, &mut arrows, lanes, &spot)?;
    }
    Ok(arrows)
}

/// The arrows of a history, in the order of the later steps. Its only error is out of memory.
pub(crate) fn arrows_of(alloc: Global, steps: &[Traced<'_>]) -> AllocResult<Vec<Arrow>>
    ensures { IfOk result (λ arrows. arrows.items ≡ arrows_of steps.now) }
{
    let lanes = touches_by_worker(alloc, steps)?;
    arrows_between(alloc, steps, &lanes)
}
