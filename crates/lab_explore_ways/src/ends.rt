//! Ends by short ways.

ghost use Rattle.std.specs.Prelude.{◌≡◌, All, IfOk, IfSome};
ghost use Rattle.lab_explore_closed.specs.Explored.{IsPossibleEnd, ending_of_found};
ghost use Rattle.lab_explore_ways.specs.Ways.{AreStill, IsOfSame, IsStill};

use crate::noted::noted;
use crate::retracer::Retracer;
use crate::sought::SoughtEnd;
use lab_explore_closed::{Ending, FoundEnd};
use lab_explore_notes::is_same_ending;
use lab_play::Shortener;
use om_seq::{AllocResult, Seq};
use std::alloc::Global;

/// An end, and how many steps of its path are told.
#[derive(Drop)]
pub(crate) struct ToldEnd {
    pub(crate) end: FoundEnd,
    pub(crate) told: u64,
}

/// Ends, and of each how many steps of its path are told. `run` makes the others.
#[derive(Drop)]
pub(crate) struct ToldEnds {
    pub(crate) ends: Seq<FoundEnd>,
    pub(crate) told: Seq<u64>,
}

/// These ends in their order, each with a short way where one is found. Its only error is out of memory.
pub(crate) fn shortened_ends(
    alloc: Global,
    shortener: &mut Shortener,
    retracer: &mut Retracer,
    ends: Seq<FoundEnd>,
) -> AllocResult<ToldEnds>
    ensures same { IsOfSame retracer.old.machine retracer.new.machine }
    ensures still { IfOk result (λ short. AreStill ending_of_found
        (IsPossibleEnd retracer.old.machine.program retracer.old.machine.workers) ends short.ends) }
{
    let mut rest = ends.into_vec();
    let mut short = Seq::new(alloc);
    let mut told = Seq::new(alloc);
    while let Some(end) = rest.pop() {
        let next = shortened_end(alloc, shortener, retracer, end);
        short.push_front(next.end)?;
        told.push_front(next.told)?;
    }
    Ok(ToldEnds { ends: short, told })
}

// An end with a short way, where one is found and there is memory; else as it is.
fn shortened_end(
    alloc: Global,
    shortener: &mut Shortener,
    retracer: &mut Retracer,
    end: FoundEnd,
) -> ToldEnd
    ensures same { IsOfSame retracer.old.machine retracer.new.machine }
    ensures still { IsStill ending_of_found
        (IsPossibleEnd retracer.old.machine.program retracer.old.machine.workers) end result.end }
{
    match short_end(alloc, shortener, retracer, &end) {
        Ok(Some(short)) => short,
        Ok(None) | Err(_) => {
            let told = end.path.len() as u64;
            ToldEnd { end, told }
        }
    }
}

// The same end by a short way, if one is found.
fn short_end(
    alloc: Global,
    shortener: &mut Shortener,
    retracer: &mut Retracer,
    end: &FoundEnd,
) -> AllocResult<Option<ToldEnd>>
    ensures same { IsOfSame retracer.old.machine retracer.new.machine }
    ensures still { IfOk result (λ found. IfSome found (λ short. IsStill ending_of_found
        (IsPossibleEnd retracer.old.machine.program retracer.old.machine.workers)
        end.now short.end)) }
{
    let sought = SoughtEnd {
        ending: &end.ending,
    };
    let Some(brief) = shortener.shorten(alloc, &sought, end.path.as_slice())? else {
        return Ok(None);
    };
    retracer.follow(alloc, &brief.steps)?;
    let notes = noted(alloc, retracer.machine())?;
    let Some(short) = with_ending(notes.ends, &end.ending) else {
        return Ok(None);
    };
    let told = told_of(&short.ending, brief.own, short.path.len() as u64);
    Ok(Some(ToldEnd { end: short, told }))
}

// How many steps are told: the schedule's own, or all where workers go on after a fault, as `run` does not.
fn told_of(ending: &Ending, own: u64, all: u64) -> u64 {
    match ending {
        Ending::Faults(_, _) => all,
        Ending::Ends(_, _) | Ending::Sticks(_, _) => own.min(all),
    }
}

// The last of these ends, if its ending is this one.
fn with_ending(ends: Seq<FoundEnd>, ending: &Ending) -> Option<FoundEnd>
    ensures { (program : _) (workers : _) → All (IsPossibleEnd program workers) ends
        → IfSome result (λ end. (end.ending ≡ ending.now) × IsPossibleEnd program workers end) }
{
    let end = ends.into_vec().pop()?;
    if is_same_ending(&end.ending, ending) {
        Some(end)
    } else {
        None
    }
}
