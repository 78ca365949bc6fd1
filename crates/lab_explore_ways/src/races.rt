//! Races by short ways.

ghost use Rattle.std.specs.Prelude.{◌≡◌, All, IfOk, IfSome};
ghost use Rattle.lab_explore_closed.specs.Explored.{IsPossibleRace, pair_of_found};
ghost use Rattle.lab_explore_ways.specs.Ways.{AreStill, IsOfSame, IsStill};

use crate::noted::noted;
use crate::retracer::Retracer;
use crate::sought::SoughtRace;
use lab_explore_closed::{FoundRace, Pair};
use lab_explore_notes::is_same_pair;
use lab_play::Shortener;
use om_seq::{AllocResult, Seq};
use std::alloc::Global;

/// These races in their order, each with a short way where one is found. Its only error is out of memory.
pub(crate) fn shortened_races(
    alloc: Global,
    shortener: &mut Shortener,
    retracer: &mut Retracer,
    races: Seq<FoundRace>,
) -> AllocResult<Seq<FoundRace>>
    ensures same { IsOfSame retracer.old.machine retracer.new.machine }
    ensures still { IfOk result (λ short. AreStill pair_of_found
        (IsPossibleRace retracer.old.machine.program retracer.old.machine.workers) races short) }
{
    let mut rest = races.into_vec();
    let mut short = Seq::new(alloc);
    while let Some(race) = rest.pop() {
        let next = shortened_race(alloc, shortener, retracer, race);
        short.push_front(next)?;
    }
    Ok(short)
}

// A race with a short way, where one is found and there is memory; else as it is.
fn shortened_race(
    alloc: Global,
    shortener: &mut Shortener,
    retracer: &mut Retracer,
    race: FoundRace,
) -> FoundRace
    ensures same { IsOfSame retracer.old.machine retracer.new.machine }
    ensures still { IsStill pair_of_found
        (IsPossibleRace retracer.old.machine.program retracer.old.machine.workers) race result }
{
    match short_race(alloc, shortener, retracer, &race) {
        Ok(Some(short)) => short,
        Ok(None) | Err(_) => race,
    }
}

// The same race by a short way, if one is found.
fn short_race(
    alloc: Global,
    shortener: &mut Shortener,
    retracer: &mut Retracer,
    race: &FoundRace,
) -> AllocResult<Option<FoundRace>>
    ensures same { IsOfSame retracer.old.machine retracer.new.machine }
    ensures still { IfOk result (λ found. IfSome found (λ short. IsStill pair_of_found
        (IsPossibleRace retracer.old.machine.program retracer.old.machine.workers)
        race.now short)) }
{
    let sought = SoughtRace { race };
    let Some(brief) = shortener.shorten(alloc, &sought, race.path.as_slice())? else {
        return Ok(None);
    };
    retracer.follow(alloc, &brief.steps)?;
    let notes = noted(alloc, retracer.machine())?;
    let Some(short) = with_pair(notes.races, &race.pair) else {
        return Ok(None);
    };
    Ok(Some(short))
}

// The last of these races that is of this pair of accesses.
fn with_pair(races: Seq<FoundRace>, pair: &Pair) -> Option<FoundRace>
    ensures { (program : _) (workers : _) → All (IsPossibleRace program workers) races
        → IfSome result (λ race. (race.pair ≡ pair.now) × IsPossibleRace program workers race) }
{
    let mut left = races.into_vec();
    while let Some(race) = left.pop() {
        if is_same_pair(&race.pair, pair) {
            return Some(race);
        }
    }
    None
}
