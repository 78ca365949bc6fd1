//! The report on the races of a history.

use crate::sides::{is_behind, name_in, place_of, racer_of};
use lab_explore_answer::{Meeting, push_counted, push_meeting};
use lab_explore_closed::Pair;
use lab_graph::Traced;
use lab_races::{Race, Side};
use om_code::Program;
use om_seq::AllocResult;
use om_shell_commands::push_numbered;
use std::alloc::Global;

/// The steps of a history of a program.
#[derive(Clone, Copy)]
pub struct History<'a, 'm> {
    pub program: &'a Program,
    pub steps: &'a [Traced<'m>],
    /// Whether the numbers of steps are told: a session has shown them.
    pub is_numbered: bool,
}

/// The report on the races of a history. Its only error is out of memory.
pub fn report(alloc: Global, history: &History<'_, '_>, races: &[Race]) -> AllocResult<Vec<u8>> {
    let mut text = Vec::new(alloc);
    push_first(&mut text, races, history.steps)?;
    push_races(alloc, &mut text, history, races)?;
    Ok(text)
}

// Appends how many races there are, and that this is one history.
fn push_first(text: &mut Vec<u8>, races: &[Race], steps: &[Traced<'_>]) -> AllocResult<()> {
    push_count(text, races, steps)?;
    if races.is_empty() {
        text.extend_from_slice(b"; other schedules may have some\n")
    } else {
        text.extend_from_slice(b"; other schedules may have others\n")
    }
}

/// Appends how many races there are in a history of so many steps.
pub fn push_count(text: &mut Vec<u8>, races: &[Race], steps: &[Traced<'_>]) -> AllocResult<()> {
    if races.is_empty() {
        text.extend_from_slice(b"no race")?;
    } else {
        push_counted(text, races.len() as u64, b"race")?;
    }
    text.extend_from_slice(b" in this history of ")?;
    push_counted(text, steps.len() as u64, b"step")
}

/// Appends the races of a history, each with its number: both lines, the variable, who made the steps in which critical
/// regions, and the numbers of the steps where they are told. The only error is out of memory.
pub fn push_races(
    alloc: Global,
    text: &mut Vec<u8>,
    history: &History<'_, '_>,
    races: &[Race],
) -> AllocResult<()> {
    let mut number: u64 = 0;
    for race in races {
        number = number.saturating_add(1);
        push_numbered(text, b"", number)?;
        text.extend_from_slice(b": ")?;
        push_race(alloc, text, history, race)?;
    }
    Ok(())
}

// Appends a race. That of its steps stands first whose line is lesser.
fn push_race(
    alloc: Global,
    text: &mut Vec<u8>,
    history: &History<'_, '_>,
    race: &Race,
) -> AllocResult<()> {
    let (first, second) = in_order(&race.earlier, &race.later);
    let pair = Pair {
        first: place_of(first),
        second: place_of(second),
        object: *race.object.get(),
    };
    let name = name_in(history.steps, &race.earlier, &race.later);
    let one = racer_of(alloc, history.steps, first)?;
    let other = racer_of(alloc, history.steps, second)?;
    let meeting = Meeting {
        pair: &pair,
        name,
        first: &one,
        second: &other,
    };
    push_meeting(text, history.program, &meeting)?;
    if history.is_numbered {
        push_steps(text, race)?;
    }
    Ok(())
}

// The sides of a race, in the order of their places.
fn in_order<'a>(earlier: &'a Side, later: &'a Side) -> (&'a Side, &'a Side) {
    if is_behind(&place_of(earlier), &place_of(later)) {
        (later, earlier)
    } else {
        (earlier, later)
    }
}

// Appends the numbers of a race's steps.
fn push_steps(text: &mut Vec<u8>, race: &Race) -> AllocResult<()> {
    push_numbered(text, b"   #", race.earlier.serial)?;
    push_numbered(text, b" of worker ", race.earlier.worker)?;
    push_numbered(text, b" was made before #", race.later.serial)?;
    push_numbered(text, b" of worker ", race.later.worker)?;
    text.extend_from_slice(b", and nothing orders them\n")
}
