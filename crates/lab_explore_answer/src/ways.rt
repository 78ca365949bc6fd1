//! A way in words: the blocks of its steps, and what then comes.

ghost use Rattle.std.specs.Prelude.{◌≡◌, length, min, take};

use lab_explore_closed::{Ending, FoundEnd, FoundRace};
use lab_play::blocks_of;
use lab_schedules::push_schedule;
use om_seq::AllocResult;
use om_state::Entry;
use std::alloc::Global;

/// Appends the line of the way to an end, of which so many steps are told: `run` makes the others. Its only error is out
/// of memory.
pub(crate) fn push_way(
    alloc: Global,
    text: &mut Vec<u8>,
    end: &FoundEnd,
    told: u64,
) -> AllocResult<()> {
    let tail: &[u8] = match &end.ending {
        Ending::Faults(_, _) => b"no worker can move\n",
        Ending::Ends(_, _) | Ending::Sticks(_, _) => b"`run`\n",
    };
    push_steps(alloc, text, first_steps(end.path.as_slice(), told), tail)
}

/// Appends the line of the way to a race. Its only error is out of memory.
pub(crate) fn push_way_to_race(
    alloc: Global,
    text: &mut Vec<u8>,
    race: &FoundRace,
) -> AllocResult<()> {
    push_steps(alloc, text, race.path.as_slice(), b"both stand there\n")
}

/// So many steps of a path, the first ones.
pub(crate) fn first_steps(path: &[Entry], told: u64) -> &[Entry]
    ensures { result.now ≡ take (min told (length path.now)) path.now }
{
    let count = (told as usize).min(path.len());
    &path[..count]
}

// Appends steps as blocks, and what then comes.
fn push_steps(alloc: Global, text: &mut Vec<u8>, steps: &[Entry], tail: &[u8]) -> AllocResult<()> {
    text.extend_from_slice(b"   ")?;
    let blocks = blocks_of(alloc, steps)?;
    push_schedule(text, &blocks)?;
    if !blocks.is_empty() {
        text.extend_from_slice(b"then ")?;
    }
    text.extend_from_slice(tail)
}
