//! The order in which things are told. It does not depend on the order in which they were found.

ghost use Rattle.std.specs.Prelude.{◌≤◌, length};

use om_seq::AllocResult;

/// What is told of a thing that was found.
#[derive(Drop)]
pub(crate) struct Worded {
    /// What it is told behind: a kind of ending, or lines.
    pub(crate) rank: (u32, u32),
    /// Its line, without the number before it.
    pub(crate) words: Vec<u8>,
    /// Its place among what was found.
    pub(crate) index: usize,
}

/// Puts a thing behind those that are told before it: of lesser rank, or else of lesser words, byte by byte. Its only
/// error is out of memory.
pub(crate) fn insert(all: &mut Vec<Worded>, next: Worded) -> AllocResult<()> {
    let at = place_among(all.as_slice(), &next);
    all.insert(at, next)?;
    Ok(())
}

// How many of these things are told before another one.
fn place_among(all: &[Worded], next: &Worded) -> usize
    ensures { result ≤ length all.now }
{
    for (at, other) in all.iter().enumerate() {
        if is_before(next, other) {
            return at;
        }
    }
    all.len()
}

// Whether a thing is told before another one.
fn is_before(one: &Worded, other: &Worded) -> bool {
    if one.rank != other.rank {
        return one.rank < other.rank;
    }
    one.words.as_slice() < other.words.as_slice()
}

/// The place among what was found of the thing with a number, from 1, in the order in which things are told.
pub(crate) fn nth(all: &[Worded], number: u64) -> Option<usize> {
    let place = number.checked_sub(1)?;
    let worded = all.get(place as usize)?;
    Some(worded.index)
}
