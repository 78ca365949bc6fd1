//! The iterations of a loop, and the chunks in which they are shared out.

ghost use Rattle.std.specs.Prelude.{◌≡◌, ◌<◌, ◌≤◌, ◌^◌, IfSome};
ghost use Rattle.om_team_worksharing.specs.Chunks.{upwards, step_size, rounded_up, rounded_down, count_of, chunk_within, round_robin, block_size, block, static_chunk};

use om_code::instruction::Comparison;
use om_state::Team;

/// Iterations that a member takes at once.
#[derive(Clone, Copy)]
pub struct Chunk {
    /// The first one.
    pub first: u64,
    /// The one behind the last.
    pub end: u64,
}

// A number that is not below 0, else 0.
fn upwards(number: i64) -> u64
    ensures { result ≡ upwards number }
{
    if number < 0 { 0 } else { number as u64 }
}

/// The size of a step in the direction of its comparison, and 0 where it has another direction.
pub(crate) fn step_size(comparison: Comparison, step: i32) -> u64
    ensures value { result ≡ step_size comparison step }
    ensures small { result ≤ 2 ^ 31 }
{
    match comparison {
        Comparison::Less | Comparison::LessOrEqual => upwards(i64::from(step)),
        Comparison::Greater | Comparison::GreaterOrEqual => upwards(-i64::from(step)),
    }
}

// How many steps of this size there are in a distance, the last one perhaps in part.
fn rounded_up(distance: i64, step: u64) -> u64
    requires some { 1 ≤ step }
    requires small { step ≤ 2 ^ 31 }
    ensures { result ≡ rounded_up distance step }
{
    if distance < 0 {
        return 0;
    }
    (distance as u64 + (step - 1)) / step
}

// How many whole steps of this size there are in a distance, and one more.
fn rounded_down(distance: i64, step: u64) -> u64
    requires { 1 ≤ step }
    ensures { result ≡ rounded_down distance step }
{
    if distance < 0 {
        return 0;
    }
    distance as u64 / step + 1
}

/// How many iterations a loop has, by its bounds and the size of its step.
pub(crate) fn count_of(comparison: Comparison, lower: i32, upper: i32, step: u64) -> u64
    requires some { 1 ≤ step }
    requires small { step ≤ 2 ^ 31 }
    ensures { result ≡ count_of comparison lower upper step }
{
    let (low, high) = (i64::from(lower), i64::from(upper));
    match comparison {
        Comparison::Less => rounded_up(high - low, step),
        Comparison::LessOrEqual => rounded_down(high - low, step),
        Comparison::Greater => rounded_up(low - high, step),
        Comparison::GreaterOrEqual => rounded_down(low - high, step),
    }
}

/// So many iterations from the first on, cut at `count`; `None` where none is left.
pub(crate) fn chunk_within(count: u64, first: u128, size: u64) -> Option<Chunk>
    ensures value { result ≡ chunk_within count first size }
    ensures within { IfSome result (λ chunk. chunk.end ≤ count) }
{
    if size == 0 || first >= u128::from(count) {
        return None;
    }
    let first = first as u64;
    let end = if size < count - first {
        first + size
    } else {
        count
    };
    Some(Chunk { first, end })
}

// The chunk of this number, from 0, of a member, where chunks of this size go round by thread number.
fn round_robin(count: u64, size: u32, team: &Team, taken: u64) -> Option<Chunk>
    ensures value { result ≡ round_robin count size team.now.size team.now.number taken }
    ensures within { IfSome result (λ chunk. chunk.end ≤ count) }
{
    let (members, thread) = (team.size, team.number);
    let number = u128::from(taken) * u128::from(members) + u128::from(thread);
    chunk_within(count, number * u128::from(size), u64::from(size))
}

// How many iterations a member has in one block: the first `count % size` members have one more than the others.
fn block_size(count: u64, team: &Team) -> u64
    requires { team.now.number < team.now.size }
    ensures { result ≡ block_size count team.now.size team.now.number }
{
    let size = u64::from(team.size);
    if u64::from(team.number) < count % size {
        count / size + 1
    } else {
        count / size
    }
}

// The block of a member.
fn block(count: u64, team: &Team) -> Option<Chunk>
    requires { team.now.number < team.now.size }
    ensures value { result ≡ block count team.now.size team.now.number }
    ensures within { IfSome result (λ chunk. chunk.end ≤ count) }
{
    let size = u64::from(team.size);
    let number = u64::from(team.number);
    let whole = u128::from(number) * u128::from(count / size);
    let first = whole + u128::from(number.min(count % size));
    chunk_within(count, first, block_size(count, team))
}

/// The chunk of this number, from 0, of a member under a static schedule, by its chunk size; without
/// one a member has one block.
pub(crate) fn static_chunk(size: Option<u32>, count: u64, team: &Team, taken: u64) -> Option<Chunk>
    requires { team.now.number < team.now.size }
    ensures value { result ≡ static_chunk size count team.now.size team.now.number taken }
    ensures few { IfSome result (λ chunk. taken < count) }
    ensures within { IfSome result (λ chunk. chunk.end ≤ count) }
{
    match size {
        Some(size) => round_robin(count, size, team, taken),
        None if taken == 0 => block(count, team),
        None => None,
    }
}
