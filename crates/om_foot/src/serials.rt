//! Sets of serials.

ghost use Rattle.std.specs.Prelude.{◌≡◌, ℕ, true, false, cond, nat_eq, IfOk, OnOk, OnErr};
ghost use Rattle.om_foot.specs.Blocks.{has_in};
ghost use Rattle.om_foot.specs.Serials.{has};
ghost use Rattle.om_foot.specs.Firsts.{sooner, IsFirst, IsGreatest};

use crate::blocks::Blocks;
use om_seq::AllocResult;
use std::alloc::Global;

/// A set of serials. One that is alone stands in place, since most objects of a long run are
/// touched once.
///
/// Contracts see which serials are in it (`has`).
#[derive(Drop)]
pub enum Serials {
    /// No serial.
    None,
    /// One serial, which takes no memory.
    One(u64),
    /// Serials by blocks. Some may have been taken out again, or all.
    Many(Box<Blocks>),
}

/// The lesser of two serials, where there are any.
pub fn sooner(first: Option<u64>, other: Option<u64>) -> Option<u64>
    ensures { result ≡ sooner first other }
{
    match (first, other) {
        (Some(a), Some(b)) => Some(a.min(b)),
        (first, None) => first,
        (None, other) => other,
    }
}

// The set of two serials.
fn both(alloc: Global, first: u64, other: u64) -> AllocResult<Box<Blocks>>
    ensures { IfOk result (λ serials. (s : ℕ) → has_in serials.value s
        ≡ cond (nat_eq other s) true (nat_eq first s)) }
{
    let mut serials = Box::new(alloc, Blocks::of(alloc, first))?;
    serials.put(other)?;
    Ok(serials)
}

impl Serials {
    /// Adds a serial. When out of memory, nothing changes.
    pub fn put(&mut self, alloc: Global, serial: u64) -> AllocResult<()>
        ensures added { OnOk result
            ((s : ℕ) → has self.new s ≡ cond (nat_eq serial s) true (has self.old s)) }
        ensures unchanged_on_error { OnErr result ((s : ℕ) → has self.new s ≡ has self.old s) }
    {
        match self {
            Serials::None => {
                *self = Serials::One(serial);
                Ok(())
            }
            Serials::One(first) => {
                let serials = both(alloc, *first, serial)?;
                *self = Serials::Many(serials);
                Ok(())
            }
            Serials::Many(serials) => serials.put(serial),
        }
    }

    /// Takes a serial out, if it is there. It takes no memory.
    pub fn take(&mut self, serial: u64)
        ensures { (s : ℕ) → has self.new s ≡ cond (nat_eq serial s) false (has self.old s) }
    {
        match self {
            Serials::None => {}
            Serials::One(only) => {
                if *only == serial {
                    *self = Serials::None;
                }
            }
            Serials::Many(serials) => serials.take(serial),
        }
    }

    /// The first serial after another one.
    pub fn first_after(&self, serial: u64) -> Option<u64>
        ensures { IsFirst (has self.now) serial result }
    {
        match self {
            Serials::None => None,
            Serials::One(only) => (*only > serial).then_some(*only),
            Serials::Many(serials) => serials.first_after(serial),
        }
    }

    /// The last serial.
    pub fn last(&self) -> Option<u64>
        ensures { IsGreatest (has self.now) result }
    {
        match self {
            Serials::None => None,
            Serials::One(only) => Some(*only),
            Serials::Many(serials) => serials.last(),
        }
    }
}
