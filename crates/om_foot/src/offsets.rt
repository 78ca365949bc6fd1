//! Which serials of a block of 64 are in a set.

ghost use Rattle.std.specs.Prelude.{◌≡◌, ℕ, ◌<◌, cond, nat_eq, true, false, IfSome, IfNone};
ghost use Rattle.om_foot.specs.Offsets.{has_offset};
ghost use Rattle.om_foot.specs.Firsts.{IsFirst, IsGreatest};

use std::marker::Model;

/// Offsets in a block, from 0 to 63, at least one of them.
///
/// Contracts see which offsets are among them (`has_offset`).
#[derive(Drop)]
pub struct Offsets {
    // Bit k is set where offset k is among them.
    bits: u64,
}

impl Model for Offsets {
    ghost use Rattle.std.specs.Prelude.{ℕ, ◌<◌, ◌^◌};

    ghost Value = { ℕ };

    ghost view = { λ o. o.bits };

    ghost invariant = { λ o. (0 < o.bits) × (o.bits < 2 ^ 64) };
}

impl Offsets {
    /// One offset alone.
    pub(crate) fn of(offset: u64) -> Offsets
        requires { offset < 64 }
        ensures { (k : ℕ) → k < 64 → has_offset result k ≡ nat_eq offset k }
    {
        Offsets { bits: 1 << offset }
    }

    /// These and one more.
    pub(crate) fn with(&self, offset: u64) -> Offsets
        requires { offset < 64 }
        ensures { (k : ℕ) → k < 64
            → has_offset result k ≡ cond (nat_eq offset k) true (has_offset self.now k) }
    {
        Offsets {
            bits: self.bits | 1 << offset,
        }
    }

    /// The others, where there are any.
    pub(crate) fn without(&self, offset: u64) -> Option<Offsets>
        requires { offset < 64 }
        ensures some { IfSome result (λ o. (k : ℕ) → k < 64
            → has_offset o k ≡ cond (nat_eq offset k) false (has_offset self.now k)) }
        ensures none { IfNone result ((k : ℕ) → k < 64
            → cond (nat_eq offset k) false (has_offset self.now k) ≡ false) }
    {
        let bits = self.bits & !(1 << offset);
        if bits == 0 {
            None
        } else {
            Some(Offsets { bits })
        }
    }

    /// The first one.
    pub(crate) fn first(&self) -> u64
        ensures at { result < 64 }
        ensures there { has_offset self.now result ≡ true }
        ensures first { (k : ℕ) → k < result → has_offset self.now k ≡ false }
    {
        u64::from(self.bits.trailing_zeros())
    }

    /// The first one behind another one.
    pub(crate) fn first_after(&self, offset: u64) -> Option<u64>
        requires { offset < 64 }
        ensures at { IfSome result (λ k. k < 64) }
        ensures first { IsFirst (has_offset self.now) offset result }
    {
        let later = self.bits >> offset >> 1;
        if later == 0 {
            None
        } else {
            Some(offset + 1 + u64::from(later.trailing_zeros()))
        }
    }

    /// The last one.
    pub(crate) fn last(&self) -> u64
        ensures at { result < 64 }
        ensures last { IsGreatest (has_offset self.now) (Some result) }
    {
        u64::from(self.bits.ilog2())
    }
}
