//! Sets of serials, by blocks of 64 serials that follow each other.

ghost use Rattle.std.specs.Prelude.{◌≡◌, ℕ, ◌<◌, ◌≤◌, ◌+◌, ◌*◌, ◌/◌, ◌%◌, ◌^◌, cond, nat_eq, nat_lt, ◌&&◌, true, false, None, Some, is_some, OnOk, OnErr, IfSome, IfNone};
ghost use Rattle.std.specs.Option.{option_copied};
ghost use Rattle.om_foot.specs.Offsets.{has_offset};
ghost use Rattle.om_foot.specs.Blocks.{block_of, is_offset, in_older, in_newest, has_in, AreBefore, IsApart, AreRising};
ghost use Rattle.om_foot.specs.Firsts.{sooner, IsFirst, IsGreatest};

use crate::offsets::Offsets;
use crate::serials::sooner;
use om_seq::AllocResult;
use std::alloc::{AllocError, Global};
use std::cmp::Ordering;
use std::marker::Model;

// How many serials a block has.
const IN_BLOCK: u64 = 64;

// Block numbers are below this, since serials are below 2^64.
const BLOCKS: u64 = 1 << 58;

/// Serials by blocks. Most serials that come are above all others, so the block of the newest lies
/// apart, where it is found at once. Nearly every block comes behind all others: so they lie in a vector,
/// by number.
///
/// Contracts see which serials are among them (`has_in`).
#[derive(Drop)]
pub struct Blocks {
    // The blocks before the newest one, each with its number; the numbers rise.
    older: Vec<(u64, Offsets)>,
    // The number of the newest block.
    number: u64,
    // What is in it, if something still is.
    newest: Option<Offsets>,
}

impl Model for Blocks {
    ghost use Rattle.std.specs.Prelude.{◌<◌, ◌^◌};
    ghost use Rattle.om_foot.specs.Blocks.{BlocksView, AreBefore, IsApart, AreRising};

    ghost Value = { BlocksView };

    ghost view = { λ b. record { older = b.older.items; number = b.number; newest = b.newest } };

    ghost invariant = { λ b. (b.number < 2 ^ 58) × AreBefore b.number b.older.items
        × IsApart b.newest b.older.items × AreRising 0 b.older.items };
}

// The first block from a number on.
fn first_from(older: &[(u64, Offsets)], number: u64) -> Option<&(u64, Offsets)>
    requires { AreRising 0 older.now }
    ensures there { IfSome result (λ block. block_of older.now block.now.0 ≡ Some block.now.1) }
    ensures from { IfSome result (λ block. number ≤ block.now.0) }
    ensures first { IfSome result (λ block. (q : ℕ) → number ≤ q → q < block.now.0
        → block_of older.now q ≡ None) }
    ensures none { IfNone result ((q : ℕ) → number ≤ q → block_of older.now q ≡ None) }
{
    let at = older.partition_point(|block| block.0 < number);
    older.get(at)
}

// The block with a number, if it is there.
fn block(older: &[(u64, Offsets)], number: u64) -> Option<&Offsets>
    requires { AreRising 0 older.now }
    ensures { option_copied result ≡ block_of older.now number }
{
    let (found, offsets) = first_from(older, number)?;
    if *found == number {
        Some(offsets)
    } else {
        None
    }
}

// Puts a new block among the others. When out of memory, nothing changes.
fn insert(older: &mut Vec<(u64, Offsets)>, number: u64, offsets: Offsets) -> AllocResult<()>
    requires rising { AreRising 0 older.old.items }
    requires new { block_of older.old.items number ≡ None }
    ensures inserted { OnOk result ((q : ℕ) → block_of older.new.items q
        ≡ cond (nat_eq number q) (Some offsets) (block_of older.old.items q)) }
    ensures rising { AreRising 0 older.new.items }
    ensures unchanged_on_error { OnErr result
        ((q : ℕ) → block_of older.new.items q ≡ block_of older.old.items q) }
{
    let at = older.partition_point(|block| block.0 < number);
    match older.insert(at, (number, offsets)) {
        Ok(()) => Ok(()),
        Err(_) => Err(AllocError),
    }
}

// Puts other offsets in the place of those of a block that is there, or takes it out. It takes no
// memory.
fn replace(older: &mut Vec<(u64, Offsets)>, number: u64, offsets: Option<Offsets>)
    requires rising { AreRising 0 older.old.items }
    requires there { is_some (block_of older.old.items number) ≡ true }
    ensures replaced { (q : ℕ) → block_of older.new.items q
        ≡ cond (nat_eq number q) offsets (block_of older.old.items q) }
    ensures rising { AreRising 0 older.new.items }
{
    let at = older.partition_point(|block| block.0 < number);
    match offsets {
        Some(offsets) => older[at] = (number, offsets),
        None => drop(older.remove(at)),
    }
}

// Adds a serial to the older blocks. When out of memory, nothing changes.
fn put_older(older: &mut Vec<(u64, Offsets)>, serial: u64) -> AllocResult<()>
    requires { AreRising 0 older.old.items }
    ensures added { OnOk result
        ((s : ℕ) → in_older older.new.items s ≡ cond (nat_eq serial s) true (in_older older.old.items s)) }
    ensures others { (q : ℕ) → nat_eq (serial / 64) q ≡ false
        → block_of older.new.items q ≡ block_of older.old.items q }
    ensures rising { AreRising 0 older.new.items }
    ensures unchanged_on_error { OnErr result
        ((s : ℕ) → in_older older.new.items s ≡ in_older older.old.items s) }
{
    let number = serial / IN_BLOCK;
    match block(older.as_slice(), number) {
        Some(offsets) => {
            let more = offsets.with(serial % IN_BLOCK);
            replace(older, number, Some(more));
            Ok(())
        }
        None => insert(older, number, Offsets::of(serial % IN_BLOCK)),
    }
}

// Takes a serial out of the older blocks, if it is there. It takes no memory.
fn take_older(older: &mut Vec<(u64, Offsets)>, serial: u64)
    requires { AreRising 0 older.old.items }
    ensures taken { (s : ℕ) → in_older older.new.items s
        ≡ cond (nat_eq serial s) false (in_older older.old.items s) }
    ensures no_more { (q : ℕ) → block_of older.old.items q ≡ None
        → block_of older.new.items q ≡ None }
    ensures rising { AreRising 0 older.new.items }
{
    let number = serial / IN_BLOCK;
    if let Some(offsets) = block(older.as_slice(), number) {
        let others = offsets.without(serial % IN_BLOCK);
        replace(older, number, others);
    }
}

// The first serial of the blocks behind one.
fn first_behind(older: &[(u64, Offsets)], number: u64) -> Option<u64>
    requires rising { AreRising 0 older.now }
    requires low { number < 2 ^ 58 }
    ensures { IsFirst (λ s. nat_lt number (s / 64) && in_older older.now s) (number * 64 + 63) result }
{
    let (number, offsets) = first_from(older, number + 1)?;
    serial_at(*number, offsets.first())
}

// The serial at an offset of a block, where there is such a block.
fn serial_at(number: u64, offset: u64) -> Option<u64>
    requires { offset < 64 }
    ensures { result ≡ cond (nat_lt number (2 ^ 58)) (Some (number * 64 + offset)) None }
{
    if number < BLOCKS {
        Some(number * IN_BLOCK + offset)
    } else {
        None
    }
}

// The first serial of a block after one of it.
fn first_within(offsets: &Offsets, serial: u64) -> Option<u64>
    ensures { IsFirst (λ s. nat_eq (serial / 64) (s / 64) && has_offset offsets.now (s % 64)) serial
        result }
{
    let offset = offsets.first_after(serial % IN_BLOCK)?;
    serial_at(serial / IN_BLOCK, offset)
}

// The first serial of the older blocks after another one.
fn first_older(older: &[(u64, Offsets)], serial: u64) -> Option<u64>
    requires { AreRising 0 older.now }
    ensures { IsFirst (in_older older.now) serial result }
{
    let number = serial / IN_BLOCK;
    let within = match block(older, number) {
        Some(offsets) => first_within(offsets, serial),
        None => None,
    };
    match within {
        Some(first) => Some(first),
        None => first_behind(older, number),
    }
}

// Puts the newest block with the others. When out of memory, nothing changes.
fn retire(
    older: &mut Vec<(u64, Offsets)>,
    number: u64,
    newest: &mut Option<Offsets>,
) -> AllocResult<()>
    requires before { AreBefore number older.old.items }
    requires rising { AreRising 0 older.old.items }
    ensures retired { OnOk result ((s : ℕ) → in_older older.new.items s
        ≡ cond (in_newest number newest.old s) true (in_older older.old.items s)) }
    ensures before { OnOk result (AreBefore (number + 1) older.new.items) }
    ensures rising { AreRising 0 older.new.items }
    ensures unchanged_on_error { OnErr result
        ((q : ℕ) → block_of older.new.items q ≡ block_of older.old.items q) }
    ensures same_newest_on_error { OnErr result (newest.new ≡ newest.old) }
{
    older.reserve(1)?;
    if let Some(offsets) = newest.take() {
        older.push_reserved((number, offsets));
    }
    Ok(())
}

// Takes the last block out, if there is one. It takes no memory.
fn take_last(older: &mut Vec<(u64, Offsets)>) -> Option<(u64, Offsets)>
    requires { AreRising 0 older.old.items }
    ensures was { IfSome result (λ block. block_of older.old.items block.0 ≡ Some block.1) }
    ensures taken { IfSome result (λ block. (q : ℕ) → block_of older.new.items q
        ≡ cond (nat_eq block.0 q) None (block_of older.old.items q)) }
    ensures last { IfSome result (λ block. AreBefore block.0 older.new.items) }
    ensures rising { AreRising 0 older.new.items }
    ensures none { IfNone result ((q : ℕ) → block_of older.new.items q ≡ None) }
    ensures none_before { IfNone result ((q : ℕ) → block_of older.old.items q ≡ None) }
{
    older.pop()
}

// Where the newest block is empty, the one before it takes its place. It takes no memory.
fn refill(older: &mut Vec<(u64, Offsets)>, number: &mut u64, newest: &mut Option<Offsets>)
    requires low { number.old < 2 ^ 58 }
    requires before { AreBefore number.old older.old.items }
    requires rising { AreRising 0 older.old.items }
    ensures same { (s : ℕ) →
        cond (in_newest number.new newest.new s) true (in_older older.new.items s)
        ≡ cond (in_newest number.old newest.old s) true (in_older older.old.items s) }
    ensures low { number.new < 2 ^ 58 }
    ensures before { AreBefore number.new older.new.items }
    ensures apart { IsApart newest.new older.new.items }
    ensures rising { AreRising 0 older.new.items }
{
    if newest.is_some() {
        return;
    }
    if let Some((last, offsets)) = take_last(older) {
        *number = last;
        *newest = Some(offsets);
    }
}

// Takes a serial out of its block, if it is there.
fn take_newest(newest: &mut Option<Offsets>, serial: u64)
    ensures { (k : ℕ) → k < 64 → is_offset newest.new k
        ≡ cond (nat_eq (serial % 64) k) false (is_offset newest.old k) }
{
    if let Some(offsets) = newest {
        *newest = offsets.without(serial % IN_BLOCK);
    }
}

impl Blocks {
    /// One serial alone. It takes no memory.
    pub(crate) fn of(alloc: Global, serial: u64) -> Blocks
        ensures { (s : ℕ) → has_in result s ≡ nat_eq serial s }
    {
        Blocks {
            older: Vec::new(alloc),
            number: serial / IN_BLOCK,
            newest: Some(Offsets::of(serial % IN_BLOCK)),
        }
    }

    /// Adds a serial. When out of memory, nothing changes.
    pub(crate) fn put(&mut self, serial: u64) -> AllocResult<()>
        ensures added { OnOk result
            ((s : ℕ) → has_in self.new s ≡ cond (nat_eq serial s) true (has_in self.old s)) }
        ensures unchanged_on_error { OnErr result
            ((s : ℕ) → has_in self.new s ≡ has_in self.old s) }
    {
        let number = serial / IN_BLOCK;
        let Some(offsets) = &mut self.newest else {
            self.number = number;
            self.newest = Some(Offsets::of(serial % IN_BLOCK));
            return Ok(());
        };
        match number.cmp(&self.number) {
            Ordering::Less => put_older(&mut self.older, serial),
            Ordering::Equal => {
                *offsets = offsets.with(serial % IN_BLOCK);
                Ok(())
            }
            Ordering::Greater => {
                retire(&mut self.older, self.number, &mut self.newest)?;
                self.number = number;
                self.newest = Some(Offsets::of(serial % IN_BLOCK));
                Ok(())
            }
        }
    }

    /// Takes a serial out, if it is there. It takes no memory.
    pub(crate) fn take(&mut self, serial: u64)
        ensures { (s : ℕ) → has_in self.new s ≡ cond (nat_eq serial s) false (has_in self.old s) }
    {
        if serial / IN_BLOCK == self.number {
            take_newest(&mut self.newest, serial);
            refill(&mut self.older, &mut self.number, &mut self.newest);
        } else {
            take_older(&mut self.older, serial);
        }
    }

    // The first serial of the newest block after another one.
    fn first_newest(&self, serial: u64) -> Option<u64>
        ensures { IsFirst (in_newest self.now.number self.now.newest) serial result }
    {
        let Some(offsets) = &self.newest else {
            return None;
        };
        match self.number.cmp(&(serial / IN_BLOCK)) {
            Ordering::Less => None,
            Ordering::Equal => first_within(offsets, serial),
            Ordering::Greater => serial_at(self.number, offsets.first()),
        }
    }

    /// The first serial after another one. The older blocks are asked only where it lies before the
    /// newest one.
    pub(crate) fn first_after(&self, serial: u64) -> Option<u64>
        ensures { IsFirst (has_in self.now) serial result }
    {
        if serial / IN_BLOCK >= self.number {
            return self.first_newest(serial);
        }
        sooner(
            first_older(self.older.as_slice(), serial),
            self.first_newest(serial),
        )
    }

    /// The last serial.
    pub(crate) fn last(&self) -> Option<u64>
        ensures { IsGreatest (has_in self.now) result }
    {
        let offsets = self.newest.as_ref()?;
        serial_at(self.number, offsets.last())
    }
}
