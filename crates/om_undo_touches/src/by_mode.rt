//! The touches of one object, apart by mode.

ghost use Rattle.std.specs.Prelude.{◌≡◌, ℕ, true, false, cond, nat_eq, ◌&&◌, OnOk, OnErr};
ghost use Rattle.om_foot.specs.declared.footprint.Mode.{Mode};
ghost use Rattle.om_foot.specs.Footprint.{modes_conflict};
ghost use Rattle.om_foot.specs.Serials.{has};
ghost use Rattle.om_undo_touches.specs.Touches.{list_of, mode_eq, meets_at};
ghost use Rattle.om_foot.specs.Firsts.{IsFirst};

use om_foot::{Mode, Serials, Touch, first_touch, sooner};
use om_seq::AllocResult;
use std::alloc::Global;

/// The touches of one object: the serials of the entries that name it, apart by mode. So a search
/// for a write or an addition goes through no reads.
#[derive(Drop)]
pub struct Touches {
    reads: Serials,
    writes: Serials,
    additions: Serials,
}

// The first touch after a serial that conflicts with an access of `mode`, where all touches are `touched`.
fn first_of_mode(serials: &Serials, touched: Mode, mode: Mode, serial: u64) -> Option<u64>
    ensures { IsFirst (λ s. modes_conflict mode touched && has serials.now s) serial result }
{
    let touch = Touch {
        serial: serials.first_after(serial)?,
        mode: touched,
    };
    first_touch(mode, &[touch])
}

impl Touches {
    /// No touches. It takes no memory.
    pub(crate) fn new() -> Touches
        ensures { (m : Mode) (s : ℕ) → has (list_of result m) s ≡ false }
    {
        Touches {
            reads: Serials::None,
            writes: Serials::None,
            additions: Serials::None,
        }
    }

    /// Adds a touch. When out of memory, nothing changes.
    pub(crate) fn add(&mut self, alloc: Global, mode: Mode, serial: u64) -> AllocResult<()>
        ensures added { OnOk result
            ((m : Mode) (s : ℕ) → has (list_of self.new m) s
            ≡ cond (mode_eq mode m && nat_eq serial s) true (has (list_of self.old m) s)) }
        ensures unchanged_on_error { OnErr result
            ((m : Mode) (s : ℕ) → has (list_of self.new m) s ≡ has (list_of self.old m) s) }
    {
        match mode {
            Mode::Read => self.reads.put(alloc, serial),
            Mode::Write => self.writes.put(alloc, serial),
            Mode::Add => self.additions.put(alloc, serial),
        }
    }

    /// Takes a touch out, if it is there. It takes no memory.
    pub(crate) fn remove(&mut self, mode: Mode, serial: u64)
        ensures { (m : Mode) (s : ℕ) → has (list_of self.new m) s
            ≡ cond (mode_eq mode m && nat_eq serial s) false (has (list_of self.old m) s) }
    {
        match mode {
            Mode::Read => self.reads.take(serial),
            Mode::Write => self.writes.take(serial),
            Mode::Add => self.additions.take(serial),
        }
    }

    /// Takes the touches of an entry out, of every mode. It takes no memory.
    pub(crate) fn forget(&mut self, serial: u64)
        ensures { (m : Mode) (s : ℕ) → has (list_of self.new m) s
            ≡ cond (nat_eq serial s) false (has (list_of self.old m) s) }
    {
        self.reads.take(serial);
        self.writes.take(serial);
        self.additions.take(serial);
    }

    /// The first touch after a serial that conflicts with an access of the mode.
    pub(crate) fn first_conflict(&self, mode: Mode, serial: u64) -> Option<u64>
        ensures { IsFirst (meets_at (λ m s. has (list_of self.now m) s) mode) serial result }
    {
        let read = first_of_mode(&self.reads, Mode::Read, mode, serial);
        let written = first_of_mode(&self.writes, Mode::Write, mode, serial);
        let added = first_of_mode(&self.additions, Mode::Add, mode, serial);
        sooner(read, sooner(written, added))
    }
}
