//! The serials of each worker's own entries, so that its last one is found at once.

ghost use Rattle.std.specs.Prelude.{◌≡◌, ℕ, ◌<◌, false, length, slice_get, OnOk, OnErr};
ghost use Rattle.std.specs.Option.{option_copied};
ghost use Rattle.om_undo_touches.specs.Touches.{is_own, SameOwn, WithOwn, WithoutOwn};
ghost use Rattle.om_foot.specs.Firsts.{IsGreatest};

use om_foot::Serials;
use om_seq::AllocResult;
use std::alloc::Global;

/// For each worker the serials of its entries. Another worker's step may touch its control too, as
/// the start of a team does, so the touches of its control don't tell them.
///
/// Contracts see which entry is a worker's own (`is_own`).
pub struct OwnEntries {
    // Those of the first workers; the others have none.
    workers: Vec<Serials>,
}

// The serials of a worker's entries, if it is one of the first workers.
fn serials_of(workers: &[Serials], worker: u8) -> Option<&Serials>
    ensures { option_copied result ≡ slice_get workers.now worker }
{
    workers.get(worker as usize)
}

// By hand: other crates call this, and do not prove anew how each part is dropped.
impl Drop for OwnEntries {
    fn drop(self) {
        let OwnEntries { workers } = self;
        drop(workers);
    }
}

impl OwnEntries {
    /// No entries. It takes no memory.
    pub fn new(alloc: Global) -> OwnEntries
        ensures { (w s : ℕ) → is_own result w s ≡ false }
    {
        OwnEntries {
            workers: Vec::new(alloc),
        }
    }

    // Has a place for each worker up to this one. No entry is added, also when out of memory.
    fn know(&mut self, worker: u8) -> AllocResult<()>
        ensures same { SameOwn self.old self.new }
        ensures known { OnOk result (worker < length self.new.workers.items) }
    {
        'grow: while self.workers.len() <= worker as usize {
            self.workers.push(Serials::None)?;
        }
        Ok(())
    }

    // Adds an entry of a worker that is known. When out of memory, nothing changes.
    fn add_known(&mut self, alloc: Global, worker: u8, serial: u64) -> AllocResult<()>
        requires { worker < length self.old.workers.items }
        ensures added { OnOk result (WithOwn worker serial self.old self.new) }
        ensures unchanged_on_error { OnErr result (SameOwn self.old self.new) }
    {
        self.workers[worker as usize].put(alloc, serial)
    }

    // Makes a worker known, and adds its first entry. When out of memory, nothing changes.
    fn add_first(&mut self, alloc: Global, worker: u8, serial: u64) -> AllocResult<()>
        ensures added { OnOk result (WithOwn worker serial self.old self.new) }
        ensures unchanged_on_error { OnErr result (SameOwn self.old self.new) }
    {
        self.know(worker)?;
        self.add_known(alloc, worker, serial)
    }

    /// Adds an entry of a worker. When out of memory, nothing changes.
    pub fn add(&mut self, alloc: Global, worker: u8, serial: u64) -> AllocResult<()>
        ensures added { OnOk result (WithOwn worker serial self.old self.new) }
        ensures unchanged_on_error { OnErr result (SameOwn self.old self.new) }
    {
        if (worker as usize) < self.workers.len() {
            self.add_known(alloc, worker, serial)
        } else {
            self.add_first(alloc, worker, serial)
        }
    }

    // Takes an entry of a known worker out, if it is there. It takes no memory.
    fn remove_known(&mut self, worker: u8, serial: u64)
        requires { worker < length self.old.workers.items }
        ensures { WithoutOwn worker serial self.old self.new }
    {
        self.workers[worker as usize].take(serial);
    }

    /// Takes an entry of a worker out, if it is there. It takes no memory.
    pub fn remove(&mut self, worker: u8, serial: u64)
        ensures { WithoutOwn worker serial self.old self.new }
    {
        if (worker as usize) < self.workers.len() {
            self.remove_known(worker, serial);
        }
    }

    /// The serial of a worker's last entry; `None` where it has none. It takes no memory.
    pub fn last(&self, worker: u8) -> Option<u64>
        ensures { IsGreatest (is_own self.now worker) result }
    {
        serials_of(&self.workers, worker)?.last()
    }
}
