//! A meter, which shows on standard error how far a hunt is.

use lab_hunt::Progress;
use om_seq::AllocResult;
use om_undo::Machine;
use std::alloc::Global;
use std::rt::Runtime;

// How many lines a hunt writes at most, in about.
const MOST_LINES: u64 = 100;

// Of so many schedules that are tried while one is made short, one is told.
const TOLD: u64 = 32;

/// Goes back to the beginning of the line, and clears it.
pub(crate) const AGAIN: &str = "\r\x1b[K";

/// Writes the number of a try on standard error, on one line that is written over, where that is watched; and
/// what is bad, as soon as something is found.
#[derive(Drop)]
pub(crate) struct Meter<'a, R> {
    rt: &'a R,
    is_watched: bool,
    // Whether the line was begun.
    has_told: bool,
    // The first seed that was told; 0 where none was.
    first: u64,
    // How many schedules were tried while one is made short.
    shorter: u64,
}

impl<'a, R: Runtime> Meter<'a, R> {
    pub(crate) fn new(rt: &'a R, is_watched: bool) -> Meter<'a, R> {
        Meter {
            rt,
            is_watched,
            has_told: false,
            first: 0,
            shorter: 0,
        }
    }

    /// Ends the line.
    pub(crate) fn end(self) {
        if self.has_told {
            let _ = self.rt.eprint("\n");
        }
    }
}

impl<R: Runtime> Progress for Meter<'_, R> {
    fn tell(&mut self, seed: u64, last: u64) {
        if self.first == 0 {
            self.first = seed;
        }
        let tried = seed.saturating_sub(self.first);
        let others = last.saturating_sub(self.first);
        if self.is_watched && tried % (others / MOST_LINES + 1) == 0 {
            self.has_told = true;
            let again = AGAIN;
            let _ = self.rt.eprint(format_args!("{again}seed {seed} of {last}"));
        }
    }

    fn played(&mut self, _alloc: Global, _seed: u64, _machine: &Machine) -> AllocResult<()> {
        Ok(())
    }

    fn found(&mut self, words: &[u8]) {
        self.shorter = 0;
        if self.is_watched {
            self.has_told = true;
            let again = AGAIN;
            let words = str::from_utf8(words).unwrap_or("a bad schedule");
            let _ = self
                .rt
                .eprint(format_args!("{again}{words}\nit is made short"));
        }
    }

    fn shortens(&mut self, blocks: usize) {
        self.shorter = self.shorter.saturating_add(1);
        if self.is_watched && self.shorter % TOLD == 0 {
            let (again, tried) = (AGAIN, self.shorter);
            let _ = self.rt.eprint(format_args!(
                "{again}it is made short: {blocks} blocks, {tried} tried"
            ));
        }
    }
}
