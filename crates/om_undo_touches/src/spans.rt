//! The writes of beginnings of one slot.

ghost use Rattle.std.specs.Prelude.{◌≡◌, ℕ, false, true, cond, nat_eq, nat_lt, ◌&&◌, OnOk, OnErr};
ghost use Rattle.om_foot.specs.Serials.{has};
ghost use Rattle.om_undo_touches.specs.Slots.{has_span};
ghost use Rattle.om_foot.specs.Firsts.{IsFirst};

use om_foot::{Serials, sooner};
use om_seq::AllocResult;
use std::alloc::Global;

/// The entries that wrote the first cells of a slot at once, so many of them.
#[derive(Drop)]
pub struct SpanTouches {
    count: u32,
    serials: Serials,
}

/// The writes of beginnings of one slot, apart by their counts. All writes of one array have one count,
/// so mostly there is one item.
///
/// Contracts see which entry wrote the cell of an index (`has_span`).
#[derive(Drop)]
pub struct Spans {
    spans: Vec<SpanTouches>,
}

// The first entry after a serial that wrote the cell of an index.
fn first_of(span: &SpanTouches, index: u32, serial: u64) -> Option<u64>
    ensures { IsFirst (λ s. nat_lt index span.now.count && has span.now.serials s) serial result }
{
    if index < span.count {
        span.serials.first_after(serial)
    } else {
        None
    }
}

impl Spans {
    /// No writes. It takes no memory.
    pub(crate) fn new(alloc: Global) -> Spans
        ensures { (i s : ℕ) → has_span result.spans.items i s ≡ false }
    {
        Spans {
            spans: Vec::new(alloc),
        }
    }

    /// Adds a write of so many cells. When out of memory, no write changes.
    pub(crate) fn add(&mut self, alloc: Global, count: u32, serial: u64) -> AllocResult<()>
        ensures added { OnOk result ((i s : ℕ) → has_span self.new.spans.items i s
            ≡ cond (nat_eq serial s && nat_lt i count) true (has_span self.old.spans.items i s)) }
        ensures unchanged_on_error { OnErr result ((i s : ℕ) → has_span self.new.spans.items i s
            ≡ has_span self.old.spans.items i s) }
    {
        'seek: for index in 0..self.spans.len() {
            if self.spans[index].count == count {
                return self.spans[index].serials.put(alloc, serial);
            }
        }
        self.spans.push(SpanTouches {
            count,
            serials: Serials::One(serial),
        })?;
        Ok(())
    }

    /// Takes the writes of an entry out, if there are any. It takes no memory.
    pub(crate) fn remove(&mut self, serial: u64)
        ensures { (i s : ℕ) → has_span self.new.spans.items i s
            ≡ cond (nat_eq serial s) false (has_span self.old.spans.items i s) }
    {
        'take: for index in 0..self.spans.len() {
            self.spans[index].serials.take(serial);
        }
    }

    /// The first entry after a serial that wrote the cell of an index.
    pub(crate) fn first_at(&self, index: u32, serial: u64) -> Option<u64>
        ensures { IsFirst (has_span self.now.spans.items index) serial result }
    {
        let mut first = None;
        for span in &self.spans {
            first = sooner(first, first_of(span, index, serial));
        }
        first
    }
}
