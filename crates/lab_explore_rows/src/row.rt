//! Rows: what each object holds at a state, by numbers.

ghost use Rattle.std.specs.Prelude.{◌≡◌, ◌<◌, ◌≤◌, ◌^◌, [], IfOk, OnOk, length, take};
ghost use Rattle.lab_explore_rows.specs.Puts.{PutsAt};
ghost use Rattle.lab_explore_rows.specs.Rows.{cut};

use om_seq::AllocResult;
use std::alloc::Global;
use std::marker::Model;

/// The entries of a state. Where there is none any more, they are 0.
///
/// Contracts see the list of entries.
#[derive(Drop)]
pub struct Row {
    entries: Vec<u32>,
}

impl Model for Row {
    ghost use Rattle.std.specs.Prelude.{List, ℕ};

    ghost Value = { List ℕ };

    ghost view = { λ r. r.entries.items };
}

impl Row {
    /// The row of the start. It takes no memory.
    pub fn new(alloc: Global) -> Row
        ensures { result ≡ [] }
    {
        Row {
            entries: Vec::new(alloc),
        }
    }

    /// A copy. Its only error is out of memory.
    pub fn copy(&self, alloc: Global) -> AllocResult<Row>
        ensures { IfOk result (λ row. row ≡ self.now) }
    {
        Ok(Row {
            entries: Vec::from_slice(alloc, self.entries.as_slice())?,
        })
    }

    /// Puts the entry of an object of this number. The only error is out of memory; then no more is said of the row.
    pub fn put(&mut self, place: u32, entry: u32) -> AllocResult<()>
        ensures { OnOk result (PutsAt place entry self.old self.new) }
    {
        put_at(&mut self.entries, place as usize, entry)
    }

    /// The entries without the zeros at the end.
    pub fn cut(&self) -> &[u32]
        ensures { result.now ≡ cut self.now }
    {
        let entries = self.entries.as_slice();
        &entries[..cut_len(entries)]
    }
}

// Puts an entry at a place. The only error is out of memory.
fn put_at(entries: &mut Vec<u32>, place: usize, entry: u32) -> AllocResult<()>
    requires { place < 2 ^ 32 }
    ensures { OnOk result (PutsAt place entry entries.old.items entries.new.items) }
{
    if entries.len() <= place {
        return put_behind(entries, place, entry);
    }
    entries[place] = entry;
    Ok(())
}

// Puts an entry at a place behind all others, with zeros between. The only error is out of memory.
fn put_behind(entries: &mut Vec<u32>, place: usize, entry: u32) -> AllocResult<()>
    requires in_range { place < 2 ^ 32 }
    requires behind { length entries.old.items ≤ place }
    ensures { OnOk result (PutsAt place entry entries.old.items entries.new.items) }
{
    entries.resize(place + 1, 0)?;
    entries[place] = entry;
    Ok(())
}

// How many entries there are without the zeros at the end.
fn cut_len(entries: &[u32]) -> usize
    ensures cut { take result entries.now ≡ cut entries.now }
    ensures within { result ≤ length entries.now }
{
    let mut len = entries.len();
    while len > 0 && entries[len - 1] == 0 {
        len -= 1;
    }
    len
}
