//! Kept records by serial.

ghost use Rattle.std.specs.Prelude.{◌≡◌, ℕ, true, ◌<◌, ◌∷◌, ◌++◌, [], Some, None, IfSome, IfNone, OnOk, OnErr, IfErr, vec_len, vec_capacity};
ghost use Rattle.std.specs.Ordering.{nat_cmp};
ghost use Rattle.std.specs.BTreeMap.{is_at};
ghost use Rattle.std.specs.Map.{lookup, remove_entry};
ghost use Rattle.om_undo_history.specs.Rows.{entries_in, AreRising, LastStands, IsAboveAll, IsPlaceOf};

use crate::kept::Kept;
use om_seq::AllocResult;
use std::alloc::Global;
use std::marker::Model;
use std::mem::size_of;

/// The place of a serial. Where its record is taken out it stays while a record is behind it, so that no
/// other one moves, until room is short: `close_gaps` then lets it go.
#[derive(Drop)]
pub(crate) struct Row {
    serial: u64,
    pub kept: Option<Kept>,
}

// Each record has one.
const _: () = prove!(size_of::<Row>() <= 88);

/// Kept records by serial. Each that comes stands behind all others; one is found from the end, or by a
/// binary search.
///
/// Contracts see each record with its serial; the serials rise.
#[derive(Drop)]
pub(crate) struct BySerial {
    rows: Vec<Row>,
    // Whether a row may be without a record. It only says when all rows are worth a look.
    has_gaps: bool,
}

impl Model for BySerial {
    ghost use Rattle.std.specs.Prelude.{ℕ, List};
    ghost use Rattle.om_undo_history.specs.declared.records.UndoRecord.{UndoRecord};
    ghost use Rattle.om_undo_history.specs.Rows.{entries_in, AreRising};

    ghost Value = { List (ℕ × UndoRecord) };

    ghost view = { λ b. entries_in b.rows.items };

    ghost invariant = { λ b. AreRising 0 b.rows.items };
}

// The place of a serial among rows, as far as counting from the end finds it: it does where no
// serial is left out behind it.
fn place_from_end(rows: &[Row], serial: u64) -> Option<usize>
    ensures { IfSome result (IsPlaceOf serial rows.now) }
{
    let (last, earlier) = rows.split_last()?;
    let behind = last.serial.saturating_sub(serial);
    let place = earlier.len().saturating_sub(behind as usize);
    let row = rows.get(place)?;
    (row.serial == serial).then_some(place)
}

// The place of a serial among rows, found by a binary search, if it has one.
fn place_by_search(rows: &[Row], serial: u64) -> Option<usize>
    requires { AreRising 0 rows.now }
    ensures found { IfSome result (IsPlaceOf serial rows.now) }
    ensures none { IfNone result (lookup (is_at (nat_cmp serial)) (entries_in rows.now) ≡ None) }
{
    let place = rows.partition_point(|row| row.serial < serial);
    let row = rows.get(place)?;
    (row.serial == serial).then_some(place)
}

// The place of a serial among rows, if it has one. Few serials are left out, so most are found at once.
fn place(rows: &[Row], serial: u64) -> Option<usize>
    requires { AreRising 0 rows.now }
    ensures found { IfSome result (IsPlaceOf serial rows.now) }
    ensures none { IfNone result (lookup (is_at (nat_cmp serial)) (entries_in rows.now) ≡ None) }
{
    match place_from_end(rows, serial) {
        Some(place) => Some(place),
        None => place_by_search(rows, serial),
    }
}

// Takes out the rows without a record behind the last one that has one. It takes no memory.
fn drop_gone(rows: &mut Vec<Row>)
    requires { AreRising 0 rows.old.items }
    ensures same { entries_in rows.new.items ≡ entries_in rows.old.items }
    ensures rising { AreRising 0 rows.new.items }
    ensures last { LastStands rows.new.items }
{
    while let Some(row) = rows.last() {
        if row.kept.is_some() {
            return;
        }
        drop(rows.pop());
    }
}

// Lets all rows without a record go, if there may be any. It takes no memory.
fn close_gaps(rows: &mut Vec<Row>, has_gaps: bool)
    requires rising { AreRising 0 rows.old.items }
    requires last { LastStands rows.old.items }
    ensures same { entries_in rows.new.items ≡ entries_in rows.old.items }
    ensures rising { AreRising 0 rows.new.items }
    ensures last { LastStands rows.new.items }
{
    if has_gaps {
        rows.retain(|row| row.kept.is_some());
    }
}

// Makes room for one more row. Where there is none, all rows without a record go, if there may be any,
// and then room is asked for until half of it is free. So a row that comes costs amortized constant time,
// as long as memory is given. When out of memory, the records are the same.
fn make_room(rows: &mut Vec<Row>, has_gaps: &mut bool) -> AllocResult<()>
    requires rising { AreRising 0 rows.old.items }
    requires last { LastStands rows.old.items }
    ensures same { entries_in rows.new.items ≡ entries_in rows.old.items }
    ensures rising { AreRising 0 rows.new.items }
    ensures last { LastStands rows.new.items }
    ensures room { OnOk result (vec_len rows.new < vec_capacity rows.new) }
{
    if rows.len() < rows.capacity() {
        return Ok(());
    }
    close_gaps(rows, *has_gaps);
    *has_gaps = false;
    rows.reserve(rows.len().max(1))
}

impl BySerial {
    /// No records. It takes no memory.
    pub(crate) fn new(alloc: Global) -> BySerial
        ensures { result ≡ [] }
    {
        BySerial {
            rows: Vec::new(alloc),
            has_gaps: false,
        }
    }

    /// All rows, in the order of their serials; one may have no record.
    pub(crate) fn rows(&self) -> &[Row]
        ensures { entries_in result.now ≡ self.now }
    {
        self.rows.as_slice()
    }

    /// The record with a serial.
    pub(crate) fn get(&self, serial: u64) -> Option<&Kept>
        ensures found { IfSome result (λ k. lookup (is_at (nat_cmp serial)) self.now ≡ Some k.now) }
        ensures none { IfNone result (lookup (is_at (nat_cmp serial)) self.now ≡ None) }
    {
        let at = place(self.rows.as_slice(), serial)?;
        self.rows[at].kept.as_ref()
    }

    /// Whether the last place is that of a serial, or before it: then no record is behind it.
    pub(crate) fn ends_at(&self, serial: u64) -> bool
        ensures { result ≡ true → (t : ℕ) → serial < t → lookup (is_at (nat_cmp t)) self.now ≡ None }
    {
        let Some(row) = self.rows.last() else {
            return false;
        };
        row.serial <= serial
    }

    /// Adds a record behind all others. When out of memory, no record changes, and this one comes
    /// back.
    pub(crate) fn push(&mut self, made: Kept) -> Result<(), Kept>
        requires some { 0 < made.entry.serial }
        requires latest { IsAboveAll made.entry.serial self.old }
        ensures pushed { OnOk result (self.new ≡ self.old ++ (made.entry.serial, made) ∷ []) }
        ensures unchanged_on_error { OnErr result (self.new ≡ self.old) }
        ensures returned { IfErr result (λ k. k ≡ made) }
    {
        drop_gone(&mut self.rows);
        if make_room(&mut self.rows, &mut self.has_gaps).is_err() {
            return Err(made);
        }
        self.rows.push_reserved(Row {
            serial: made.serial(),
            kept: Some(made),
        });
        Ok(())
    }

    /// Takes the record with a serial out. It takes no memory, and moves no other record.
    pub(crate) fn take(&mut self, serial: u64) -> Option<Kept>
        ensures taken { self.new ≡ remove_entry (is_at (nat_cmp serial)) self.old }
        ensures found { IfSome result (λ k. lookup (is_at (nat_cmp serial)) self.old ≡ Some k) }
        ensures none { IfNone result (lookup (is_at (nat_cmp serial)) self.old ≡ None) }
    {
        let at = place(self.rows.as_slice(), serial)?;
        let kept = self.rows[at].kept.take();
        self.has_gaps |= at + 1 < self.rows.len();
        drop_gone(&mut self.rows);
        kept
    }
}
