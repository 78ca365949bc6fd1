//! The cells of slots that are named at once: the values of a slot lie together.

ghost use Rattle.std.specs.Prelude.{◌≡◌, ◌<◌, ◌≤◌, set, slice_get, ◌∷◌, ◌++◌, [], ℕ, Option, None, Some, true, false, cond, is_some, unwrap_or, length, IsTrue, IfOk, OnOk, OnErr};
ghost use Rattle.std.specs.Prelude.{List};
ghost use Rattle.std.specs.Option.{option_copied};
ghost use Rattle.om_foot.specs.declared.object.Obj.{Obj};
ghost use Rattle.om_foot.specs.declared.object.SlotName.{SlotName};
ghost use Rattle.om_state.specs.declared.step.Update.TheVariants as update;
ghost use Rattle.om_state.specs.declared.value.Val.{Val};
ghost use Rattle.om_state.specs.declared.value.Val.TheVariants as value;
ghost use Rattle.om_foot.specs.Cells.{cell_at};
ghost use Rattle.om_state.specs.Runs.{puts_of, was_puts, were_listed};
ghost use Rattle.om_state.specs.State.{State, updated};
ghost use Rattle.om_cells.specs.Slots.{value_among, values_in, value_in, slot_value, ResetsIn, values_of, ReplacesAll, PutsIn, Grows, SlotsGrow, HasCells, KeepsCells, Mirrors, Writes, WritesAll, olds};

use om_code::frame::Cell;
use om_foot::object::spot_of;
use om_foot::{Access, Cells, Obj, ObjectAccesses, SharedAccess, SharedCells, SlotName};
use om_seq::{AllocResult, Seq};
use om_state::was::Noted;
use om_state::{Run, Val, Was};
use std::alloc::Global;
use std::collections::BTreeMap;
use std::marker::Model;
use std::mem;

/// The cells of a slot, with the values of the first of them. Beside them stand those cells that were
/// named one by one, with their accesses, for all that name them.
///
/// Contracts see the values alone.
#[derive(Drop)]
pub struct SlotPlace {
    cells: SharedCells,
    values: Vec<Val>,
    accesses: BTreeMap<u32, ObjectAccesses>,
}

impl Model for SlotPlace {
    ghost use Rattle.std.specs.Prelude.{List};
    ghost use Rattle.om_state.specs.declared.value.Val.{Val};

    ghost Value = { List Val };

    ghost view = { λ p. p.values.items };
}

/// The slots that are kept.
///
/// Contracts see them with their values, and the value at a cell as `slot_value`.
#[derive(Drop)]
pub struct Slots {
    slots: BTreeMap<SlotName, SlotPlace>,
}

impl Model for Slots {
    ghost use Rattle.om_cells.specs.Slots.{Slots};

    ghost Value = { Slots };

    ghost view = { λ s. s.slots.entries };
}

impl Slots {
    /// No slots. It takes no memory.
    pub fn new(alloc: Global) -> Slots
        ensures { result ≡ [] }
    {
        Slots {
            slots: BTreeMap::new(alloc),
        }
    }

    /// The value that is kept at a cell in its slot.
    pub fn get(&self, object: &Obj) -> Option<&Val>
        ensures { option_copied result ≡ slot_value self.now object.now }
    {
        if self.slots.is_empty() {
            return None;
        }
        let (slot, index) = spot_of(object)?;
        let place = self.slots.get(&slot)?;
        place.values.as_slice().get(index as usize)
    }

    /// Whether a cell is kept in its slot.
    pub fn holds(&self, object: &Obj) -> bool
        ensures { result ≡ is_some (slot_value self.now object.now) }
    {
        match self.get(object) {
            Some(_) => true,
            None => false,
        }
    }

    /// Whether a slot is kept with at least so many cells.
    pub fn has(&self, cells: &Cells) -> bool
        ensures { result ≡ true → HasCells cells.now self.now }
    {
        match self.slots.get(&cells.slot) {
            Some(place) => cells.count as usize <= place.values.len(),
            None => false,
        }
    }

    /// The values of a slot; none where it isn't kept.
    pub fn values(&self, slot: &SlotName) -> &[Val]
        ensures { result.now ≡ values_of self.now slot.now }
    {
        match self.slots.get(slot) {
            Some(place) => place.values.as_slice(),
            None => &[],
        }
    }

    /// Puts a value at a cell that is kept in its slot, and answers the one before. It takes no memory.
    pub fn put(&mut self, object: &Obj, value: Val) -> Val
        requires { is_some (slot_value self.old object.now) ≡ true }
        ensures before { Some result ≡ slot_value self.old object.now }
        ensures after { PutsIn object.now value self.old self.new }
    {
        let Some((slot, index)) = spot_of(object) else {
            unreachable!()
        };
        put(&mut self.slots, &slot, index, value)
    }

    /// Puts the default at an object, where it is a cell that is kept in its slot. It takes no memory.
    pub fn reset(&mut self, object: &Obj)
        ensures { ResetsIn object.now self.old self.new }
    {
        if self.holds(object) {
            drop(self.put(object, Val::Cell(Cell::Unset)));
        }
    }

    /// An access of a cell, shared with all that asked for it where its slot is kept. Its only error is out
    /// of memory.
    pub fn share(&mut self, alloc: Global, access: &Access) -> AllocResult<SharedAccess>
        ensures shared { IfOk result (λ shared. shared ≡ access.now) }
        ensures stays { (q : Obj) → slot_value self.new q ≡ slot_value self.old q }
    {
        match spot_of(&access.object) {
            Some(spot) => share(alloc, &mut self.slots, &spot, access),
            None => SharedAccess::new(alloc, access),
        }
    }

    /// Keeps cells of a slot, with the values that they hold, and answers them, shared. No value changes,
    /// also when out of memory.
    pub fn keep(&mut self, alloc: Global, cells: &Cells) -> AllocResult<SharedCells>
        ensures shared { IfOk result (λ shared. shared ≡ cells.now) }
        ensures grown { SlotsGrow self.old self.new }
        ensures kept { OnOk result (KeepsCells (λ q. is_some (slot_value self.new q)) cells.now) }
    {
        know(alloc, &mut self.slots, cells)?;
        keep_known(alloc, &mut self.slots, cells)
    }

    /// Puts values into so many cells of a slot, which are kept. It takes no memory.
    pub fn put_all(&mut self, cells: &Cells, was: Seq<Was>)
        requires { HasCells cells.now self.old }
        ensures { ReplacesAll cells.now (were_listed was) self.old self.new }
    {
        put_all(&mut self.slots, cells, was);
    }
}

// Puts a value at a place of a slot, where one is kept, and answers the one before.
fn put(slots: &mut BTreeMap<SlotName, SlotPlace>, slot: &SlotName, index: u32, value: Val) -> Val
    requires { is_some (value_among (values_in slots.old.entries slot.now) index) ≡ true }
    ensures before { Some result ≡ value_among (values_in slots.old.entries slot.now) index }
    ensures after { PutsIn (cell_at slot.now index) value slots.old.entries slots.new.entries }
{
    match slots.get_mut(slot) {
        Some(place) => place.put(index, value),
        None => unreachable!(),
    }
}

// An access of a cell of a slot, shared with all that asked for it where the slot is kept.
fn share(
    alloc: Global,
    slots: &mut BTreeMap<SlotName, SlotPlace>,
    spot: &(SlotName, u32),
    access: &Access,
) -> AllocResult<SharedAccess>
    ensures shared { IfOk result (λ shared. shared ≡ access.now) }
    ensures stays { (q : Obj) → slot_value slots.new.entries q ≡ slot_value slots.old.entries q }
{
    match slots.get_mut(&spot.0) {
        Some(place) => place.share(alloc, spot.1, access),
        None => SharedAccess::new(alloc, access),
    }
}

// Makes a slot known. What is kept stays, also when out of memory.
fn know(alloc: Global, slots: &mut BTreeMap<SlotName, SlotPlace>, cells: &Cells) -> AllocResult<()>
    ensures same { (q : Obj) → slot_value slots.new.entries q ≡ slot_value slots.old.entries q }
    ensures known { OnOk result (is_some (values_in slots.new.entries cells.now.slot) ≡ true) }
{
    if slots.contains_key(&cells.slot) {
        return Ok(());
    }
    let place = SlotPlace::new(alloc, cells)?;
    drop(slots.insert(cells.slot, place)?);
    Ok(())
}

// Keeps cells of a slot that is known, with the values that they hold.
fn keep_known(
    alloc: Global,
    slots: &mut BTreeMap<SlotName, SlotPlace>,
    cells: &Cells,
) -> AllocResult<SharedCells>
    requires { is_some (values_in slots.old.entries cells.now.slot) ≡ true }
    ensures shared { IfOk result (λ shared. shared ≡ cells.now) }
    ensures grown { SlotsGrow slots.old.entries slots.new.entries }
    ensures kept { OnOk result
        (KeepsCells (λ q. is_some (slot_value slots.new.entries q)) cells.now) }
{
    match slots.get_mut(&cells.slot) {
        Some(place) => place.keep(alloc, cells),
        None => unreachable!(),
    }
}

// Puts values into so many cells of a slot that is kept.
fn put_all(slots: &mut BTreeMap<SlotName, SlotPlace>, cells: &Cells, was: Seq<Was>)
    requires { HasCells cells.now slots.old.entries }
    ensures { ReplacesAll cells.now (were_listed was) slots.old.entries slots.new.entries }
{
    match slots.get_mut(&cells.slot) {
        Some(place) => put_was(&mut place.values, cells.count, was),
        None => unreachable!(),
    }
}

impl SlotPlace {
    // Cells of a slot, without values. Its only error is out of memory.
    fn new(alloc: Global, cells: &Cells) -> AllocResult<SlotPlace>
        ensures { IfOk result (λ place. place ≡ []) }
    {
        Ok(SlotPlace {
            cells: SharedCells::of(alloc, cells)?,
            values: Vec::new(alloc),
            accesses: BTreeMap::new(alloc),
        })
    }

    // Puts a value at an index, and answers the one before.
    fn put(&mut self, index: u32, value: Val) -> Val
        requires { is_some (slice_get self.old index) ≡ true }
        ensures before { Some result ≡ slice_get self.old index }
        ensures after { self.new ≡ set self.old index value }
    {
        mem::replace(&mut self.values[index as usize], value)
    }

    // An access of the cell at an index, shared with all that asked for it.
    fn share(&mut self, alloc: Global, index: u32, access: &Access) -> AllocResult<SharedAccess>
        ensures shared { IfOk result (λ shared. shared ≡ access.now) }
        ensures stays { self.new ≡ self.old }
    {
        if let Some(accesses) = self.accesses.get_mut(&index) {
            return accesses.share(alloc, access);
        }
        let mut accesses = ObjectAccesses::of(alloc, &access.object)?;
        let shared = accesses.share(alloc, access)?;
        drop(self.accesses.insert(index, accesses)?);
        Ok(shared)
    }

    // Keeps so many of its cells, and answers them, shared.
    fn keep(&mut self, alloc: Global, cells: &Cells) -> AllocResult<SharedCells>
        ensures shared { IfOk result (λ shared. shared ≡ cells.now) }
        ensures grown { Grows self.old self.new }
        ensures enough { OnOk result (cells.now.count ≤ length self.new) }
    {
        grow(&mut self.values, cells.count)?;
        self.cells.share(alloc, cells)
    }
}

// Has at least so many values; those that are new are unset. When out of memory, there may be more of
// them.
fn grow(values: &mut Vec<Val>, count: u32) -> AllocResult<()>
    ensures grown { Grows values.old.items values.new.items }
    ensures enough { OnOk result (count ≤ length values.new.items) }
{
    let more = (count as usize).saturating_sub(values.len());
    values.reserve_exact(more)?;
    while values.len() < count as usize {
        values.push(Val::Cell(Cell::Unset))?;
    }
    Ok(())
}

/// What the first cells of a slot hold. Its only error is out of memory.
pub fn noted(alloc: Global, values: &[Val], count: u32) -> AllocResult<Seq<Was>>
    requires { count ≤ length values.now }
    ensures { IfOk result (λ was. (slot : SlotName) (s : List Val → State) → Mirrors slot count s
        → were_listed was ≡ olds slot 0 count (s values.now)) }
{
    let mut noted = Noted::new(alloc);
    for index in 0..count {
        noted.note(alloc, &values[index as usize])?;
    }
    noted.into_seq()
}

// Puts a value at an index below a limit, and answers the next index.
fn put_at(values: &mut Vec<Val>, index: u32, count: u32, value: Val) -> u32
    requires enough { count ≤ length values.old.items }
    requires within { index ≤ count }
    ensures within { result ≤ count }
    ensures same_length { length values.new.items ≡ length values.old.items }
    ensures written { Writes (update.Put value ∷ []) count index result values.old.items
        values.new.items }
{
    if index < count {
        drop(mem::replace(&mut values[index as usize], value));
        index + 1
    } else {
        drop(value);
        index
    }
}

// Puts the values of a run from an index on, up to a limit, and answers the next index.
fn put_run(values: &mut Vec<Val>, from: u32, count: u32, run: &Run) -> u32
    requires enough { count ≤ length values.old.items }
    requires within { from ≤ count }
    ensures within { result ≤ count }
    ensures same_length { length values.new.items ≡ length values.old.items }
    ensures written { Writes (puts_of run.now.cell run.now.count) count from result values.old.items
        values.new.items }
{
    let mut index = from;
    for _turn in 0..run.count {
        index = put_at(values, index, count, Val::Cell(run.cell));
    }
    index
}

// Puts values from an index on, up to a limit, and answers the next index.
fn put_one(values: &mut Vec<Val>, index: u32, count: u32, was: Was) -> u32
    requires enough { count ≤ length values.old.items }
    requires within { index ≤ count }
    ensures within { result ≤ count }
    ensures same_length { length values.new.items ≡ length values.old.items }
    ensures written { Writes (was_puts was) count index result values.old.items values.new.items }
{
    match was {
        Was::Cells(run) => put_run(values, index, count, &run),
        Was::Value(value) => put_at(values, index, count, value),
    }
}

// Puts values at the first indexes, up to a limit.
fn put_was(values: &mut Vec<Val>, count: u32, was: Seq<Was>)
    requires { count ≤ length values.old.items }
    ensures written { WritesAll (were_listed was) count values.old.items values.new.items }
    ensures same_length { length values.new.items ≡ length values.old.items }
{
    let mut index = 0;
    for each in was.into_vec() {
        index = put_one(values, index, count, each);
    }
}
