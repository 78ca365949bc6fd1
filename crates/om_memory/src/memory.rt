//! The memory of a run: what each object holds, the controls of the workers among them.

ghost use Rattle.std.specs.Prelude.{◌≡◌, ◌<◌, [], All, true, false, IfOk, OnOk, OnErr, unwrap_or, neg_ℤ, length};
ghost use Rattle.std.specs.Option.{option_copied};
ghost use Rattle.om_foot.specs.declared.object.Obj.{Obj};
ghost use Rattle.om_foot.specs.declared.object.Obj.TheVariants as obj;
ghost use Rattle.om_state.specs.declared.value.Val.TheVariants as value;
ghost use Rattle.om_state.specs.declared.value.Task.TheVariants as task;
ghost use Rattle.om_state.specs.Edits.{changed, HaveRoom};
ghost use Rattle.om_state.specs.Values.{default_of, control_in, is_idle, cell_in, task_in, number_in, holder_in, count_of, items_of, value_plus, value_with, value_cut, SumFits};
ghost use Rattle.om_state.specs.State.{with_value, updated, taken_back, undo_record};
ghost use Rattle.om_foot.specs.Cells.{cells_of};
ghost use Rattle.om_state.specs.Runs.{puts_of, were_listed};
ghost use Rattle.om_state.specs.Ready.{is_ready_at, AreReady, IsNext};
ghost use Rattle.om_memory.specs.Memories.{worker_of, is_trailed, plain_or_idle, state_of, is_kept, pasts_of, noted_at, popped_at, begun_at, first_or, GrowTo};

use crate::control::Control;
use crate::copy::plain_of;
use crate::live::control_of;
use crate::trail::Trail;
use om_cells::Store as Values;
use om_code::frame::Cell;
use om_foot::{Access, Cells, Name, Obj, SharedAccess, SharedCells};
use om_seq::{AllocResult, Seq};
use om_state::{Control as PlainControl, Edit, SharedControl, Tail, Task, Val, Was};
use std::alloc::Global;
use std::mem;

/// A total map from objects to values: an object that isn't kept holds its default.
///
/// The workers' controls are changed in place, and their trails keep what takes each change back.
/// Contracts see it as the state `state_of`, whether an object is kept as `is_kept`, and what
/// the controls were before their changes as `pasts_of`. What is kept can be put back without a
/// request for memory.
pub struct Memory {
    // The controls of the first workers; the others are idle.
    trails: Vec<Trail>,
    // What the other objects hold.
    values: Values,
}

// By hand: other crates call this, and do not prove anew how each part is dropped.
impl Drop for Memory {
    fn drop(self) {
        let Memory { trails, values } = self;
        drop(trails);
        drop(values);
    }
}

/// The worker whose control an object is, if it is one.
pub fn worker_of(object: &Obj) -> Option<u8>
    ensures { result ≡ worker_of object.now }
{
    let Obj::Control(worker) = object else {
        return None;
    };
    Some(*worker)
}

// Has trails up to that of this worker; those that are new are idle. When out of memory, there may
// be more of them.
fn grow(alloc: Global, trails: &mut Vec<Trail>, worker: u8) -> AllocResult<()>
    ensures grown { GrowTo trails.old.items trails.new.items }
    ensures enough { OnOk result (worker < length trails.new.items) }
{
    while trails.len() <= worker as usize {
        trails.push(Trail::of(alloc, Control::Idle))?;
    }
    Ok(())
}

impl Memory {
    /// The memory in which each object holds its default. It takes no memory.
    pub fn new(alloc: Global) -> Memory
        ensures state { state_of result ≡ default_of }
        ensures pasts { pasts_of result ≡ (λ q. []) }
    {
        Memory {
            trails: Vec::new(alloc),
            values: Values::new(alloc),
        }
    }

    /// The control of a worker; `None` stands for an idle one.
    pub fn control(&self, worker: u8) -> Option<&Control>
        ensures { plain_or_idle (option_copied result)
            ≡ control_in (state_of self.now (obj.Control worker)) }
    {
        let trail = self.trails.get(worker as usize)?;
        Some(trail.control())
    }

    /// Whether a worker is idle.
    pub fn is_idle(&self, worker: u8) -> bool
        ensures { result ≡ is_idle (control_in (state_of self.now (obj.Control worker))) }
    {
        matches!(self.control(worker), None | Some(Control::Idle))
    }

    // What an object that is no control holds, where it is kept; `None` stands for the default.
    fn value(&self, object: &Obj) -> Option<&Val>
        requires { is_trailed object.now ≡ false }
        ensures { unwrap_or (option_copied result) (default_of object.now)
            ≡ state_of self.now object.now }
    {
        self.values.get(object)
    }

    /// The cell that a cell of a variable holds.
    pub fn cell(&self, alloc: Global, object: &Obj) -> Cell
        requires { is_trailed object.now ≡ false }
        ensures { result ≡ cell_in (state_of self.now object.now) }
    {
        match self.value(object) {
            Some(value) => value.cell(),
            None => {
                let value = Val::default_at(alloc, object);
                let cell = value.cell();
                drop(value);
                cell
            }
        }
    }

    /// The task of a name; `None` stands for one that was never made.
    pub fn task(&self, name: &Name) -> Option<&Task>
        ensures { unwrap_or (option_copied result) task.Absent
            ≡ task_in (state_of self.now (obj.Task name.now)) }
    {
        self.value(&Obj::Task(*name))?.task()
    }

    /// The names of all tasks that are ready to be begun, ascending. Its only error is out of
    /// memory.
    pub fn ready(&self, alloc: Global) -> AllocResult<Vec<Name>>
        ensures { IfOk result (λ v. AreReady (state_of self.now) v.items) }
    {
        self.values.ready(alloc)
    }

    /// The least name behind another one, or of all, whose task is ready to be begun; `None` where
    /// there is none.
    pub fn next_ready(&self, after: Option<&Name>) -> Option<Name>
        ensures { IsNext (is_ready_at (state_of self.now)) (option_copied after.entry) result }
    {
        self.values.next_ready(after)
    }

    /// The number that an object that is no control holds, or 0.
    pub fn number(&self, alloc: Global, object: &Obj) -> u64
        requires { is_trailed object.now ≡ false }
        ensures { result ≡ number_in (state_of self.now object.now) }
    {
        match self.value(object) {
            Some(value) => value.number(),
            None => {
                let value = Val::default_at(alloc, object);
                let number = value.number();
                drop(value);
                number
            }
        }
    }

    /// The worker that holds the lock of this number, if one does.
    pub fn holder(&self, lock: u32) -> Option<u8>
        ensures { result ≡ holder_in (state_of self.now (obj.Lock lock)) }
    {
        self.value(&Obj::Lock(lock))?.holder()
    }

    /// The count that an object that is no control holds, if it holds one.
    pub fn count(&self, alloc: Global, object: &Obj) -> Option<i128>
        requires { is_trailed object.now ≡ false }
        ensures { result ≡ count_of (state_of self.now object.now) }
    {
        match self.value(object) {
            Some(value) => value.count(),
            None => {
                let value = Val::default_at(alloc, object);
                let count = value.count();
                drop(value);
                count
            }
        }
    }

    /// How many items the output or a worker's events hold.
    pub fn items(&self, object: &Obj) -> usize
        requires no_control { is_trailed object.now ≡ false }
        requires kept { is_kept self.now object.now ≡ true }
        ensures { result ≡ items_of (state_of self.now object.now) }
    {
        self.values.kept(object).items()
    }

    // A copy of what an object that is no control holds.
    fn copy_value(&self, alloc: Global, object: &Obj) -> AllocResult<Val>
        requires { is_trailed object.now ≡ false }
        ensures { IfOk result (λ value. value ≡ state_of self.now object.now) }
    {
        match self.value(object) {
            Some(value) => value.copy(alloc),
            None => Ok(Val::default_at(alloc, object)),
        }
    }

    /// A copy of what an object holds; its only error is out of memory.
    pub fn copy_at(&self, alloc: Global, object: &Obj) -> AllocResult<Val>
        ensures { IfOk result (λ value. value ≡ state_of self.now object.now) }
    {
        let Some(worker) = worker_of(object) else {
            return self.copy_value(alloc, object);
        };
        let Some(control) = self.control(worker) else {
            return Ok(Val::Control(SharedControl::idle()));
        };
        let copy = plain_of(alloc, control)?;
        Ok(Val::Control(SharedControl::of(alloc, copy)?))
    }

    /// Keeps the object of an access, with the value that it holds, and answers the access, shared with all
    /// that asked for it. No value changes, also when out of memory.
    pub fn keep(&mut self, alloc: Global, access: &Access) -> AllocResult<SharedAccess>
        ensures shared { IfOk result (λ shared. shared ≡ access.now) }
        ensures state { state_of self.new ≡ state_of self.old }
        ensures pasts { pasts_of self.new ≡ pasts_of self.old }
        ensures kept { OnOk result (is_kept self.new access.now.object ≡ true) }
        ensures others_kept { (q : Obj) → is_kept self.old q ≡ true → is_kept self.new q ≡ true }
    {
        match worker_of(&access.object) {
            Some(worker) => {
                self.know_control(alloc, worker)?;
                self.keep_value(alloc, access)
            }
            None => self.keep_value(alloc, access),
        }
    }

    // Keeps the object of an access in `values`, and answers the access, shared. A control is kept there
    // only so that its accesses are shared: what it holds is in its trail. No value changes, also when out of
    // memory.
    fn keep_value(&mut self, alloc: Global, access: &Access) -> AllocResult<SharedAccess>
        ensures shared { IfOk result (λ shared. shared ≡ access.now) }
        ensures state { state_of self.new ≡ state_of self.old }
        ensures pasts { pasts_of self.new ≡ pasts_of self.old }
        ensures kept { OnOk result
            (is_trailed access.now.object ≡ false → is_kept self.new access.now.object ≡ true) }
        ensures others_kept { (q : Obj) → is_kept self.old q ≡ true → is_kept self.new q ≡ true }
    {
        self.values.keep(alloc, access)
    }

    /// Keeps the control of a worker. Its only error is out of memory. No value changes, also then.
    pub fn know_control(&mut self, alloc: Global, worker: u8) -> AllocResult<()>
        ensures state { state_of self.new ≡ state_of self.old }
        ensures pasts { pasts_of self.new ≡ pasts_of self.old }
        ensures kept { OnOk result (is_kept self.new (obj.Control worker) ≡ true) }
        ensures others_kept { (q : Obj) → is_kept self.old q ≡ true → is_kept self.new q ≡ true }
    {
        grow(alloc, &mut self.trails, worker)
    }

    /// Puts the first control of a worker. Its trail begins anew, so no change before it can be taken back.
    /// When out of memory, nothing changes.
    pub fn begin(&mut self, alloc: Global, worker: u8, control: &PlainControl) -> AllocResult<()>
        ensures state { OnOk result (state_of self.new
            ≡ with_value (obj.Control worker) (value.Control control.now) (state_of self.old)) }
        ensures pasts { OnOk result
            (pasts_of self.new ≡ begun_at (obj.Control worker) (pasts_of self.old)) }
        ensures kept { OnOk result (is_kept self.new (obj.Control worker) ≡ true) }
        ensures others_kept { (q : Obj) → is_kept self.old q ≡ true → is_kept self.new q ≡ true }
        ensures same_state_on_error { OnErr result (state_of self.new ≡ state_of self.old) }
        ensures same_pasts_on_error { OnErr result (pasts_of self.new ≡ pasts_of self.old) }
    {
        let control = control_of(alloc, control)?;
        match grow(alloc, &mut self.trails, worker) {
            Ok(()) => {
                let trail = Trail::of(alloc, control);
                drop(mem::replace(&mut self.trails[worker as usize], trail));
                Ok(())
            }
            Err(error) => {
                drop(control);
                Err(error)
            }
        }
    }

    /// Changes a worker's own control by edits, in place. When out of memory, nothing changes.
    pub fn change(&mut self, alloc: Global, worker: u8, edits: Seq<Edit>) -> AllocResult<()>
        requires kept { is_kept self.old (obj.Control worker) ≡ true }
        requires room { HaveRoom edits (control_in (state_of self.old (obj.Control worker))) }
        ensures state { OnOk result (state_of self.new
            ≡ with_value (obj.Control worker)
            (value.Control (changed edits (control_in (state_of self.old (obj.Control worker)))))
            (state_of self.old)) }
        ensures pasts { OnOk result (pasts_of self.new
            ≡ noted_at (obj.Control worker) (state_of self.old) (pasts_of self.old)) }
        ensures kept { (q : Obj) → is_kept self.new q ≡ is_kept self.old q }
        ensures same_state_on_error { OnErr result (state_of self.new ≡ state_of self.old) }
        ensures same_pasts_on_error { OnErr result (pasts_of self.new ≡ pasts_of self.old) }
    {
        self.trails[worker as usize].step(alloc, edits)
    }

    /// Puts a worker's control, as a FORK does for a member. When out of memory, nothing changes.
    pub fn put(&mut self, alloc: Global, worker: u8, control: &PlainControl) -> AllocResult<()>
        requires { is_kept self.old (obj.Control worker) ≡ true }
        ensures state { OnOk result (state_of self.new
            ≡ with_value (obj.Control worker) (value.Control control.now) (state_of self.old)) }
        ensures pasts { OnOk result (pasts_of self.new
            ≡ noted_at (obj.Control worker) (state_of self.old) (pasts_of self.old)) }
        ensures kept { (q : Obj) → is_kept self.new q ≡ is_kept self.old q }
        ensures same_state_on_error { OnErr result (state_of self.new ≡ state_of self.old) }
        ensures same_pasts_on_error { OnErr result (pasts_of self.new ≡ pasts_of self.old) }
    {
        self.trails[worker as usize].become_other(alloc, control)
    }

    /// Takes the latest change of a worker's control back, in place. It takes no memory.
    pub fn undo(&mut self, worker: u8)
        requires { 0 < length (pasts_of self.old (obj.Control worker)) }
        ensures state { state_of self.new
            ≡ with_value (obj.Control worker)
            (first_or (state_of self.old (obj.Control worker))
            (pasts_of self.old (obj.Control worker)))
            (state_of self.old) }
        ensures pasts { pasts_of self.new
            ≡ popped_at (obj.Control worker) (pasts_of self.old) }
        ensures kept { (q : Obj) → is_kept self.new q ≡ is_kept self.old q }
    {
        self.trails[worker as usize].undo();
    }

    /// Puts a value at an object that is no control, which is kept from then on. When out of memory,
    /// nothing changes.
    pub fn create(&mut self, alloc: Global, object: &Obj, value: Val) -> AllocResult<()>
        requires { is_trailed object.now ≡ false }
        ensures state { OnOk result
            (state_of self.new ≡ with_value object.now value (state_of self.old)) }
        ensures pasts { pasts_of self.new ≡ pasts_of self.old }
        ensures kept { OnOk result (is_kept self.new object.now ≡ true) }
        ensures others_kept { (q : Obj) → is_kept self.old q ≡ true → is_kept self.new q ≡ true }
        ensures same_state_on_error { OnErr result (state_of self.new ≡ state_of self.old) }
    {
        self.values.create(alloc, object, value)
    }

    /// Puts a value at an object that is no control and is kept, and answers the one before. It
    /// takes no memory.
    pub fn put_present(&mut self, object: &Obj, value: Val) -> Val
        requires no_control { is_trailed object.now ≡ false }
        requires kept { is_kept self.old object.now ≡ true }
        ensures before { result ≡ state_of self.old object.now }
        ensures state { state_of self.new ≡ with_value object.now value (state_of self.old) }
        ensures pasts { pasts_of self.new ≡ pasts_of self.old }
        ensures kept { (q : Obj) → is_kept self.new q ≡ is_kept self.old q }
    {
        self.values.put_present(object, value)
    }

    /// Adds to the count at an object that is no control and is kept; another value stays. It takes no
    /// memory.
    pub fn add(&mut self, object: &Obj, number: i128)
        requires no_control { is_trailed object.now ≡ false }
        requires kept { is_kept self.old object.now ≡ true }
        requires fits { SumFits (state_of self.old object.now) number }
        ensures state { state_of self.new
            ≡ with_value object.now (value_plus number (state_of self.old object.now))
            (state_of self.old) }
        ensures pasts { pasts_of self.new ≡ pasts_of self.old }
        ensures kept { (q : Obj) → is_kept self.new q ≡ is_kept self.old q }
    {
        self.values.add(object, number);
    }

    /// Takes from the count at an object that is no control and is kept; another value stays. It takes no
    /// memory.
    pub fn subtract(&mut self, object: &Obj, number: i128)
        requires no_control { is_trailed object.now ≡ false }
        requires kept { is_kept self.old object.now ≡ true }
        requires fits { SumFits (state_of self.old object.now) (neg_ℤ number) }
        ensures state { state_of self.new
            ≡ with_value object.now (value_plus (neg_ℤ number) (state_of self.old object.now))
            (state_of self.old) }
        ensures pasts { pasts_of self.new ≡ pasts_of self.old }
        ensures kept { (q : Obj) → is_kept self.new q ≡ is_kept self.old q }
    {
        self.values.subtract(object, number);
    }

    /// Appends to the output or to events at an object that is no control and is kept; another value
    /// stays. When out of memory, nothing changes.
    pub fn append(&mut self, object: &Obj, tail: Tail) -> AllocResult<()>
        requires no_control { is_trailed object.now ≡ false }
        requires kept { is_kept self.old object.now ≡ true }
        ensures state { OnOk result
            (state_of self.new ≡ with_value object.now
            (value_with tail (state_of self.old object.now)) (state_of self.old)) }
        ensures pasts { pasts_of self.new ≡ pasts_of self.old }
        ensures kept { (q : Obj) → is_kept self.new q ≡ is_kept self.old q }
        ensures same_state_on_error { OnErr result (state_of self.new ≡ state_of self.old) }
    {
        self.values.append(object, tail)
    }

    /// Leaves so many items of the output or of events at an object that is no control and is kept;
    /// another value stays. It takes no memory.
    pub fn cut(&mut self, object: &Obj, count: usize)
        requires no_control { is_trailed object.now ≡ false }
        requires kept { is_kept self.old object.now ≡ true }
        ensures state { state_of self.new
            ≡ with_value object.now (value_cut count (state_of self.old object.now))
            (state_of self.old) }
        ensures pasts { pasts_of self.new ≡ pasts_of self.old }
        ensures kept { (q : Obj) → is_kept self.new q ≡ is_kept self.old q }
    {
        self.values.cut(object, count);
    }

    /// Keeps cells of a slot, with the values that they hold, and answers them, shared with all that name
    /// them. No value changes, also when out of memory.
    pub fn keep_cells(&mut self, alloc: Global, cells: &Cells) -> AllocResult<SharedCells>
        ensures shared { IfOk result (λ shared. shared ≡ cells.now) }
        ensures state { state_of self.new ≡ state_of self.old }
        ensures pasts { pasts_of self.new ≡ pasts_of self.old }
        ensures kept { OnOk result
            (All (λ a. is_kept self.new a.object ≡ true) (cells_of cells.now)) }
        ensures others_kept { (q : Obj) → is_kept self.old q ≡ true → is_kept self.new q ≡ true }
    {
        self.values.keep_cells(alloc, cells)
    }

    /// Puts a value into cells of a slot that are kept, and answers what they held. When out of memory,
    /// nothing changes.
    pub fn put_cells(
        &mut self,
        alloc: Global,
        cells: &SharedCells,
        cell: Cell,
    ) -> AllocResult<Seq<Was>>
        requires kept { All (λ a. is_kept self.old a.object ≡ true) (cells_of cells.now) }
        ensures was { IfOk result (λ was. were_listed was
            ≡ undo_record (cells_of cells.now) (puts_of cell cells.now.count) (state_of self.old)) }
        ensures state { OnOk result (state_of self.new
            ≡ updated (cells_of cells.now) (puts_of cell cells.now.count) (state_of self.old)) }
        ensures pasts { pasts_of self.new ≡ pasts_of self.old }
        ensures kept { (q : Obj) → is_kept self.new q ≡ is_kept self.old q }
        ensures same_state_on_error { OnErr result (state_of self.new ≡ state_of self.old) }
    {
        self.values.put_cells(alloc, cells, cell)
    }

    /// Puts what cells of a slot held back into them, which are kept. It takes no memory.
    pub fn put_cells_back(&mut self, cells: &SharedCells, was: Seq<Was>)
        requires kept { All (λ a. is_kept self.old a.object ≡ true) (cells_of cells.now) }
        ensures state { state_of self.new
            ≡ taken_back (cells_of cells.now) (were_listed was) (state_of self.old) }
        ensures pasts { pasts_of self.new ≡ pasts_of self.old }
        ensures kept { (q : Obj) → is_kept self.new q ≡ is_kept self.old q }
    {
        self.values.put_cells_back(cells, was)
    }
}
