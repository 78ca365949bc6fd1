//! An object that a store keeps no longer.

ghost use Rattle.std.specs.Prelude.{◌≡◌};
ghost use Rattle.om_foot.specs.declared.object.Obj.TheVariants as obj;

use om_cells::Store;
use om_code::frame::Cell;
use om_foot::Obj;
use om_seq::AllocResult;
use om_state::Val;
use std::alloc::Global;

// A cell of a global variable.
fn global(index: u32) -> Obj
    ensures { result ≡ obj.Global 0 index }
{
    Obj::Global { variable: 0, index }
}

// Whether what a store keeps for an object is this int.
fn holds(store: &Store, object: &Obj, number: i32) -> bool {
    match store.get(object) {
        Some(value) => value.cell() == Cell::Int(number),
        None => false,
    }
}

/// Whether `remove` leaves nothing but the default at its object, and leaves another object as it
/// is.
pub(crate) fn is_removed_alone(alloc: Global) -> AllocResult<bool> {
    let mut store = Store::new(alloc);
    store.create(alloc, &global(0), Val::Cell(Cell::Int(7)))?;
    store.create(alloc, &global(1), Val::Cell(Cell::Int(8)))?;
    let kept = holds(&store, &global(0), 7) && holds(&store, &global(1), 8);
    store.remove(&global(0));
    let gone = store.get(&global(0)).is_none();
    Ok(kept && gone && holds(&store, &global(1), 8))
}
