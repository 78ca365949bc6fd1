//! The objects that a step may change.

ghost use Rattle.std.specs.Prelude.{◌≡◌, None, Some, IfOk, OnOk};
ghost use Rattle.om_undo.specs.Machines.{state_in};
ghost use Rattle.lab_explore_rows.specs.Rows.{IsEntry, IsRow, IsRowBut};
ghost use Rattle.lab_explore_rows.specs.Tables.{Extends, place_of};
ghost use Rattle.lab_explore_states.specs.Touched.{AreBy, ArePlaced, Covers, IsStartBut, Notes, changes, objects_of, start_at};

use lab_explore_rows::{Row, Tables};
use lab_explore_words::laws::distinct_objects;
use om_foot::{Access, Mode, Obj};
use om_seq::AllocResult;
use om_undo::Machine;
use std::alloc::Global;

/// An object that a step may change, with its number.
#[derive(Drop)]
pub(crate) struct Touched {
    pub(crate) object: Obj,
    pub(crate) place: u32,
}

// Whether an access may change what its object holds.
fn changes(mode: Mode) -> bool
    ensures { result ≡ changes mode }
{
    match mode {
        Mode::Read => false,
        Mode::Write => true,
        Mode::Add => true,
    }
}

/// The objects that these accesses of a step at a machine may change, with their numbers. The only error is out of
/// memory; no number changes.
pub(crate) fn touched_by(
    tables: &mut Tables,
    alloc: Global,
    machine: &Machine,
    accesses: &[Access],
) -> AllocResult<Vec<Touched>>
    requires by_start { AreBy (start_at machine.now) tables.old }
    requires start { IsStartBut (start_at machine.now) tables.old (state_in machine.now) }
    ensures placed { IfOk result (λ touched. ArePlaced tables.new touched.items) }
    ensures covers { IfOk result (λ touched. Covers accesses.now (objects_of touched.items)) }
    ensures by_start { AreBy (start_at machine.now) tables.new }
    ensures extends { Extends tables.old tables.new }
{
    let mut touched = Vec::new(alloc);
    for access in accesses {
        note(tables, alloc, machine, access, &mut touched)?;
    }
    Ok(touched)
}

// Notes the object of an access that may change it.
fn note(
    tables: &mut Tables,
    alloc: Global,
    machine: &Machine,
    access: &Access,
    touched: &mut Vec<Touched>,
) -> AllocResult<()>
    requires by_start { AreBy (start_at machine.now) tables.old }
    requires start { IsStartBut (start_at machine.now) tables.old (state_in machine.now) }
    requires placed { ArePlaced tables.old touched.old.items }
    ensures placed { OnOk result (ArePlaced tables.new touched.new.items) }
    ensures notes { OnOk result (Notes access.now (objects_of touched.old.items)
        (objects_of touched.new.items)) }
    ensures by_start { AreBy (start_at machine.now) tables.new }
    ensures extends { Extends tables.old tables.new }
{
    if !changes(access.mode) {
        return Ok(());
    }
    let object = &access.object;
    let place = placed(tables, alloc, machine, object)?;
    touched.push(Touched {
        object: *object,
        place,
    })?;
    Ok(())
}

// The number of an object, which gets one if it has none: then it holds at the machine what it holds at the start.
fn placed(tables: &mut Tables, alloc: Global, machine: &Machine, object: &Obj) -> AllocResult<u32>
    requires by_start { AreBy (start_at machine.now) tables.old }
    requires start { IsStartBut (start_at machine.now) tables.old (state_in machine.now) }
    ensures place { IfOk result (λ place. place_of tables.new object.now ≡ Some place) }
    ensures by_start { AreBy (start_at machine.now) tables.new }
    ensures extends { Extends tables.old tables.new }
{
    match tables.place(alloc, object)? {
        Some(place) => Ok(place),
        None => {
            let start = machine.look(alloc, object)?;
            tables.know(alloc, object, &start)
        }
    }
}

/// Puts the entries of these objects at a machine into a row that says what all others hold there. The only error is
/// out of memory; no number changes.
pub(crate) fn put_touched(
    tables: &mut Tables,
    alloc: Global,
    machine: &Machine,
    touched: &[Touched],
    row: &mut Row,
) -> AllocResult<()>
    requires by_start { AreBy (start_at machine.now) tables.old }
    requires placed { ArePlaced tables.old touched.now }
    requires others { IsRowBut tables.old (start_at machine.now) (objects_of touched.now) row.old
        (state_in machine.now) }
    ensures row { OnOk result (IsRow tables.new (start_at machine.now) row.new (state_in machine.now)) }
    ensures by_start { AreBy (start_at machine.now) tables.new }
    ensures extends { Extends tables.old tables.new }
{
    distinct_objects();
    for one in touched {
        let entry = entry_of(tables, alloc, machine, one)?;
        row.put(one.place, entry)?;
    }
    Ok(())
}

// The entry of what an object holds at a machine. The only error is out of memory; no number changes.
fn entry_of(
    tables: &mut Tables,
    alloc: Global,
    machine: &Machine,
    one: &Touched,
) -> AllocResult<u32>
    requires by_start { AreBy (start_at machine.now) tables.old }
    requires placed { place_of tables.old one.now.object ≡ Some one.now.place }
    ensures entry { IfOk result (λ entry. IsEntry tables.new.values entry
        (state_in machine.now one.now.object) (start_at machine.now one.now.object)) }
    ensures by_start { AreBy (start_at machine.now) tables.new }
    ensures extends { Extends tables.old tables.new }
    ensures objects { tables.new.objects ≡ tables.old.objects }
{
    let value = machine.look(alloc, &one.object)?;
    let entry = tables.entry(alloc, one.place, &value)?;
    Ok(entry)
}
