//! Objects as a name and what is left of them.

ghost use Rattle.std.specs.Prelude.{◌≡◌};
ghost use Rattle.std.specs.Option.{option_copied};
ghost use Rattle.om_foot.specs.Parts.{name_of, part_of};

use crate::name::Name;
use crate::object::Obj;

/// What tells an object among those of its name, or among those without a name. It is small, and
/// compared at once.
#[derive(Clone, Copy, PartialEq, Eq, PartialOrd, Ord)]
pub enum Part {
    Control(u8),
    Cell { frame: u64, slot: u32, index: u32 },
    Global { variable: u32, index: u32 },
    Task,
    Kids,
    Pending(u64),
    Arrived(u8),
    Work(u64),
    Lock(u32),
    Group,
    Output,
    Events(u8),
}

/// The name in an object, if there is one.
pub fn name_of(object: &Obj) -> Option<&Name>
    ensures { option_copied result ≡ name_of object.now }
{
    match object {
        Obj::Cell { task, .. } => Some(task),
        Obj::Task(name) => Some(name),
        Obj::Kids(name) => Some(name),
        Obj::Pending { team, .. } => Some(team),
        Obj::Arrived { team, .. } => Some(team),
        Obj::Work { team, .. } => Some(team),
        Obj::Group(name) => Some(name),
        _ => None,
    }
}

/// What is left of an object without the name in it.
pub fn part_of(object: &Obj) -> Part
    ensures { result ≡ part_of object.now }
{
    match object {
        Obj::Control(worker) => Part::Control(*worker),
        Obj::Cell {
            frame,
            slot,
            index,
            ..
        } => Part::Cell {
            frame: *frame,
            slot: *slot,
            index: *index,
        },
        Obj::Global { variable, index } => Part::Global {
            variable: *variable,
            index: *index,
        },
        Obj::Task(_) => Part::Task,
        Obj::Kids(_) => Part::Kids,
        Obj::Pending { phase, .. } => Part::Pending(*phase),
        Obj::Arrived { number, .. } => Part::Arrived(*number),
        Obj::Work { region, .. } => Part::Work(*region),
        Obj::Lock(lock) => Part::Lock(*lock),
        Obj::Group(_) => Part::Group,
        Obj::Output => Part::Output,
        Obj::Events(worker) => Part::Events(*worker),
    }
}
