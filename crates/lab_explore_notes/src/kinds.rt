//! What an instruction does to a variable that it accesses.

ghost use Rattle.std.specs.Prelude.{◌≡◌};
ghost use Rattle.lab_explore_closed.specs.Races.{is_data, is_atomic, is_combining, are_atomic_together, ends_lives, kind_of, is_behind};

use lab_explore_closed::{AccessKind, Atomicity, Place};
use om_code::{Function, Instr, Serial, Task, Team};
use om_foot::{Mode, Obj};

/// Whether an object is a cell of a variable.
pub(crate) fn is_data(object: &Obj) -> bool
    ensures { result ≡ is_data object.now }
{
    match object {
        Obj::Cell { .. } => true,
        Obj::Global { .. } => true,
        Obj::Control(_) => false,
        Obj::Task(_) => false,
        Obj::Kids(_) => false,
        Obj::Pending { .. } => false,
        Obj::Arrived { .. } => false,
        Obj::Work { .. } => false,
        Obj::Lock(_) => false,
        Obj::Group(_) => false,
        Obj::Output => false,
        Obj::Events(_) => false,
    }
}

// Whether an access is one of `atomic`.
fn is_atomic(atomicity: Atomicity) -> bool
    ensures { result ≡ is_atomic atomicity }
{
    matches!(atomicity, Atomicity::Atomic)
}

// Whether an access combines: a reduction writes the original, and reads its copy as any other instruction does.
fn is_combining(atomicity: Atomicity, mode: Mode) -> bool
    ensures { result ≡ is_combining atomicity mode }
{
    match atomicity {
        Atomicity::Reduction => matches!(mode, Mode::Write),
        Atomicity::Plain => false,
        Atomicity::Atomic => false,
    }
}

/// Whether accesses of one variable, in these modes, are ordered by being atomic.
pub(crate) fn are_atomic_together(
    first: Atomicity,
    mode: Mode,
    second: Atomicity,
    other: Mode,
) -> bool
    ensures { result ≡ are_atomic_together first mode second other }
{
    (is_atomic(first) && is_atomic(second))
        || (is_combining(first, mode) && is_combining(second, other))
}

// Whether an instruction ends the lives of variables, or makes one unset.
fn ends_lives(instruction: Option<Instr>) -> bool
    ensures { result ≡ ends_lives instruction }
{
    matches!(
        instruction,
        Some(Instr::Serial(Serial::Clear(_)))
            | Some(Instr::Function(Function::Return | Function::ReturnNothing))
            | Some(Instr::Team(Team::Leave))
            | Some(Instr::Task(Task::TaskEnd))
    )
}

/// How an instruction accesses a variable that it touches in a mode.
pub fn kind_of(instruction: Option<Instr>, mode: Mode) -> AccessKind
    ensures { result ≡ kind_of instruction mode }
{
    match mode {
        Mode::Write => write_of(instruction),
        Mode::Read => AccessKind::Reads,
        Mode::Add => AccessKind::Writes,
    }
}

fn write_of(instruction: Option<Instr>) -> AccessKind
    ensures { result ≡ kind_of instruction Mode.Write }
{
    if ends_lives(instruction) {
        AccessKind::Ends
    } else {
        AccessKind::Writes
    }
}

/// Whether a place is behind another one in a pair.
pub(crate) fn is_behind(place: &Place, other: &Place) -> bool
    ensures { result ≡ is_behind place.now other.now }
{
    other.line < place.line
        || (place.line == other.line && other.kind.number() < place.kind.number())
}
