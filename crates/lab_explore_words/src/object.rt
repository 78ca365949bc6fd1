//! The words of objects.

ghost use Rattle.std.specs.Prelude.{◌≡◌, ◌++◌, ◌∷◌, OnOk};
ghost use Rattle.lab_explore_words.specs.Lists.{number_words, name_words};
ghost use Rattle.lab_explore_words.specs.Objects.{object_words};

use crate::plain::{push_name, push_number};
use om_foot::{Name, Obj};
use om_seq::AllocResult;

/// Appends the words of an object. Its only error is out of memory; then some of them may stand there.
pub fn push_object(object: &Obj, out: &mut Vec<u32>) -> AllocResult<()>
    ensures { OnOk result (out.new.items ≡ out.old.items ++ object_words object.now) }
{
    match object {
        Obj::Control(worker) => push_numbered(0, u64::from(*worker), out),
        Obj::Cell {
            task,
            frame,
            slot,
            index,
        } => {
            push_named(1, task, out)?;
            push_number(*frame, out)?;
            push_number(u64::from(*slot), out)?;
            push_number(u64::from(*index), out)
        }
        Obj::Global { variable, index } => {
            push_numbered(2, u64::from(*variable), out)?;
            push_number(u64::from(*index), out)
        }
        Obj::Task(name) => push_named(3, name, out),
        Obj::Kids(name) => push_named(4, name, out),
        Obj::Pending { team, phase } => {
            push_named(5, team, out)?;
            push_number(*phase, out)
        }
        Obj::Arrived { team, number } => {
            push_named(6, team, out)?;
            push_number(u64::from(*number), out)
        }
        Obj::Work { team, region } => {
            push_named(7, team, out)?;
            push_number(*region, out)
        }
        Obj::Lock(number) => push_numbered(8, u64::from(*number), out),
        Obj::Group(name) => push_named(9, name, out),
        Obj::Output => {
            out.push(10)?;
            Ok(())
        }
        Obj::Events(worker) => push_numbered(11, u64::from(*worker), out),
    }
}

// Appends the word of a kind and the words of a number.
fn push_numbered(kind: u32, number: u64, out: &mut Vec<u32>) -> AllocResult<()>
    ensures { OnOk result (out.new.items ≡ out.old.items ++ (kind ∷ number_words number)) }
{
    out.push(kind)?;
    push_number(number, out)
}

// Appends the word of a kind and the words of a name.
fn push_named(kind: u32, name: &Name, out: &mut Vec<u32>) -> AllocResult<()>
    ensures { OnOk result (out.new.items ≡ out.old.items ++ (kind ∷ name_words name.now)) }
{
    out.push(kind)?;
    push_name(name, out)
}
