//! What is still to be done.

ghost use Rattle.std.specs.Prelude.{◌≡◌, ◌∷◌, map, IfOk, OnOk};
ghost use Rattle.om_undo_history.specs.Choices.{choice_of};
ghost use Rattle.lab_explore_moves.specs.Possible.{label_of_possible};
ghost use Rattle.lab_explore.specs.Acts.{Try, act_of, tries};

use lab_explore_moves::PossibleStep;
use om_foot::Name;
use om_seq::{AllocResult, Pile};
use om_state::{Choice, Label};
use om_undo_history::history::kept_choice;
use std::alloc::Global;

/// What is to be done next.
#[derive(Drop)]
pub(crate) enum Todo {
    /// A step of this worker is tried: the start of the task of this name, or else its next instruction. Names are
    /// large, so the name lies apart.
    Try {
        worker: u8,
        start: Option<Box<Name>>,
    },
    /// The last step that stands is undone; it is this worker's.
    Back(u8),
}

/// The choice that starts the task of this name, if there is one.
pub(crate) fn choice_of(start: &Option<Box<Name>>) -> Choice
    ensures { result ≡ choice_of start.now }
{
    match start {
        Some(name) => Choice::Start(**name),
        None => Choice::Next,
    }
}

// A step as something to be tried. Its only error is out of memory.
fn to_try(alloc: Global, label: &Label) -> AllocResult<Todo>
    ensures { IfOk result (λ todo. act_of todo ≡ Try label.now) }
{
    let start = kept_choice(alloc, &label.choice)?;
    Ok(Todo::Try {
        worker: label.worker,
        start,
    })
}

/// Puts steps on top, the first one lowest. When out of memory, nothing more is said of what is to be done.
pub(crate) fn push_tries(
    alloc: Global,
    steps: &[PossibleStep],
    todos: &mut Pile<Todo>,
) -> AllocResult<()>
    ensures { OnOk result (map act_of todos.new
        ≡ tries (map label_of_possible steps.now) (map act_of todos.old)) }
{
    for step in steps {
        let todo = to_try(alloc, &step.label)?;
        todos.push(todo)?;
    }
    Ok(())
}
