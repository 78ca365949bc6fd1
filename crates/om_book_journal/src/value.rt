//! Whether what two objects hold is the same: controls and their parts, tasks, and shared values.

ghost use Rattle.std.specs.Prelude.{◌≡◌, ◌↔◌, IsTrue};

use crate::same::Same;
use om_state::{
    Construct, Context, Control, Frame, Home, OpenShare, Ready, Share, SharedControl, SharedTeam,
    Stack, Task, Team, Val,
};

impl Same for Ready {
    fn is_same(&self, other: &Ready) -> bool {
        self.body == other.body
            && self.line == other.line
            && self.homes.is_same(&other.homes)
            && self.team.is_same(&other.team)
            && self.phase == other.phase
            && self.group.is_same(&other.group)
    }
}

impl Same for Task {
    fn is_same(&self, other: &Task) -> bool {
        match (self, other) {
            (Task::Absent, Task::Absent) => true,
            (Task::Ready(one), Task::Ready(two)) => one.is_same(two),
            (Task::Running(one), Task::Running(two)) => *one == *two,
            (Task::Done, Task::Done) => true,
            _ => false,
        }
    }
}

// Whether a control is an idle one.
fn is_idle(control: &Control) -> bool
    ensures { IsTrue result ↔ (control.now ≡ Control.Idle) }
{
    matches!(control, Control::Idle)
}

impl Same for SharedControl {
    fn is_same(&self, other: &SharedControl) -> bool {
        match (self.get(), other.get()) {
            (Some(one), Some(two)) => one.is_same(two),
            (Some(one), None) => is_idle(one),
            (None, Some(two)) => is_idle(two),
            (None, None) => true,
        }
    }
}

impl Same for Val {
    fn is_same(&self, other: &Val) -> bool {
        match (self, other) {
            (Val::Control(one), Val::Control(two)) => one.is_same(two),
            (Val::Cell(one), Val::Cell(two)) => one.is_same(two),
            (Val::Task(one), Val::Task(two)) => one.is_same(two),
            (Val::Count(one), Val::Count(two)) => *one == *two,
            (Val::Number(one), Val::Number(two)) => *one == *two,
            (Val::Lock(one), Val::Lock(two)) => one.is_same(two),
            (Val::Output(one), Val::Output(two)) => one.is_same(two),
            (Val::Events(one), Val::Events(two)) => one.is_same(two),
            _ => false,
        }
    }
}

impl Same for Home {
    fn is_same(&self, other: &Home) -> bool {
        match (self, other) {
            (Home::Own, Home::Own) => true,
            (
                Home::Elsewhere { task, frame, slot },
                Home::Elsewhere {
                    task: other_task,
                    frame: other_frame,
                    slot: other_slot,
                },
            ) => task.is_same(other_task) && frame == other_frame && slot == other_slot,
            _ => false,
        }
    }
}

impl Same for Frame {
    fn is_same(&self, other: &Frame) -> bool {
        self.body == other.body
            && self.next == other.next
            && self.ordinal == other.ordinal
            && self.operands.is_same(&other.operands)
            && self.homes.is_same(&other.homes)
    }
}

impl Same for Team {
    fn is_same(&self, other: &Team) -> bool {
        self.name.is_same(&other.name)
            && self.number == other.number
            && self.size == other.size
            && self.level == other.level
    }
}

impl Same for SharedTeam {
    fn is_same(&self, other: &SharedTeam) -> bool {
        self.get().is_same(other.get())
    }
}

impl Same for Share {
    fn is_same(&self, other: &Share) -> bool {
        self.sharing == other.sharing
            && self.region == other.region
            && self.count == other.count
            && self.lower == other.lower
            && self.step == other.step
            && self.schedule == other.schedule
            && self.taken == other.taken
            && self.next == other.next
            && self.end == other.end
    }
}

impl Same for OpenShare {
    fn is_same(&self, other: &OpenShare) -> bool {
        self.place().is_same(other.place())
    }
}

impl Same for Construct {
    fn is_same(&self, other: &Construct) -> bool {
        match (self, other) {
            (Construct::Share(one), Construct::Share(two)) => one.is_same(two),
            (Construct::Single { runs: one }, Construct::Single { runs: two }) => *one == *two,
            (Construct::Masked, Construct::Masked) => true,
            (Construct::Critical(one), Construct::Critical(two)) => *one == *two,
            (Construct::Group(one), Construct::Group(two)) => one.is_same(two),
            _ => false,
        }
    }
}

impl Same for Context {
    fn is_same(&self, other: &Context) -> bool {
        self.task.is_same(&other.task)
            && self.kind == other.kind
            && self.team.is_same(&other.team)
            && self.phase == other.phase
            && self.births == other.births
            && self.regions == other.regions
            && self.frames == other.frames
            && self.group.is_same(&other.group)
            && self.constructs.is_same(&other.constructs)
            && self.frame.is_same(&other.frame)
            && self.callers.is_same(&other.callers)
    }
}

impl Same for Stack {
    fn is_same(&self, other: &Stack) -> bool {
        self.top.is_same(&other.top) && self.below.is_same(&other.below)
    }
}

impl Same for Control {
    fn is_same(&self, other: &Control) -> bool {
        match (self, other) {
            (Control::Idle, Control::Idle) => true,
            (Control::Running(one), Control::Running(two)) => one.is_same(two),
            (Control::Faulted(one, mine), Control::Faulted(two, theirs)) => one.is_same(two)
                && mine.is_same(theirs),
            (Control::Ended(one), Control::Ended(two)) => *one == *two,
            _ => false,
        }
    }
}
