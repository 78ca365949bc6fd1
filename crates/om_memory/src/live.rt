//! Makes controls in the form that is changed in place, from plain ones.

ghost use Rattle.std.specs.Prelude.{◌≡◌, IfOk, map};
ghost use Rattle.om_memory.specs.Plain.{plain_frame, plain_box, plain_context, plain_held};
ghost use Rattle.om_memory.specs.Plain.{plain_stack, plain_control};

use crate::control::{Context, Control, Frame, Stack};
use crate::tape::Tape;
use om_foot::{Name, Shared};
use om_seq::AllocResult;
use om_state::{
    Construct, Context as PlainContext, Control as PlainControl, Frame as PlainFrame, SharedTeam,
    Stack as PlainStack,
};
use std::alloc::Global;

// A frame that stands for a plain one; the only error is out of memory.
fn frame_of(alloc: Global, plain: &PlainFrame) -> AllocResult<Box<Frame>>
    ensures { IfOk result (λ b. plain_frame b.value ≡ plain.now) }
{
    let frame = Frame {
        body: plain.body,
        next: plain.next,
        ordinal: plain.ordinal,
        operands: Tape::of(Vec::from_slice(alloc, plain.operands.as_slice())?),
        homes: plain.homes.copy()?,
    };
    Ok(Box::new(alloc, frame)?)
}

// Frames that stand for plain ones, in their order.
fn frames_of(alloc: Global, plain: &[Shared<PlainFrame>]) -> AllocResult<Vec<Box<Frame>>>
    ensures { IfOk result (λ v. map plain_box v.items ≡ plain.now) }
{
    let mut frames = Vec::new(alloc);
    for frame in plain {
        frames.push(frame_of(alloc, frame.get())?)?;
    }
    Ok(frames)
}

/// Shares of regions, in their order.
pub(crate) fn shares_of(
    alloc: Global,
    plain: &[Shared<Construct>],
) -> AllocResult<Vec<Shared<Construct>>>
    ensures { IfOk result (λ v. v.items ≡ plain.now) }
{
    let mut constructs = Vec::new(alloc);
    for construct in plain {
        constructs.push(construct.copy()?)?;
    }
    Ok(constructs)
}

/// What a context has of its task: its name, its place in its team, and the group in which it began.
#[derive(Drop)]
pub(crate) struct Ties {
    pub(crate) task: Shared<Name>,
    pub(crate) team: SharedTeam,
    pub(crate) group: Shared<Option<Name>>,
}

/// These ties, shared once more; the only error is out of memory.
pub(crate) fn ties_of(
    task: &Shared<Name>,
    team: &SharedTeam,
    group: &Shared<Option<Name>>,
) -> AllocResult<Ties>
    ensures { IfOk result
        (λ ties. ties ≡ record { task = task.now; team = team.now; group = group.now }) }
{
    Ok(Ties {
        task: task.copy()?,
        team: team.copy()?,
        group: group.copy()?,
    })
}

/// A context that stands for a plain one; the only error is out of memory.
pub fn context_of(alloc: Global, plain: &PlainContext) -> AllocResult<Box<Context>>
    ensures { IfOk result (λ b. plain_context b.value ≡ plain.now) }
{
    let constructs = shares_of(alloc, plain.constructs.shares().as_slice())?;
    let callers = frames_of(alloc, plain.callers.shares().as_slice())?;
    let frame = frame_of(alloc, &plain.frame)?;
    let ties = ties_of(&plain.task, &plain.team, &plain.group)?;
    let context = Context {
        task: ties.task,
        kind: plain.kind,
        team: ties.team,
        phase: plain.phase,
        births: plain.births,
        regions: plain.regions,
        frames: plain.frames,
        group: ties.group,
        constructs: Tape::of(constructs),
        frame,
        callers: Tape::of(callers),
    };
    Ok(Box::new(alloc, context)?)
}

// Contexts that stand for plain ones, in their order.
fn contexts_of(alloc: Global, plain: &[Shared<PlainContext>]) -> AllocResult<Vec<Box<Context>>>
    ensures { IfOk result (λ v. map plain_held v.items ≡ plain.now) }
{
    let mut contexts = Vec::new(alloc);
    for context in plain {
        contexts.push(context_of(alloc, context.get())?)?;
    }
    Ok(contexts)
}

// A stack that stands for a plain one.
fn stack_of_plain(alloc: Global, plain: &PlainStack) -> AllocResult<Stack>
    ensures { IfOk result (λ s. plain_stack s ≡ plain.now) }
{
    let top = context_of(alloc, &plain.top)?;
    let below = contexts_of(alloc, plain.below.shares().as_slice())?;
    Ok(Stack {
        top,
        below: Tape::of(below),
    })
}

/// A control that stands for a plain one; the only error is out of memory.
pub fn control_of(alloc: Global, plain: &PlainControl) -> AllocResult<Control>
    ensures { IfOk result (λ c. plain_control c ≡ plain.now) }
{
    match plain {
        PlainControl::Idle => Ok(Control::Idle),
        PlainControl::Running(stack) => Ok(Control::Running(stack_of_plain(alloc, stack)?)),
        PlainControl::Faulted(fault, stack) => {
            Ok(Control::Faulted(*fault, stack_of_plain(alloc, stack)?))
        }
        PlainControl::Ended(value) => Ok(Control::Ended(*value)),
    }
}
