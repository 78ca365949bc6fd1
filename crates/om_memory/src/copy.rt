//! Plain copies of controls in the form that is changed in place.

ghost use Rattle.std.specs.Prelude.{◌≡◌, IfOk, map, reverse};
ghost use Rattle.om_memory.specs.Plain.{plain_frame, plain_box, plain_context, plain_held};
ghost use Rattle.om_memory.specs.Plain.{plain_stack, plain_control};

use crate::control::{Context, Control, Frame, Stack};
use crate::live::{shares_of, ties_of};
use om_foot::Shared;
use om_seq::{AllocResult, Pile};
use om_state::{
    Context as PlainContext, Control as PlainControl, Frame as PlainFrame, SharedPile,
    Stack as PlainStack,
};
use std::alloc::Global;

// A plain copy of a frame; its only error is out of memory.
fn plain_frame_of(alloc: Global, frame: &Frame) -> AllocResult<PlainFrame>
    ensures { IfOk result (λ plain. plain ≡ plain_frame frame.now) }
{
    let operands = Vec::from_slice(alloc, frame.operands.as_slice())?;
    Ok(PlainFrame {
        body: frame.body,
        next: frame.next,
        ordinal: frame.ordinal,
        operands: Pile::of(operands),
        homes: frame.homes.copy()?,
    })
}

// The plain stack of frames that wait, the last one on top.
fn plain_callers_of(alloc: Global, frames: &[Box<Frame>]) -> AllocResult<SharedPile<PlainFrame>>
    ensures { IfOk result (λ plain. plain ≡ reverse (map plain_box frames.now)) }
{
    let mut copies = Vec::with_capacity(alloc, frames.len())?;
    for frame in frames {
        copies.push(Shared::of(alloc, plain_frame_of(alloc, frame)?)?)?;
    }
    SharedPile::of(alloc, copies)
}

// A plain copy of a context; its only error is out of memory.
fn plain_context_of(alloc: Global, context: &Context) -> AllocResult<PlainContext>
    ensures { IfOk result (λ plain. plain ≡ plain_context context.now) }
{
    let shares = shares_of(alloc, context.constructs.as_slice())?;
    let constructs = SharedPile::of(alloc, shares)?;
    let callers = plain_callers_of(alloc, context.callers.as_slice())?;
    let frame = plain_frame_of(alloc, &context.frame)?;
    let ties = ties_of(&context.task, &context.team, &context.group)?;
    Ok(PlainContext {
        task: ties.task,
        kind: context.kind,
        team: ties.team,
        phase: context.phase,
        births: context.births,
        regions: context.regions,
        frames: context.frames,
        group: ties.group,
        constructs,
        frame,
        callers,
    })
}

// The plain stack of the contexts below the running one, the last one on top.
fn plain_below_of(alloc: Global, contexts: &[Box<Context>]) -> AllocResult<SharedPile<PlainContext>>
    ensures { IfOk result (λ plain. plain ≡ reverse (map plain_held contexts.now)) }
{
    let mut copies = Vec::with_capacity(alloc, contexts.len())?;
    for context in contexts {
        copies.push(Shared::of(alloc, plain_context_of(alloc, context)?)?)?;
    }
    SharedPile::of(alloc, copies)
}

// A plain copy of a stack.
fn plain_stack_of(alloc: Global, stack: &Stack) -> AllocResult<PlainStack>
    ensures { IfOk result (λ plain. plain ≡ plain_stack stack.now) }
{
    let below = plain_below_of(alloc, stack.below.as_slice())?;
    Ok(PlainStack {
        top: plain_context_of(alloc, &stack.top)?,
        below,
    })
}

/// A plain copy of a control, of which nothing that was taken is a part; its only error is out of
/// memory.
pub fn plain_of(alloc: Global, control: &Control) -> AllocResult<PlainControl>
    ensures { IfOk result (λ plain. plain ≡ plain_control control.now) }
{
    match control {
        Control::Idle => Ok(PlainControl::Idle),
        Control::Running(stack) => Ok(PlainControl::Running(plain_stack_of(alloc, stack)?)),
        Control::Faulted(fault, stack) => {
            Ok(PlainControl::Faulted(*fault, plain_stack_of(alloc, stack)?))
        }
        Control::Ended(value) => Ok(PlainControl::Ended(*value)),
    }
}
