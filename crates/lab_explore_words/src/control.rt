//! The words of controls.

ghost use Rattle.std.specs.Prelude.{◌≡◌, ◌++◌, OnOk, reverse};
ghost use Rattle.lab_explore_words.specs.Lists.{each, list_words};
ghost use Rattle.lab_explore_words.specs.Words.{operand_words, home_words, frame_words, team_words, kind_words, sharing_words, schedule_words, bounds_words, chunk_words, share_words, construct_words, counted_words, running_words, context_words, stack_words, control_words};

use crate::plain::{push_flag, push_int, push_name, push_number, push_some_name};
use om_code::frame::Operand;
use om_code::instruction::Schedule;
use om_foot::Shared;
use om_seq::AllocResult;
use om_state::{Construct, Context, Control, Frame, Home, Kind, Share, Sharing, Stack, Team};

/// Appends the words of a control. Its only error is out of memory; then some may stand there.
pub(crate) fn push_control(control: &Control, out: &mut Vec<u32>) -> AllocResult<()>
    ensures { OnOk result (out.new.items ≡ out.old.items ++ control_words control.now) }
{
    match control {
        Control::Idle => {
            out.push(0)?;
            Ok(())
        }
        Control::Running(stack) => {
            out.push(1)?;
            push_stack(stack, out)
        }
        Control::Faulted(fault, stack) => {
            out.push(2)?;
            push_number(u64::from(fault.number()), out)?;
            push_stack(stack, out)
        }
        Control::Ended(value) => {
            out.push(3)?;
            push_int(*value, out)
        }
    }
}

fn push_stack(stack: &Stack, out: &mut Vec<u32>) -> AllocResult<()>
    ensures { OnOk result (out.new.items ≡ out.old.items ++ stack_words stack.now) }
{
    push_context(&stack.top, out)?;
    push_contexts(stack.below.shares().as_slice(), out)
}

fn push_contexts(contexts: &[Shared<Context>], out: &mut Vec<u32>) -> AllocResult<()>
    ensures { OnOk result (out.new.items ≡ out.old.items ++ list_words context_words contexts.now) }
{
    push_number(contexts.len() as u64, out)?;
    for context in contexts {
        push_context(context.get(), out)?;
    }
    Ok(())
}

fn push_context(context: &Context, out: &mut Vec<u32>) -> AllocResult<()>
    ensures { OnOk result (out.new.items ≡ out.old.items ++ context_words context.now) }
{
    push_name(context.task.get(), out)?;
    push_kind(context.kind, out)?;
    push_team(context.team.get(), out)?;
    push_counted(context, out)?;
    push_running(context, out)
}

// The numbers that a context counts.
fn push_counted(context: &Context, out: &mut Vec<u32>) -> AllocResult<()>
    ensures { OnOk result (out.new.items ≡ out.old.items ++ counted_words context.now) }
{
    push_number(context.phase, out)?;
    push_number(context.births, out)?;
    push_number(context.regions, out)?;
    push_number(context.frames, out)
}

// What a context runs.
fn push_running(context: &Context, out: &mut Vec<u32>) -> AllocResult<()>
    ensures { OnOk result (out.new.items ≡ out.old.items ++ running_words context.now) }
{
    push_some_name(context.group.get(), out)?;
    push_constructs(context.constructs.shares().as_slice(), out)?;
    push_frame(&context.frame, out)?;
    push_frames(context.callers.shares().as_slice(), out)
}

fn push_kind(kind: Kind, out: &mut Vec<u32>) -> AllocResult<()>
    ensures { OnOk result (out.new.items ≡ out.old.items ++ kind_words kind) }
{
    out.push(match kind {
        Kind::Initial => 0,
        Kind::Implicit => 1,
        Kind::Explicit => 2,
    })?;
    Ok(())
}

fn push_team(team: &Team, out: &mut Vec<u32>) -> AllocResult<()>
    ensures { OnOk result (out.new.items ≡ out.old.items ++ team_words team.now) }
{
    push_name(team.name.get(), out)?;
    push_number(u64::from(team.number), out)?;
    push_number(u64::from(team.size), out)?;
    push_number(u64::from(team.level), out)
}

fn push_constructs(constructs: &[Shared<Construct>], out: &mut Vec<u32>) -> AllocResult<()>
    ensures { OnOk result (out.new.items ≡ out.old.items ++ list_words construct_words constructs.now) }
{
    push_number(constructs.len() as u64, out)?;
    for construct in constructs {
        push_construct(construct.get(), out)?;
    }
    Ok(())
}

fn push_construct(construct: &Construct, out: &mut Vec<u32>) -> AllocResult<()>
    ensures { OnOk result (out.new.items ≡ out.old.items ++ construct_words construct.now) }
{
    match construct {
        Construct::Share(share) => {
            out.push(0)?;
            push_share(share.place(), out)
        }
        Construct::Single { runs } => {
            out.push(1)?;
            push_flag(*runs, out)
        }
        Construct::Masked => {
            out.push(2)?;
            Ok(())
        }
        Construct::Critical(lock) => {
            out.push(3)?;
            push_number(u64::from(*lock), out)
        }
        Construct::Group(name) => {
            out.push(4)?;
            push_name(name, out)
        }
    }
}

fn push_share(share: &Share, out: &mut Vec<u32>) -> AllocResult<()>
    ensures { OnOk result (out.new.items ≡ out.old.items ++ share_words share.now) }
{
    push_sharing(share.sharing, out)?;
    push_bounds(share, out)?;
    push_schedule(share.schedule, out)?;
    push_chunk(share, out)
}

// What is shared out.
fn push_bounds(share: &Share, out: &mut Vec<u32>) -> AllocResult<()>
    ensures { OnOk result (out.new.items ≡ out.old.items ++ bounds_words share.now) }
{
    push_number(share.region, out)?;
    push_number(share.count, out)?;
    push_int(share.lower, out)?;
    push_int(share.step, out)
}

// How far the member is.
fn push_chunk(share: &Share, out: &mut Vec<u32>) -> AllocResult<()>
    ensures { OnOk result (out.new.items ≡ out.old.items ++ chunk_words share.now) }
{
    push_number(share.taken, out)?;
    push_number(share.next, out)?;
    push_number(share.end, out)
}

fn push_sharing(sharing: Sharing, out: &mut Vec<u32>) -> AllocResult<()>
    ensures { OnOk result (out.new.items ≡ out.old.items ++ sharing_words sharing) }
{
    out.push(match sharing {
        Sharing::Loop => 0,
        Sharing::Sections => 1,
    })?;
    Ok(())
}

fn push_schedule(schedule: Schedule, out: &mut Vec<u32>) -> AllocResult<()>
    ensures { OnOk result (out.new.items ≡ out.old.items ++ schedule_words schedule) }
{
    match schedule {
        Schedule::Static => {
            out.push(0)?;
            Ok(())
        }
        Schedule::StaticChunk(size) => {
            out.push(1)?;
            push_number(u64::from(size), out)
        }
        Schedule::Dynamic(size) => {
            out.push(2)?;
            push_number(u64::from(size), out)
        }
    }
}

fn push_frames(frames: &[Shared<Frame>], out: &mut Vec<u32>) -> AllocResult<()>
    ensures { OnOk result (out.new.items ≡ out.old.items ++ list_words frame_words frames.now) }
{
    push_number(frames.len() as u64, out)?;
    for frame in frames {
        push_frame(frame.get(), out)?;
    }
    Ok(())
}

fn push_frame(frame: &Frame, out: &mut Vec<u32>) -> AllocResult<()>
    ensures { OnOk result (out.new.items ≡ out.old.items ++ frame_words frame.now) }
{
    push_number(u64::from(frame.body), out)?;
    push_number(u64::from(frame.next), out)?;
    push_number(frame.ordinal, out)?;
    push_operands(frame.operands.as_slice(), out)?;
    push_homes(frame.homes.get().as_slice(), out)
}

fn push_operands(operands: &[Operand], out: &mut Vec<u32>) -> AllocResult<()>
    ensures { OnOk result (out.new.items ≡ out.old.items ++ list_words operand_words operands.now) }
{
    push_number(operands.len() as u64, out)?;
    for operand in operands {
        push_operand(*operand, out)?;
    }
    Ok(())
}

fn push_operand(operand: Operand, out: &mut Vec<u32>) -> AllocResult<()>
    ensures { OnOk result (out.new.items ≡ out.old.items ++ operand_words operand) }
{
    match operand {
        Operand::Int(value) => {
            out.push(0)?;
            push_int(value, out)
        }
        Operand::NoValue => {
            out.push(1)?;
            Ok(())
        }
    }
}

/// Appends how many homes there are, and the words of each.
pub(crate) fn push_homes(homes: &[Home], out: &mut Vec<u32>) -> AllocResult<()>
    ensures { OnOk result (out.new.items ≡ out.old.items ++ list_words home_words homes.now) }
{
    push_number(homes.len() as u64, out)?;
    for home in homes {
        push_home(home, out)?;
    }
    Ok(())
}

fn push_home(home: &Home, out: &mut Vec<u32>) -> AllocResult<()>
    ensures { OnOk result (out.new.items ≡ out.old.items ++ home_words home.now) }
{
    match home {
        Home::Own => {
            out.push(0)?;
            Ok(())
        }
        Home::Elsewhere { task, frame, slot } => {
            out.push(1)?;
            push_name(task.get(), out)?;
            push_number(*frame, out)?;
            push_number(u64::from(*slot), out)
        }
    }
}
