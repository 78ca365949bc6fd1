//! The picture of a history, as data: boxes and arrows.

ghost use Rattle.std.specs.Prelude.{◌≡◌, map, IfOk};
ghost use Rattle.lab_graph.specs.Pictures.{box_of, end_of, arrows_of, AreArrows};

use crate::arrows::arrows_of;
use crate::traced::Traced;
use om_foot::Obj;
use om_seq::{AllocResult, Seq};
use std::alloc::Global;

/// The box of a step that stands.
#[derive(Drop)]
pub struct StepBox {
    /// Its number among all steps ever made, from 1.
    pub serial: u64,
    /// The worker that made it, from 0. Each worker has a lane.
    pub worker: u8,
    /// The line in the source of its instruction, from 1.
    pub line: u32,
    /// The name of its instruction.
    pub instruction: Seq<u8>,
    /// The variable that it named and a value or a fault, as far as it has them.
    pub value: Seq<u8>,
    /// Whether it met a fault.
    pub is_fault: bool,
}

/// An end of an arrow: the step with this serial, in the lane of its worker.
#[derive(Clone, Copy)]
pub struct End {
    /// The step's number among all steps ever made, from 1.
    pub serial: u64,
    /// The worker that made it, from 0.
    pub worker: u8,
}

/// An arrow from a step to a later one of another worker that conflicts with it.
#[derive(Drop)]
pub struct Arrow {
    pub from: End,
    pub to: End,
    /// The first object of the earlier step's footprint at which the two conflict.
    pub object: Obj,
    /// The cell of a local variable that the earlier step named, or else that the later one named, as
    /// the source has it; no bytes where the name of neither is known. Where the object is a cell and there
    /// are bytes, they name that cell.
    pub variable: Seq<u8>,
}

/// The picture of a history.
#[derive(Drop)]
pub struct Picture {
    /// The steps that stand, in the order of the history.
    pub boxes: Vec<StepBox>,
    /// The arrows between them, in the order of the later steps, and of the workers that they come from.
    pub arrows: Vec<Arrow>,
}

/// The end of an arrow at a step.
pub(crate) fn end_of(step: &Traced<'_>) -> End
    ensures { result ≡ end_of step.now }
{
    End {
        serial: step.entry.serial,
        worker: step.entry.worker,
    }
}

// The box of a step. Its only error is out of memory.
fn box_of(alloc: Global, step: &Traced<'_>) -> AllocResult<StepBox>
    ensures { IfOk result (λ b. b ≡ box_of step.now) }
{
    let instruction = Vec::from_slice(alloc, step.instruction.as_slice())?;
    let value = Vec::from_slice(alloc, step.value.as_slice())?;
    Ok(StepBox {
        serial: step.entry.serial,
        worker: step.entry.worker,
        line: step.entry.line,
        instruction: Seq::of(instruction),
        value: Seq::of(value),
        is_fault: step.is_fault,
    })
}

// The boxes of steps, in their order. Its only error is out of memory.
fn boxes_of(alloc: Global, steps: &[Traced<'_>]) -> AllocResult<Vec<StepBox>>
    ensures { IfOk result (λ boxes. boxes.items ≡ map box_of steps.now) }
{
    let mut boxes = Vec::new(alloc);
    for step in steps {
        boxes.push(box_of(alloc, step)?)?;
    }
    Ok(boxes)
}

/// The picture of the steps of a history, which stand in its order. Its only error is out of memory.
///
/// Each step has a box, and each box is a step's. There is an arrow from a step to a later one of
/// another worker exactly where the two conflict, and no step between them that the earlier one's
/// worker made conflicts with the later one.
pub fn picture_of(alloc: Global, steps: &[Traced<'_>]) -> AllocResult<Picture>
    ensures boxes { IfOk result (λ p. p.boxes.items ≡ map box_of steps.now) }
    ensures arrows { IfOk result (λ p. p.arrows.items ≡ arrows_of steps.now) }
    ensures exactly { IfOk result (λ p. AreArrows steps.now p.arrows.items) }
{
    let boxes = boxes_of(alloc, steps)?;
    match arrows_of(alloc, steps) {
        Ok(arrows) => Ok(Picture { boxes, arrows }),
        Err(error) => {
            drop(boxes);
            Err(error)
        }
    }
}
