//! The races of a history, and where the page opens.

use crate::escape::{push_attribute, push_escaped};
use crate::front::Extent;
use lab_graph::{StepBox, Traced};
use lab_races::{Race, Side};
use lab_races_words::{History, report};
use om_code::Program;
use om_seq::AllocResult;
use std::alloc::Global;
use std::collections::BTreeMap;

/// The races of a history, and the steps whose boxes are ringed: those that race, or else those that met a fault.
#[derive(Drop)]
pub(crate) struct Harm {
    /// The races in words, each a line, behind a line that counts them.
    pub(crate) words: Vec<u8>,
    // The worker of each step that is ringed, by the step's serial.
    ringed: BTreeMap<u64, u8>,
}

/// The races of a history of steps. The only error is out of memory.
pub(crate) fn harm_of(
    alloc: Global,
    program: &Program,
    steps: &[Traced<'_>],
    boxes: &[StepBox],
    races: &[Race],
) -> AllocResult<Harm> {
    let history = History {
        program,
        steps,
        is_numbered: true,
    };
    let words = report(alloc, &history, races)?;
    let mut ringed = BTreeMap::new(alloc);
    for race in races {
        ring(&mut ringed, &race.earlier)?;
        ring(&mut ringed, &race.later)?;
    }
    if ringed.is_empty() {
        ring_faults(&mut ringed, boxes)?;
    }
    Ok(Harm { words, ringed })
}

fn ring(ringed: &mut BTreeMap<u64, u8>, side: &Side) -> AllocResult<()> {
    let _ = ringed.insert(side.serial, side.worker)?;
    Ok(())
}

fn ring_faults(ringed: &mut BTreeMap<u64, u8>, boxes: &[StepBox]) -> AllocResult<()> {
    for step in boxes {
        if step.is_fault {
            let _ = ringed.insert(step.serial, step.worker)?;
        }
    }
    Ok(())
}

/// Appends the races in words.
pub(crate) fn push_races(text: &mut Vec<u8>, harm: &Harm) -> AllocResult<()> {
    text.extend_from_slice(b"<p class='races'>")?;
    push_escaped(text, &harm.words)?;
    text.extend_from_slice(b"</p>\n")
}

/// Appends a ring for each box that has one. The page opens at the first: it has the focus, and a browser scrolls to what
/// has it.
pub(crate) fn push_rings(text: &mut Vec<u8>, extent: Extent, harm: &Harm) -> AllocResult<()> {
    let mut is_first = true;
    for (serial, worker) in &harm.ringed {
        if is_first {
            text.extend_from_slice(b"<a id='harm' href='#harm' autofocus=''>")?;
        }
        push_ring(text, extent, *serial, *worker)?;
        if is_first {
            text.extend_from_slice(b"</a>\n")?;
        }
        is_first = false;
    }
    Ok(())
}

// Appends the ring of a box: a frame somewhat larger than it.
fn push_ring(text: &mut Vec<u8>, extent: Extent, serial: u64, worker: u8) -> AllocResult<()> {
    let (left, top) = (extent.scale.left(serial), extent.scale.top(worker));
    if extent.scale.is_small {
        text.extend_from_slice(b"<rect class='harm' width='12' height='12'")?;
        push_attribute(text, b" x='", left.saturating_sub(3))?;
        push_attribute(text, b" y='", top.saturating_sub(3))?;
    } else {
        text.extend_from_slice(b"<rect class='harm' width='102' height='44' rx='8'")?;
        push_attribute(text, b" x='", left.saturating_sub(5))?;
        push_attribute(text, b" y='", top.saturating_sub(5))?;
    }
    text.extend_from_slice(b"/>\n")
}
