//! The page up to its picture: the source, the words above the picture, and the lanes.

use crate::escape::{push_attribute, push_escaped};
use crate::harm::{Harm, push_races, push_rings};
use crate::marks::push_hue;
use crate::scale::Scale;
use crate::style::{FEWER, HEAD, HEADS, LEGEND, WORDS_END};
use lab_graph::StepBox;
use om_seq::AllocResult;
use om_shell_commands::push_numbered;
use std::alloc::Global;
use std::collections::BTreeMap;

/// How large a picture is.
#[derive(Clone, Copy)]
pub(crate) struct Extent {
    pub(crate) scale: Scale,
    /// The serial of the last step that has a column.
    pub(crate) last: u64,
    pub(crate) workers: u8,
}

impl Extent {
    /// Whether a step has a column.
    pub(crate) fn has(self, serial: u64) -> bool {
        self.scale.first <= serial && serial <= self.last
    }

    // How wide the picture is, in points.
    fn width(self) -> u128 {
        self.scale.left(self.last).saturating_add(240)
    }

    // How high it is.
    fn height(self) -> u128 {
        120 * u128::from(self.workers) + 8
    }
}

// From how many steps on a page says how fewer are drawn.
const MANY: usize = 5_000;

/// What stands before the elements of the picture.
#[derive(Clone, Copy)]
pub(crate) struct Front<'a> {
    pub(crate) source: &'a [u8],
    pub(crate) boxes: &'a [StepBox],
    pub(crate) harm: &'a Harm,
    pub(crate) extent: Extent,
}

/// Appends all that stands before the elements of the picture.
pub(crate) fn push_front(alloc: Global, text: &mut Vec<u8>, front: Front<'_>) -> AllocResult<()> {
    text.extend_from_slice(HEAD)?;
    push_source(text, front.source, &lines_of(alloc, front.boxes)?)?;
    text.extend_from_slice(b"<main>\n")?;
    push_words(text, front.boxes.len())?;
    push_races(text, front.harm)?;
    text.extend_from_slice(b"<div>\n")?;
    push_lane_names(text, front.extent)?;
    push_picture_begin(text, front.extent)?;
    push_lanes(text, front.extent)?;
    push_rings(text, front.extent, front.harm)
}

// Appends how many steps there are.
fn push_words(text: &mut Vec<u8>, steps: usize) -> AllocResult<()> {
    push_numbered(text, b"<p>", steps)?;
    text.extend_from_slice(LEGEND)?;
    if steps >= MANY {
        text.extend_from_slice(FEWER)?;
    }
    text.extend_from_slice(WORDS_END)
}

// The source lines that have a box.
fn lines_of(alloc: Global, boxes: &[StepBox]) -> AllocResult<BTreeMap<u32, ()>> {
    let mut lines = BTreeMap::new(alloc);
    for step in boxes {
        let _ = lines.insert(step.line, ())?;
    }
    Ok(lines)
}

// Appends the source, each line with its number, and those that have a box in its hue.
fn push_source(text: &mut Vec<u8>, source: &[u8], with_box: &BTreeMap<u32, ()>) -> AllocResult<()> {
    text.extend_from_slice(b"<pre>")?;
    let mut number: u32 = 1;
    for line in without_last_end(source).split(|byte| *byte == b'\n') {
        push_source_line(text, number, line, with_box.contains_key(&number))?;
        number = number.saturating_add(1);
    }
    text.extend_from_slice(b"</pre>\n")
}

// A source without the line feed that ends its last line.
fn without_last_end(source: &[u8]) -> &[u8] {
    match source {
        [front @ .., b'\n'] => front,
        _ => source,
    }
}

// Appends a line of the source.
fn push_source_line(
    text: &mut Vec<u8>,
    number: u32,
    line: &[u8],
    is_coloured: bool,
) -> AllocResult<()> {
    text.extend_from_slice(b"<i")?;
    if is_coloured {
        push_hue(text, number)?;
    }
    text.extend_from_slice(b"><b>")?;
    push_padding(text, number)?;
    push_numbered(text, b"", number)?;
    text.extend_from_slice(b"  </b>")?;
    push_escaped(text, line)?;
    text.extend_from_slice(b"</i>")
}

// Appends what puts line numbers below one another.
fn push_padding(text: &mut Vec<u8>, number: u32) -> AllocResult<()> {
    if number < 10 {
        text.extend_from_slice(b"   ")
    } else if number < 100 {
        text.extend_from_slice(b"  ")
    } else if number < 1000 {
        text.extend_from_slice(b" ")
    } else {
        Ok(())
    }
}

// Appends the size of a drawing, and the class of a small one.
fn push_size(text: &mut Vec<u8>, width: u128, height: u128) -> AllocResult<()> {
    push_numbered(text, b" viewBox='0 0 ", width)?;
    push_attribute(text, b" ", height)?;
    push_numbered(text, b" width='", width)?;
    push_numbered(text, b"pt' height='", height)?;
    text.extend_from_slice(b"pt'>")
}

// Appends the names of the lanes, which stay at the left.
fn push_lane_names(text: &mut Vec<u8>, extent: Extent) -> AllocResult<()> {
    text.extend_from_slice(b"<svg class='lanes'")?;
    push_size(text, 76, extent.height())?;
    for worker in 0..extent.workers {
        push_attribute(text, b"<text x='8' y='", 120 * u128::from(worker) + 64)?;
        push_numbered(text, b">worker ", worker)?;
        text.extend_from_slice(b"</text>")?;
    }
    text.extend_from_slice(b"</svg>\n")
}

// Appends the beginning of the picture.
fn push_picture_begin(text: &mut Vec<u8>, extent: Extent) -> AllocResult<()> {
    if extent.scale.is_small {
        text.extend_from_slice(b"<svg class='small'")?;
    } else {
        text.extend_from_slice(b"<svg")?;
    }
    push_size(text, extent.width(), extent.height())?;
    text.extend_from_slice(HEADS)
}

// Appends a line for each lane.
fn push_lanes(text: &mut Vec<u8>, extent: Extent) -> AllocResult<()> {
    for worker in 0..extent.workers {
        push_attribute(text, b"<line class='lane' x1='0' x2='", extent.width())?;
        push_attribute(text, b" y1='", 120 * u128::from(worker) + 60)?;
        push_attribute(text, b" y2='", 120 * u128::from(worker) + 60)?;
        text.extend_from_slice(b"/>\n")?;
    }
    Ok(())
}
