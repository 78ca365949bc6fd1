//! The text of boxes: one element for each.

ghost use Rattle.std.specs.Prelude.{◌≡◌, ◌++◌, OnOk};
ghost use Rattle.om_shell_commands.specs.Texts.{Writes};
ghost use Rattle.lab_draw.specs.Marks.{hue_of, corner_text, title_text, hue_text, upper_text, lines_text, class_text, mark_text, card_begin, card_text, box_text, boxes_text};

use crate::escape::{push_after, push_attribute};
use crate::scale::Scale;
use lab_graph::StepBox;
use om_seq::AllocResult;
use om_shell_commands::push_numbered;

/// The hue of a source line, in degrees; lines near one another differ much.
pub(crate) fn hue_of(line: u32) -> u64
    ensures { result ≡ hue_of line }
{
    u64::from(line) * 137 % 360
}

/// Appends the attribute that gives the hue of a source line.
pub(crate) fn push_hue(text: &mut Vec<u8>, line: u32) -> AllocResult<()>
    ensures { OnOk result (text.new.items ≡ text.old.items ++ hue_text line) }
{
    push_numbered(text, b" style='--h:", hue_of(line))?;
    text.extend_from_slice(b"'")
}

// Appends where a step's box stands.
fn push_corner(text: &mut Vec<u8>, scale: Scale, step: &StepBox) -> AllocResult<()>
    ensures { OnOk result (text.new.items ≡ text.old.items ++ corner_text scale step.now) }
{
    push_attribute(text, b" x='", scale.left(step.serial))?;
    push_attribute(text, b" y='", scale.top(step.worker))
}

// Appends what is shown of a step when its box is pointed at.
fn push_title(text: &mut Vec<u8>, step: &StepBox) -> AllocResult<()>
    ensures { OnOk result (text.new.items ≡ text.old.items ++ title_text step.now) }
{
    push_numbered(text, b"<title>#", step.serial)?;
    push_numbered(text, b" worker ", step.worker)?;
    push_numbered(text, b" line ", step.line)?;
    push_after(text, b": ", step.instruction.as_slice())?;
    push_after(text, b" ", step.value.as_slice())?;
    text.extend_from_slice(b"</title>")
}

// Appends the upper words in a step's box: its serial, instruction and line.
fn push_upper(text: &mut Vec<u8>, step: &StepBox) -> AllocResult<()>
    ensures { OnOk result (text.new.items ≡ text.old.items ++ upper_text step.now) }
{
    push_numbered(text, b"<text x='5' y='14'>#", step.serial)?;
    push_after(text, b" ", step.instruction.as_slice())?;
    push_numbered(text, b"</text><text class='at' x='88' y='14'>", step.line)?;
    text.extend_from_slice(b"</text>")
}

// Appends the words in a step's box: below the upper ones a value.
fn push_lines(text: &mut Vec<u8>, step: &StepBox) -> AllocResult<()>
    ensures { OnOk result (text.new.items ≡ text.old.items ++ lines_text step.now) }
{
    push_upper(text, step)?;
    push_after(text, b"<text x='5' y='28'>", step.value.as_slice())?;
    text.extend_from_slice(b"</text>")
}

// Appends the class of a box. That of a step that met a fault is of a class of its own too, so that it is
// found at a glance.
fn push_class(text: &mut Vec<u8>, class: &[u8], step: &StepBox) -> AllocResult<()>
    ensures { OnOk result (text.new.items ≡ text.old.items ++ class_text class.now step.now) }
{
    text.extend_from_slice(class)?;
    if step.is_fault {
        text.extend_from_slice(b" fault")?;
    }
    Ok(())
}

// Appends a box of 6 by 6 points, of a class.
fn push_mark(text: &mut Vec<u8>, class: &[u8], scale: Scale, step: &StepBox) -> AllocResult<()>
    ensures { OnOk result (text.new.items ≡ text.old.items ++ mark_text class.now scale step.now) }
{
    text.extend_from_slice(b"<rect class='")?;
    push_class(text, class, step)?;
    text.extend_from_slice(b"' width='6' height='6'")?;
    push_corner(text, scale, step)?;
    push_hue(text, step.line)?;
    text.extend_from_slice(b">")?;
    push_title(text, step)?;
    text.extend_from_slice(b"</rect>\n")
}

// Appends the beginning of a box of 92 by 34 points, of a class.
fn push_card_begin(
    text: &mut Vec<u8>,
    class: &[u8],
    scale: Scale,
    step: &StepBox,
) -> AllocResult<()>
    ensures { OnOk result (text.new.items ≡ text.old.items ++ card_begin class.now scale step.now) }
{
    text.extend_from_slice(b"<svg class='")?;
    push_class(text, class, step)?;
    text.extend_from_slice(b"' width='92' height='34'")?;
    push_corner(text, scale, step)?;
    push_hue(text, step.line)?;
    text.extend_from_slice(b">")
}

// Appends a box of 92 by 34 points, of a class.
fn push_card(text: &mut Vec<u8>, class: &[u8], scale: Scale, step: &StepBox) -> AllocResult<()>
    ensures { OnOk result (text.new.items ≡ text.old.items ++ card_text class.now scale step.now) }
{
    push_card_begin(text, class, scale, step)?;
    push_title(text, step)?;
    text.extend_from_slice(b"<rect width='92' height='34' rx='4'/>")?;
    push_lines(text, step)?;
    text.extend_from_slice(b"</svg>\n")
}

/// Appends the box of a step, of a class.
pub(crate) fn push_box(
    text: &mut Vec<u8>,
    class: &[u8],
    scale: Scale,
    step: &StepBox,
) -> AllocResult<()>
    ensures { OnOk result (text.new.items ≡ text.old.items ++ box_text class.now scale step.now) }
{
    if scale.is_small {
        push_mark(text, class, scale, step)
    } else {
        push_card(text, class, scale, step)
    }
}

/// Appends boxes of a class, one element for each.
pub(crate) fn push_boxes(
    text: &mut Vec<u8>,
    class: &[u8],
    scale: Scale,
    boxes: &[StepBox],
) -> AllocResult<()>
    ensures { OnOk result (Writes (boxes_text class.now scale boxes.now) text.old text.new) }
{
    for step in boxes {
        push_box(text, class, scale, step)?;
    }
    Ok(())
}
