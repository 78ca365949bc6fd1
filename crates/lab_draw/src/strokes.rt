//! The text of arrows: one element for each.

ghost use Rattle.std.specs.Prelude.{◌≡◌, ◌++◌, OnOk};
ghost use Rattle.om_shell_commands.specs.Texts.{Writes};
ghost use Rattle.lab_draw.specs.Strokes.{class_text, name_text, line_text, label_text, AddsArrow, AddsArrows};

use crate::escape::push_attribute;
use crate::object::push_object;
use crate::scale::{Scale, label_base};
use lab_graph::{Arrow, End};
use om_code::Program;
use om_foot::Obj;
use om_seq::AllocResult;
use om_shell_commands::push_numbered;

// Appends what is shown of an arrow when it is pointed at.
fn push_name(text: &mut Vec<u8>, program: &Program, arrow: &Arrow) -> AllocResult<()>
    ensures { OnOk result (text.new.items ≡ text.old.items ++ name_text program.now arrow.now) }
{
    push_numbered(text, b"<title>#", arrow.from.serial)?;
    push_numbered(text, b" to #", arrow.to.serial)?;
    text.extend_from_slice(b": ")?;
    push_object(text, program, arrow.variable.as_slice(), &arrow.object)?;
    text.extend_from_slice(b"</title>")
}

// Appends the line of an arrow.
fn push_line(text: &mut Vec<u8>, scale: Scale, from: End, to: End) -> AllocResult<()>
    ensures { OnOk result (text.new.items ≡ text.old.items ++ line_text scale from to) }
{
    push_attribute(text, b"<line x1='", scale.middle(from.serial))?;
    push_attribute(text, b" y1='", scale.leaves_at(from, to))?;
    push_attribute(text, b" x2='", scale.middle(to.serial))?;
    push_attribute(text, b" y2='", scale.arrives_at(from, to))?;
    text.extend_from_slice(b"/>")
}

// Appends the words at an arrow's head.
fn push_label(text: &mut Vec<u8>, program: &Program, scale: Scale, arrow: &Arrow) -> AllocResult<()>
    ensures { OnOk result (Writes (label_text program.now scale arrow.now) text.old text.new) }
{
    push_attribute(text, b"<text x='", scale.label_left(arrow.to.serial))?;
    push_attribute(text, b" y='", label_base(arrow.from, arrow.to))?;
    text.extend_from_slice(b">")?;
    push_object(text, program, arrow.variable.as_slice(), &arrow.object)?;
    text.extend_from_slice(b"</text>")
}

// Appends the class of an arrow. One at a worker's control, as from a fork to each step of the new worker,
// is of a class of its own too, so that it can be faint.
fn push_class(text: &mut Vec<u8>, class: &[u8], object: &Obj) -> AllocResult<()>
    ensures { OnOk result (text.new.items ≡ text.old.items ++ class_text class.now object.now) }
{
    text.extend_from_slice(class)?;
    if let Obj::Control(_) = object {
        text.extend_from_slice(b" own")?;
    }
    Ok(())
}

/// Appends an arrow of a class.
pub(crate) fn push_arrow(
    text: &mut Vec<u8>,
    program: &Program,
    class: &[u8],
    scale: Scale,
    arrow: &Arrow,
) -> AllocResult<()>
    ensures { OnOk result (AddsArrow text.old text.new program.now class.now scale arrow.now) }
{
    text.extend_from_slice(b"<g class='")?;
    push_class(text, class, &arrow.object)?;
    text.extend_from_slice(b"'>")?;
    push_name(text, program, arrow)?;
    push_line(text, scale, arrow.from, arrow.to)?;
    push_label(text, program, scale, arrow)?;
    text.extend_from_slice(b"</g>\n")
}

/// Appends arrows of a class, one element for each.
pub(crate) fn push_arrows(
    text: &mut Vec<u8>,
    program: &Program,
    class: &[u8],
    scale: Scale,
    arrows: &[Arrow],
) -> AllocResult<()>
    ensures { OnOk result (AddsArrows text.old text.new program.now class.now scale arrows.now) }
{
    for arrow in arrows {
        push_arrow(text, program, class, scale, arrow)?;
    }
    Ok(())
}
