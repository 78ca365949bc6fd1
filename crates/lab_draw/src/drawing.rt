//! The page of a session: it is run, and the history that it leaves is drawn.

ghost use Rattle.std.specs.Prelude.{◌<◌, ◌≤◌, IfOk};
ghost use Rattle.om_book.specs.Books.{machine_of};
ghost use Rattle.lab_draw.specs.Pages.{HasElements, IsDrawing, IsShown, Shows};

use crate::beside::{Beside, beside_of, push_beside};
use crate::front::{Front, push_front};
use crate::harm::harm_of;
use crate::marks::push_boxes;
use crate::outcome::Page;
use crate::scale::Scale;
use crate::session::{Heard, hear};
use crate::strokes::push_arrows;
use crate::style::FOOT;
use lab_graph::{Picture, picture_of};
use lab_races_history::races_of;
use lab_replay::trace;
use om_book::Book;
use om_code::Program;
use om_seq::AllocResult;
use om_shell::{Options, ShellFault, read_all, session_bytes};
use std::alloc::Global;
use std::io::Read;
use std::sync::Wait;
use std::thread::Threads;

/// The page of a session: its source beside its causal history.
///
/// The reader is read to its end. It holds commands, behind a source and a line `%%` unless the options
/// have the source. The session runs, and its replies are not shown; which commands it turned down is said
/// besides. The history that it leaves is drawn, however long it is: each entry has a box, and an arrow to it
/// from the last entry of each other worker that conflicts with it. The first entry stands at the left. What
/// was taken out is grey and stands apart, and an undo that was refused is red.
///
/// Errors are `Read` (H3), where a read fails, and `Memory` (H5).
pub fn page<H: Threads + Wait + Sync, R: Read>(
    rt: &H,
    alloc: Global,
    reader: &mut R,
    options: Options<'_>,
) -> Result<Page, ShellFault>
    requires at_least_one { 0 < options.workers }
    requires at_most_32 { options.workers ≤ 32 }
    ensures { IfOk result (Shows (R.remaining reader.old) (R.remaining reader.new) options.entry) }
{
    let input = read_all(alloc, reader)?;
    match hear(rt, alloc, &input, options) {
        Ok(heard) => {
            let source = session_bytes(options.source, &input).source;
            shown(alloc, source, heard)
        }
        Err(fault) => Err(fault),
    }
}

// What is shown of a session of which this was heard.
fn shown(alloc: Global, source: &[u8], heard: Heard) -> Result<Page, ShellFault>
    ensures { IfOk result (IsShown heard.book heard.text.items) }
{
    let Heard {
        text,
        book,
        turned_down,
    } = heard;
    match book {
        Some(book) => match drawn(alloc, source, &book) {
            Ok(page) => Ok(Page::Drawn { page, turned_down }),
            Err(error) => Err(ShellFault::from(error)),
        },
        None => Ok(Page::Refused(text)),
    }
}

// The page of a source, with the history of a book's machine. The only error is out of memory.
fn drawn(alloc: Global, source: &[u8], book: &Book) -> AllocResult<Vec<u8>>
    ensures { IfOk result (λ page. IsDrawing (machine_of book.now) page.items) }
{
    let machine = book.machine();
    let steps = trace(alloc, machine)?;
    let races = races_of(alloc, machine, &steps)?;
    let picture = picture_of(alloc, &steps)?;
    let beside = beside_of(alloc, book, &steps, &picture)?;
    let harm = harm_of(alloc, machine.program(), &steps, &picture.boxes, &races)?;
    let front = Front {
        source,
        boxes: &picture.boxes,
        harm: &harm,
        extent: beside.extent,
    };
    let front = front_of(alloc, machine.program(), front, &beside)?;
    with_elements(front, machine.program(), beside.extent.scale, &picture)
}

// The page up to the elements of the steps that stand.
fn front_of(
    alloc: Global,
    program: &Program,
    front: Front<'_>,
    beside: &Beside<'_>,
) -> AllocResult<Vec<u8>> {
    let mut text = Vec::new(alloc);
    push_front(alloc, &mut text, front)?;
    push_beside(&mut text, program, beside)?;
    Ok(text)
}

// The page: the arrows, the boxes and the end of the page behind its front.
fn with_elements(
    front: Vec<u8>,
    program: &Program,
    scale: Scale,
    picture: &Picture,
) -> AllocResult<Vec<u8>>
    ensures { IfOk result (HasElements front program.now scale picture.now FOOT.now) }
{
    let mut text = front;
    push_arrows(&mut text, program, b"arrow", scale, &picture.arrows)?;
    push_boxes(&mut text, b"step", scale, &picture.boxes)?;
    text.extend_from_slice(FOOT)?;
    Ok(text)
}
