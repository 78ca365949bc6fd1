//! What `port` does with its answer: the text to one stream, and the list to standard error.

use crate::subcommands::{Host, INPUT};
use lab_port_answer::{answer, is_held_back};
use lab_text::status::{BAD, DONE};
use om_shell::{ShellFault, send};
use std::io::Write;

/// Writes what a source becomes, with its list on standard error; or the list alone. `strict` holds a text back that is
/// not accepted, or of which a change has a warning.
pub(crate) fn port<H, W: Write>(
    host: &Host<'_, '_, H>,
    strict: bool,
    list: bool,
    writer: &mut W,
) -> Result<u8, ShellFault> {
    let source = host.options.source.unwrap_or(&[]);
    let file = host.file.unwrap_or(INPUT);
    let answer = answer(host.alloc, file, source, host.options.workers)?;
    let held = strict && is_held_back(&answer);
    let status = if answer.status == 0 && !held {
        DONE
    } else {
        BAD
    };
    if list {
        send(writer, &answer.list)?;
        return Ok(status);
    }
    host.tell(&answer.list);
    if !held {
        send(writer, &answer.text)?;
    }
    Ok(status)
}
