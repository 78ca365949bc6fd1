//! What `races --session` does with the history that a session leaves.

ghost use Rattle.std.specs.Prelude.{◌<◌, ◌≤◌};

use crate::subcommands::{Host, within};
use lab_races_answer::{Judged, judge as judged};
use lab_text::status::{BAD, NOT_COMPLETE};
use om_shell::{ShellFault, send};
use std::io::{Read, Write};
use std::sync::Wait;
use std::thread::Threads;

/// Writes the races of the history that a session leaves. Which of its commands were turned down goes to standard error,
/// and so does why a source is refused.
pub(crate) fn judge<H: Threads + Wait + Sync, R: Read, W: Write>(
    host: &Host<'_, '_, H>,
    reader: &mut R,
    writer: &mut W,
) -> Result<u8, ShellFault>
    requires least { 0 < host.now.options.workers }
    requires most { host.now.options.workers ≤ 32 }
{
    match judged(host.rt, host.alloc, reader, host.options) {
        Ok(
            Judged::Told {
                report,
                has_races,
                turned_down,
            },
        ) => {
            send(writer, &report)?;
            host.tell(&turned_down);
            Ok(status_by(has_races))
        }
        Ok(Judged::Refused) => host.refuse(host.options.source.unwrap_or(&[])),
        Err(fault) => Err(within(fault)),
    }
}

// One history is not all: where it has no race, other schedules may.
fn status_by(has_races: bool) -> u8 {
    if has_races { BAD } else { NOT_COMPLETE }
}
