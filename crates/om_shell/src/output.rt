//! What reaches the writer, also where a write fails.
ghost use Rattle.std.specs.Prelude.{◌≡◌, ◌≤◌, ◌+◌, length, take, OnOk, IfErr, true};
ghost use Rattle.std.specs.Io.KnownBytes.{Appends};
ghost use Rattle.om_shell.specs.Progress.{AppendsPart};

use crate::ended::ShellFault;
use std::io::{ErrorKind, Write};

// Writes the bytes, and answers how many the writer took and whether these are all.
fn write_some<W: Write>(writer: &mut W, bytes: &[u8]) -> (usize, bool)
    ensures within { result.0 ≤ length bytes.now }
    ensures taken { Appends (W.contents writer.old) (W.contents writer.new)
        (take result.0 bytes.now) }
    ensures all { result.1 ≡ true → result.0 ≡ length bytes.now }
{
    let mut sent = 0;
    'writes: for _ in 0..u64::MAX {
        if sent >= bytes.len() {
            return (sent, true);
        }
        match writer.write(&bytes[sent..]) {
            Ok(0) => return (sent, false),
            Ok(n) => sent += n,
            Err(e) => {
                if e.kind() != ErrorKind::Interrupted {
                    return (sent, false);
                }
            }
        }
    }
    (sent, false)
}

/// Writes the bytes and flushes the writer. After a fault the writer took a beginning of the bytes.
pub fn send<W: Write>(writer: &mut W, bytes: &[u8]) -> Result<(), ShellFault>
    ensures written { OnOk result
        (Appends (W.contents writer.old) (W.contents writer.new) bytes.now) }
    ensures begun_on_error { IfErr result
        (λ fault. (fault ≡ ShellFault.Write)
        × AppendsPart (W.contents writer.old) (W.contents writer.new) bytes.now) }
{
    let (_, is_whole) = write_some(writer, bytes);
    if !is_whole || writer.flush().is_err() {
        return Err(ShellFault::Write);
    }
    Ok(())
}
