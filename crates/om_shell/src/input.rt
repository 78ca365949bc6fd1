//! What was read and is not yet answered, and the lines of bytes.

ghost use Rattle.std.specs.Prelude.{◌≡◌, ◌<◌, ◌≤◌, ◌+◌, ◌*◌, ◌^◌, ◌++◌, [], length, drop, false, List, ℕ, IfOk};
ghost use Rattle.std.specs.Prelude.{IfErr, OnOk, ◌==◌, take, IfSome};
ghost use Rattle.std.specs.Io.KnownBytes.{Consumes, IsAtEnd};
ghost use Rattle.std.specs.List.{position};
ghost use Rattle.std.specs.Str.Lines.{strip_carriage_return};
ghost use Rattle.om_shell.specs.Progress.{ReadFails};
ghost use Rattle.om_shell.specs.Lines.{HasNoLineEnd};

use crate::ended::ShellFault;
use std::alloc::Global;
use std::io::{ErrorKind, Read};

// How many reads of an input there are at most.
const MOST_READS: u64 = 1 << 32;

// How many bytes a read asks for.
const CHUNK: usize = 16_384;

// Of a line that is not yet ended so many bytes are kept at most: a carriage return may be the last one.
const TOO_LONG: usize = 1_026;

/// The bytes that were read and not yet answered, and how many more reads there may be.
pub struct Input {
    pub pending: Vec<u8>,
    pub reads_left: u64,
}

// By hand: other crates call this, and do not prove anew how each part is dropped.
impl Drop for Input {
    fn drop(self) {
        let Input {
            pending,
            reads_left: _,
        } = self;
        drop(pending);
    }
}

impl Input {
    /// Nothing is read yet. It takes no memory.
    pub fn new(alloc: Global) -> Input
        ensures pending { result.pending.items ≡ [] }
        ensures reads { result.reads_left ≡ 2 ^ 32 }
    {
        Input {
            pending: Vec::new(alloc),
            reads_left: MOST_READS,
        }
    }

    /// Lets the first `used` pending bytes go.
    pub fn discard(&mut self, used: usize)
        requires { used ≤ length self.old.pending.items }
        ensures pending { self.new.pending.items ≡ drop used self.old.pending.items }
        ensures reads { self.new.reads_left ≡ self.old.reads_left }
    {
        let left = self.pending.len() - used;
        self.pending.copy_within(used.., 0);
        self.pending.truncate(left);
    }

    /// Lets all but the first 1,026 pending bytes go. A line that begins with so many is too long, whatever follows.
    pub(crate) fn shorten(&mut self)
        ensures pending { self.new.pending.items ≡ take 1026 self.old.pending.items }
        ensures reads { self.new.reads_left ≡ self.old.reads_left }
    {
        self.pending.truncate(TOO_LONG);
    }

    /// Reads once, and answers whether the input may go on.
    ///
    /// Errors: H3 where the read fails, or 2^32 reads were made; H5 when out of memory.
    pub fn read_more<R: Read>(&mut self, reader: &mut R) -> Result<bool, ShellFault>
        ensures read { IfOk result
            (λ _. (bytes : List ℕ)
            × (Consumes (R.remaining reader.old) (R.remaining reader.new) bytes)
            × (self.new.pending.items ≡ self.old.pending.items ++ bytes)) }
        ensures ended { IfOk result
            (λ more. more ≡ false → IsAtEnd (R.remaining reader.new)
            × (self.new.pending.items ≡ self.old.pending.items)) }
        ensures failed { IfErr result
            (ReadFails (R.remaining reader.old) (R.remaining reader.new)) }
        ensures fewer_left { OnOk result (self.new.reads_left < self.old.reads_left) }
    {
        if self.reads_left == 0 {
            return Err(ShellFault::Read);
        }
        self.reads_left -= 1;
        let mut chunk = [0; CHUNK];
        match reader.read(&mut chunk) {
            Ok(0) => Ok(false),
            Ok(n) => {
                self.pending.extend_from_slice(&chunk[..n])?;
                Ok(true)
            }
            Err(e) if e.kind() == ErrorKind::Interrupted => Ok(true),
            Err(_) => Err(ShellFault::Read),
        }
    }
}

/// Where the first line feed stands.
pub fn first_line_end(bytes: &[u8]) -> Option<usize>
    ensures first { result ≡ position (λ byte. byte == 10) bytes.now }
    ensures within { IfSome result (λ n. n < length bytes.now) }
{
    bytes.iter().position(|byte| *byte == b'\n')
}

/// Where the first line feed stands. The caller knows already that none is among the first `searched` bytes.
pub(crate) fn line_end(bytes: &[u8], searched: usize) -> Option<usize>
    requires within { searched ≤ length bytes.now }
    requires known { HasNoLineEnd (take searched bytes.now) }
    ensures { result ≡ position (λ byte. byte == 10) bytes.now }
{
    let further = first_line_end(&bytes[searched..])?;
    Some(searched + further)
}

/// A line without the carriage return that may stand before its line feed.
pub(crate) fn without_carriage_return(line: &[u8]) -> &[u8]
    ensures { result.now ≡ strip_carriage_return line.now }
{
    match line {
        [front @ .., b'\r'] => front,
        _ => line,
    }
}
