//! Bytes that are read line by line.

ghost use Rattle.std.specs.Prelude.{◌≡◌, ◌≤◌, [], Some, length};
ghost use Rattle.std.specs.Io.{ReadsAtMost};
ghost use Rattle.std.specs.Io.KnownBytes.{ReadConsumes};
ghost use Rattle.lab_text.specs.Sessions.{left_of};

use om_shell::first_line_end;
use std::io::{self, Read};

/// Bytes of which each read gives one line at most, with its end: a run of the debugger over them writes each
/// answer by itself.
#[derive(Drop)]
pub struct LineByLine<'a> {
    // What is left of the line that was begun.
    line: &'a [u8],
    later: &'a [u8],
}

impl<'a> LineByLine<'a> {
    /// All of these bytes are left.
    pub fn new(bytes: &'a [u8]) -> LineByLine<'a>
        ensures { left_of result ≡ bytes.now }
    {
        LineByLine {
            line: &[],
            later: bytes,
        }
    }

    // Begins the next line, where none is begun and a byte is left.
    fn begin(&mut self)
        ensures left { left_of self.new ≡ left_of self.old }
        ensures begun { self.new.line.now ≡ [] → self.new.later.now ≡ [] }
    {
        if self.line.is_empty() {
            let all = self.later;
            let end = line_length(all);
            self.line = &all[..end];
            self.later = &all[end..];
        }
    }
}

// How many bytes the first line has, with its end.
fn line_length(bytes: &[u8]) -> usize
    ensures within { result ≤ length bytes.now }
    ensures some { result ≡ 0 → bytes.now ≡ [] }
{
    match first_line_end(bytes) {
        Some(end) => end + 1,
        None => bytes.len(),
    }
}

impl Read for LineByLine<'_> {
    ghost remaining = { λ lines. Some (left_of lines) };

    fn read(&mut self, buf: &mut [u8]) -> io::Result<usize>
        ensures bound { ReadsAtMost result buf.new }
        ensures bytes { ReadConsumes (Some (left_of self.old)) (Some (left_of self.new)) result
            buf.new }
    {
        self.begin();
        self.line.read(buf)
    }
}
