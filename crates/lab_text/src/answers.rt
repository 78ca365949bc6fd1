//! What a session was answered, command by command.

ghost use Rattle.std.specs.Prelude.{◌≡◌, [], Some};
ghost use Rattle.std.specs.Io.{WritesAtMost};
ghost use Rattle.std.specs.Io.KnownBytes.{Keeps, WriteAppends};

use std::alloc::Global;
use std::io::{self, Write};

/// What was written, and where it was flushed. Where a run of the debugger reads its input line by line, it
/// flushes after the answer to each command: so each answer is known by itself.
#[derive(Drop)]
pub struct Answers {
    text: Vec<u8>,
    // Where answers end, ascending. None of them is empty.
    ends: Vec<usize>,
}

impl Answers {
    /// Nothing is written yet. It takes no memory.
    pub fn new(alloc: Global) -> Answers
        ensures { result.text.items ≡ [] }
    {
        Answers {
            text: Vec::new(alloc),
            ends: Vec::new(alloc),
        }
    }

    /// All that was written.
    pub fn into_text(self) -> Vec<u8>
        ensures { result ≡ self.text }
    {
        let Answers { text, ends } = self;
        drop(ends);
        text
    }

    // Where the first so many answers end; 0, where there are fewer or none are asked for.
    fn end(&self, count: usize) -> usize {
        match count.checked_sub(1) {
            Some(last) => self.ends.as_slice().get(last).copied().unwrap_or(0),
            None => 0,
        }
    }

    /// The answer behind so many; no bytes where there is none.
    pub(crate) fn after(&self, count: usize) -> &[u8] {
        let end = self.end(count.saturating_add(1));
        let start = self.end(count);
        self.text.as_slice().get(start..end).unwrap_or(&[])
    }
}

impl Write for Answers {
    ghost contents = { λ answers. Some answers.text.items };

    fn write(&mut self, buf: &[u8]) -> io::Result<usize>
        ensures bound { WritesAtMost result buf.now }
        ensures bytes { WriteAppends (Some self.old.text.items) (Some self.new.text.items) result
            buf.now }
    {
        self.text.write(buf)
    }

    fn flush(&mut self) -> io::Result<()>
        ensures bytes { Keeps (Some self.old.text.items) (Some self.new.text.items) }
    {
        let end = self.text.len();
        if end > self.end(self.ends.len()) {
            self.ends.push(end)?;
        }
        Ok(())
    }
}
