//! Breaks and watches: where a run stops.

ghost use Rattle.std.specs.Prelude.{◌≡◌, ◌++◌, IfOk, OnOk};
ghost use Rattle.om_shell_debugger.specs.Marked.{with_break, has_cell, with_watch, without, without_break};
ghost use Rattle.om_shell_debugger.specs.Stops.{has_line};

use om_seq::{AllocResult, Seq};
use om_shell_commands::GlobalCell;
use std::alloc::Global;

/// The lines at which a run stops, and the cells of globals whose change stops it.
#[derive(Drop)]
pub struct Marks {
    /// The lines, each once.
    pub breaks: Seq<u64>,
    /// The cells, each once, the one set first first.
    pub watches: Seq<GlobalCell>,
}

/// Whether a line is among these.
pub fn has_line(lines: &[u64], line: u64) -> bool
    ensures { result ≡ has_line lines.now line }
{
    for other in lines {
        if *other == line {
            return true;
        }
    }
    false
}

// Whether a cell is among these.
fn has_cell(cells: &[GlobalCell], cell: GlobalCell) -> bool
    ensures { result ≡ has_cell cells.now cell }
{
    for other in cells {
        if other.variable == cell.variable && other.index == cell.index {
            return true;
        }
    }
    false
}

// The lines but this one.
fn without(alloc: Global, lines: &[u64], line: u64) -> AllocResult<Seq<u64>>
    ensures { IfOk result (λ kept. kept ≡ without line lines.now) }
{
    let mut kept = Seq::new(alloc);
    for other in lines {
        if *other != line {
            kept.push(*other)?;
        }
    }
    Ok(kept)
}

impl Marks {
    /// Sets a break, unless it is set.
    pub(crate) fn set_break(&mut self, line: u64) -> AllocResult<()>
        ensures { OnOk result (self.new ≡ with_break line self.old) }
    {
        if has_line(self.breaks.as_slice(), line) {
            return Ok(());
        }
        self.breaks.push(line)
    }

    /// Sets a watch, unless it is set.
    pub(crate) fn set_watch(&mut self, cell: GlobalCell) -> AllocResult<()>
        ensures { OnOk result (self.new ≡ with_watch cell self.old) }
    {
        if has_cell(self.watches.as_slice(), cell) {
            return Ok(());
        }
        self.watches.push(cell)
    }

    /// Takes a break back, and answers whether it was set.
    pub(crate) fn delete(&mut self, alloc: Global, line: u64) -> AllocResult<bool>
        ensures was_set { IfOk result (λ was_set. was_set ≡ has_line self.old.breaks line) }
        ensures deleted { OnOk result (self.new ≡ without_break line self.old) }
    {
        let was_set = has_line(self.breaks.as_slice(), line);
        self.breaks = without(alloc, self.breaks.as_slice(), line)?;
        Ok(was_set)
    }
}
