//! Which loads and stores of a body are the access of an atomic read or write.

ghost use Rattle.std.specs.Prelude.{◌≡◌, ◌≤◌, IfOk, length};
ghost use Rattle.std.specs.Option.{option_copied};
ghost use Rattle.om_lower_rules.specs.AtomicPlaces.{access_at, atomic_places, is_access, is_last, is_last_but_one};
ghost use Rattle.om_lower_rules.specs.AtomicPlaces.{is_load, is_store};

use om_code::raw::Line;
use om_code::{Instr, Serial};
use om_scope_tree::AtomicAccess;
use om_seq::{AllocResult, Seq};
use std::alloc::Global;
use std::collections::BTreeMap;

/// The places of a body that are the access of an atomic read or write, by the lines of a program's.
pub(crate) fn atomic_places(
    alloc: Global,
    lines: &BTreeMap<u32, AtomicAccess>,
    code: &[Line],
) -> AllocResult<Seq<u32>>
    requires { length code.now ≤ 65536 }
    ensures { IfOk result (λ places. places ≡ atomic_places lines.now.entries code.now) }
{
    let mut places = Vec::new(alloc);
    let mut place = 0;
    let mut left = code;
    while let Some((line, behind)) = left.split_first() {
        if is_access(access_at(lines, line.line), *line, behind) {
            places.push(place)?;
        }
        place += 1;
        left = behind;
    }
    Ok(Seq::of(places))
}

// What the `atomic` of a line does, if it has one that reads or writes.
fn access_at(lines: &BTreeMap<u32, AtomicAccess>, line: u32) -> Option<AtomicAccess>
    ensures { result ≡ access_at lines.now.entries line }
{
    lines.get(&line).copied()
}

// Whether an instruction, with those behind it, is the access of the `atomic` of its line.
fn is_access(access: Option<AtomicAccess>, line: Line, behind: &[Line]) -> bool
    ensures { result ≡ is_access access line behind.now }
{
    match access {
        None => false,
        Some(AtomicAccess::Read) => is_load(line.instruction) && is_last_but_one(line.line, behind),
        Some(AtomicAccess::Write) => is_store(line.instruction) && is_last(line.line, behind),
    }
}

// Whether an instruction loads a variable.
fn is_load(instruction: Instr) -> bool
    ensures { result ≡ is_load instruction }
{
    matches!(
        instruction,
        Instr::Serial(Serial::Load(_) | Serial::LoadElement(_))
    )
}

// Whether an instruction stores into a variable.
fn is_store(instruction: Instr) -> bool
    ensures { result ≡ is_store instruction }
{
    matches!(
        instruction,
        Instr::Serial(Serial::Store { .. } | Serial::StoreElement { .. })
    )
}

// Whether no instruction of this line follows at once.
fn is_last(line: u32, behind: &[Line]) -> bool
    ensures { result ≡ is_last line behind.now }
{
    match behind.split_first() {
        None => true,
        Some((next, _)) => next.line != line,
    }
}

// Whether one more instruction of this line follows at once, and then none.
fn is_last_but_one(line: u32, behind: &[Line]) -> bool
    ensures { result ≡ is_last_but_one line behind.now }
{
    match behind.split_first() {
        None => false,
        Some((next, further)) => next.line == line && is_last(line, further),
    }
}
