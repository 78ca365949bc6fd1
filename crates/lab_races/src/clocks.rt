//! Clocks: for each worker the serial of a step, or 0.

ghost use Rattle.std.specs.Prelude.{◌≡◌, get_or, IfOk};
ghost use Rattle.lab_races.specs.Sweeps.{Joins, IsAlone};

use om_seq::AllocResult;
use std::alloc::Global;

/// The serial that a clock has for a worker, or 0.
pub(crate) fn serial_in(clock: &[u64], worker: usize) -> u64
    ensures { result ≡ get_or clock.now worker 0 }
{
    match clock.get(worker) {
        Some(serial) => *serial,
        None => 0,
    }
}

/// The clock that has for each worker the greater serial of two clocks. Its only error is out of memory.
pub(crate) fn joined(alloc: Global, a: &[u64], b: &[u64]) -> AllocResult<Vec<u64>>
    ensures { IfOk result (λ clock. Joins a.now b.now clock.items) }
{
    let mut clock = Vec::new(alloc);
    for worker in 0..a.len().max(b.len()) {
        clock.push(serial_in(a, worker).max(serial_in(b, worker)))?;
    }
    Ok(clock)
}

/// The clock that has a serial for one worker, and 0 for the others. Its only error is out of memory.
pub(crate) fn alone(alloc: Global, worker: u8, serial: u64) -> AllocResult<Vec<u64>>
    ensures { IfOk result (λ clock. IsAlone worker serial clock.items) }
{
    let mut clock = Vec::new(alloc);
    for _ in 0..worker {
        clock.push(0)?;
    }
    clock.push(serial)?;
    Ok(clock)
}
