//! Whether two things that are told are the same.

ghost use Rattle.std.specs.Prelude.{◌≡◌, nat_eq};
ghost use Rattle.std.specs.Cmp.Lexicographic.{pointwise};
ghost use Rattle.om_foot.specs.Footprint.{obj_eq};
ghost use Rattle.lab_explore_notes.specs.Same.{other_in, same_met, same_blocked, same_why, same_wait, same_ending, same_place, same_pair};

use lab_explore_closed::{Ending, Met, Pair, Place, Wait};
use om_foot::Obj;
use om_state::Blocked;

/// Whether two faults that were met are the same.
pub(crate) fn is_same_met(a: &Met, b: &Met) -> bool
    ensures { result ≡ same_met a.now b.now }
{
    a.fault.number() == b.fault.number() && a.worker == b.worker && a.line == b.line
}

// Whether two lists of faults are the same.
fn are_same_mets(a: &[Met], b: &[Met]) -> bool
    ensures { result ≡ pointwise same_met a.now b.now }
{
    let mut rest = b;
    for met in a {
        let Some((first, later)) = rest.split_first() else {
            return false;
        };
        if !is_same_met(met, first) {
            return false;
        }
        rest = later;
    }
    rest.is_empty()
}

// The worker that a reason names, or 0.
fn other_in(why: Blocked) -> u8
    ensures { result ≡ other_in why }
{
    match why {
        Blocked::Critical(worker) => worker,
        Blocked::Busy(worker) => worker,
        Blocked::Barrier
        | Blocked::Children
        | Blocked::Idle
        | Blocked::Task
        | Blocked::Place
        | Blocked::Group => 0,
    }
}

fn is_same_blocked(a: Blocked, b: Blocked) -> bool
    ensures { result ≡ same_blocked a b }
{
    a.number() == b.number() && other_in(a) == other_in(b)
}

fn is_same_why(a: Option<Blocked>, b: Option<Blocked>) -> bool
    ensures { result ≡ same_why a b }
{
    match (a, b) {
        (None, None) => true,
        (Some(why), Some(other)) => is_same_blocked(why, other),
        (None, Some(_)) | (Some(_), None) => false,
    }
}

fn is_same_wait(a: &Wait, b: &Wait) -> bool
    ensures { result ≡ same_wait a.now b.now }
{
    a.worker == b.worker && a.line == b.line && is_same_why(a.blocked, b.blocked)
}

fn are_same_waits(a: &[Wait], b: &[Wait]) -> bool
    ensures { result ≡ pointwise same_wait a.now b.now }
{
    let mut rest = b;
    for wait in a {
        let Some((first, later)) = rest.split_first() else {
            return false;
        };
        if !is_same_wait(wait, first) {
            return false;
        }
        rest = later;
    }
    rest.is_empty()
}

fn are_same_bytes(a: &[u8], b: &[u8]) -> bool
    ensures { result ≡ pointwise nat_eq a.now b.now }
{
    a == b
}

/// Whether two endings are the same.
pub fn is_same_ending(a: &Ending, b: &Ending) -> bool
    ensures { result ≡ same_ending a.now b.now }
{
    match (a, b) {
        (Ending::Faults(mets, output), Ending::Faults(others, printed)) => {
            are_same_mets(mets.as_slice(), others.as_slice())
                && are_same_bytes(output.as_slice(), printed.as_slice())
        }
        (Ending::Ends(value, output), Ending::Ends(other, printed)) => {
            *value == *other && are_same_bytes(output.as_slice(), printed.as_slice())
        }
        (Ending::Sticks(output, waits), Ending::Sticks(printed, others)) => {
            are_same_bytes(output.as_slice(), printed.as_slice())
                && are_same_waits(waits.as_slice(), others.as_slice())
        }
        _ => false,
    }
}

fn is_same_place(a: &Place, b: &Place) -> bool
    ensures { result ≡ same_place a.now b.now }
{
    a.line == b.line && a.kind.number() == b.kind.number()
}

fn is_same_object(a: &Obj, b: &Obj) -> bool
    ensures { result ≡ obj_eq a.now b.now }
{
    a == b
}

/// Whether two pairs of accesses are the same.
pub fn is_same_pair(a: &Pair, b: &Pair) -> bool
    ensures { result ≡ same_pair a.now b.now }
{
    is_same_place(&a.first, &b.first)
        && is_same_place(&a.second, &b.second)
        && is_same_object(&a.object, &b.object)
}
