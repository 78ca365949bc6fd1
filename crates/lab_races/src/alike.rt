//! When two sides of races read the same, and when two accesses race.

ghost use Rattle.std.specs.Prelude.{◌≡◌};
ghost use Rattle.om_foot.specs.Footprint.{modes_conflict};
ghost use Rattle.lab_races.specs.Races.{are_atomic_together, does_combine, is_same_race, is_same_side, is_told, manner_eq, mode_eq};

use crate::accesses::is_atomic;
use crate::made::{Manner, Race, Side};
use om_foot::Mode;

/// Whether two modes are the same.
pub(crate) fn is_same_mode(a: Mode, b: Mode) -> bool
    ensures { result ≡ mode_eq a b }
{
    match (a, b) {
        (Mode::Read, Mode::Read) | (Mode::Write, Mode::Write) | (Mode::Add, Mode::Add) => true,
        _ => false,
    }
}

// Whether two manners are the same.
fn is_same_manner(a: Manner, b: Manner) -> bool
    ensures { result ≡ manner_eq a b }
{
    match (a, b) {
        (Manner::Plain, Manner::Plain)
        | (Manner::Atomic, Manner::Atomic)
        | (Manner::Reduction, Manner::Reduction)
        | (Manner::Ending, Manner::Ending) => true,
        _ => false,
    }
}

// Whether an access combines: a reduction writes the original.
fn does_combine(manner: Manner, mode: Mode) -> bool
    ensures { result ≡ does_combine manner mode }
{
    match (manner, mode) {
        (Manner::Reduction, Mode::Write) => true,
        _ => false,
    }
}

/// Whether two accesses of one variable are ordered by being atomic.
pub(crate) fn are_atomic_together(a: &Side, b: &Side) -> bool
    ensures { result ≡ are_atomic_together a.now.manner a.now.mode b.now.manner b.now.mode }
{
    (is_atomic(a.manner) && is_atomic(b.manner))
        || (does_combine(a.manner, a.mode) && does_combine(b.manner, b.mode))
}

/// Whether two accesses of one object can't be exchanged, by their modes.
pub(crate) fn is_conflict(a: Mode, b: Mode) -> bool
    ensures { result ≡ modes_conflict a b }
{
    match (a, b) {
        (Mode::Read, Mode::Read) | (Mode::Add, Mode::Add) => false,
        _ => true,
    }
}

/// Whether two sides read the same.
pub(crate) fn is_same_side(a: &Side, b: &Side) -> bool
    ensures { result ≡ is_same_side a.now b.now }
{
    a.line == b.line && (is_same_manner(a.manner, b.manner) && is_same_mode(a.mode, b.mode))
}

// Whether two races read the same.
fn is_same_race(r: &Race, s: &Race) -> bool
    ensures { result ≡ is_same_race r.now s.now }
{
    r.object.get() == s.object.get()
        && ((is_same_side(&r.earlier, &s.earlier) && is_same_side(&r.later, &s.later))
            || (is_same_side(&r.earlier, &s.later) && is_same_side(&r.later, &s.earlier)))
}

/// Whether a race is told by one of these.
pub(crate) fn is_told(races: &[Race], race: &Race) -> bool
    ensures { result ≡ is_told races.now race.now }
{
    for told in races {
        if is_same_race(told, race) {
            return true;
        }
    }
    false
}
