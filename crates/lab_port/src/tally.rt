//! How many changes a source has.

ghost use Rattle.std.specs.Prelude.{◌≡◌};
ghost use Rattle.lab_port.specs.Tallies.{warnings_in, change_count, warning_count};

use crate::ported::{Change, Ported};
use crate::words::warning_of;

/// How many changes there are in all stages.
pub fn change_count(ported: &Ported) -> u128
    ensures { result ≡ change_count ported.now }
{
    let conditions = ported.conditions.changes.len() as u128;
    let calls = ported.calls.changes.len() as u128;
    let names = ported.names.changes.len() as u128;
    let arguments = ported.arguments.changes.len() as u128;
    let arrays = ported.arrays.changes.len() as u128;
    let lists = ported.lists.changes.len() as u128;
    let sizes = ported.sizes.changes.len() as u128;
    let texts = ported.texts.changes.len() as u128;
    let again = ported.again.changes.len() as u128;
    let rules = ported.rules.changes.len() as u128;
    conditions + calls + names + arguments + arrays + lists + sizes + texts + again + rules
}

/// How many changes of all stages have a warning.
pub fn warning_count(ported: &Ported) -> u128
    ensures { result ≡ warning_count ported.now }
{
    let conditions = warnings_in(&ported.conditions.changes) as u128;
    let calls = warnings_in(&ported.calls.changes) as u128;
    let names = warnings_in(&ported.names.changes) as u128;
    let arguments = warnings_in(&ported.arguments.changes) as u128;
    let arrays = warnings_in(&ported.arrays.changes) as u128;
    let lists = warnings_in(&ported.lists.changes) as u128;
    let sizes = warnings_in(&ported.sizes.changes) as u128;
    let texts = warnings_in(&ported.texts.changes) as u128;
    let again = warnings_in(&ported.again.changes) as u128;
    let rules = warnings_in(&ported.rules.changes) as u128;
    conditions + calls + names + arguments + arrays + lists + sizes + texts + again + rules
}

// How many changes have a warning.
fn warnings_in(changes: &[Change]) -> usize
    ensures { result ≡ warnings_in changes.now }
{
    changes
        .iter()
        .filter(|change| warning_of(change.rule).is_some())
        .count()
}
