//! The places of a source that are not accepted.

ghost use Rattle.std.specs.Prelude.{◌≡◌, ◌++◌, map, IfOk, OnOk};
ghost use Rattle.lab_port_kinds.specs.Kinds.{changed_words, changed_place, is_fill, places_at, changed_places, lacking_place, places_of};

use lab_port::{Change, Ported, Refusal, Rule, lack_words, line_of, name_of};
use om_seq::{AllocResult, Seq};
use std::alloc::Global;

/// A place of a source that is not accepted.
#[derive(Drop)]
pub struct Found {
    /// What it is: a rule of the port, or why it has no form.
    pub words: Seq<u8>,
    /// Its line, from 1.
    pub line: usize,
}

/// The places of a source where a rule of the port applies, and then those without a form. The only error is out of
/// memory.
pub(crate) fn places_of(alloc: Global, source: &[u8], ported: &Ported) -> AllocResult<Vec<Found>>
    ensures { IfOk result (λ places. places.items ≡ places_of source.now ported.now) }
{
    let mut places = Vec::new(alloc);
    push_changes(alloc, &mut places, source, &ported.conditions.changes)?;
    push_changes(
        alloc,
        &mut places,
        &ported.conditions.text,
        &ported.calls.changes,
    )?;
    push_changes(
        alloc,
        &mut places,
        &ported.calls.text,
        &ported.names.changes,
    )?;
    push_changes(
        alloc,
        &mut places,
        &ported.names.text,
        &ported.arguments.changes,
    )?;
    push_changes(
        alloc,
        &mut places,
        &ported.arguments.text,
        &ported.arrays.changes,
    )?;
    push_changes(
        alloc,
        &mut places,
        &ported.arrays.text,
        &ported.lists.changes,
    )?;
    push_changes(
        alloc,
        &mut places,
        &ported.lists.text,
        &ported.sizes.changes,
    )?;
    push_changes(
        alloc,
        &mut places,
        &ported.sizes.text,
        &ported.texts.changes,
    )?;
    push_changes(
        alloc,
        &mut places,
        &ported.texts.text,
        &ported.again.changes,
    )?;
    push_changes(
        alloc,
        &mut places,
        &ported.again.text,
        &ported.rules.changes,
    )?;
    push_refusals(alloc, &mut places, &ported.again.text, &ported.refusals)?;
    Ok(places)
}

// Appends the places of some changes of a text.
fn push_changes(
    alloc: Global,
    places: &mut Vec<Found>,
    text: &[u8],
    changes: &[Change],
) -> AllocResult<()>
    ensures { OnOk result
        (places.new.items ≡ places.old.items ++ changed_places text.now changes.now) }
{
    for change in changes {
        push_places(alloc, places, text, change)?;
    }
    Ok(())
}

// Appends the place of a change of a text, where it has one.
fn push_places(
    alloc: Global,
    places: &mut Vec<Found>,
    text: &[u8],
    change: &Change,
) -> AllocResult<()>
    ensures { OnOk result
        (places.new.items ≡ places.old.items ++ places_at text.now change.now) }
{
    if is_fill(change.rule) {
        return Ok(());
    }
    places.push(changed_place(alloc, text, change)?)?;
    Ok(())
}

// Whether a rule stores the values of lists. It changes a text that the port wrote: the lists have places of their own.
fn is_fill(rule: Rule) -> bool
    ensures { result ≡ is_fill rule }
{
    match rule {
        Rule::Fill => true,
        _ => false,
    }
}

// Appends the places of some tokens of a text that have no form.
fn push_refusals(
    alloc: Global,
    places: &mut Vec<Found>,
    text: &[u8],
    refusals: &[Refusal],
) -> AllocResult<()>
    ensures { OnOk result
        (places.new.items ≡ places.old.items ++ map (lacking_place text.now) refusals.now) }
{
    for refusal in refusals {
        places.push(lacking_place(alloc, text, refusal)?)?;
    }
    Ok(())
}

// A place where a rule of the port applies.
fn changed_place(alloc: Global, text: &[u8], change: &Change) -> AllocResult<Found>
    ensures { IfOk result (λ found. found ≡ changed_place text.now change.now) }
{
    let words = changed_words(alloc, change)?;
    Ok(Found {
        words: Seq::of(words),
        line: line_of(text, change.at),
    })
}

fn changed_words(alloc: Global, change: &Change) -> AllocResult<Vec<u8>>
    ensures { IfOk result (λ words. words.items ≡ changed_words change.now) }
{
    let mut words = Vec::from_slice(alloc, name_of(change.rule))?;
    words.extend_from_slice(b": omplab port does this")?;
    Ok(words)
}

// A token without a form.
fn lacking_place(alloc: Global, text: &[u8], refusal: &Refusal) -> AllocResult<Found>
    ensures { IfOk result (λ found. found ≡ lacking_place text.now refusal.now) }
{
    let words = Vec::from_slice(alloc, lack_words(refusal.lack))?;
    Ok(Found {
        words: Seq::of(words),
        line: line_of(text, refusal.at),
    })
}
