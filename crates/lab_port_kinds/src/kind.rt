//! The places of a source, once a kind.

ghost use Rattle.std.specs.Prelude.{◌≡◌, ◌++◌, [], ◌==◌, if◌then◌else◌, codes, decimal, IfOk, OnOk};
ghost use Rattle.lab_port_kinds.specs.Kinds.{places_of, is_like, has_like, count_like, counted, line_words, lines_like, places_words, kind_line, line_by, lines_from, heading, kinds_text};

use crate::found::{Found, places_of};
use itoa::Buffer;
use lab_port::Ported;
use om_seq::AllocResult;
use std::alloc::Global;

/// A line for each kind of place that is not accepted in a source of which the port makes this; nothing where there is
/// none. The only error is out of memory.
pub fn kinds(alloc: Global, source: &[u8], ported: &Ported) -> AllocResult<Vec<u8>>
    ensures { IfOk result (λ text. text.items ≡ kinds_text (places_of source.now ported.now)) }
{
    let places = places_of(alloc, source, ported)?;
    let mut text = Vec::new(alloc);
    push_kinds(&mut text, &places)?;
    Ok(text)
}

// Appends a line for each kind.
fn push_kinds(out: &mut Vec<u8>, places: &[Found]) -> AllocResult<()>
    ensures { OnOk result (out.new.items ≡ out.old.items ++ kinds_text places.now) }
{
    out.extend_from_slice(heading(places))?;
    push_lines(out, places)
}

// What stands before the lines of some places; nothing where there is none.
fn heading(places: &[Found]) -> &'static [u8]
    ensures { result.now ≡ heading places.now }
{
    if places.len() == 0 {
        return b"";
    }
    b"by the words alone these places are not accepted:\n"
}

fn push_lines(out: &mut Vec<u8>, places: &[Found]) -> AllocResult<()>
    ensures { OnOk result
        (out.new.items ≡ out.old.items ++ lines_from places.now 0 places.now) }
{
    for (i, one) in places.iter().enumerate() {
        push_line(out, &places[..i], one, &places[i + 1..])?;
    }
    Ok(())
}

// Appends the line of the kind of a place; nothing where another one of it stands before.
fn push_line(out: &mut Vec<u8>, before: &[Found], one: &Found, rest: &[Found]) -> AllocResult<()>
    ensures { OnOk result
        (out.new.items ≡ out.old.items ++ line_by before.now one.now rest.now) }
{
    if has_like(one, before) {
        return Ok(());
    }
    push_kind(out, one, rest)
}

// Appends how many places of this kind there are, where, and what they are.
fn push_kind(out: &mut Vec<u8>, one: &Found, rest: &[Found]) -> AllocResult<()>
    ensures { OnOk result (out.new.items ≡ out.old.items ++ kind_line one.now rest.now) }
{
    push_places(out, one, rest)?;
    out.extend_from_slice(b": ")?;
    out.extend_from_slice(one.words.as_slice())?;
    out.extend_from_slice(b"\n")
}

// Appends how many places of this kind there are, and the lines of the first four.
fn push_places(out: &mut Vec<u8>, one: &Found, rest: &[Found]) -> AllocResult<()>
    ensures { OnOk result (out.new.items ≡ out.old.items ++ places_words one.now rest.now) }
{
    out.extend_from_slice(b"  ")?;
    push_count(out, count_like(one, rest) as u128 + 1)?;
    out.extend_from_slice(b", in line")?;
    push_place(out, one)?;
    push_first(out, one, rest)
}

// Whether a place of this kind stands among these.
fn has_like(one: &Found, places: &[Found]) -> bool
    ensures { result ≡ has_like one.now places.now }
{
    places.iter().any(|other| is_like(one, other))
}

fn is_like(one: &Found, other: &Found) -> bool
    ensures { result ≡ is_like one.now other.now }
{
    other.words.as_slice() == one.words.as_slice()
}

// How many places are of this kind.
fn count_like(one: &Found, places: &[Found]) -> usize
    ensures { result ≡ count_like one.now places.now }
{
    places.iter().filter(|other| is_like(one, other)).count()
}

// Appends the lines of the first three places of this kind.
fn push_first(out: &mut Vec<u8>, one: &Found, places: &[Found]) -> AllocResult<()>
    ensures { OnOk result (out.new.items ≡ out.old.items ++ lines_like 3 one.now places.now) }
{
    let mut left: usize = 3;
    for place in places {
        if left > 0 && is_like(one, place) {
            push_place(out, place)?;
            left -= 1;
        }
    }
    Ok(())
}

// Appends the line of a place.
fn push_place(out: &mut Vec<u8>, place: &Found) -> AllocResult<()>
    ensures { OnOk result (out.new.items ≡ out.old.items ++ line_words place.now) }
{
    out.extend_from_slice(b" ")?;
    push_number(out, place.line)
}

// Appends how many places there are.
fn push_count(out: &mut Vec<u8>, count: u128) -> AllocResult<()>
    ensures { OnOk result (out.new.items ≡ out.old.items ++ counted count (codes "place")) }
{
    let mut buffer = Buffer::new();
    out.extend_from_slice(buffer.format(count).as_bytes())?;
    out.extend_from_slice(b" place")?;
    out.extend_from_slice(ending(count))
}

fn ending(count: u128) -> &'static [u8]
    ensures { result.now ≡ (if count == 1 then [] else codes "s") }
{
    if count == 1 { b"" } else { b"s" }
}

// Appends a number in decimal.
fn push_number(out: &mut Vec<u8>, number: usize) -> AllocResult<()>
    ensures { OnOk result (out.new.items ≡ out.old.items ++ decimal number) }
{
    let mut buffer = Buffer::new();
    out.extend_from_slice(buffer.format(number).as_bytes())
}
