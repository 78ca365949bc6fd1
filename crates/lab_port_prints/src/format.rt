//! The first text that a format prints (C17 7.21.6.1).

ghost use Rattle.std.specs.Prelude.{◌≡◌, ◌≤◌, length, IfSome};
ghost use Rattle.lab_port_prints.specs.Formats.{number_behind, slot_of, begins_number, has_number, is_odd};

use lab_port_context::deeper;
use lab_port_tokens::is_digit;

/// A `%s` of a format.
#[derive(Clone, Copy)]
pub struct Slot {
    /// The place behind it.
    pub end: usize,
    /// How many conversions stand before it.
    pub number: usize,
}

/// The first `%s` of a format.
pub(crate) fn slot_of(format: &[u8]) -> Option<Slot>
    ensures slot { result ≡ slot_of format.now }
    ensures inside { IfSome result (λ slot. slot.end ≤ length format.now) }
{
    let mut is_inside = false;
    let mut number = 0;
    for (i, byte) in format.iter().enumerate() {
        if is_inside && *byte == b's' {
            return Some(Slot { end: i + 1, number });
        }
        number = number_behind(is_inside, number, *byte);
        is_inside = !is_inside && *byte == b'%';
    }
    None
}

// How many conversions stand before the next byte.
fn number_behind(is_inside: bool, number: usize, byte: u8) -> usize
    ensures { result ≡ number_behind is_inside number byte }
{
    if is_inside && byte != b'%' {
        deeper(number)
    } else {
        number
    }
}

/// Whether an escape of a number stands in a text, which more digits behind it would change.
pub(crate) fn has_number(text: &[u8]) -> bool
    ensures { result ≡ has_number text.now }
{
    let mut escaped = false;
    for byte in text {
        if escaped && begins_number(*byte) {
            return true;
        }
        escaped = !escaped && *byte == b'\\';
    }
    false
}

/// Whether a format would print a text otherwise: one with a percent sign, or an escape of a number.
pub(crate) fn is_odd(text: &[u8]) -> bool
    ensures { result ≡ is_odd text.now }
{
    has_number(text) || text.contains(&b'%')
}

fn begins_number(byte: u8) -> bool
    ensures { result ≡ begins_number byte }
{
    is_digit(byte) || byte == b'x'
}
