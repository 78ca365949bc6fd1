//! Numbers that the length of an array is made of (C17 6.4.4.1, 6.5.5, 6.5.6).

ghost use Rattle.std.specs.Prelude.{◌≡◌, ◌<◌, ◌*◌, IfSome};
ghost use Rattle.lab_port_arrays.specs.Numbers.{with_digit, number_from, number_of, within, combined, combined_by};

use lab_port_tokens::is_digit;

/// The number of a decimal constant without a suffix, if it may be a part of a length.
pub(crate) fn number_of(text: &[u8]) -> Option<usize>
    ensures { result ≡ number_of text.now }
{
    if text.is_empty() || text[0] == b'0' {
        return None;
    }
    number_from(text)
}

fn number_from(digits: &[u8]) -> Option<usize>
    ensures { result ≡ number_from 0 digits.now }
{
    let mut value: usize = 0;
    for digit in digits {
        match with_digit(value, *digit) {
            Some(next) => value = next,
            None => return None,
        }
    }
    Some(value)
}

// A number with one digit more.
fn with_digit(value: usize, digit: u8) -> Option<usize>
    requires { value < 65536 }
    ensures next { result ≡ with_digit value digit }
    ensures small { IfSome result (λ next. next < 65536) }
{
    let next = value * 10 + digit.saturating_sub(b'0') as usize;
    if is_digit(digit) && next < 65536 {
        Some(next)
    } else {
        None
    }
}

/// What two numbers give with a sign between them, if it is a length.
pub(crate) fn combined_by(sign: &[u8], a: Option<usize>, b: Option<usize>) -> Option<usize>
    ensures { result ≡ combined_by sign.now a b }
{
    match a {
        Some(a) => match b {
            Some(b) => combined(sign, a, b),
            None => None,
        },
        None => None,
    }
}

/// A sum, a difference or a product that is a length.
pub(crate) fn combined(sign: &[u8], a: usize, b: usize) -> Option<usize>
    ensures { result ≡ combined sign.now a b }
{
    if sign == b"+".as_slice() {
        return within(a as u128 + b as u128);
    }
    if sign == b"-".as_slice() {
        return within(a.saturating_sub(b) as u128);
    }
    if sign == b"*".as_slice() {
        return product(a, b);
    }
    None
}

fn product(a: usize, b: usize) -> Option<usize>
    ensures { result ≡ within (a * b) }
{
    match a.checked_mul(b) {
        Some(number) => within(number as u128),
        None => None,
    }
}

fn within(number: u128) -> Option<usize>
    ensures { result ≡ within number }
{
    if 0 < number && number < 65536 {
        Some(number as usize)
    } else {
        None
    }
}
