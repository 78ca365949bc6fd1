//! What a number, a character or a format is, and what rules write for it.

ghost use Rattle.std.specs.Prelude.{◌≡◌, ◌++◌, ◌∷◌, [], false, slice_index, OnOk, decimal, drop, flat_map, if◌then◌else◌, ◌==◌};
ghost use Rattle.lab_port_words.specs.Texts.{is_one_of, has_one_of, is_suffix, is_hexadecimal, is_floating, form_of, without_suffix, escape_number, character_number, is_modifier, plain_format, has_whole_numbers, is_respelled, format_of, doubled, line_text};

use crate::class::{Form, Format};
use itoa::Buffer;
use om_seq::AllocResult;

// Whether a byte is one of these.
fn is_one_of(bytes: &[u8], byte: u8) -> bool
    ensures { result ≡ is_one_of bytes.now byte }
{
    bytes.contains(&byte)
}

/// Whether one of these stands among the bytes of a text.
pub(crate) fn has_one_of(bytes: &[u8], text: &[u8]) -> bool
    ensures { result ≡ has_one_of bytes.now text.now }
{
    text.iter().any(|byte| is_one_of(bytes, *byte))
}

// The byte there, or 0 after the end.
fn byte_at(text: &[u8], at: usize) -> u8
    ensures { result ≡ slice_index text.now at }
{
    if at < text.len() { text[at] } else { 0 }
}

// Whether a number is hexadecimal.
fn is_hexadecimal(text: &[u8]) -> bool
    ensures { result ≡ is_hexadecimal text.now }
{
    byte_at(text, 1) == b'x' || byte_at(text, 1) == b'X'
}

// Whether a number has a point or an exponent.
fn is_floating(text: &[u8]) -> bool
    ensures { result ≡ is_floating text.now }
{
    if is_hexadecimal(text) {
        has_one_of(b".pP", text)
    } else {
        has_one_of(b".eE", text)
    }
}

/// The form of a number.
pub(crate) fn form_of(text: &[u8]) -> Form
    ensures { result ≡ form_of text.now }
{
    if is_floating(text) {
        return Form::Floating;
    }
    if has_one_of(b"uU", text) {
        return Form::Unsigned;
    }
    if has_one_of(b"lL", text) {
        return Form::Long;
    }
    if text == b"1".as_slice() {
        Form::One
    } else {
        Form::Plain
    }
}

// Whether a byte is one of a suffix.
fn is_suffix(byte: u8) -> bool
    ensures { result ≡ is_suffix byte }
{
    is_one_of(b"uUlL", byte)
}

/// Appends a whole number without its suffix. The only error is out of memory.
pub fn push_without_suffix(out: &mut Vec<u8>, text: &[u8]) -> AllocResult<()>
    ensures { OnOk result (out.new.items ≡ out.old.items ++ without_suffix text.now) }
{
    for byte in text {
        if !is_suffix(*byte) {
            out.push(*byte)?;
        }
    }
    Ok(())
}

// The number of the escape with this letter.
fn escape_number(letter: u8) -> Option<u8>
    ensures { result ≡ escape_number letter }
{
    match letter {
        b'n' => Some(b'\n'),
        b't' => Some(b'\t'),
        b'r' => Some(b'\r'),
        b'0' => Some(0),
        _ if is_one_of(b"\\'\"", letter) => Some(letter),
        _ => None,
    }
}

/// The number of a character of one ASCII byte, or of one escape.
pub(crate) fn character_number(text: &[u8]) -> Option<u8>
    ensures { result ≡ character_number text.now }
{
    if text.len() == 3 {
        return if text[1] < 128 { Some(text[1]) } else { None };
    }
    if text.len() == 4 && text[1] == b'\\' {
        return escape_number(text[2]);
    }
    None
}

/// Appends a number in decimal. The only error is out of memory.
pub fn push_number(out: &mut Vec<u8>, number: u8) -> AllocResult<()>
    ensures { OnOk result (out.new.items ≡ out.old.items ++ decimal number) }
{
    let mut buffer = Buffer::new();
    out.extend_from_slice(buffer.format(number).as_bytes())
}

// Whether a byte may stand between `%` and the letter of a conversion.
fn is_modifier(byte: u8) -> bool
    ensures { result ≡ is_modifier byte }
{
    is_one_of(b"-+ #0123456789.hljzt", byte)
}

// Whether each conversion is one of a whole number, or a percent sign.
fn has_whole_numbers(text: &[u8]) -> bool
    ensures { result ≡ has_whole_numbers false text.now }
{
    let mut inside = false;
    for byte in text {
        if !inside {
            inside = *byte == b'%';
            continue;
        }
        if is_modifier(*byte) {
            continue;
        }
        if !is_one_of(b"diu%", *byte) {
            return false;
        }
        inside = false;
    }
    true
}

// Whether some conversion is spelled otherwise than in the subset.
fn is_respelled(text: &[u8]) -> bool
    ensures { result ≡ is_respelled false text.now }
{
    let mut inside = false;
    for byte in text {
        if inside {
            if is_modifier(*byte) || is_one_of(b"iu", *byte) {
                return true;
            }
            inside = false;
        } else {
            inside = *byte == b'%';
        }
    }
    false
}

/// Which conversions a text has, as a format.
pub(crate) fn format_of(text: &[u8]) -> Format
    ensures { result ≡ format_of text.now }
{
    if !has_whole_numbers(text) {
        return Format::Lacking;
    }
    if is_respelled(text) {
        Format::Respelled
    } else {
        Format::Same
    }
}

/// Appends a format with `%d` in place of each conversion of a whole number. The only error is out of memory.
pub fn push_format(out: &mut Vec<u8>, text: &[u8]) -> AllocResult<()>
    ensures { OnOk result (out.new.items ≡ out.old.items ++ plain_format false text.now) }
{
    let mut inside = false;
    for byte in text {
        if !inside {
            out.push(*byte)?;
            inside = *byte == b'%';
        } else if !is_modifier(*byte) {
            out.push(conversion(*byte))?;
            inside = false;
        }
    }
    Ok(())
}

// The letter of a conversion, as the subset has it.
fn conversion(letter: u8) -> u8
    ensures { result ≡ (if is_one_of (105 ∷ 117 ∷ []) letter then 100 else letter) }
{
    if is_one_of(b"iu", letter) {
        b'd'
    } else {
        letter
    }
}

/// Appends a text of `puts` as one of `printf`. The only error is out of memory.
pub fn push_line_text(out: &mut Vec<u8>, text: &[u8]) -> AllocResult<()>
    ensures { OnOk result (out.new.items ≡ out.old.items ++ line_text text.now) }
{
    let end = text.len().saturating_sub(1);
    push_doubled(out, &text[..end])?;
    out.extend_from_slice(b"\\n\"")
}

// Appends a text with each percent sign doubled.
fn push_doubled(out: &mut Vec<u8>, text: &[u8]) -> AllocResult<()>
    ensures { OnOk result (out.new.items ≡ out.old.items ++ doubled text.now) }
{
    for byte in text {
        if *byte == b'%' {
            out.push(b'%')?;
        }
        out.push(*byte)?;
    }
    Ok(())
}
