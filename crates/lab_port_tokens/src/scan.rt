//! How far a piece goes.

ghost use Rattle.std.specs.Prelude.{◌≡◌, ◌≤◌, length};
ghost use Rattle.lab_port_tokens.specs.Scans.{scan_after, step, goes_if, ends_if, step_after_backslash, step_in_number, step_in_quotes, step_after_slash, step_in_block, step_in_line, step_after_point, step_after_mark, step_after_two, size_from};

use crate::character::{is_blank, is_digit, is_doubled, is_word_byte, takes_equal};

/// What a piece is so far, where its first byte is read.
#[derive(Clone, Copy)]
pub enum Scan {
    /// White space in a line.
    Blank,
    /// A backslash, and perhaps a carriage return.
    Splice,
    /// A name or a keyword.
    Word,
    /// A number, and whether the letter of an exponent stands last.
    Number(bool),
    /// A text or a character: its quote, and whether a backslash stands last.
    Quoted(u8, bool),
    /// A slash.
    Slash,
    /// A comment that a star and a slash end, and whether a star stands last.
    Block(bool),
    /// A comment that the line ends, and whether a backslash stands last.
    Line(bool),
    /// A point.
    Point,
    /// Two points.
    Points,
    /// `<<` or `>>`.
    Shift,
    /// Any other byte.
    Mark(u8),
}

/// What the next byte is to a piece.
#[derive(Clone, Copy)]
pub enum Next {
    /// No part of it.
    Stops,
    /// Its last byte.
    Ends,
    /// A byte of it, after which it is this.
    Goes(Scan),
}

/// What a piece is behind its first byte.
pub(crate) fn scan_after(first: u8) -> Scan
    ensures { result ≡ scan_after first }
{
    if is_digit(first) {
        return Scan::Number(false);
    }
    if is_word_byte(first) {
        return Scan::Word;
    }
    if is_blank(first) {
        return Scan::Blank;
    }
    match first {
        b'\\' => Scan::Splice,
        b'"' | b'\'' => Scan::Quoted(first, false),
        b'/' => Scan::Slash,
        b'.' => Scan::Point,
        _ => Scan::Mark(first),
    }
}

/// What the next byte is.
pub(crate) fn step(scan: Scan, byte: u8) -> Next
    ensures { result ≡ step scan byte }
{
    match scan {
        Scan::Blank => goes_if(is_blank(byte), Scan::Blank),
        Scan::Splice => step_after_backslash(byte),
        Scan::Word => goes_if(is_word_byte(byte), Scan::Word),
        Scan::Number(exponent) => step_in_number(exponent, byte),
        Scan::Quoted(quote, escaped) => step_in_quotes(quote, escaped, byte),
        Scan::Slash => step_after_slash(byte),
        Scan::Block(star) => step_in_block(star, byte),
        Scan::Line(spliced) => step_in_line(spliced, byte),
        Scan::Point => step_after_point(byte),
        Scan::Points => ends_if(byte == b'.'),
        Scan::Shift => ends_if(byte == b'='),
        Scan::Mark(mark) => step_after_mark(mark, byte),
    }
}

// It goes on where this holds.
fn goes_if(goes: bool, next: Scan) -> Next
    ensures { result ≡ goes_if goes next }
{
    if goes { Next::Goes(next) } else { Next::Stops }
}

// It ends where this holds.
fn ends_if(ends: bool) -> Next
    ensures { result ≡ ends_if ends }
{
    if ends { Next::Ends } else { Next::Stops }
}

fn step_after_backslash(byte: u8) -> Next
    ensures { result ≡ step_after_backslash byte }
{
    if byte == b'\r' {
        return Next::Goes(Scan::Splice);
    }
    ends_if(byte == b'\n')
}

fn step_in_number(exponent: bool, byte: u8) -> Next
    ensures { result ≡ step_in_number exponent byte }
{
    let sign = exponent && b"+-".contains(&byte);
    let next = Scan::Number(b"eEpP".contains(&byte));
    goes_if(is_word_byte(byte) || byte == b'.' || sign, next)
}

fn step_in_quotes(quote: u8, escaped: bool, byte: u8) -> Next
    ensures { result ≡ step_in_quotes quote escaped byte }
{
    if escaped {
        return Next::Goes(Scan::Quoted(quote, byte == b'\r'));
    }
    if byte == quote {
        return Next::Ends;
    }
    goes_if(byte != b'\n', Scan::Quoted(quote, byte == b'\\'))
}

fn step_after_slash(byte: u8) -> Next
    ensures { result ≡ step_after_slash byte }
{
    match byte {
        b'*' => Next::Goes(Scan::Block(false)),
        b'/' => Next::Goes(Scan::Line(false)),
        _ => ends_if(byte == b'='),
    }
}

fn step_in_block(star: bool, byte: u8) -> Next
    ensures { result ≡ step_in_block star byte }
{
    if star && byte == b'/' {
        return Next::Ends;
    }
    Next::Goes(Scan::Block(byte == b'*'))
}

fn step_in_line(spliced: bool, byte: u8) -> Next
    ensures { result ≡ step_in_line spliced byte }
{
    let splices = byte == b'\\' || (spliced && byte == b'\r');
    goes_if(spliced || byte != b'\n', Scan::Line(splices))
}

fn step_after_point(byte: u8) -> Next
    ensures { result ≡ step_after_point byte }
{
    if is_digit(byte) {
        return Next::Goes(Scan::Number(false));
    }
    goes_if(byte == b'.', Scan::Points)
}

fn step_after_mark(mark: u8, byte: u8) -> Next
    ensures { result ≡ step_after_mark mark byte }
{
    if byte == b'=' {
        return ends_if(takes_equal(mark));
    }
    if byte == mark && is_doubled(mark) {
        return step_after_two(mark);
    }
    ends_if(mark == b'-' && byte == b'>')
}

// What is read behind two of these.
fn step_after_two(mark: u8) -> Next
    ensures { result ≡ step_after_two mark }
{
    if b"<>".contains(&mark) {
        return Next::Goes(Scan::Shift);
    }
    Next::Ends
}

/// How many of the bytes belong to the piece.
pub(crate) fn size_from(scan: Scan, bytes: &[u8]) -> usize
    ensures size { result ≡ size_from scan bytes.now }
    ensures inside { result ≤ length bytes.now }
{
    let mut scan = scan;
    for (i, byte) in bytes.iter().enumerate() {
        match step(scan, *byte) {
            Next::Stops => return i,
            Next::Ends => return i + 1,
            Next::Goes(next) => scan = next,
        }
    }
    bytes.len()
}
