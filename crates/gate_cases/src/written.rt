//! Tables of sources, and sources as they are written in a case.
//!
//! A section of the input begins with `== STAGE TITLE`. Its cases stand below, each on a line, as `SOURCE
//! => S3 1:36`: the source is refused by S3 at line 1, column 36. A section with lines `%%` has its cases
//! between them, and in each the `=> S3 1:36` stands on a line of its own, below the source. A case without
//! a refusal is accepted.
//!
//! A control character stands in a source as its picture: `␊` is the end of a line, `␍`, `␉`, `␌` and `␁`
//! are the others. `⟨1023 if(1)⟩` is so many times `if(1)`; a `№` in there is the number of the time, from
//! 0 on.

use om_seq::AllocResult;

/// What stands between two cases of a table.
pub(crate) fn divider(table: &str) -> &'static str {
    if table.contains("%%\n") { "%%\n" } else { "\n" }
}

/// The source of a case as it is written there, and what is wanted of it.
pub(crate) fn parts(case: &str) -> (&str, &str) {
    if let Some((source, wanted)) = case.split_once("\n=> ") {
        return (source, wanted.trim_end());
    }
    case.split_once(" => ").unwrap_or((case, "accepted"))
}

/// What stands before and after a character; nothing after it, where a text does not have it.
pub(crate) fn cut(text: &str, mark: char) -> (&str, &str) {
    text.split_once(mark).unwrap_or((text, ""))
}

/// Adds the source that a text stands for.
pub(crate) fn write_out(source: &mut String, text: &str) -> AllocResult<()> {
    let (front, rest) = cut(text, '⟨');
    add(source, front)?;
    for part in rest.split('⟨') {
        let (repeated, behind) = cut(part, '⟩');
        add_repeated(source, repeated)?;
        add(source, behind)?;
    }
    Ok(())
}

// Adds a text with the control characters in place of their pictures.
fn add(source: &mut String, text: &str) -> AllocResult<()> {
    for character in text.chars() {
        source.push(control_of(character))?;
    }
    Ok(())
}

// The control character of a picture; any other character stands for itself.
fn control_of(character: char) -> char {
    match character {
        '␁' => '\u{1}',
        '␉' => '\t',
        '␊' => '\n',
        '␌' => '\u{c}',
        '␍' => '\r',
        other => other,
    }
}

// Adds a part as often as the number before it says. Without a number it stands there as it is.
fn add_repeated(source: &mut String, repeated: &str) -> AllocResult<()> {
    let (count, part) = cut(repeated, ' ');
    match count.parse() {
        Ok(count) => add_times(source, count, part),
        Err(_) => add(source, repeated),
    }
}

// Adds a part so many times.
fn add_times(source: &mut String, count: u32, part: &str) -> AllocResult<()> {
    let numbered = part.split_once('№');
    for number in 0..count {
        match numbered {
            Some((front, back)) => add_numbered(source, front, number, back)?,
            None => add(source, part)?,
        }
    }
    Ok(())
}

// Adds a number between two texts.
fn add_numbered(source: &mut String, front: &str, number: u32, back: &str) -> AllocResult<()> {
    add(source, front)?;
    write!(source, "{number}")?;
    add(source, back)
}
