//! Classes of bytes.

ghost use Rattle.std.specs.Prelude.{◌≡◌, ◌<◌, ◌↔◌, length, slice_index, IsTrue};
ghost use Rattle.om_lexer.specs.Characters.{is_blank, is_word_byte};

/// Whether a byte is a letter, a digit or `_`.
pub(crate) fn is_word_byte(byte: u8) -> bool
    ensures { result ≡ is_word_byte byte }
{
    byte.is_ascii_alphanumeric() || byte == b'_'
}

/// Whether a byte is a space, a tab or a carriage return.
pub(crate) fn is_blank(byte: u8) -> bool
    ensures { result ≡ is_blank byte }
{
    byte == b' ' || byte == b'\t' || byte == b'\r'
}

/// The byte there, or 0 behind the end.
pub(crate) fn byte_at(source: &[u8], at: usize) -> u8
    ensures byte { result ≡ slice_index source.now at }
    ensures inside { 0 < result → at < length source.now }
{
    if at < source.len() { source[at] } else { 0 }
}

/// Whether two texts are the same.
pub(crate) fn is_same(a: &[u8], b: &[u8]) -> bool
    ensures { IsTrue result ↔ (a.now ≡ b.now) }
{
    a == b
}
