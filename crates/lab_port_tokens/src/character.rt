//! Classes of bytes.

ghost use Rattle.std.specs.Prelude.{◌≡◌};
ghost use Rattle.lab_port_tokens.specs.Characters.{is_blank, is_digit, is_word_byte, is_doubled, takes_equal};

/// Whether a byte is a decimal digit.
pub fn is_digit(byte: u8) -> bool
    ensures { result ≡ is_digit byte }
{
    byte.is_ascii_digit()
}

/// Whether a byte is a letter, a digit or `_` (C17 6.4.2.1).
pub fn is_word_byte(byte: u8) -> bool
    ensures { result ≡ is_word_byte byte }
{
    byte.is_ascii_alphanumeric() || byte == b'_'
}

/// Whether a byte is white space in a line (C17 6.4p3): a space, a tab, a carriage return, a vertical tab or a
/// form feed.
pub(crate) fn is_blank(byte: u8) -> bool
    ensures { result ≡ is_blank byte }
{
    b" \t\r\x0B\x0C".contains(&byte)
}

/// Whether this byte, twice, is a punctuator (C17 6.4.6).
pub(crate) fn is_doubled(byte: u8) -> bool
    ensures { result ≡ is_doubled byte }
{
    b"+-<>&|#".contains(&byte)
}

/// Whether this byte and a `=` are a punctuator (C17 6.4.6).
pub(crate) fn takes_equal(byte: u8) -> bool
    ensures { result ≡ takes_equal byte }
{
    b"+-*/%<>=!&|^".contains(&byte)
}
