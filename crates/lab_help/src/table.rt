//! Tables of words by their names.

ghost use Rattle.std.specs.Prelude.{◌≡◌, map, option_copied};
ghost use Rattle.std.specs.Str.{bytes_eq};
ghost use Rattle.lab_help.specs.Tables.{words_of};

/// A name, and the words that it has.
pub(crate) type Row = (&'static [u8], &'static str);

// Whether a row has this name.
fn is_named(row: &Row, name: &[u8]) -> bool
    ensures { result ≡ bytes_eq row.now.0.now name.now }
{
    row.0 == name
}

/// The words of the first row of this name.
pub(crate) fn words_of(rows: &[Row], name: &[u8]) -> Option<&'static str>
    ensures { option_copied result
        ≡ words_of (map (λ row. (row.0.now, row.1.now)) rows.now) name.now }
{
    for row in rows {
        if is_named(row, name) {
            return Some(row.1);
        }
    }
    None
}

/// The words of the first row whose name begins a text.
pub(crate) fn words_at(rows: &[Row], text: &[u8]) -> Option<&'static str> {
    for row in rows {
        if text.starts_with(row.0) {
            return Some(row.1);
        }
    }
    None
}
