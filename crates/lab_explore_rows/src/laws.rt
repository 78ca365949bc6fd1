//! What is true of rows.

ghost use Rattle.lab_explore_rows.specs.Laws.{RowsTellApart};

use lab_explore_words::laws::distinct_values;

/// Two states are the same exactly where their rows are, but for zeros at the end.
pub fn rows_tell_apart()
    ensures { RowsTellApart }
{
    distinct_values();
}
