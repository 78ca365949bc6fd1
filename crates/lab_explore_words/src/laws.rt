//! What is true of words.

ghost use Rattle.lab_explore_words.specs.Laws.{DistinctValues, DistinctObjects};

/// Where the words of two values are followed by others, and the whole is the same, the values are the same, and
/// so is what follows.
pub fn distinct_values()
    ensures { DistinctValues }
{}

/// Objects have such words too.
pub fn distinct_objects()
    ensures { DistinctObjects }
{}
