//! What is true of every instruction.

ghost use Rattle.lab_replay.specs.Manners.{MannersTell};

/// Two accesses are ordered by being atomic by how their instructions access variables where they are so for an
/// exploration.
pub fn manners_tell()
    ensures { MannersTell }
{}
