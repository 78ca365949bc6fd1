//! Laws of resolved trees.

ghost use Rattle.om_scope_tree.specs.Whole.{WholeTreesHaveMain};

/// A whole tree has a `main`.
pub fn main_there()
    ensures { WholeTreesHaveMain }
{}
