//! Laws of what names mean in the code of a tree.

ghost use Rattle.om_name_laws.specs.GlobalLaws.{NamesMeanGlobals};
ghost use Rattle.om_name_laws.specs.NameLaws.{NamesMeanVariables};
ghost use Rattle.om_name_laws.specs.SourceLaws.{SourcesSeeNames};

use om_scope_rules::laws::{places_stand_in_order, unbroken_trees_are_whole};

/// In the resolution of a source that breaks no rule each use has the variable that its name means there: the
/// innermost one of the name that is in scope, or else the first global of it.
pub fn sources_see_names()
    ensures { SourcesSeeNames }
{
    places_stand_in_order();
    unbroken_trees_are_whole();
}

/// In the body of a function each instruction that names a variable stands where the variable's name means it.
///
/// A name that means a variable of the function there leads to the slot that the instruction names. No variable
/// of the function hides a global that it names. There are two exceptions beside RED, which names two variables:
/// the load with which a firstprivate copy of a worksharing construct begins, and a bound that reads the variable
/// of its own loop.
pub fn names_mean_variables()
    ensures { NamesMeanVariables }
{}

/// In the body of a function each instruction that names a global stands where the global's name means it: `variable_at`
/// answers the global there. The load with which a firstprivate copy of a worksharing construct begins is an exception.
pub fn names_mean_globals()
    ensures { NamesMeanGlobals }
{}
