//! Laws of the code that a tree has by the rows.

ghost use Rattle.om_lower_laws.specs.CellLaws.{DeclaredCells};
ghost use Rattle.om_lower_laws.specs.LockLaws.{DirectivesHaveLocks, LocksDiffer};
ghost use Rattle.om_lower_laws.specs.ShareLaws.{SharedHaveSlots, SharedStandOutside};

use om_scope_rules::laws::places_stand_in_order;

/// A slot with the cells of a slot of the body round it stands for the variable of that slot. Two different
/// slots have the cells of two different ones.
pub fn shared_variables_stand_outside()
    ensures { SharedStandOutside }
{}

/// A variable that a `parallel` or a `task` takes from outside and shares has one slot in its body and one in the
/// body round it, and both have the same cells.
pub fn shared_variables_have_slots()
    ensures { SharedHaveSlots }
{}

/// In a source's resolution each variable that a function declares has the cells of its own declarator, and of
/// no other one.
pub fn declarators_give_cells()
    ensures { DeclaredCells }
{
    places_stand_in_order();
}

/// No two locks of lowered code have one name: critical regions of different names have different locks.
pub fn locks_differ()
    ensures { LocksDiffer }
{}

/// The code of a `critical` directive has the lock of the directive's name.
pub fn directives_have_locks()
    ensures { DirectivesHaveLocks }
{}
