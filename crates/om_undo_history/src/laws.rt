//! Laws of steps, undos and rolls, over any rules of a program.

ghost use Rattle.om_undo_history.specs.Laws.{Dependence, Commutation, Removal};
ghost use Rattle.om_undo_history.specs.Equivalence.{Diamonds, Swaps, Untouched, EquivalentRuns};
ghost use Rattle.om_undo_history.specs.Runs.{StepThenUndo};
ghost use Rattle.om_undo_history.specs.Undos.{ExactlyWhere};
ghost use Rattle.om_undo_history.specs.Leaves.{EachLeaves};
ghost use Rattle.om_undo_history.specs.Bounds.{SmallCounts};
ghost use Rattle.om_undo_history.specs.Commands.{RemainingSteps, SerialsRise, SerialsIdentify, RollIsCone, RollTakesCone, RollIsUndos, Least};

/// A step depends on its footprint alone: where two states hold the same at the objects that it
/// reads, its footprint, its outcome and its line are the same in both.
pub fn dependence()
    ensures { Dependence }
{}

/// Two steps that don't conflict can be exchanged: each can be made in the other's place, both
/// are the same steps there, and they end at the same state (Danos and Krivine 2004, the square).
pub fn commutation()
    ensures { Commutation }
{}

/// Runs of steps alone, with no undo and no roll among them, that differ by exchanges of neighbours that
/// don't conflict end at the same state: they are one trace (Mazurkiewicz 1977). Of causal equivalence
/// (Danos and Krivine 2004) this is what speaks of steps forwards: it also lets a step and its undo fall
/// out, of which `step_then_undo` speaks. Two steps that can each be made at a state
/// and don't conflict can be made in either order. A step stays the same after one with which it doesn't
/// conflict, also where it is blocked or its worker has ended.
pub fn equivalence()
    ensures diamonds { Diamonds }
    ensures swaps { Swaps }
    ensures untouched { Untouched }
    ensures same_end { EquivalentRuns }
{}

/// A step with which no later one conflicts can be taken out of a history. The rest can be made in turn,
/// and its steps stay the same. An object at which it put a value, or to which it appended, holds what it
/// held before that step. One to which it added holds less by that. Each other one holds what it holds
/// now.
pub fn removal()
    ensures { Removal }
{}

/// After a step that is done an undo of its worker answers that very step, and changes nothing but
/// the number of steps ever made: the entries are what they were before it.
pub fn step_then_undo()
    ensures { StepThenUndo }
{}

/// After any list of steps, undos and rolls, by any workers in any interleaving, the entries that
/// stand can be made in turn from the start.
pub fn remaining_steps()
    ensures { RemainingSteps }
{}

/// After any run an undo is refused exactly where a later entry conflicts with the worker's last
/// one, and names the first such entry; it is done exactly where none does; and there is nothing to
/// undo exactly where the worker has no entry.
pub fn exactly_where()
    ensures { ExactlyWhere }
{}

/// After any run a step that is made adds its entry behind the others. An undo that is done takes out its
/// worker's last entry and no other. A step or an undo that is not done changes nothing. Each entry that
/// stands keeps its serial, its line and its footprint.
pub fn what_is_left()
    ensures { EachLeaves }
{}

/// After any run the serials of the entries rise, and none is above the number of steps ever made. So a
/// serial identifies an entry.
pub fn serials()
    ensures rise { SerialsRise }
    ensures identify { SerialsIdentify }
{}

/// After any run the list of what a roll takes out is the cone: the least set that holds the entry
/// and, with each member, every later entry that conflicts with the member.
pub fn roll_is_cone()
    ensures { RollIsCone }
{}

/// After any run a roll takes out the cone and nothing else.
pub fn roll_takes_cone()
    ensures { RollTakesCone }
{}

/// After any run a roll is the list of undos of its members' workers, the latest first: each is
/// done, and takes out that very member.
pub fn roll_is_undos()
    ensures { RollIsUndos }
{}

/// After any run: every list of undos, without steps between, after which an entry is gone has
/// taken out every member of its cone.
pub fn least()
    ensures { Least }
{}

/// After any run under rules whose steps add at most one to each object, and put no count but 0, no
/// count is farther from 0 than there are entries.
pub fn small_counts()
    ensures { SmallCounts }
{}
