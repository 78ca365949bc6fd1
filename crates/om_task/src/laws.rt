//! Laws of the rules of every program.

ghost use Rattle.om_task.specs.Laws.{LowCounters, CalmRules, StartsAtSchedulingPoints, BornBelow};
ghost use Rattle.om_task.specs.Shapes.{ShapedRules};

/// A state that n steps lead to has no counter above n: so fewer than 2^63 steps leave room in each
/// for a plan.
pub fn low_counters()
    ensures { LowCounters }
{}

/// Every count is 0 at the start; a step puts no count, adds at most one, and adds but once to each
/// object that it touches.
pub fn calm_rules()
    ensures { CalmRules }
{}

/// Where a step writes a worker's control, it puts a control there: its own worker's at each step,
/// and at FORK those of the other members too. It does nothing else there. And at a variable's cell
/// it puts nothing but a cell.
pub fn shaped_rules()
    ensures { ShapedRules }
{}

/// A worker starts a task at a scheduling point alone, which `plan::is_at_scheduling_point` tells:
/// elsewhere no start is a step.
pub fn starts_at_scheduling_points()
    ensures { StartsAtSchedulingPoints }
{}

/// What is born of a task, as a task that it makes, has the task's name above its own. So a task's end
/// counts for the task that made it.
pub fn born_below()
    ensures { BornBelow }
{}
