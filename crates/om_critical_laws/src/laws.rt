//! The law of the runs of lowered code.

ghost use Rattle.om_critical_laws.specs.NamedCriticals.{NamesExclude};

use om_lower_laws::laws::locks_differ;
use om_team_laws::laws::criticals_exclude;

/// In each state of a run of lowered code at most one worker is inside of the critical regions of a name (OpenMP API
/// 5.2, section 15.2). The regions without a name have one name. A worker that met a fault inside, or runs another task
/// there, is inside.
pub fn names_exclude()
    ensures { NamesExclude }
{
    criticals_exclude();
    locks_differ();
}
