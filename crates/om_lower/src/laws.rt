//! Laws of the numbers of lists, and of the limits on bodies.

ghost use Rattle.om_lower.specs.Laws.{OneTooMany, WithinIsNotTooMany};
ghost use Rattle.om_lower.specs.Once.{PicksOfFunctions};

use om_lower_rules::laws::one_body_code;

/// Each number below the one behind all functions is that of a list of one body, and only once.
pub fn each_once()
    ensures { PicksOfFunctions }
{}

/// No tree both keeps the limits on bodies and passes one. At most one function is the first that passes
/// one.
pub fn one_limit()
    ensures within_is_not_too_many { WithinIsNotTooMany }
    ensures one_too_many { OneTooMany }
{
    one_body_code();
}
