//! Laws of the breaches that a source has.

ghost use Rattle.om_scope_laws.specs.BreachLaws.{FirstBreachIsLeast, FunctionNamesRise};

use om_lexer::tokens_in_order;

/// Of the rules that a source breaks, the first one in the list stands at the lowest place, and of those
/// at this place it has the lowest number. So that is the one which is answered.
pub fn first_breach_is_least()
    ensures { FirstBreachIsLeast }
{
    tokens_in_order();
}

/// In the resolution of a source the names of functions stand in the order of its functions. So the first
/// function that passes a limit of code stands lowest of all that pass one.
pub fn function_names_rise()
    ensures { FunctionNamesRise }
{
    tokens_in_order();
}
