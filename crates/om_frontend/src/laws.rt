//! What is true of every source.

ghost use Rattle.om_frontend.specs.Laws.{OneVerdict};

use om_lexer::one_reading;
use om_lower::laws::one_limit;
use om_lower_rules::laws::one_code;
use om_parser::{accepted_units, one_tree};

/// A source has at most one verdict: at most one program, at most one refusal, and not both.
///
/// So calls that answer for it by its verdict agree. One that is out of memory says nothing of it.
pub fn one_verdict()
    ensures { OneVerdict }
{
    one_reading();
    one_tree();
    accepted_units();
    one_code();
    one_limit();
}
