//! Which of two refusals is answered: that of a part, or that of a further rule.

ghost use Rattle.std.specs.Prelude.{◌≡◌, IfOk, Ok};
ghost use Rattle.om_scope_rules.specs.Faults.{answered_among, goes_first};
ghost use Rattle.om_scope_rules.specs.FirstBreach.{IsFaultOfLoop, RefusesAmong};

use om_lexer::{FaultCode, SourceFault, SourceResult};
use om_scope_tree::ResolvedExpression;

// Whether a refusal is answered before another one: it stands before it, or at the same place and
// has the lower number.
fn goes_first(one: SourceFault, other: SourceFault) -> bool
    ensures { result ≡ goes_first one other }
{
    one.at < other.at || (one.at == other.at && one.code.number() <= other.code.number())
}

// What is answered of a part where a further rule of it is broken: that, or the part's own fault,
// if it has one that goes before.
fn fault_among(fault: Option<SourceFault>, further: SourceFault) -> SourceFault
    ensures { result ≡ answered_among fault further }
{
    match fault {
        None => further,
        Some(fault) => {
            if goes_first(fault, further) {
                fault
            } else {
                further
            }
        }
    }
}

/// What is answered of a part whose check answered `checked`, where a further rule of it is broken
/// or not.
pub fn refuse_among(
    checked: SourceResult<ResolvedExpression>,
    broken: bool,
    code: FaultCode,
    at: u32,
) -> SourceResult<ResolvedExpression>
    ensures checked { RefusesAmong checked broken code at result }
    ensures kept { IfOk result (λ found. checked ≡ Ok found) }
{
    if !broken {
        return checked;
    }
    Err(fault_among(checked.err(), SourceFault { code, at }))
}

/// What is answered of a statement whose check answered `checked`, where a canonical loop had to stand
/// (OpenMP API 5.2, section 4.4.1): S12 at its first byte, or a refusal that goes before that.
pub fn loop_fault<T: Drop>(checked: SourceResult<T>, at: u32) -> SourceFault
    ensures { IsFaultOfLoop checked at result }
{
    let form = SourceFault {
        code: FaultCode::LoopForm,
        at,
    };
    fault_among(checked.err(), form)
}
