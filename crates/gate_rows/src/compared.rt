//! Whether what is asked about a step is what the step then does.

use crate::asked::{Asked, Named, Said};
use crate::words::{letter, push_accesses};
use om_foot::Access;
use om_seq::{AllocResult, Seq};
use om_undo::StepReply;

// Whether two accesses are the same.
fn is_same(one: &Access, other: &Access) -> bool {
    one.object == other.object && letter(one.mode) == letter(other.mode)
}

// Whether two lists of accesses are the same.
fn are_same(some: &[Access], others: &[Access]) -> bool {
    for (at, one) in some.iter().enumerate() {
        let Some(other) = others.get(at) else {
            return false;
        };
        if !is_same(one, other) {
            return false;
        }
    }
    some.len() == others.len()
}

// Whether a step with this reply is what was said.
fn is_reply(said: Said, reply: StepReply) -> bool {
    match (said, reply) {
        (Said::Goes, StepReply::Done { fault, .. }) => fault.is_none(),
        (Said::Faults(met), StepReply::Done { fault, .. }) => fault == Some(met),
        (Said::Blocked(why), StepReply::Blocked(other)) => why == other,
        (Said::Lacks, StepReply::Ended) => true,
        _ => false,
    }
}

// What is told of the footprint of an entry, where there is one.
fn of_footprint(named: &[Access], touched: &Option<Seq<Access>>) -> &'static [u8] {
    match touched {
        None => b": no entry",
        Some(footprint) => {
            if are_same(named, footprint.as_slice()) {
                b": footprint same"
            } else {
                b": footprint WRONG"
            }
        }
    }
}

// What is told of the reply to a step.
fn of_reply(said: Said, reply: StepReply) -> &'static [u8] {
    if is_reply(said, reply) {
        b", reply same"
    } else {
        b", reply WRONG"
    }
}

// What is told of the answers of om_team, which are none where the row is one of tasks.
fn of_team(named: &Named, said: Option<Said>, reply: StepReply) -> &'static [u8] {
    let Some(names) = &named.of_team else {
        return if said.is_none() {
            b"; a row of tasks\n"
        } else {
            b"; om_team WRONG\n"
        };
    };
    match said {
        Some(said) if is_reply(said, reply) && are_same(names.as_slice(), named.all.as_slice()) => {
            b"; om_team the same\n"
        }
        _ => b"; om_team WRONG\n",
    }
}

/// Appends what was named, and whether a step with this reply, whose entry touches this, is what was
/// asked about it.
pub(crate) fn push_compared(
    text: &mut Vec<u8>,
    asked: &Asked,
    touched: &Option<Seq<Access>>,
    reply: StepReply,
) -> AllocResult<()> {
    let named = asked.named.all.as_slice();
    push_accesses(text, named)?;
    text.extend_from_slice(of_footprint(named, touched))?;
    text.extend_from_slice(of_reply(asked.said.all, reply))?;
    text.extend_from_slice(of_team(&asked.named, asked.said.of_team, reply))
}
