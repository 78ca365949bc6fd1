//! Codes as answers write them, in words.

ghost use Rattle.std.specs.Prelude.{◌≡◌, IfSome};
ghost use Rattle.om_state.specs.Values.{blocked_number};
ghost use Rattle.om_code.specs.Faults.{fault_number};
ghost use Rattle.om_lexer.specs.Faults.{number_of};
ghost use Rattle.lab_help.specs.Words.{IsOneLine};

use crate::code::{blocked_words, fault_words, refusal_words};
use om_code::frame::Fault;
use om_lexer::FaultCode;
use om_state::Blocked;

// Why a step is blocked, by the number of its code. Of B2 and B4 the worker is not known from it.
fn blocked_of(number: u8) -> Option<Blocked>
    ensures { IfSome result (λ why. blocked_number why ≡ number) }
{
    Some(match number {
        1 => Blocked::Barrier,
        2 => Blocked::Critical(0),
        3 => Blocked::Children,
        4 => Blocked::Busy(0),
        5 => Blocked::Idle,
        6 => Blocked::Task,
        7 => Blocked::Place,
        8 => Blocked::Group,
        _ => return None,
    })
}

// The fault of a program, by the number of its code.
fn fault_of(number: u8) -> Option<Fault>
    ensures { IfSome result (λ fault. fault_number fault ≡ number) }
{
    Some(match number {
        1 => Fault::Overflow,
        2 => Fault::ZeroDivisor,
        3 => Fault::Index,
        4 => Fault::Unset,
        5 => Fault::Dead,
        6 => Fault::NoValue,
        7 => Fault::Frames,
        8 => Fault::Size,
        9 => Fault::Nesting,
        10 => Fault::Name,
        _ => return None,
    })
}

// Why a source is refused, by the number of its code.
fn refusal_of(number: u8) -> Option<FaultCode>
    ensures { IfSome result (λ code. number_of code ≡ number) }
{
    Some(match number {
        0 => FaultCode::Memory,
        1 => FaultCode::SourceTooLong,
        2 => FaultCode::BadToken,
        3 => FaultCode::Syntax,
        4 => FaultCode::BadHashLine,
        5 => FaultCode::UnknownDirective,
        6 => FaultCode::BadClause,
        7 => FaultCode::Undeclared,
        8 => FaultCode::Redeclared,
        9 => FaultCode::Misuse,
        10 => FaultCode::ConstantTooLarge,
        11 => FaultCode::TooMany,
        12 => FaultCode::LoopForm,
        13 => FaultCode::Unlisted,
        14 => FaultCode::LeavesConstruct,
        15 => FaultCode::NoMain,
        16 => FaultCode::TooDeep,
        _ => return None,
    })
}

// The words of the code of this family and number.
fn numbered_words(family: u8, number: u8) -> Option<&'static str>
    ensures { IfSome result (λ words. IsOneLine words.now) }
{
    Some(match family {
        b'S' => refusal_words(refusal_of(number)?),
        b'B' => blocked_words(blocked_of(number)?),
        b'F' => fault_words(fault_of(number)?),
        _ => return None,
    })
}

/// The words of a code of the families S, B and F as answers write it, as `B3`; `None` where it is none.
pub fn code_words(code: &[u8]) -> Option<&'static str>
    ensures { IfSome result (λ words. IsOneLine words.now) }
{
    let (family, number) = match code {
        [family, one @ b'0'..=b'9'] => (*family, *one - b'0'),
        [family, ten @ b'1'..=b'9', one @ b'0'..=b'9'] => {
            (*family, (*ten - b'0') * 10 + (*one - b'0'))
        }
        _ => return None,
    };
    numbered_words(family, number)
}
