//! Why a source is refused, and where.

ghost use Rattle.std.specs.Prelude.{◌≡◌, ◌<◌, ◌^◌};
ghost use Rattle.om_lexer.specs.Faults.{number_of, no_memory};

use std::alloc::{AllocError, AllocFailed};
use thiserror::Error;

/// The reason of a refusal. Its number is the one that users see behind an `S`.
#[derive(Clone, Copy, Debug, Drop, PartialEq, Eq)]
pub enum FaultCode {
    /// S0: no memory.
    Memory,
    /// S1: a source of more than 1,048,576 bytes, and no fault of the lexer below that byte.
    SourceTooLong,
    /// S2: no token begins with these bytes.
    BadToken,
    /// S3: no program goes on with this token.
    Syntax,
    /// S4: a `#` line that is not accepted, or that defines a name as another number.
    BadHashLine,
    /// S5: a word that is no directive, or no clause, where one must stand.
    UnknownDirective,
    /// S6: a clause that is wrong, repeated or not allowed there, or an `atomic` whose statement has none
    /// of its forms.
    BadClause,
    /// S7: a name that is not declared, or a function that is never defined.
    Undeclared,
    /// S8: a name that is declared twice.
    Redeclared,
    /// S9: a name that is used as the wrong kind of thing, a value where none is allowed, or a `main` or an
    /// array of a wrong form.
    Misuse,
    /// S10: a constant above 2147483647.
    ConstantTooLarge,
    /// S11: too many of something.
    TooMany,
    /// S12: a loop that `for` or `parallel for` does not take.
    LoopForm,
    /// S13: a variable that `default(none)` wants listed.
    Unlisted,
    /// S14: a jump outside of a loop or out of a construct, or worksharing or a barrier where none may stand.
    LeavesConstruct,
    /// S15: no `main`.
    NoMain,
    /// S16: too deep, or an expression that is too long.
    TooDeep,
}

impl FaultCode {
    /// The number behind the `S`, 0 to 16.
    pub fn number(self) -> u8
        ensures { result ≡ number_of self }
    {
        self as u8
    }
}

/// A refusal: its reason, and the byte of the source where it stands.
///
/// The place is below the source's length, or the length itself at its end.
/// Out of memory stands at byte 0.
#[derive(Clone, Copy, Debug, Drop, Error)]
#[error("S{} at byte {at}", .code.number())]
pub struct SourceFault {
    pub code: FaultCode,
    pub at: u32,
}

/// What a call answers that reads a source. Its error is the refusal of the source, or out of memory.
pub type SourceResult<T> = Result<T, SourceFault>;

impl From<AllocError> for SourceFault {
    ghost from_gives = { λ _ fault. fault ≡ no_memory };

    fn from(_error: AllocError) -> SourceFault {
        SourceFault {
            code: FaultCode::Memory,
            at: 0,
        }
    }
}

impl<T: Drop> From<AllocFailed<T>> for SourceFault {
    ghost from_gives = { λ _ fault. fault ≡ no_memory };

    fn from(_error: AllocFailed<T>) -> SourceFault {
        SourceFault {
            code: FaultCode::Memory,
            at: 0,
        }
    }
}

/// S2 at a byte.
pub(crate) fn bad_token(at: usize) -> SourceFault
    requires { at < 2 ^ 32 }
    ensures code { result.code ≡ FaultCode.BadToken }
    ensures at { result.at ≡ at }
{
    SourceFault {
        code: FaultCode::BadToken,
        at: at as u32,
    }
}

/// S4 at a byte.
pub(crate) fn bad_hash_line(at: usize) -> SourceFault
    requires { at < 2 ^ 32 }
    ensures code { result.code ≡ FaultCode.BadHashLine }
    ensures at { result.at ≡ at }
{
    SourceFault {
        code: FaultCode::BadHashLine,
        at: at as u32,
    }
}
