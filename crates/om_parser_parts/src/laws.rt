//! Laws of reading the parts of statements, over the definitions alone.

ghost use Rattle.om_parser_parts.specs.Laws.{GlobalsAreReadAgain, GlobalsAreSound, GlobalsStopAtSyntax, PartsAreReadAgain, PartsAreSound, PartsStopSo};
ghost use Rattle.om_parser_parts.specs.Local.{GlobalsAreLocal, PartsAreLocal};

use om_pragma::{clauses_stand, first_value, one_answer, one_expression};

/// A part that is read is well-formed, keeps the limits, and has the tokens that were read.
pub fn parts_are_sound()
    ensures { PartsAreSound }
{
    one_answer();
    one_expression();
}

/// A part that is well-formed is read again from its tokens, or it does not keep the limits.
pub fn parts_are_read_again()
    ensures { PartsAreReadAgain }
{
    one_answer();
    one_expression();
}

/// Where a part is refused by another code than S3, a limit is passed there in a part that begins
/// with these tokens, or a directive line is wrong.
pub fn parts_stop_so()
    ensures { PartsStopSo }
{
    one_answer();
    first_value();
    clauses_stand();
}

/// The same of declarations at file scope, which are refused by S3 alone.
pub fn globals()
    ensures sound { GlobalsAreSound }
    ensures read_again { GlobalsAreReadAgain }
    ensures stop_at_syntax { GlobalsStopAtSyntax }
{}

/// Where a part is refused by S3, no token behind that place changes it; nor does any token behind
/// the next one change what is read.
pub fn parts_are_local()
    ensures parts { PartsAreLocal }
    ensures globals { GlobalsAreLocal }
{
    one_answer();
    one_expression();
    first_value();
    clauses_stand();
}
