//! Laws of reading the block of a function, over the definitions alone.

ghost use Rattle.om_parser.specs.Laws.{BlocksAreLocal, BlocksAreReadAgain, BlocksAreSound, BlocksStopSo, UncheckedHaveForms};

use om_parser_parts::laws::{
    parts_are_local, parts_are_read_again, parts_are_sound, parts_stop_so,
};

/// A block that is read is well-formed, keeps the limits, and has the tokens that were read.
pub fn blocks_are_sound()
    ensures { BlocksAreSound }
{
    parts_are_sound();
}

/// A block that is well-formed is read again from its tokens, or it does not keep the limits. And
/// statements of which no `atomic` is checked have their forms.
pub fn blocks_are_read_again()
    ensures read_again { BlocksAreReadAgain }
    ensures unchecked { UncheckedHaveForms }
{
    parts_are_read_again();
}

/// Where a block is refused by another code than S3, a limit is passed there in a block that
/// begins with these tokens, a directive line in it is wrong, or an `atomic` has none of its forms.
pub fn blocks_stop_so()
    ensures { BlocksStopSo }
{
    parts_are_sound();
    parts_stop_so();
}

/// Where a block is refused by S3, no token behind that place changes it.
pub fn blocks_are_local()
    ensures { BlocksAreLocal }
{
    parts_are_sound();
    parts_are_local();
}
